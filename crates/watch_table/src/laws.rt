//! Laws of the definitions, over all watches.
ghost use Rattle.std.specs.Prelude.{◌≡◌, ◌↔◌, ℕ, ℤ, Bool, Some, None};
ghost use Rattle.tree_paths.specs.declared.limits.Limits.{Limits};
ghost use Rattle.watch_table.specs.Watching.{HasEnded, IsSound, Watching, added, add_refusal, dropped, no_watches};
ghost use Rattle.watch_table.specs.Watching.{watched_by, removed, wd_of};

/// The watches of an instance are sound, from none on, after each call.
pub fn watches_stay_sound()
    ensures opened { (limits : Limits) → IsSound (no_watches limits) }
    ensures added { (w : Watching) (number mask : ℕ) (is_directory : Bool)
        → IsSound w → add_refusal w number mask is_directory ≡ None → IsSound (added w number mask) }
    ensures removed { (w : Watching) (wd : ℤ) → IsSound w → IsSound (removed w wd) }
    ensures dropped { (w : Watching) (number : ℕ) → IsSound w → IsSound (dropped w number) }
{}

/// The file of a descriptor is the one whose watch has it.
pub fn descriptors_tell_files()
    ensures { (w : Watching) (wd : ℤ) (number : ℕ)
        → IsSound w → (watched_by w wd ≡ Some number) ↔ (wd_of w number ≡ Some wd) }
{}

/// A descriptor whose watch has ended is never given again.
pub fn descriptors_end_for_good()
    ensures removed { (w : Watching) (wd : ℤ) (number : ℕ)
        → IsSound w → watched_by w wd ≡ Some number → HasEnded (removed w wd) wd }
    ensures dropped { (w : Watching) (wd : ℤ) (number : ℕ)
        → IsSound w → wd_of w number ≡ Some wd → HasEnded (dropped w number) wd }

    ensures after_added { (w : Watching) (wd : ℤ) (number mask : ℕ)
        → HasEnded w wd → HasEnded (added w number mask) wd }
    ensures after_removed { (w : Watching) (wd other : ℤ)
        → HasEnded w wd → HasEnded (removed w other) wd }
    ensures after_dropped { (w : Watching) (wd : ℤ) (number : ℕ)
        → HasEnded w wd → HasEnded (dropped w number) wd }
{}
