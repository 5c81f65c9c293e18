//! Laws of the definitions. Each is a function that does nothing, and its contract is the law.

ghost use Rattle.std.specs.Prelude.{◌≡◌, ◌⊎◌, ◌++◌, ◌∷◌, [], ℕ, ℤ, List, All, Contains, Some, None, IsSome, filter};
ghost use Rattle.std.specs.Prelude.{fold, map, IsTrue, Bool, false};
ghost use Rattle.std.specs.FinMap as finmap;
ghost use Rattle.tree_paths.specs.declared.limits.Limits.{Limits};
ghost use Rattle.inode_table.specs.World.{World, IsWorld};
ghost use Rattle.record_codec.specs.declared.event.Event.{Event};
ghost use Rattle.tree_ops.specs.declared.call.Counts.{Counts};
ghost use Rattle.tree_ops.specs.declared.call.FileCall.{FileCall};
ghost use Rattle.tree_ops.specs.Moves.{cookies_of};
ghost use Rattle.tree_ops.specs.Refused.{refused};
ghost use Rattle.tree_ops.specs.After.{after};
ghost use Rattle.watch_table.specs.declared.watch.Watch.{Watch};
ghost use Rattle.watch_table.specs.Watching.{HasEnded, IsSound, Watching, removed, watch_of};
ghost use Rattle.event_rules.specs.declared.notice.Notice.{Notice};
ghost use Rattle.event_rules.specs.declared.notice.Notice.TheVariants.{Gone};
ghost use Rattle.event_rules.specs.Table.{notices_of};
ghost use Rattle.event_rules.specs.Raised.{events_of, heard, ignored, told_number, watches_after, wds_ended};
ghost use Rattle.event_rules.specs.Laws.{AreTied, HasOneEvent, HasWatch, IsPartOf, Mark, TellsNothing, cookies_from};
ghost use Rattle.event_rules.specs.Laws.{marks_of, marks_told, moves_with, says_ended, watch_without};

use watch_table::{descriptors_end_for_good, descriptors_tell_files, watches_stay_sound};

/// A law: each notice of a call is of one event, so that it raises at most that one, and `IN_IGNORED`.
pub fn notices_tell_one_event()
    ensures { (w : World) (call : FileCall) (cookie : ℕ) → All HasOneEvent (notices_of w call cookie) }
{}

/// A law: the i-th move of a call has the i-th of the cookies that it uses. The notices of the call are some of the
/// `IN_MOVED_FROM` and `IN_MOVED_TO` of these moves, in order, each with the cookie of its move, and all others have
/// cookie 0. The events that notices raise for an instance are tied as the notices are.
pub fn cookies_tie_moves()
    ensures told { (w : World) (call : FileCall) (cookie : ℕ)
        → AreTied (moves_with (cookies_from cookie (cookies_of w call))) (marks_told (notices_of w call cookie)) }
    ensures raised { (w : Watching) (ns : List Notice) (moves : List Mark) → AreTied moves (marks_told ns)
        → AreTied moves (marks_of (events_of w ns)) }
{}

/// A law: an instance that watches none of the files gets no events, and its watches stay.
pub fn unwatched_files_raise_nothing()
    ensures events { (w : Watching) (ns : List Notice) → All (λ n. watch_of w (told_number n) ≡ None) ns
        → events_of w ns ≡ [] }
    ensures ended { (w : Watching) (ns : List Notice) → All (λ n. watch_of w (told_number n) ≡ None) ns
        → wds_ended w ns ≡ [] }
    ensures watches { (w : Watching) (ns : List Notice) → All (λ n. watch_of w (told_number n) ≡ None) ns
        → watches_after w ns ≡ w }
{}

/// A law: notices of files that an instance does not watch change nothing among others.
pub fn unwatched_files_need_no_notices()
    ensures events { (w : Watching) (watches : ℕ → Bool) (ns : List Notice)
        → ((number : ℕ) → watches number ≡ false → watch_of w number ≡ None)
        → events_of w (heard watches ns) ≡ events_of w ns }
    ensures watches { (w : Watching) (watches : ℕ → Bool) (ns : List Notice)
        → ((number : ℕ) → watches number ≡ false → watch_of w number ≡ None)
        → watches_after w (heard watches ns) ≡ watches_after w ns }
{}

/// A law: each event has the descriptor of a watch that was there.
pub fn events_are_of_watches()
    ensures { (w : Watching) (ns : List Notice) → All (λ e. HasWatch w e.wd) (events_of w ns) }
{}

/// A law: after `IN_IGNORED` of a watch nothing of it follows, and it is not left.
pub fn nothing_follows_ignored()
    ensures said { (w : Watching) (ns : List Notice)
        → filter says_ended (events_of w ns) ≡ map ignored (wds_ended w ns) }
    ensures here { (w : Watching) (ns : List Notice) (before after : List Event) (e : Event) → IsSound w
        → events_of w ns ≡ before ++ e ∷ after → IsTrue (says_ended e) → TellsNothing e.wd after }
    ensures left { (w : Watching) (ns : List Notice) → IsSound w
        → All (HasEnded (watches_after w ns)) (wds_ended w ns) }
    ensures later { (w : Watching) (ns : List Notice) (wd : ℤ) → IsSound w → HasEnded w wd
        → TellsNothing wd (events_of w ns) }
    ensures ever { (w : Watching) (ns : List Notice) (wd : ℤ) → HasEnded w wd → HasEnded (watches_after w ns) wd }
{
    descriptors_end_for_good();
    descriptors_tell_files();
    watches_stay_sound();
}

/// A law: a file that an accepted call leaves with no path is notified that it is gone. Then no watch of it is left.
pub fn lost_files_are_gone()
    ensures told { (w : World) (limits : Limits) (counts : Counts) (call : FileCall) (cookie number : ℕ) → IsWorld w
        → refused w limits counts call ≡ None → IsSome (finmap.get w.files number)
        → finmap.get (after w counts call).files number ≡ None
        → Contains (notices_of w call cookie) (Gone number) }
    ensures unwatched { (w : Watching) (ns : List Notice) (number : ℕ) → Contains ns (Gone number)
        → watch_of (watches_after w ns) number ≡ None }
{}

/// A law: the other watches stay as they are.
pub fn other_watches_stay()
    ensures part { (w : Watching) (ns : List Notice) → IsPartOf (watches_after w ns) w }
    ensures rest { (w : Watching) (ns : List Notice) (number : ℕ) (watch : Watch) → watch_of w number ≡ Some watch
        → (watch_of (watches_after w ns) number ≡ Some watch) ⊎ Contains (wds_ended w ns) watch.wd }
    ensures sound { (w : Watching) (ns : List Notice) → IsSound w → IsSound (watches_after w ns) }
{
    watches_stay_sound();
}

/// A law: the watches that descriptors are removed from are those that were there, without the ones of these
/// descriptors.
pub fn removed_watches_are_left_out()
    ensures { (w : Watching) (wds : List ℤ) (number : ℕ) → IsSound w
        → watch_of (fold removed w wds) number ≡ watch_without wds (watch_of w number) }
{
    descriptors_tell_files();
    watches_stay_sound();
}

/// A law: the watches after notices are left where the descriptors of those that ended are removed one after another.
pub fn removals_leave_the_rest()
    ensures { (w : Watching) (ns : List Notice) → IsSound w → fold removed w (wds_ended w ns) ≡ watches_after w ns }
{
    descriptors_tell_files();
    watches_stay_sound();
}
