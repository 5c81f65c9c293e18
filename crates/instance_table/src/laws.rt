//! Laws of the definitions. Each is a function that does nothing, and its contract is the law.

ghost use Rattle.std.specs.Prelude.{◌≡◌, ℕ, Bool, List, []};
ghost use Rattle.event_rules.specs.declared.notice.Notice.{Notice};
ghost use Rattle.event_rules.specs.Raised.{heard};
ghost use Rattle.instance_table.specs.Instances.{Instances, NobodyWatches, PassesWatched, all_changed, told};

use event_rules::{unwatched_files_need_no_notices, unwatched_files_raise_nothing};

/// A law: where no instance watches a file, notices change none.
pub fn unwatched_instances_stay()
    ensures { (m : Instances) (ns : List Notice) → NobodyWatches m → all_changed m (told ns) ≡ m }
{
    unwatched_files_raise_nothing();
}

/// A law: the notices of the files that pass change the instances as all do, if each watched file passes; and none
/// changes nothing.
pub fn unwatched_files_need_no_telling()
    ensures watched { (m : Instances) (may_watch : ℕ → Bool) (ns : List Notice) → PassesWatched may_watch m
        → all_changed m (told (heard may_watch ns)) ≡ all_changed m (told ns) }
    ensures none { (m : Instances) → all_changed m (told []) ≡ m }
{
    unwatched_files_need_no_notices();
}
