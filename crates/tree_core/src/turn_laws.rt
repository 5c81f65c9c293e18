//! Laws of numbers, descriptors and cookies, and of the end of watches. Each is a function that does nothing, and its
//! contract is the law. Some need a sound tree or a lawful journal to begin with, which the contract says.

ghost use Rattle.tree_core.specs.declared.call.Call.{Call};
ghost use Rattle.tree_core.specs.Tree.{Tree};
ghost use Rattle.tree_core.specs.TurnLaws.{CookiesAreInTurn, CookiesTieMoves, DescriptorsEndForGood, DescriptorsRunOn};
ghost use Rattle.tree_core.specs.TurnLaws.{IdsAreInTurn, NumbersAreInTurn, RepliesTell, TreesAreSound, WatchesEndOnce};

use event_queue::bounds_are_kept;
use event_rules::{
    cookies_tie_moves, events_are_of_watches, lost_files_are_gone, nothing_follows_ignored,
    other_watches_stay,
};
use tree_ops::{files_get_numbers, worlds_stay_worlds};
use watch_table::{descriptors_end_for_good, descriptors_tell_files, watches_stay_sound};

/// A law: the opening tree is sound, and each call leaves a sound tree sound: the files and the open instances have
/// numbers below the next ones, watches are of files that are there, queues keep their bounds, and of a watch whose
/// `IN_IGNORED` waits nothing is left and nothing waits behind it.
pub fn trees_are_sound()
    ensures { TreesAreSound }
{
    worlds_stay_worlds();
    files_get_numbers();
    lost_files_are_gone();
    watches_stay_sound();
    other_watches_stay();
    events_are_of_watches();
    bounds_are_kept();
    cookies_tie_moves();
    descriptors_end_for_good();
    descriptors_tell_files();
    nothing_follows_ignored();
}

/// A law: numbers of files and of instances are given in turn, so none is given twice. The descriptors of each instance
/// run 1, 2, 3 and so on, but for those that a second call to watch a file answers again.
pub fn numbers_are_in_turn()
    ensures files { NumbersAreInTurn }
    ensures instances { IdsAreInTurn }
    ensures descriptors { DescriptorsRunOn }
{
    trees_are_sound();
    other_watches_stay();
}

/// A law: no two moves share a cookie; the i-th move of a call has the i-th of its cookies. What a call raises for an
/// instance are some of the `IN_MOVED_FROM` and `IN_MOVED_TO` of its moves, in order, each with the cookie of its move;
/// all other events have cookie 0.
pub fn cookies_are_in_turn()
    ensures turn { CookiesAreInTurn }
    ensures tie { CookiesTieMoves }
{
    cookies_tie_moves();
}

/// A law: nothing of a watch follows its `IN_IGNORED`, and its descriptor is never given again.
pub fn watches_end_once()
    ensures ends { WatchesEndOnce }
    ensures descriptors { DescriptorsEndForGood }
{
    descriptors_end_for_good();
    descriptors_tell_files();
    nothing_follows_ignored();
    other_watches_stay();
    watches_stay_sound();
}

/// A law: what the reply to a call says about the tree that gave it. A refused call changes nothing, raises nothing and
/// reads nothing; and no tree replies `ENOMEM`, `JournalFull` or `PipeFull`, so that none of these stands in a lawful
/// journal.
pub fn replies_tell()
    ensures { (t : Tree) (c : Call) → RepliesTell t c }
{}
