//! Laws of journals that are cut. Each is a function that does nothing, and its contract is the law.

ghost use Rattle.tree_core.specs.CutLaws.{CutsKeepAnswers, ForksAnswerAlike, PastsMakeWhole, SnapshotsTellAll};

use crate::turn_laws::trees_are_sound;

/// A law: where a lawful journal is cut, the tree at the cut is sound, and the rest is lawful from it, with the replies
/// that it had, and leads where the whole journal leads.
pub fn cuts_keep_answers()
    ensures { CutsKeepAnswers }
{
    trees_are_sound();
}

/// A law: a snapshot determines its tree, limits aside, and its sequence number.
pub fn snapshots_tell_all()
    ensures { SnapshotsTellAll }
{}

/// A law: a state stands for what its whole journal stands for: the entries that were cut off, and those since.
pub fn pasts_make_whole()
    ensures { PastsMakeWhole }
{
    trees_are_sound();
}

/// A law: where a state and its fork have entries of the same calls, these have the same replies, and both then have
/// the same tree and the same last sequence number. A call that is refused for one alone has found its journal full, or
/// was out of memory.
pub fn forks_answer_alike()
    ensures { ForksAnswerAlike }
{}
