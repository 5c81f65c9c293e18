//! The law of all states.

ghost use Rattle.std.specs.Prelude.{ℕ};
ghost use Rattle.instance_table.specs.Instances.{instance_of, waiting_of};
ghost use Rattle.tree_core.specs.Histories.{raised_in};
ghost use Rattle.tree_core.specs.Journal.{IsLawfulFrom};
ghost use Rattle.tree_core.specs.Law.{AtEach, HasCookiesInTurn, IsTold, RefusedAddsNothing};
ghost use Rattle.tree_core.specs.QueueLaws.{RecordsAreEvents};
ghost use Rattle.tree_core.specs.Sound.{IsSoundTree};
ghost use Rattle.tree_core.specs.TurnLaws.{EndsOnce};

use super::State;
use crate::queue_laws::{bytes_are_of_records, events_are_accounted_for, reads_are_in_order};
use crate::turn_laws::{cookies_are_in_turn, replies_tell, watches_end_once};

impl State {
    /// A law: what holds of each state, whether it is new, forked or cut, and after any call. Each reply of the journal
    /// is the one that the tree gives after the calls before. For each open instance, what was read of it since the
    /// last cut, followed by what waits, is what waited at the cut and the events that the journal raises for it, in
    /// order and each once, except those that are merged into an equal unread neighbour and those that are lost after a
    /// mark. For a closed one, what was read is a prefix of these; the rest was given up. All of them are events, so
    /// that the bytes that were read are the records of these alone. No two moves share a cookie. Nothing of a watch
    /// follows its `IN_IGNORED`. A refused call adds nothing: what joined, what was read and the tree are as before it.
    pub fn law(&self)
        ensures lawful { IsLawfulFrom self.now.start self.now.entries }
        ensures sound { IsSoundTree self.now.start }
        ensures told { (id : ℕ) → IsTold self.now id }
        ensures records { RecordsAreEvents self.now }
        ensures cookies { HasCookiesInTurn self.now }
        ensures ends { (id : ℕ)
            → EndsOnce (waiting_of (instance_of self.now.start.instances id))
            (raised_in self.now.start self.now.entries id) }
        ensures refused { AtEach RefusedAddsNothing self.now.start self.now.entries }
    {
        reads_are_in_order();
        bytes_are_of_records();
        events_are_accounted_for();
        cookies_are_in_turn();
        watches_end_once();
        replies_tell();
        let _ = self.journal();
        let _ = self.snapshot();
    }
}
