//! Forks: a tree becomes two, each of which goes on alone.
ghost use Rattle.std.specs.Prelude.{◌≡◌, IfOk, IfErr};
ghost use Rattle.tree_core.specs.Journal.{HasPast, cut_off};

use super::State;
use crate::turn_laws::trees_are_sound;
use tree_paths::Refusal;

impl State {
    /// An independent state with the same tree, limits and last sequence number, and an empty journal. The two share
    /// nothing: a call on one leaves the other as it is. Entries of the same later calls have the same replies in both
    /// (the law [`forks_answer_alike`](crate::forks_answer_alike)); a call is refused for one alone only where that
    /// one's journal is full or its memory is out. It takes time and memory in proportion to the tree.
    ///
    /// # Errors
    /// `ENOMEM`, where there is no memory for it.
    pub fn fork(&self) -> Result<State, Refusal>
        ensures ok { IfOk result (λ fork. fork ≡ cut_off self.now) }
        ensures past { IfOk result (λ fork. HasPast fork.start fork.place) }
        ensures err { IfErr result (λ refusal. refusal ≡ Refusal.Enomem) }
    {
        trees_are_sound();
        self.file_system.instances.law();
        let place = self.snapshot.place + self.journal.len() as u64;
        let file_system = self.file_system.copy()?;
        let snapshot = file_system.snapshot(place)?;
        let journal = Vec::new(file_system.alloc);
        Ok(State {
            file_system,
            snapshot,
            journal,
        })
    }
}
