//! A journal that has ended.

ghost use Rattle.std.specs.Prelude.{◌≡◌, ℕ};
ghost use Rattle.tree_core.specs.Journal.{IsLawfulFrom, last_place};
ghost use Rattle.tree_core.specs.Snapshots.{IsSnapshotOf};
ghost use Rattle.shared_tree.specs.Calls.{IsSent};
ghost use Rattle.shared_tree.specs.Handed.{AreOfEvents, handed_since};

use crate::pipes::Pipes;
use std::marker::Model;
use tree_core::{Entry, Snapshot, State};

/// A journal that has ended, with the ends of all pipes that handed its records over.
///
/// Contracts see the journal, the number of its entries, the numbers of its pipes, and what each pipe was sent.
pub struct Book {
    pub(crate) core: State,
    pub(crate) pipes: Pipes,
    pub(crate) entries: u64,
}

impl Drop for Book {
    fn drop(self) {
        let Book {
            core: _,
            pipes: _,
            entries: _,
        } = self;
    }
}

impl Model for Book {
    ghost use Rattle.shared_tree.specs.Calls.{BookContents};
    ghost use Rattle.shared_tree.specs.Codes.{book_contents_code};
    ghost use Rattle.shared_tree.specs.Book.{IsBook};
    ghost use Rattle.shared_tree.specs.Held.{sents};

    ghost Value = { BookContents };

    ghost coded = { book_contents_code };

    ghost view = { λ b.
        record { state = b.core; entries = b.entries; pipes = b.pipes.numbers; sent = sents b.pipes.ends } };

    ghost invariant = { λ b. IsBook b.core b.entries b.pipes.numbers (sents b.pipes.ends) };
}

impl Book {
    /// What holds of every book. It does nothing.
    ///
    /// The journal is lawful. Each pipe was sent what the whole journal hands to its instance, and what was handed
    /// since the last cut are events.
    pub fn law(&self)
        ensures lawful { IsLawfulFrom self.now.state.start self.now.state.entries }
        ensures counted { self.now.entries ≡ last_place self.now.state }
        ensures sent { IsSent self.now.state self.now.pipes self.now.sent }
        ensures events { (id : ℕ) → AreOfEvents (handed_since self.now.state id) }
    {
        let _ = &self.core;
    }

    /// The entries since the last cut, in order.
    pub fn journal(&self) -> &[Entry]
        ensures { result.now ≡ self.now.state.entries }
    {
        self.core.journal()
    }

    /// What the last cut kept of the tree, and the sequence number of the last entry before it.
    pub fn snapshot(&self) -> &Snapshot
        ensures { IsSnapshotOf self.now.state.start self.now.state.place result.now }
    {
        self.core.snapshot()
    }

    /// How many entries the whole journal has, which is the sequence number of the last one.
    pub fn entries(&self) -> u64
        ensures { result ≡ self.now.entries }
    {
        self.entries
    }

    /// The numbers of the instances that were made with a pipe, rising.
    pub fn pipes(&self) -> &[u32]
        ensures { result.now ≡ self.now.pipes }
    {
        self.pipes.numbers()
    }
}
