//! Who may call, and the replies that each got.

ghost use Rattle.std.specs.Prelude.{◌≡◌, ◌+◌, ◌<◌, ◌≤◌, [], length, IfOk, IfErr, OnOk};
ghost use Rattle.tree_paths.specs.declared.refusal.Refusal.TheVariants.{SeatsSpent};
ghost use Rattle.shared_tree.specs.Seats.{seated, passing};

use std::alloc::Global;
use std::marker::Model;
use std::sync::ledger::{Ledger, Share};
use tree_core::Kept;
use tree_paths::Refusal;

/// Who makes calls of a tree, under a number of its own. It keeps a copy of each call that was journalled for it.
///
/// Contracts see the number and what it keeps. Its share of the ledger is the number of calls that it keeps.
pub struct Seat<L: Ledger> {
    pub(crate) number: u32,
    pub(crate) kept: Vec<Kept>,
    pub(crate) share: Share<L>,
}

impl<L: Ledger> Drop for Seat<L> {
    fn drop(self) {
        let Seat {
            number: _,
            kept: _,
            share: _,
        } = self;
    }
}

impl<L: Ledger> Model for Seat<L> {
    ghost use Rattle.std.specs.Prelude.{◌≡◌, length};
    ghost use Rattle.shared_tree.specs.Seats.{Seated, seated};

    ghost Value = { Seated };

    ghost view = { λ s. seated s.number s.kept.items };

    ghost invariant = { λ s. (s.share.parts ≡ 1) × (s.share.amount ≡ length s.kept.items) };
}

impl<L: Ledger> Seat<L> {
    /// What it kept, and its share of the ledger.
    fn into_log(self) -> (SeatLog, Share<L>)
        ensures log { (result.0.number ≡ self.number) × (result.0.kept ≡ self.kept) }
        ensures share { (result.1.parts ≡ 1) × (result.1.amount ≡ length self.kept) }
    {
        let Seat {
            number,
            kept,
            share,
        } = self;
        let log = SeatLog {
            number,
            kept: KeptCalls::from_vec(kept),
        };
        (log, share)
    }
}

/// Calls that were kept, of which contracts see the list.
pub struct KeptCalls {
    calls: Vec<Kept>,
}

impl Drop for KeptCalls {
    fn drop(self) {
        let KeptCalls { calls: _ } = self;
    }
}

impl Model for KeptCalls {
    ghost use Rattle.std.specs.Prelude.{List};
    ghost use Rattle.tree_core.specs.declared.reply.Kept.{Kept};

    ghost Value = { List Kept };

    ghost view = { λ k. k.calls.items };
}

impl KeptCalls {
    /// The vector's calls. It takes no memory.
    pub fn from_vec(calls: Vec<Kept>) -> KeptCalls
        ensures { result ≡ calls.items }
    {
        Self { calls }
    }

    /// The vector of the calls. It takes no memory.
    pub fn into_vec(self) -> Vec<Kept>
        ensures { result.items ≡ self }
    {
        let KeptCalls { calls } = self;
        calls
    }

    /// The calls, to read.
    pub fn as_slice(&self) -> &[Kept]
        ensures { result.now ≡ self.now }
    {
        &self.calls
    }
}

/// What a seat kept.
#[derive(Drop)]
pub struct SeatLog {
    /// The number of the seat.
    pub number: u32,
    /// The calls that were journalled for it, in the order in which it made them.
    pub kept: KeptCalls,
}

/// Gives out the seats of a tree, and takes them back.
///
/// Contracts see how many parts of the ledger it has, with their amount, and how many seats it has given, of how many.
#[derive(Drop)]
pub struct Pass<L: Ledger> {
    pub(crate) alloc: Global,
    pub(crate) share: Share<L>,
    pub(crate) given: u32,
    pub(crate) seats: u32,
}

impl<L: Ledger> Model for Pass<L> {
    ghost use Rattle.std.specs.Prelude.{◌≡◌, ◌+◌, ◌≤◌};
    ghost use Rattle.shared_tree.specs.Seats.{Passing, passing};

    ghost Value = { Passing };

    ghost view = { λ p. passing p.share.parts p.share.amount p.given p.seats };

    ghost invariant = { λ p. (65537 ≤ p.share.parts + p.given) × (p.given ≤ p.seats) × (p.seats ≤ 65536) };
}

impl<L: Ledger> Pass<L> {
    /// The next seat. Seats have the numbers 1, 2, 3 and so on, up to the limit of the tree. It takes no memory.
    ///
    /// # Errors
    /// `SeatsSpent`, exactly where as many seats were given as the limit says.
    pub fn seat(&mut self) -> Result<Seat<L>, Refusal>
        ensures seat { IfOk result (λ s. s ≡ seated (self.old.given + 1) []) }
        ensures pass { IfOk result (λ s.
            (self.new.parts + 1 ≡ self.old.parts) × (self.new.amount ≡ self.old.amount)
            × (self.new.given ≡ self.old.given + 1) × (self.new.seats ≡ self.old.seats)) }
        ensures left { OnOk result (self.old.given < self.old.seats) }
        ensures err { IfErr result (λ e. (e ≡ SeatsSpent) × (self.old.given ≡ self.old.seats) × (self.new ≡ self.old)) }
    {
        let Pass {
            alloc,
            share,
            given,
            seats,
        } = self;
        if *given >= *seats {
            return Err(Refusal::SeatsSpent);
        }
        *given += 1;
        let share = share.split_off(1, 0);
        Ok(Seat {
            number: *given,
            kept: Vec::new(*alloc),
            share,
        })
    }

    /// Takes a seat back, with its share of the ledger, and gives what it kept. It takes no memory.
    pub fn join(&mut self, seat: Seat<L>) -> SeatLog
        ensures log { (result.number ≡ seat.number) × (result.kept ≡ seat.kept) }
        ensures pass { self.new
            ≡ passing (self.old.parts + 1) (self.old.amount + length seat.kept) self.old.given self.old.seats }
    {
        let (log, share) = seat.into_log();
        self.share.merge(share);
        log
    }
}
