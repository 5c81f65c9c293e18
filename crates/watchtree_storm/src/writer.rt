//! What the writers of a storm do.

ghost use Rattle.std.specs.Prelude.{◌≡◌, ℕ, IfOk, IsTrue, OnSome};
ghost use Rattle.std.specs.Bool.{OnFalse, OnTrue};
ghost use Rattle.tree_core.specs.Calls.{is_plain};
ghost use Rattle.tree_core.specs.declared.call.Call.TheVariants.{Close};
ghost use Rattle.watchtree_storm.specs.Storm.{IsCallAt, IsClosing, IsHeldBack, IsLetThrough, IsTurn, IsWriting};
ghost use Rattle.watchtree_storm.specs.Storm.{KeepsOrNot, KeepsTurn, first_part, part_of, pump_all, second_part};

use event_sinks::Gate;
use record_codec::Bytes;
use shared_tree::{Seat, Tree};
use std::alloc::Global;
use std::sync::Wait;
use std::sync::ledger::Ledger;
use tree_core::Call;
use tree_ops::FileCall;
use tree_paths::{Path, Refusal};

/// The size in bytes of a buffer for all that waits.
pub(crate) const ALL: u32 = 1_048_576;

/// How often a close is tried that wants memory.
const TRIES: u32 = 16;

/// A writer: its file and the name that it moves it to, the instance that it pumps, and its number at the gate.
#[derive(Clone, Copy, Debug, Drop)]
pub struct Writer {
    /// Its number at the gate.
    pub who: u32,
    /// The instance that it pumps.
    pub instance: u32,
    /// The path of its file.
    pub file: &'static str,
    /// The path that it moves its file to.
    pub moved: &'static str,
}

impl Writer {
    /// The first writer of a storm.
    pub fn first() -> Writer
        ensures { part_of result ≡ first_part }
    {
        Writer {
            who: 3,
            instance: 1,
            file: "/s/a1",
            moved: "/s/b1",
        }
    }

    /// The second writer of a storm.
    pub fn second() -> Writer
        ensures { part_of result ≡ second_part }
    {
        Writer {
            who: 4,
            instance: 2,
            file: "/s/a2",
            moved: "/s/b2",
        }
    }

    /// A call of the writer, by its number from 0 on: it makes its file, writes a byte, moves the file, and takes it
    /// away, in turn.
    ///
    /// # Errors
    /// `ENOMEM`, where there is no memory for it.
    pub fn call(&self, alloc: Global, number: u32) -> Result<Call, Refusal>
        ensures call { IfOk result (λ call. IsCallAt (part_of self.now) number call) }
        ensures plain { IfOk result (λ call. IsTrue (is_plain call)) }
    {
        let file = Path::parse(alloc, self.file.as_bytes())?;
        let moved = Path::parse(alloc, self.moved.as_bytes())?;
        Ok(Call::File(match number % 4 {
            0 => FileCall::Create {
                path: file,
                mode: 0o644,
            },
            1 => FileCall::Write {
                path: file,
                offset: 0,
                bytes: Bytes::from_vec(vec![in alloc; b'x'; 1]?),
            },
            2 => FileCall::Rename {
                old: file,
                new: moved,
            },
            _ => FileCall::Unlink { path: moved },
        }))
    }

    /// A turn: the call of this number, and a pump of the writer's instance. What wants memory is passed over.
    fn turn<L: Ledger>(
        &self,
        rt: &impl Wait,
        alloc: Global,
        tree: &Tree<L>,
        seat: &mut Seat<L>,
        number: u32,
    )
        ensures { IsTurn (part_of self.now) number seat.old seat.new }
    {
        self.make_call(rt, alloc, tree, seat, number);
        pump(rt, tree, seat, self.instance);
    }

    /// The call of this number. What wants memory is passed over.
    fn make_call<L: Ledger>(
        &self,
        rt: &impl Wait,
        alloc: Global,
        tree: &Tree<L>,
        seat: &mut Seat<L>,
        number: u32,
    )
        ensures { KeepsTurn (part_of self.now) number seat.old seat.new }
    {
        let Ok(call) = self.call(alloc, number) else {
            return;
        };
        let _ = make(rt, tree, seat, call);
    }

    /// Asks the gate at turn 0, 1 and so on until it is let through, and then makes its calls, with a pump of its
    /// instance after each. A writer that is let through at none of the gate's turns makes none. A call or a pump that
    /// runs out of memory is passed over.
    pub fn write<L: Ledger, G: Gate>(
        &self,
        rt: &impl Wait,
        alloc: Global,
        tree: &Tree<L>,
        seat: Seat<L>,
        gate: &G,
        calls: u32,
    ) -> Seat<L>
        ensures turns { IsWriting (G.may_pass gate.now) (G.most_turns gate.now) (part_of self.now) calls seat result }
    {
        let mut seat = seat;
        if !is_let_through(gate, self.who) {
            return seat;
        }
        for number in 0..calls {
            self.turn(rt, alloc, tree, &mut seat, number);
        }
        seat
    }
}

/// Asks the gate at each turn until it lets the worker through. Whether it did.
fn is_let_through<G: Gate>(gate: &G, who: u32) -> bool
    ensures yes { OnTrue result ((turn : ℕ) × IsLetThrough (G.may_pass gate.now who) (G.most_turns gate.now) turn) }
    ensures no { OnFalse result (IsHeldBack (G.may_pass gate.now who) (G.most_turns gate.now)) }
{
    for turn in 0..gate.turns() {
        if gate.pass(who, turn) {
            return true;
        }
    }
    false
}

/// Pumps both instances one last time, and closes them. What wants memory is passed over, but a close is tried up to 16
/// times.
pub fn close_both<L: Ledger>(rt: &impl Wait, tree: &Tree<L>, seat: Seat<L>) -> Seat<L>
    ensures { IsClosing seat result }
{
    let mut seat = seat;
    pump(rt, tree, &mut seat, 1);
    pump(rt, tree, &mut seat, 2);
    close(rt, tree, &mut seat, 1);
    close(rt, tree, &mut seat, 2);
    seat
}

/// Makes a call of a seat, and answers why it was not carried out.
fn make<L: Ledger>(
    rt: &impl Wait,
    tree: &Tree<L>,
    seat: &mut Seat<L>,
    call: Call,
) -> Option<Refusal>
    requires plain { IsTrue (is_plain call) }
    ensures kept { KeepsOrNot call seat.old seat.new }
    ensures refused { OnSome result (seat.new ≡ seat.old) }
{
    match tree.lock(rt).call(seat, call) {
        Ok(_) => None,
        Err(refusal) => Some(refusal),
    }
}

/// Pumps an instance, if it can be.
fn pump<L: Ledger>(rt: &impl Wait, tree: &Tree<L>, seat: &mut Seat<L>, instance: u32)
    ensures { KeepsOrNot (pump_all instance) seat.old seat.new }
{
    match tree.lock(rt).pump(seat, instance, ALL) {
        Ok(_) => {}
        Err(_) => {}
    }
}

/// Closes an instance. A close that wants memory is tried again.
fn close<L: Ledger>(rt: &impl Wait, tree: &Tree<L>, seat: &mut Seat<L>, instance: u32)
    ensures { KeepsOrNot (Close instance) seat.old seat.new }
{
    for _ in 0..TRIES {
        match make(rt, tree, seat, Call::Close { instance }) {
            Some(Refusal::Enomem) => {}
            _ => return,
        }
    }
}
