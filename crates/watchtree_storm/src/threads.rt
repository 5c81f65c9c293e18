//! The four threads of a storm.

ghost use Rattle.std.specs.Prelude.{◌≡◌, [], IfSome};
ghost use Rattle.event_sinks.specs.Listeners.{IsSoundListener, state_of_listener};
ghost use Rattle.shared_tree.specs.Seats.{seated};
ghost use Rattle.watchtree_storm.specs.Storm.{HasBegun, HasRun, IsWhole, IsWriting, first_part, part_of, second_part};

use crate::writer::{Writer, close_both};
use event_sinks::{Ended, Gate, Listening, Sink};
use shared_tree::{Seat, Tree};
use std::alloc::Global;
use std::snapshot::Snapshot;
use std::sync::ledger::Ledger;
use std::sync::{OnceLock, Wait};
use std::thread;
use std::thread::{Promise, Threads};

/// Whether the four begin: set once, when each thread was started or one could not be.
type Start = OnceLock<bool>;

/// The promise of a listener's thread: what it gives back is this listener, which has run at this gate.
#[derive(Drop)]
struct Listens<S, G> {
    listener: Snapshot<Listening<S>>,
    gate: Snapshot<G>,
}

impl<S: Sink, G: Gate> Promise<Option<Ended<S>>> for Listens<S, G> {
    ghost kept_by = { λ p r. IfSome r (HasRun S.record_list S.is_open S.page (G.may_pass p.gate.value)
        (G.most_turns p.gate.value) p.listener.value) };
}

/// The promise of a writer's thread: what it gives back is this seat, after this writer wrote at this gate.
#[derive(Drop)]
struct Writes<L: Ledger, G> {
    writer: Writer,
    calls: u32,
    seat: Snapshot<Seat<L>>,
    gate: Snapshot<G>,
}

impl<L: Ledger, G: Gate> Promise<Option<Seat<L>>> for Writes<L, G> {
    ghost kept_by = { λ p r. IfSome r (IsWriting (G.may_pass p.gate.value) (G.most_turns p.gate.value)
        (part_of p.writer) p.calls p.seat.value) };
}

/// The thread of a listener. Where the four do not begin, the listener is dropped, which closes its sink.
fn listen<S: Sink, G: Gate>(
    rt: &impl Wait,
    start: &Start,
    gate: &G,
    listener: Listening<S>,
) -> Option<Ended<S>>
    requires { IsSoundListener (state_of_listener S.record_list S.is_open listener) }
    ensures { IfSome result
        (HasRun S.record_list S.is_open S.page (G.may_pass gate.now) (G.most_turns gate.now) listener) }
{
    if *start.wait(rt) {
        Some(listener.run(gate, gate.turns()))
    } else {
        None
    }
}

/// The thread of a writer.
fn write<L: Ledger, G: Gate>(
    rt: &impl Wait,
    alloc: Global,
    start: &Start,
    gate: &G,
    tree: &Tree<L>,
    writer: Writer,
    seat: Seat<L>,
    calls: u32,
) -> Option<Seat<L>>
    ensures { IfSome result (IsWriting (G.may_pass gate.now) (G.most_turns gate.now) (part_of writer) calls seat) }
{
    if *start.wait(rt) {
        Some(writer.write(rt, alloc, tree, seat, gate, calls))
    } else {
        None
    }
}

/// The listeners that ended, and the seats: the main one, and those of the writers.
pub(crate) type Left<L, S> = ((Ended<S>, Ended<S>), (Seat<L>, Seat<L>, Seat<L>));

/// Runs both listeners and both writers, each in a thread of its own. Once the writers have ended, both instances are
/// pumped one last time and closed. None begins before all four threads have started; if one cannot be started, none
/// begins, and both sinks are closed.
pub(crate) fn run_four<L: Ledger + Send + Sync, S: Sink, G: Gate, R: Threads + Wait + Sync>(
    rt: &R,
    alloc: Global,
    tree: &Tree<L>,
    gate: &G,
    calls: u32,
    listeners: (Listening<S>, Listening<S>),
    seats: (Seat<L>, Seat<L>, Seat<L>),
) -> Option<Left<L, S>>
    requires sound { IsSoundListener (state_of_listener S.record_list S.is_open listeners.0)
        × IsSoundListener (state_of_listener S.record_list S.is_open listeners.1) }
    requires main { (seats.0.number ≡ 1) × HasBegun seats.0 }
    requires writers { (seats.1 ≡ seated 2 []) × (seats.2 ≡ seated 3 []) }
    ensures one { IfSome result (λ r.
        HasRun S.record_list S.is_open S.page (G.may_pass gate.now) (G.most_turns gate.now) listeners.0 r.0.0) }
    ensures other { IfSome result (λ r.
        HasRun S.record_list S.is_open S.page (G.may_pass gate.now) (G.most_turns gate.now) listeners.1 r.0.1) }
    ensures main { IfSome result (λ r. (r.1.0.number ≡ 1) × IsWhole r.1.0) }
    ensures first { IfSome result (λ r.
        IsWriting (G.may_pass gate.now) (G.most_turns gate.now) first_part calls (seated 2 []) r.1.1) }
    ensures second { IfSome result (λ r.
        IsWriting (G.may_pass gate.now) (G.most_turns gate.now) second_part calls (seated 3 []) r.1.2) }
{
    let start = OnceLock::new();
    let begins: &Start = &start;
    let (one, other) = listeners;
    let (main, first, second) = seats;
    thread::scope(
        thread::scope_env(),
        rt,
        move |scope| -> Option<Left<L, S>>
            requires sound { IsSoundListener (state_of_listener S.record_list S.is_open one)
                × IsSoundListener (state_of_listener S.record_list S.is_open other) }
            requires main { (main.number ≡ 1) × HasBegun main }
            requires writers { (first ≡ seated 2 []) × (second ≡ seated 3 []) }
            ensures one { IfSome result (λ r.
                HasRun S.record_list S.is_open S.page (G.may_pass gate.entry.now) (G.most_turns gate.entry.now) one
                r.0.0) }
            ensures other { IfSome result (λ r.
                HasRun S.record_list S.is_open S.page (G.may_pass gate.entry.now) (G.most_turns gate.entry.now) other
                r.0.1) }
            ensures main { IfSome result (λ r. (r.1.0.number ≡ 1) × IsWhole r.1.0) }
            ensures first { IfSome result (λ r.
                IsWriting (G.may_pass gate.entry.now) (G.most_turns gate.entry.now) first_part calls (seated 2 [])
                r.1.1) }
            ensures second { IfSome result (λ r.
                IsWriting (G.may_pass gate.entry.now) (G.most_turns gate.entry.now) second_part calls (seated 3 [])
                r.1.2) }
        {
            let promise = Listens {
                listener: Snapshot::of(&one),
                gate: Snapshot::of(gate),
            };
            let one = scope.spawn_with(
                promise,
                move ||
                    requires { IsSoundListener (state_of_listener S.record_list S.is_open one) }
                { listen(rt, begins, gate, one) },
            );
            let promise = Listens {
                listener: Snapshot::of(&other),
                gate: Snapshot::of(gate),
            };
            let other = scope.spawn_with(
                promise,
                move ||
                    requires { IsSoundListener (state_of_listener S.record_list S.is_open other) }
                { listen(rt, begins, gate, other) },
            );
            let writer = Writer::first();
            let promise = Writes {
                writer,
                calls,
                seat: Snapshot::of(&first),
                gate: Snapshot::of(gate),
            };
            let first = scope.spawn_with(
                promise,
                move || write(rt, alloc, begins, gate, tree, writer, first, calls),
            );
            let writer = Writer::second();
            let promise = Writes {
                writer,
                calls,
                seat: Snapshot::of(&second),
                gate: Snapshot::of(gate),
            };
            let second = scope.spawn_with(
                promise,
                move || write(rt, alloc, begins, gate, tree, writer, second, calls),
            );
            let all = one.is_ok() && other.is_ok() && first.is_ok() && second.is_ok();
            let _ = begins.set(rt, all);
            let (Ok(one), Ok(other), Ok(first), Ok(second)) = (one, other, first, second) else {
                return None;
            };
            let (first, second) = (first.join(rt), second.join(rt));
            let main = close_both(rt, tree, main);
            let (one, other) = (one.join(rt), other.join(rt));
            Some(((one?, other?), (main, first?, second?)))
        },
    )
}
