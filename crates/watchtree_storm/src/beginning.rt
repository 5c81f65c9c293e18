//! What stands before a storm begins.

ghost use Rattle.std.specs.Prelude.{◌≡◌, ◌+◌, ◌≤◌, [], true, IfOk, OnOk};
ghost use Rattle.tree_core.specs.Journal.{now};
ghost use Rattle.shared_tree.specs.Seats.{seated};
ghost use Rattle.event_sinks.specs.Listeners.{IsSoundListener, state_of_listener};
ghost use Rattle.watchtree_storm.specs.Storm.{Begins, HasBegun, IsListening};

use crate::fault::StormFault;
use event_sinks::{Listening, Sink};
use record_codec::bits::IN_ALL_EVENTS;
use shared_tree::{Held, Pass, Seat};
use std::alloc::Global;
use std::sync::ledger::{Blank, Ledger};
use tree_core::Call;
use tree_ops::FileCall;
use tree_paths::{Limits, Path};

/// The directory in which all happens.
const DIRECTORY: &str = "/s";

/// How many records may wait in each queue.
const QUEUE: u32 = 16_384;

/// A tree with a directory that two instances watch, each with a pipe; its seats; and a listener at each pipe.
#[derive(Drop)]
pub struct ReadyStorm<L: Ledger, S> {
    /// The tree.
    pub held: Held<L>,
    /// What is left of the seats.
    pub pass: Pass<L>,
    /// The seat that begins and ends.
    pub main: Seat<L>,
    /// The seat of the first writer.
    pub first: Seat<L>,
    /// The seat of the second writer.
    pub second: Seat<L>,
    /// The listener at the pipe of the first instance.
    pub one: Listening<S>,
    /// The listener at the pipe of the second instance.
    pub other: Listening<S>,
}

/// Makes the next instance, with a pipe and a watch of all events of the directory, and a listener at its other end.
fn listen<L: Ledger, S: Sink>(
    alloc: Global,
    held: &mut Held<L>,
    seat: &mut Seat<L>,
    number: u32,
    slots: usize,
    sink: S,
) -> Result<Listening<S>, StormFault>
    requires slots { (1 ≤ slots) × (slots ≤ 65536) }
    requires is_open { S.is_open sink ≡ true }
    ensures number { OnOk result (seat.new.number ≡ seat.old.number) }
    ensures next { OnOk result ((now held.new.state).next_id ≡ (now held.old.state).next_id + 1) }
    ensures kept { OnOk result (IsListening (now held.old.state).next_id seat.old seat.new) }
    ensures begins { IfOk result (λ l.
        Begins S.record_list S.is_open number (now held.old.state).next_id slots sink l) }
    ensures sound { IfOk result (λ l. IsSoundListener (state_of_listener S.record_list S.is_open l)) }
{
    let (_, feed) = held.open_piped(seat, QUEUE, slots)?;
    let Some(feed) = feed else {
        return Err(StormFault::Memory);
    };
    let path = Path::parse(alloc, DIRECTORY.as_bytes())?;
    let _ = held.call(
        seat,
        Call::AddWatch {
            instance: feed.instance(),
            path,
            mask: IN_ALL_EVENTS,
        },
    )?;
    Ok(Listening::new(alloc, number, feed, sink))
}

/// Makes the tree, its seats 1 to 3, its directory, and instances 1 and 2, each with a pipe of `calls + 2` slots and
/// the listener of its number.
///
/// # Errors
/// [`StormFault::Memory`]; both sinks are then closed.
pub fn begin<L: Ledger, S: Sink>(
    alloc: Global,
    blank: Blank,
    calls: u32,
    one: S,
    other: S,
) -> Result<ReadyStorm<L, S>, StormFault>
    requires name { blank.name ≡ L.name }
    requires parts { (blank.parts ≡ L.parts) × (blank.parts ≡ 65537) }
    requires is_open { (S.is_open one ≡ true) × (S.is_open other ≡ true) }
    requires calls { calls ≤ 1000 }
    ensures shares { IfOk result (λ b. (b.pass.parts + 3 ≡ L.parts) × (b.pass.amount ≡ 0)) }
    ensures seats { IfOk result (λ b. (b.main.number ≡ 1) × (b.first ≡ seated 2 []) × (b.second ≡ seated 3 [])) }
    ensures begun { IfOk result (λ b. HasBegun b.main) }
    ensures listeners { IfOk result (λ b.
        Begins S.record_list S.is_open 1 1 (calls + 2) one b.one
        × Begins S.record_list S.is_open 2 2 (calls + 2) other b.other) }
    ensures sound { IfOk result (λ b.
        IsSoundListener (state_of_listener S.record_list S.is_open b.one)
        × IsSoundListener (state_of_listener S.record_list S.is_open b.other)) }
{
    let (mut held, mut pass) = Held::<L>::new(alloc, blank, Limits::full())?;
    let mut main = pass.seat()?;
    let first = pass.seat()?;
    let second = pass.seat()?;
    let path = Path::parse(alloc, DIRECTORY.as_bytes())?;
    let _ = held.call(&mut main, Call::File(FileCall::Mkdir { path, mode: 0o755 }))?;
    let slots = calls as usize + 2;
    let one = listen(alloc, &mut held, &mut main, 1, slots, one)?;
    let other = listen(alloc, &mut held, &mut main, 2, slots, other)?;
    Ok(ReadyStorm {
        held,
        pass,
        main,
        first,
        second,
        one,
        other,
    })
}
