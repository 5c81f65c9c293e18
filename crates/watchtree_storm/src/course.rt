//! A storm from its beginning to the settled book.

ghost use Rattle.std.specs.List.{All};
ghost use Rattle.std.specs.Prelude.{◌≡◌, ◌+◌, ◌≤◌, ◌∷◌, [], length, true, IfOk, None, Some};
ghost use Rattle.event_sinks.specs.Audited.{Settles, calls_of, outcome_of};
ghost use Rattle.event_sinks.specs.Listeners.{IsSoundListener, state_of_ended, state_of_listener};
ghost use Rattle.shared_tree.specs.Seats.{seated};
ghost use Rattle.watchtree_storm.specs.Storm.{AreStormLogs, CountsAgree, HasBegun, HasRun, RunsAt, WritesHanded};
ghost use Rattle.watchtree_storm.specs.Storm.{beginning, told_of};

use crate::beginning::{ReadyStorm, begin};
use crate::fault::StormFault;
use crate::threads::run_four;
use event_sinks::{Cause, Ended, Gate, SettleFault, Settled, Sink, settle};
use shared_tree::{Book, SeatLog, Tree};
use std::alloc::Global;
use std::marker::Brand;
use std::sync::ledger::{Blank, Ledger};
use std::sync::{Mutex, Wait};
use std::thread::Threads;

/// What is left when all have ended: the book of the tree, the logs of its three seats, and both listeners.
#[derive(Drop)]
pub struct FinishedStorm<S> {
    /// The book of the tree.
    pub book: Book,
    /// The logs of seats 1, 2 and 3, in this order.
    pub logs: Vec<SeatLog>,
    /// Listeners 1 and 2.
    pub ended: (Ended<S>, Ended<S>),
}

/// What a storm came to.
#[derive(Drop)]
pub struct Stormed {
    /// How many entries the journal has.
    pub entries: u64,
    /// Of each listener its number, why it ended, and how many records its sink took.
    pub listeners: Vec<(u32, Cause, u64)>,
    /// What settling the book answered.
    pub settled: Result<Settled, SettleFault>,
}

impl<S: Sink> FinishedStorm<S> {
    /// Settles the book.
    ///
    /// # Errors
    /// [`StormFault::Memory`], if there is none for the report of the listeners, whose sinks are closed.
    pub fn settle(self, alloc: Global) -> Result<Stormed, StormFault>
        requires { self.book.entries ≡ calls_of self.logs.items }
        ensures entries { IfOk result (λ s. s.entries ≡ self.book.entries) }
        ensures listeners { IfOk result (λ s.
            s.listeners.items ≡ told_of S.record_list self.ended.0 ∷ told_of S.record_list self.ended.1 ∷ []) }
        ensures settled { IfOk result (λ s.
            Settles self.book self.logs.items (outcome_of self.ended.0 ∷ outcome_of self.ended.1 ∷ []) s.settled) }
        ensures counts { IfOk result (λ s. CountsAgree s.settled) }
    {
        let FinishedStorm {
            book,
            logs,
            ended: (one, other),
        } = self;
        let entries = book.entries();
        let mut listeners = Vec::with_capacity(alloc, 2)?;
        listeners.push_reserved(told_of(&one));
        listeners.push_reserved(told_of(&other));
        let mut ended = Vec::with_capacity(alloc, 2)?;
        ended.push_reserved(one);
        ended.push_reserved(other);
        Ok(Stormed {
            entries,
            listeners,
            settled: settle(alloc, book, logs, ended),
        })
    }
}

/// What is reported of a listener: its number, why it ended, and how many records its sink took.
fn told_of<S: Sink>(ended: &Ended<S>) -> (u32, Cause, u64)
    ensures { result ≡ told_of S.record_list ended.now }
{
    (ended.number(), ended.cause(), ended.sink().taken())
}

impl<L: Ledger + Send + Sync, S: Sink> ReadyStorm<L, S> {
    /// Two writers make `calls` calls each and pump after each, while two listeners take what comes, each in a thread
    /// of its own. Once the writers have ended, both instances are pumped one last time and closed. It waits for the
    /// listeners too, which end at the last by the turns of the gate, and then the tree is dissolved.
    ///
    /// # Errors
    /// [`StormFault::Memory`], where there is no memory or a thread cannot be started: none of the four has then begun,
    /// and both sinks are closed.
    pub fn run<G: Gate, R: Threads + Wait + Sync>(
        self,
        rt: &R,
        alloc: Global,
        calls: u32,
        gate: &G,
    ) -> Result<FinishedStorm<S>, StormFault>
        requires shares { (self.pass.parts + 3 ≡ L.parts) × (self.pass.amount ≡ 0) }
        requires main { (self.main.number ≡ 1) × HasBegun self.main }
        requires writers { (self.first ≡ seated 2 []) × (self.second ≡ seated 3 []) }
        requires sound { IsSoundListener (state_of_listener S.record_list S.is_open self.one)
            × IsSoundListener (state_of_listener S.record_list S.is_open self.other) }
        ensures counts { IfOk result (λ r. r.book.entries ≡ calls_of r.logs.items) }
        ensures logs { IfOk result (λ r.
            AreStormLogs (G.may_pass gate.now) (G.most_turns gate.now) calls r.logs.items) }
        ensures one { IfOk result (λ r.
            HasRun S.record_list S.is_open S.page (G.may_pass gate.now) (G.most_turns gate.now) self.one r.ended.0) }
        ensures other { IfOk result (λ r.
            HasRun S.record_list S.is_open S.page (G.may_pass gate.now) (G.most_turns gate.now) self.other r.ended.1) }
    {
        let ReadyStorm {
            held,
            mut pass,
            main,
            first,
            second,
            one,
            other,
        } = self;
        let mut logs = Vec::with_capacity(alloc, 3)?;
        let tree: Tree<L> = Mutex::new(held);
        let seats = (main, first, second);
        let Some((ended, (main, first, second))) = run_four(
            rt,
            alloc,
            &tree,
            gate,
            calls,
            (one, other),
            seats,
        ) else {
            return Err(StormFault::Memory);
        };
        logs.push_reserved(pass.join(main));
        logs.push_reserved(pass.join(first));
        logs.push_reserved(pass.join(second));
        let book = tree.into_inner().dissolve(pass);
        Ok(FinishedStorm { book, logs, ended })
    }
}

/// A storm, up to the book: [`begin`], and then [`ReadyStorm::run`].
///
/// # Errors
/// [`StormFault::Memory`], where there is no memory or a thread cannot be started. No writer and no listener has then
/// begun, and both sinks are closed.
pub fn run<L: Ledger + Send + Sync, S: Sink, G: Gate, R: Threads + Wait + Sync>(
    rt: &R,
    alloc: Global,
    blank: Blank,
    calls: u32,
    gate: &G,
    one: S,
    other: S,
) -> Result<FinishedStorm<S>, StormFault>
    requires name { blank.name ≡ L.name }
    requires parts { (blank.parts ≡ L.parts) × (blank.parts ≡ 65537) }
    requires is_open { (S.is_open one ≡ true) × (S.is_open other ≡ true) }
    requires calls { calls ≤ 1000 }
    ensures counts { IfOk result (λ r. r.book.entries ≡ calls_of r.logs.items) }
    ensures logs { IfOk result (λ r. AreStormLogs (G.may_pass gate.now) (G.most_turns gate.now) calls r.logs.items) }
    ensures sinks { IfOk result (λ r.
        IsSoundListener (state_of_ended S.record_list S.is_open r.ended.0)
        × IsSoundListener (state_of_ended S.record_list S.is_open r.ended.1)) }
    ensures one { IfOk result (λ r.
        RunsAt (G.may_pass gate.now) (G.most_turns gate.now) (beginning 1 1 (calls + 2) (S.record_list one))
        (state_of_ended S.record_list S.is_open r.ended.0)) }
    ensures other { IfOk result (λ r.
        RunsAt (G.may_pass gate.now) (G.most_turns gate.now) (beginning 2 2 (calls + 2) (S.record_list other))
        (state_of_ended S.record_list S.is_open r.ended.1)) }
    ensures written { IfOk result (λ r.
        WritesHanded S.record_list S.page one r.ended.0 × WritesHanded S.record_list S.page other r.ended.1) }
{
    let ready = begin::<L, S>(alloc, blank, calls, one, other)?;
    let finished = ready.run(rt, alloc, calls, gate)?;
    Ok(finished)
}

/// A storm of 1 to 1,000 calls of each writer, with two sinks that are open, and the settled book. The first sink is
/// that of listener 1.
///
/// The count of entries can't differ from the count of kept calls. That writers and listeners run at once is shown by a
/// test alone.
///
/// # Errors
/// [`StormFault::Memory`], where there is no memory or a thread cannot be started; both sinks are then closed.
pub fn storm<G: Gate, R: Threads + Wait + Sync>(
    rt: &R,
    alloc: Global,
    calls: u32,
    gate: &G,
    sinks: Vec<Box<dyn Sink>>,
) -> Result<Stormed, StormFault>
    requires calls { (1 ≤ calls) × (calls ≤ 1000) }
    requires two { length sinks.items ≡ 2 }
    requires is_open { All (λ sink. ⟦<Box<dyn Sink> as Sink>⟧.is_open sink ≡ true) sinks.items }
    ensures { IfOk result (λ s. CountsAgree s.settled) }
{
    let mut sinks = sinks;
    let (Some(other), Some(one)) = (sinks.pop(), sinks.pop()) else {
        unreachable!()
    };
    let blank = Blank::new(65537);
    run::<Brand, Box<dyn Sink>, G, R>(rt, alloc, blank, calls, gate, one, other)?.settle(alloc)
}
