//! What puts the records of a feed into a sink.

ghost use Rattle.std.specs.Prelude.{◌≡◌, ◌≢◌, [], true, length, None};
ghost use Rattle.event_sinks.specs.declared.listener.Cause.TheVariants.{Given, Turns};
ghost use Rattle.event_sinks.specs.Listeners.{Answers, AnswersBatches, ListenerState, IsSoundListener, IsTurn, Puts};
ghost use Rattle.event_sinks.specs.Listeners.{Reaches, Steps, ended_by, state_of_ended, listener_state};
ghost use Rattle.event_sinks.specs.Listeners.{state_of_listener};
ghost use Rattle.event_sinks.specs.Ending.{IsFromOutside};
ghost use Rattle.event_sinks.specs.Pages.{WritesBatches, WritesClose, WritesRecords};

use crate::fault::SinkFault;
use crate::gate::Gate;
use crate::sink::Sink;
use record_codec::Event;
use shared_tree::{Batch, Feed};
use std::alloc::Global;

/// What a step did.
#[derive(Clone, Copy, Debug, PartialEq, Eq)]
pub enum Step {
    /// Nothing was taken, and the listener goes on. No batch had come, which no clause says, and a test shows.
    Idle,
    /// A batch was taken: its records were put, or it was the end batch.
    Took,
    /// The listener has ended, or ends because it is out of memory. Nothing was taken.
    Over,
}

/// Why a listener ended: what came first.
#[derive(Clone, Copy, Debug, PartialEq, Eq)]
pub enum Cause {
    /// The end batch came.
    Last,
    /// Its turns were over.
    Turns,
    /// It was finished by its owner.
    Given,
    /// Its sink refused a record.
    Sink(SinkFault),
    /// There was no memory for one more batch.
    Memory,
}

// What a listener has, while it listens and once it has ended: how many records its sink had taken before it is
// `started`.
#[derive(Drop)]
struct Intake<S> {
    number: u32,
    feed: Feed,
    sink: S,
    started: u64,
    handed: Vec<Batch>,
}

/// Takes the batches of a feed, one at a step, and puts their records into a sink.
///
/// The sink is closed after the end batch, after a record that it refused, and if out of memory. A listener that is
/// dropped drops its sink, which closes if it is open.
#[derive(Drop)]
pub struct Listening<S> {
    intake: Intake<S>,
    cause: Option<Cause>,
}

/// A listener with any sink, in a box.
pub type Listener = Listening<Box<dyn Sink>>;

/// A listener that has ended. Its sink is closed. It keeps its feed, and the batches that it was handed.
#[derive(Drop)]
pub struct Ended<S> {
    intake: Intake<S>,
    cause: Cause,
}

/// Puts the records of a batch one by one, until one is refused. Why the listener ends with this batch, if it does.
fn put_batch<S: Sink>(sink: &mut S, batch: &Batch) -> Option<Cause>
    requires { S.is_open sink.old ≡ true }
    ensures is_open { S.is_open sink.new ≡ true }
    ensures puts { Puts (S.record_list sink.old) batch.now.records (S.record_list sink.new) result }
    ensures answers { Answers S.record_list S.may_answer sink.old batch.now.records sink.new result }
    ensures writes { WritesRecords S.record_list S.page sink.old batch.now.records sink.new result }
{
    for event in batch.records.as_slice() {
        if let Err(fault) = sink.put(event) {
            return Some(Cause::Sink(fault));
        }
    }
    batch.is_last().then_some(Cause::Last)
}

impl<S: Sink> Listening<S> {
    /// A listener at a feed. It takes no memory yet.
    pub fn new(alloc: Global, number: u32, feed: Feed, sink: S) -> Listening<S>
        requires is_open { S.is_open sink ≡ true }
        ensures state { state_of_listener S.record_list S.is_open result
            ≡ listener_state number feed [] (length (S.record_list sink)) (S.record_list sink) true None }
        ensures sink { result.intake.sink ≡ sink }
        ensures sound { IsSoundListener (state_of_listener S.record_list S.is_open result) }
    {
        let started = sink.taken();
        Listening {
            intake: Intake {
                number,
                feed,
                sink,
                started,
                handed: Vec::new(alloc),
            },
            cause: None,
        }
    }

    /// Reserves memory for one more batch, takes a batch if one has come (a test shows that it does), and puts its
    /// records one by one. It never waits.
    pub fn step(&mut self) -> Step
        requires { IsSoundListener (state_of_listener S.record_list S.is_open self.old) }
        ensures sound { IsSoundListener (state_of_listener S.record_list S.is_open self.new) }
        ensures steps { Steps (state_of_listener S.record_list S.is_open self.old)
            (state_of_listener S.record_list S.is_open self.new) result }
        ensures answers { self.old.cause ≡ None
            → AnswersBatches S.record_list S.may_answer self.old.intake self.new.intake self.new.cause }
        ensures writes { self.old.cause ≡ None
            → WritesBatches S.record_list S.page self.old.intake self.new.intake self.new.cause }
        ensures rests { self.old.cause ≢ None → self.new ≡ self.old }
    {
        if self.cause.is_some() {
            return Step::Over;
        }
        let Ok(()) = self.intake.handed.reserve(1) else {
            self.intake.sink.close();
            self.cause = Some(Cause::Memory);
            return Step::Over;
        };
        let Some(batch) = self.intake.feed.take() else {
            return Step::Idle;
        };
        self.cause = put_batch(&mut self.intake.sink, &batch);
        self.intake.handed.push_reserved(batch);
        if self.cause.is_some() {
            self.intake.sink.close();
        }
        Step::Took
    }

    /// Steps where the gate lets this turn through. Whether nothing more can come.
    fn is_over_at<G: Gate>(&mut self, gate: &G, turn: u64) -> bool
        requires { IsSoundListener (state_of_listener S.record_list S.is_open self.old) }
        ensures sound { IsSoundListener (state_of_listener S.record_list S.is_open self.new) }
        ensures turn { IsTurn (G.may_pass gate.now) turn (state_of_listener S.record_list S.is_open self.old)
            (state_of_listener S.record_list S.is_open self.new) }
        ensures over { result ≡ true → self.new.cause ≢ None }
        ensures answers { self.old.cause ≡ None
            → AnswersBatches S.record_list S.may_answer self.old.intake self.new.intake self.new.cause }
        ensures writes { self.old.cause ≡ None
            → WritesBatches S.record_list S.page self.old.intake self.new.intake self.new.cause }
        ensures rests { self.old.cause ≢ None → self.new ≡ self.old }
    {
        gate.pass(self.intake.number, turn) && self.step() == Step::Over
    }

    /// Ends it for this cause, where none came before.
    fn end(self, given: Cause) -> Ended<S>
        requires sound { IsSoundListener (state_of_listener S.record_list S.is_open self) }
        requires given { IsFromOutside given }
        ensures sound { IsSoundListener (state_of_ended S.record_list S.is_open result) }
        ensures ended { state_of_ended S.record_list S.is_open result
            ≡ ended_by (state_of_listener S.record_list S.is_open self) given }
        ensures writes { self.cause ≡ None → WritesClose S.record_list S.page self.intake.sink result.intake.sink }
        ensures rests { self.cause ≢ None → result.intake.sink ≡ self.intake.sink }
    {
        let Listening { mut intake, cause } = self;
        let cause = match cause {
            Some(cause) => cause,
            None => {
                intake.sink.close();
                given
            }
        };
        Ended { intake, cause }
    }

    /// Steps in each of `turns` turns that the gate lets through, and ends. It ends before its turns are over if
    /// nothing more can come.
    pub fn run<G: Gate>(self, gate: &G, turns: u64) -> Ended<S>
        requires { IsSoundListener (state_of_listener S.record_list S.is_open self) }
        ensures sound { IsSoundListener (state_of_ended S.record_list S.is_open result) }
        ensures turns { (h : ListenerState)
            × Reaches (G.may_pass gate.now) turns (state_of_listener S.record_list S.is_open self) h
            × (state_of_ended S.record_list S.is_open result ≡ ended_by h Turns) }
        ensures answers { self.cause ≡ None
            → AnswersBatches S.record_list S.may_answer self.intake result.intake (Some result.cause) }
        ensures writes { self.cause ≡ None
            → WritesBatches S.record_list S.page self.intake result.intake (Some result.cause) }
        ensures rests { self.cause ≢ None → result.intake.sink ≡ self.intake.sink }
    {
        let mut listener = self;
        for turn in 0..turns {
            if listener.is_over_at(gate, turn) {
                return listener.end(Cause::Turns);
            }
        }
        listener.end(Cause::Turns)
    }

    /// Ends it where it stands: a sink that is open is closed.
    pub fn finish(self) -> Ended<S>
        requires { IsSoundListener (state_of_listener S.record_list S.is_open self) }
        ensures sound { IsSoundListener (state_of_ended S.record_list S.is_open result) }
        ensures ended { state_of_ended S.record_list S.is_open result
            ≡ ended_by (state_of_listener S.record_list S.is_open self) Given }
        ensures writes { self.cause ≡ None → WritesClose S.record_list S.page self.intake.sink result.intake.sink }
        ensures rests { self.cause ≢ None → result.intake.sink ≡ self.intake.sink }
    {
        self.end(Cause::Given)
    }
}

impl<S> Ended<S> {
    /// The number of the listener.
    pub fn number(&self) -> u32
        ensures { result ≡ self.now.intake.number }
    {
        self.intake.number
    }

    /// The number of the instance whose batches it took.
    pub fn instance(&self) -> u32
        ensures { result ≡ self.now.intake.feed.instance }
    {
        self.intake.feed.instance()
    }

    /// Why it ended: what came first.
    pub fn cause(&self) -> Cause
        ensures { result ≡ self.now.cause }
    {
        self.cause
    }

    /// The batches that it was handed, in order, with the end batch where that came.
    pub fn handed(&self) -> &[Batch]
        ensures { result.now ≡ self.now.intake.handed.items }
    {
        self.intake.handed.as_slice()
    }
}

impl<S: Sink> Ended<S> {
    /// Its sink, which is closed.
    pub fn sink(&self) -> &S
        ensures { result.now ≡ self.now.intake.sink }
    {
        &self.intake.sink
    }
}
