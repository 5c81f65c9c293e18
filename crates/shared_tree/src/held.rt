//! What lies under the lock.

ghost use Rattle.std.specs.Prelude.{◌≡◌, ◌+◌, ◌<◌, ◌≤◌, ℕ, [], vec_len, vec_capacity, option_map, IfOk, IfErr, IfSome};
ghost use Rattle.std.specs.Prelude.{OnOk, OnErr, IsTrue, true};
ghost use Rattle.record_codec.specs.Records.{AreEvents};
ghost use Rattle.tree_paths.specs.declared.refusal.Refusal.TheVariants.{Enomem, JournalFull};
ghost use Rattle.instance_table.specs.Instances.{instance_of, waiting_of};
ghost use Rattle.tree_core.specs.declared.call.Call.TheVariants.{Init, Pump};
ghost use Rattle.tree_core.specs.Calls.{is_plain};
ghost use Rattle.tree_core.specs.Histories.{pumped, raised_in};
ghost use Rattle.tree_core.specs.Journal.{IsLawfulFrom, IsSpent, cut_off, last_place, now, opened};
ghost use Rattle.tree_core.specs.QueueLaws.{RecordsAreEvents};
ghost use Rattle.tree_core.specs.Sound.{IsSoundTree};
ghost use Rattle.tree_core.specs.TurnLaws.{EndsOnce};
ghost use Rattle.shared_tree.specs.Pipes.{feed_of};
ghost use Rattle.shared_tree.specs.Seats.{passing};
ghost use Rattle.shared_tree.specs.Handed.{AreOfEvents, batch, handed_since};
ghost use Rattle.shared_tree.specs.Calls.{tree_with_pipes, JoinsJournal, HandsOver, IsSent, IsOutOfSpace, RefusalOf};
ghost use Rattle.tree_core.specs.Law.{AtEach, HasCookiesInTurn, IsTold, RefusedAddsNothing};
ghost use Rattle.shared_tree.specs.Law.{HasPipesOfPiped};
ghost use Rattle.shared_tree.specs.Held.{sents, closed_of, end_of, LacksSpace};

use crate::book::Book;
use crate::pipe::{Batch, Feed, Pipe, open_pipe};
use crate::pipes::Pipes;
use crate::seat::{Pass, Seat};
use record_codec::Events;
use std::alloc::Global;
use std::marker::Model;
use std::sync::ledger::{Blank, Ledger};
use std::sync::{Mutex, ledger};
use tree_core::{Call, Kept, Receipt, Reply, State, pasts_make_whole, replies_tell};
use tree_paths::{Limits, Refusal};

/// A tree that threads share. It is made and taken apart by `new` and `into_inner`, and a caller takes its lock to make
/// the calls of [`Held`].
pub type Tree<L> = Mutex<Held<L>>;

/// A tree of files with its journal, the pipes of its instances, and the number of its entries in a ledger.
///
/// Contracts see the tree, what each pipe was sent, and the ledger's total.
pub struct Held<L: Ledger> {
    alloc: Global,
    core: State,
    pipes: Pipes,
    book: ledger::Book<L>,
}

impl<L: Ledger> Drop for Held<L> {
    fn drop(self) {
        let Held {
            alloc: _,
            core: _,
            pipes: _,
            book: _,
        } = self;
    }
}

impl<L: Ledger> Model for Held<L> {
    ghost use Rattle.shared_tree.specs.Calls.{TreeWithPipes, tree_with_pipes};
    ghost use Rattle.shared_tree.specs.Codes.{tree_with_pipes_code};
    ghost use Rattle.shared_tree.specs.Held.{IsHeld, sents};

    ghost Value = { TreeWithPipes };

    ghost coded = { tree_with_pipes_code };

    ghost view = { λ h. tree_with_pipes h.core h.pipes.numbers (sents h.pipes.ends) h.book.total };

    ghost invariant = { λ h. IsHeld h.core h.pipes.numbers (sents h.pipes.ends) h.book.total };
}

/// Whether the journal takes one more entry.
fn check_room(core: &State) -> Result<(), Refusal>
    ensures free { OnOk result (¬ IsSpent core.now) }
    ensures errors { IfErr result (λ e. (e ≡ JournalFull) × IsSpent core.now) }
{
    if core.free_entries() == 0 || core.last_place() == u64::MAX {
        return Err(Refusal::JournalFull);
    }
    Ok(())
}

/// Reserves memory to keep one more call, if the journal takes one more.
fn make_room(core: &State, kept: &mut Vec<Kept>) -> Result<(), Refusal>
    ensures items { kept.new.items ≡ kept.old.items }
    ensures room { OnOk result (vec_len kept.new < vec_capacity kept.new) }
    ensures free { OnOk result (¬ IsSpent core.now) }
    ensures errors { IfErr result (λ e. LacksSpace core.now e) }
{
    check_room(core)?;
    kept.reserve(1)?;
    Ok(())
}

/// Drops a call that is refused, away from what calls mostly do.
#[cold]
#[inline(never)]
fn drop_cold(_call: Call, refusal: Refusal) -> Refusal
    ensures { result ≡ refusal }
{
    refusal
}

/// Carries a call out, and keeps it in the seat and the ledger.
fn enter<L: Ledger>(
    core: &mut State,
    book: &mut ledger::Book<L>,
    seat: &mut Seat<L>,
    call: Call,
) -> Result<Receipt, Refusal>
    ensures ok { IfOk result (λ r. JoinsJournal core.old seat.old call core.new seat.new r) }
    ensures total { OnOk result (book.new.total ≡ book.old.total + 1) }
    ensures room { OnOk result (¬ IsSpent core.old) }
    ensures err { OnErr result ((core.new ≡ core.old) × (seat.new ≡ seat.old) × (book.new.total ≡ book.old.total)) }
    ensures errors { IfErr result (λ e. LacksSpace core.old e) }
{
    let Seat {
        number,
        kept,
        share,
    } = seat;
    if let Err(refusal) = make_room(core, kept) {
        return Err(drop_cold(call, refusal));
    }
    let (receipt, copy) = core.keep(*number, call)?;
    kept.push_reserved(copy);
    book.add(share, 1);
    Ok(receipt)
}

/// Carries a pump out, keeps it in the seat and the ledger, and gives the records.
fn enter_pump<L: Ledger>(
    core: &mut State,
    book: &mut ledger::Book<L>,
    seat: &mut Seat<L>,
    instance: u32,
    bytes: u32,
) -> Result<(Receipt, Option<Events>), Refusal>
    ensures ok { IfOk result (λ r. JoinsJournal core.old seat.old (Pump instance bytes) core.new seat.new r.0) }
    ensures records { IfOk result (λ r. r.1 ≡ pumped (now core.old) instance bytes) }
    ensures events { IfOk result (λ r. IfSome r.1 AreEvents) }
    ensures total { OnOk result (book.new.total ≡ book.old.total + 1) }
    ensures room { OnOk result (¬ IsSpent core.old) }
    ensures err { OnErr result ((core.new ≡ core.old) × (seat.new ≡ seat.old) × (book.new.total ≡ book.old.total)) }
    ensures errors { IfErr result (λ e. LacksSpace core.old e) }
{
    let Seat {
        number,
        kept,
        share,
    } = seat;
    make_room(core, kept)?;
    let (receipt, copy, records) = core.pump(*number, instance, bytes)?;
    kept.push_reserved(copy);
    book.add(share, 1);
    Ok((receipt, records))
}

/// The instance that a call closes.
fn closed_by(call: &Call) -> Option<u32>
    ensures { result ≡ closed_of call.now }
{
    match call {
        Call::Close { instance } => Some(*instance),
        _ => None,
    }
}

/// The end batch of an instance that was closed.
fn end_batch(alloc: Global, closed: Option<u32>, receipt: &Receipt) -> Option<Batch>
    ensures { result ≡ end_of closed receipt.now.place receipt.now.reply }
{
    let instance = closed?;
    match &receipt.reply {
        Reply::Done => Some(Batch {
            instance,
            place: receipt.place,
            records: Events::from_vec(Vec::new(alloc)),
        }),
        _ => None,
    }
}

/// The batch of the records that were pumped.
fn pumped_batch(instance: u32, place: u64, records: Option<Events>) -> Option<Batch>
    ensures { result ≡ option_map (batch instance place) records }
{
    match records {
        Some(records) => Some(Batch {
            instance,
            place,
            records,
        }),
        None => None,
    }
}

/// Makes a pipe, and reserves memory for it beside the others, if the journal takes one more entry.
fn make_pipe(
    alloc: Global,
    core: &State,
    pipes: &mut Pipes,
    slots: usize,
) -> Result<(Pipe, Feed), Refusal>
    ensures numbers { pipes.new.numbers ≡ pipes.old.numbers }
    ensures ends { pipes.new.ends ≡ pipes.old.ends }
    ensures room { OnOk result (IsTrue pipes.new.has_room) }
    ensures empty { IfOk result (λ r. (r.0.sent ≡ []) × (r.1.received ≡ []) × (r.1.slots ≡ slots)) }
    ensures errors { IfErr result (λ e. LacksSpace core.now e) }
{
    check_room(core)?;
    pipes.reserve()?;
    let pair = open_pipe(alloc, slots)?;
    Ok(pair)
}

impl<L: Ledger> Held<L> {
    /// The root alone, no instance and an empty journal; and the pass that gives its seats.
    ///
    /// # Errors
    /// `ENOMEM`, where there is no memory for it.
    pub fn new(alloc: Global, blank: Blank, limits: Limits) -> Result<(Held<L>, Pass<L>), Refusal>
        requires name { blank.name ≡ L.name }
        requires parts { (blank.parts ≡ L.parts) × (blank.parts ≡ 65537) }
        ensures held { IfOk result (λ r. r.0 ≡ tree_with_pipes (opened limits) [] [] 0) }
        ensures pass { IfOk result (λ r. r.1 ≡ passing 65537 0 0 limits.seats) }
        ensures err { IfErr result (λ e. e ≡ Enomem) }
    {
        let core = State::new(alloc, limits)?;
        let (book, share) = blank.open::<L>();
        let held = Held {
            alloc,
            core,
            pipes: Pipes::new(alloc),
            book,
        };
        let pass = Pass {
            alloc,
            share,
            given: 0,
            seats: limits.seats,
        };
        Ok((held, pass))
    }

    /// The tree with its journal.
    pub fn state(&self) -> &State
        ensures { result.now ≡ self.now.state }
    {
        &self.core
    }

    /// What holds whenever the lock is free. It does nothing.
    ///
    /// What [`State::law`] says of the tree and its journal; and an open instance has a pipe exactly if it was made
    /// with one, each pipe was sent what the whole journal hands to its instance, what was handed since the last cut
    /// are events, and the ledger's total is the sequence number of the last entry.
    pub fn law(&self)
        ensures lawful { IsLawfulFrom self.now.state.start self.now.state.entries }
        ensures sound { IsSoundTree self.now.state.start }
        ensures told { (id : ℕ) → IsTold self.now.state id }
        ensures records { RecordsAreEvents self.now.state }
        ensures cookies { HasCookiesInTurn self.now.state }
        ensures ends { (id : ℕ)
            → EndsOnce (waiting_of (instance_of self.now.state.start.instances id))
            (raised_in self.now.state.start self.now.state.entries id) }
        ensures refused { AtEach RefusedAddsNothing self.now.state.start self.now.state.entries }
        ensures with_pipe { HasPipesOfPiped self.now }
        ensures sent { IsSent self.now.state self.now.pipes self.now.sent }
        ensures events { (id : ℕ) → AreOfEvents (handed_since self.now.state id) }
        ensures counted { self.now.total ≡ last_place self.now.state }
    {
        self.core.law();
    }

    /// Carries out a call for a seat, under its number. A close of an instance with a pipe hands the end batch over.
    ///
    /// # Errors
    /// The first that holds; all is then as before, and nothing is journalled.
    /// - `PipeFull`, where the call is a close of an open instance whose pipe is full.
    /// - `JournalFull`, where the journal has as many entries as its limit.
    /// - `ENOMEM`, where there is no memory for the call.
    pub fn call(&mut self, seat: &mut Seat<L>, call: Call) -> Result<Receipt, Refusal>
        requires plain { IsTrue (is_plain call) }
        ensures ok { IfOk result (λ r. JoinsJournal self.old.state seat.old call self.new.state seat.new r) }
        ensures hands { IfOk result (λ r. HandsOver self.old call r self.new) }
        ensures room { OnOk result (¬ IsSpent self.old.state) }
        ensures err { OnErr result ((self.new ≡ self.old) × (seat.new ≡ seat.old)) }
        ensures errors { IfErr result (λ e. RefusalOf self.old.state call e) }
    {
        replies_tell();
        let Held {
            alloc,
            core,
            pipes,
            book,
        } = self;
        let closed = closed_by(&call);
        let at = match pipes.look(core, closed) {
            Ok(at) => at,
            Err(refusal) => return Err(drop_cold(call, refusal)),
        };
        let receipt = enter(core, book, seat, call)?;
        let batch = end_batch(*alloc, closed, &receipt);
        pipes.hand_over(at, batch);
        Ok(receipt)
    }

    /// Pumps an instance for a seat: the oldest records that fit into a buffer of `bytes` bytes are read, and handed
    /// over as one batch. It looks its pipe up by its number, and moves the records.
    ///
    /// # Errors
    /// The first that holds; all is then as before, and nothing is journalled.
    /// - `PipeFull`, where the instance is open and its pipe is full.
    /// - `JournalFull`, where the journal has as many entries as its limit.
    /// - `ENOMEM`, where there is no memory for the call.
    pub fn pump(
        &mut self,
        seat: &mut Seat<L>,
        instance: u32,
        bytes: u32,
    ) -> Result<Receipt, Refusal>
        ensures ok { IfOk result (λ r.
            JoinsJournal self.old.state seat.old (Pump instance bytes) self.new.state seat.new r) }
        ensures hands { IfOk result (λ r. HandsOver self.old (Pump instance bytes) r self.new) }
        ensures room { OnOk result (¬ IsSpent self.old.state) }
        ensures err { OnErr result ((self.new ≡ self.old) × (seat.new ≡ seat.old)) }
        ensures errors { IfErr result (λ e. RefusalOf self.old.state (Pump instance bytes) e) }
    {
        replies_tell();
        let Held {
            alloc: _,
            core,
            pipes,
            book,
        } = self;
        let at = pipes.look(core, Some(instance))?;
        let (receipt, records) = enter_pump(core, book, seat, instance, bytes)?;
        let batch = pumped_batch(instance, receipt.place, records);
        pipes.hand_over(at, batch);
        Ok(receipt)
    }

    /// Makes an instance with a pipe of 1 to 65,536 slots, for a seat. There is a feed exactly if the reply is an
    /// instance; it has that instance's number and this number of slots. `limit` is how many records may wait in the
    /// queue, as in [`Call::Init`].
    ///
    /// # Errors
    /// The first that holds; all is then as before, and nothing is journalled.
    /// - `JournalFull`, where the journal has as many entries as its limit.
    /// - `ENOMEM`, where there is no memory for the call.
    pub fn open_piped(
        &mut self,
        seat: &mut Seat<L>,
        limit: u32,
        slots: usize,
    ) -> Result<(Receipt, Option<Feed>), Refusal>
        requires slots { (1 ≤ slots) × (slots ≤ 65536) }
        ensures ok { IfOk result (λ r.
            JoinsJournal self.old.state seat.old (Init limit true) self.new.state seat.new r.0) }
        ensures feed { IfOk result (λ r. r.1 ≡ feed_of r.0.reply slots) }
        ensures hands { IfOk result (λ r. HandsOver self.old (Init limit true) r.0 self.new) }
        ensures room { OnOk result (¬ IsSpent self.old.state) }
        ensures err { OnErr result ((self.new ≡ self.old) × (seat.new ≡ seat.old)) }
        ensures errors { IfErr result (λ e. IsOutOfSpace self.old.state e) }
    {
        replies_tell();
        let Held {
            alloc,
            core,
            pipes,
            book,
        } = self;
        let (pipe, feed) = make_pipe(*alloc, core, pipes, slots)?;
        let receipt = enter(core, book, seat, Call::Init { limit, piped: true })?;
        let feed = pipes.add(&receipt.reply, pipe, feed);
        Ok((receipt, feed))
    }

    /// Cuts the journal as [`State::cut`]. The pipes and the seats stay as they are.
    ///
    /// # Errors
    /// `ENOMEM`, where there is no memory for it. All is then as before.
    pub fn cut(&mut self) -> Result<u64, Refusal>
        ensures place { IfOk result (λ place. place ≡ last_place self.old.state) }
        ensures cut { OnOk result (self.new ≡ record self.old { state = cut_off self.old.state }) }
        ensures err { OnErr result (self.new ≡ self.old) }
        ensures errors { IfErr result (λ e. e ≡ Enomem) }
    {
        pasts_make_whole();
        let _ = self.core.journal();
        self.core.cut()
    }

    /// What is left once nobody calls any more: the journal, and the ends of all pipes, also of closed instances. It
    /// takes no memory.
    pub fn dissolve(self, pass: Pass<L>) -> Book
        ensures state { result.state ≡ self.state }
        ensures entries { result.entries ≡ last_place self.state }
        ensures shares { pass.parts ≡ L.parts → result.entries ≡ pass.amount }
        ensures pipes { result.pipes ≡ self.pipes }
        ensures sent { result.sent ≡ self.sent }
    {
        let Held {
            alloc: _,
            core,
            pipes,
            mut book,
        } = self;
        let Pass {
            alloc: _,
            mut share,
            given: _,
            seats: _,
        } = pass;
        book.audit(&mut share);
        let _ = core.journal();
        let entries = core.last_place();
        Book {
            core,
            pipes,
            entries,
        }
    }
}
