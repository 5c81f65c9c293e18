//! A tree with the journal of its calls.
ghost use Rattle.std.specs.Prelude.{◌≡◌, ◌↔◌, ◌-◌, ◌+◌, ◌^◌, ◌<◌, ◌≤◌, ◌⊎◌, IfOk, IfErr, IfSome, OnOk, OnErr, None};
ghost use Rattle.std.specs.Prelude.{length, true, vec_len, vec_capacity};
ghost use Rattle.record_codec.specs.Records.{AreEvents, spelling};
ghost use Rattle.instance_table.specs.Instances.{WaitingAreEvents, watchers_of};
ghost use Rattle.tree_core.specs.Histories.{pumped};
ghost use Rattle.tree_core.specs.Applied.{Applies, receipt_of};
ghost use Rattle.tree_core.specs.Calls.{IsKeptAs, IsSpelled, takes_memory};
ghost use Rattle.tree_core.specs.QueueLaws.{RecordsAreEvents};
ghost use Rattle.tree_core.specs.Journal.{HasPast, IsLawfulFrom, cut_off, entry_at, last_place, now, opened};
ghost use Rattle.tree_core.specs.Journal.{waiting_in};
ghost use Rattle.tree_core.specs.Snapshots.{IsSnapshotOf};
ghost use Rattle.tree_core.specs.Sound.{IsSoundTree};
ghost use Rattle.std.specs.Option.{option_copied};
ghost use Rattle.std.specs.List.{last_or};
ghost use Rattle.tree_core.specs.Tree.{reply_of};

use crate::call::Call;
use crate::cut_laws::pasts_make_whole;
use crate::file_system::{Begun, FileSystem};
use crate::reply::{Entry, Kept, Receipt, Reply};
use crate::snapshot::Snapshot;
use crate::turn_laws::trees_are_sound;
use record_codec::Events;
use std::alloc::{AllocError, Global};
use std::marker::Model;
use tree_ops::Answer;
use tree_paths::{Limits, Refusal};

mod forking;
mod law;
mod paths;
mod peeking;

/// A tree of files with its instances, and the journal of the calls that it answered.
///
/// Contracts see it as the tree at the last cut, the sequence number of the last entry before it, and its journal,
/// which has the entries since: the files, the watches and what waits are what these stand for. The journal is lawful
/// at each moment: each reply in it is the one that the tree gives after the calls before.
pub struct State {
    file_system: FileSystem,
    snapshot: Snapshot,
    journal: Vec<Entry>,
}

impl Drop for State {
    fn drop(self) {
        let State {
            file_system: _,
            snapshot: _,
            journal: _,
        } = self;
    }
}

impl Model for State {
    ghost use Rattle.tree_core.specs.Journal.{Journaled};
    ghost use Rattle.tree_core.specs.Codes.{journaled_code};

    ghost Value = { Journaled };

    ghost coded = { journaled_code };

    ghost use Rattle.tree_core.specs.Kept.{journal_of, IsKept};

    ghost view = { journal_of };

    ghost invariant = { IsKept };
}

impl State {
    /// The root alone, no instance, and an empty journal.
    ///
    /// # Errors
    /// `ENOMEM`, where there is no memory for it.
    pub fn new(alloc: Global, limits: Limits) -> Result<State, Refusal>
        ensures ok { IfOk result (λ s. s ≡ opened limits) }
        ensures err { IfErr result (λ refusal. refusal ≡ Refusal.Enomem) }
    {
        trees_are_sound();
        let file_system = FileSystem::new(alloc, limits)?;
        let snapshot = file_system.snapshot(0)?;
        file_system.instances.law();
        Ok(State {
            file_system,
            snapshot,
            journal: Vec::new(alloc),
        })
    }

    /// Carries out a call, and adds it to the journal with its reply. A refused call changes nothing else.
    ///
    /// # Errors
    /// The first that holds; the state is then as before, the journal too.
    /// - `JournalFull`, where the journal has as many entries since the last cut as its limit, or the last sequence
    ///   number is 2^64 - 1.
    /// - `ENOMEM`, where there is no memory for the call.
    pub fn apply(&mut self, caller: u32, call: Call) -> Result<Receipt, Refusal>
        ensures applied { Applies (λ r. r) self.old caller call result self.new }
        ensures spelled { IfOk result (λ r. IsSpelled r.reply) }
    {
        if let Err(refusal) = make_room(
            &mut self.journal,
            &self.file_system.limits,
            self.snapshot.place,
        ) {
            return Err(drop_cold(call, refusal));
        }
        self.file_system.instances.law();
        let Begun { reply, rest } = match self.file_system.begin(&call) {
            Ok(begun) => begun,
            Err(refusal) => return Err(drop_cold(call, refusal)),
        };
        let given = match reply.copy() {
            Ok(given) => given,
            Err(refusal) => return Err(drop_cold(call, refusal)),
        };
        self.file_system.finish(rest);
        self.journal.push_reserved(Entry {
            caller,
            call,
            reply,
        });
        Ok(Receipt {
            place: self.snapshot.place + self.journal.len() as u64,
            reply: given,
        })
    }

    /// Carries out a call as [`State::apply`], and leaves its reply to the journal: [`State::last_entry`] has the only
    /// copy. It answers the sequence number of the entry.
    ///
    /// # Errors
    /// Those of [`State::apply`].
    pub fn record(&mut self, caller: u32, call: Call) -> Result<u64, Refusal>
        ensures applied { Applies (receipt_of self.old call) self.old caller call result self.new }
        ensures spelled { OnOk result (IsSpelled (reply_of (now self.old) call)) }
    {
        if let Err(refusal) = make_room(
            &mut self.journal,
            &self.file_system.limits,
            self.snapshot.place,
        ) {
            return Err(drop_cold(call, refusal));
        }
        self.file_system.instances.law();
        let Begun { reply, rest } = match self.file_system.begin(&call) {
            Ok(begun) => begun,
            Err(refusal) => return Err(drop_cold(call, refusal)),
        };
        self.file_system.finish(rest);
        self.journal.push_reserved(Entry {
            caller,
            call,
            reply,
        });
        Ok(self.snapshot.place + self.journal.len() as u64)
    }

    /// Carries out a call as [`State::apply`], and also gives a copy of what the journal keeps of it. The copy is made
    /// before anything changes.
    ///
    /// # Errors
    /// Those of [`State::apply`].
    pub fn keep(&mut self, caller: u32, call: Call) -> Result<(Receipt, Kept), Refusal>
        ensures applied { Applies (λ r. r.0) self.old caller call result self.new }
        ensures spelled { IfOk result (λ r. IsSpelled r.0.reply) }
        ensures kept { IfOk result (λ r. IsKeptAs r.0 r.1 call) }
    {
        if let Err(refusal) = make_room(
            &mut self.journal,
            &self.file_system.limits,
            self.snapshot.place,
        ) {
            return Err(drop_cold(call, refusal));
        }
        let copy = match call.copy() {
            Ok(copy) => copy,
            Err(refusal) => return Err(drop_cold(call, refusal)),
        };
        self.file_system.instances.law();
        let Begun { reply, rest } = match self.file_system.begin(&call) {
            Ok(begun) => begun,
            Err(refusal) => return Err(drop_both_cold(call, copy, refusal)),
        };
        let (given, kept) = match copies(&reply) {
            Ok(copies) => copies,
            Err(refusal) => return Err(drop_both_cold(call, copy, refusal)),
        };
        let place = self.snapshot.place + self.journal.len() as u64 + 1;
        self.file_system.finish(rest);
        self.journal.push_reserved(Entry {
            caller,
            call,
            reply,
        });
        Ok(receipt_and_kept(place, given, copy, kept))
    }

    /// Carries out a [`Call::Pump`] as [`State::keep`], and also gives the records that it read, moved out of the
    /// queue. `None` where it was refused.
    ///
    /// # Errors
    /// Those of [`State::apply`].
    pub fn pump(
        &mut self,
        caller: u32,
        instance: u32,
        bytes: u32,
    ) -> Result<(Receipt, Kept, Option<Events>), Refusal>
        ensures applied { Applies (λ r. r.0) self.old caller (Call.Pump instance bytes) result self.new }
        ensures records { IfOk result (λ r. r.2 ≡ pumped (now self.old) instance bytes) }
        ensures spelled { IfOk result (λ r.
            IfSome r.2 (λ records. AreEvents records × (r.0.reply ≡ Reply.Records (spelling records)))) }
        ensures kept { IfOk result (λ r. IsKeptAs r.0 r.1 (Call.Pump instance bytes)) }
    {
        make_room(
            &mut self.journal,
            &self.file_system.limits,
            self.snapshot.place,
        )?;
        self.file_system.instances.law();
        let Begun { reply, rest } = self.file_system.begin_pump(instance, bytes)?;
        let place = self.snapshot.place + self.journal.len() as u64 + 1;
        let (given, kept) = copies(&reply)?;
        let records = self.file_system.finish_pump(rest)?;
        self.journal.push_reserved(Entry {
            caller,
            call: Call::Pump { instance, bytes },
            reply,
        });
        let (receipt, kept) = receipt_and_kept(place, given, Call::Pump { instance, bytes }, kept);
        Ok((receipt, kept, records))
    }

    /// The calls since the last cut in order, each with who made it and what it answered.
    pub fn journal(&self) -> &[Entry]
        ensures entries { result.now ≡ self.now.entries }
        ensures lawful { IsLawfulFrom self.now.start self.now.entries }
        ensures past { HasPast self.now.start self.now.place }
        ensures events { RecordsAreEvents self.now }
    {
        self.file_system.instances.law();
        self.journal.as_slice()
    }

    /// The last call since the last cut, with who made it and what it answered. `None` where there is none.
    pub fn last_entry(&self) -> Option<&Entry>
        ensures { option_copied result ≡ last_or None self.now.entries }
    {
        self.journal.last()
    }

    /// The entry with this sequence number. `None` where no entry since the last cut has it. It takes constant time.
    pub fn entry(&self, place: u64) -> Option<&Entry>
        ensures entry { option_copied result ≡ entry_at self.now place }
        ensures spelled { IfSome (entry_at self.now place) (λ e. IsSpelled e.reply) }
    {
        let since_cut = place.checked_sub(self.snapshot.place)?;
        let index = since_cut.checked_sub(1)?;
        self.journal.get(index as usize)
    }

    /// The sequence number of the last entry, whether it was cut off or not: 0 where there is none.
    pub fn last_place(&self) -> u64
        ensures { result ≡ last_place self.now }
    {
        self.snapshot.place + self.journal.len() as u64
    }

    /// What the last cut kept of the tree, which is all but its limits, and the sequence number of the last entry
    /// before it. Before any cut it is the opening tree, with the sequence number 0; of a fork, the tree at the fork.
    pub fn snapshot(&self) -> &Snapshot
        ensures tells { IsSnapshotOf self.now.start self.now.place result.now }
        ensures sound { IsSoundTree self.now.start }
        ensures events { WaitingAreEvents self.now.start.instances }
    {
        pasts_make_whole();
        &self.snapshot
    }

    /// Replaces the journal with a snapshot of the tree, and answers the sequence number of the last entry. The tree
    /// stays as it is, and sequence numbers continue. It takes time and memory in proportion to the tree, and frees all
    /// memory that the entries held: no clause speaks of these, and a test shows the last.
    ///
    /// # Errors
    /// `ENOMEM`, where there is no memory for it. The state is then as before.
    pub fn cut(&mut self) -> Result<u64, Refusal>
        ensures place { IfOk result (λ place. place ≡ last_place self.old) }
        ensures cut { OnOk result (self.new ≡ cut_off self.old) }
        ensures err { OnErr result (self.new ≡ self.old) }
        ensures errors { IfErr result (λ e. e ≡ Refusal.Enomem) }
    {
        trees_are_sound();
        self.file_system.instances.law();
        let place = self.snapshot.place + self.journal.len() as u64;
        self.snapshot = self.file_system.snapshot(place)?;
        // The capacity is freed with the entries, so that memory is bounded by what stands since the cut.
        self.journal = Vec::new(self.file_system.alloc);
        Ok(place)
    }

    /// How many records wait in an open instance, marks of lost events counted. `None` for any other number.
    pub fn waiting(&self, instance: u32) -> Option<usize>
        ensures { result ≡ waiting_in (now self.now) instance }
    {
        let opened = self.file_system.instances.get(instance)?;
        Some(opened.queue.len())
    }

    /// The numbers of the open instances that watch a file, rising. It takes no memory.
    pub fn watchers(&self, number: u32) -> &[u32]
        ensures { result.now ≡ watchers_of (now self.now).instances number }
    {
        self.file_system.instances.watchers(number)
    }

    /// How many more calls the journal takes before the next cut: its limit less its entries.
    pub fn free_entries(&self) -> u64
        ensures { result ≡ self.now.start.limits.journal - length self.now.entries }
    {
        (self.file_system.limits.journal as u64).saturating_sub(self.journal.len() as u64)
    }
}

/// Reserves capacity for one more entry of a journal that begins after this sequence number.
fn make_room(journal: &mut Vec<Entry>, limits: &Limits, place: u64) -> Result<(), Refusal>
    requires { place + length journal.old.items < 2 ^ 64 }
    ensures items { journal.new.items ≡ journal.old.items }
    ensures room { OnOk result (vec_len journal.new < vec_capacity journal.new) }
    ensures free { OnOk result (length journal.old.items < limits.now.journal) }
    ensures small { OnOk result (place + length journal.old.items + 1 < 2 ^ 64) }
    ensures full { (result ≡ Err Refusal.JournalFull)
        ↔ ((limits.now.journal ≤ length journal.old.items) ⊎ (2 ^ 64 ≤ place + length journal.old.items + 1)) }
    ensures errors { IfErr result (λ e. (e ≡ Refusal.JournalFull) ⊎ (e ≡ Refusal.Enomem)) }
{
    if journal.len() >= limits.journal as usize {
        return Err(Refusal::JournalFull);
    }
    if place == u64::MAX - journal.len() as u64 {
        return Err(Refusal::JournalFull);
    }
    journal.reserve(1)?;
    Ok(())
}

/// Drops a call that was not answered, away from what calls mostly do.
#[cold]
#[inline(never)]
fn drop_cold(_call: Call, refusal: Refusal) -> Refusal
    ensures { result ≡ refusal }
{
    refusal
}

/// Drops a call that was not answered and its copy, away from what calls mostly do.
#[cold]
#[inline(never)]
fn drop_both_cold(_call: Call, _copy: Call, refusal: Refusal) -> Refusal
    ensures { result ≡ refusal }
{
    refusal
}

/// The receipt of a call, and what is kept of it.
#[inline(always)]
fn receipt_and_kept(place: u64, given: Reply, call: Call, kept: Reply) -> (Receipt, Kept)
    ensures receipt { result.0 ≡ record { place = place; reply = given } }
    ensures kept { result.1 ≡ record { place = place; call = call; reply = kept } }
{
    let receipt = Receipt {
        place,
        reply: given,
    };
    let kept = Kept {
        place,
        call,
        reply: kept,
    };
    (receipt, kept)
}

/// Two copies of a reply.
#[inline(always)]
fn copies(reply: &Reply) -> Result<(Reply, Reply), Refusal>
    ensures given { IfOk result (λ r. r.0 ≡ reply.now) }
    ensures kept { IfOk result (λ r. r.1 ≡ reply.now) }
    ensures err { IfErr result (λ refusal. refusal ≡ Refusal.Enomem) }
    ensures memory { OnErr result (takes_memory reply.now ≡ true) }
{
    match reply {
        Reply::Refused(refusal) => Ok((Reply::Refused(*refusal), Reply::Refused(*refusal))),
        Reply::Done => Ok((Reply::Done, Reply::Done)),
        Reply::File(Answer::Done) => Ok((Reply::File(Answer::Done), Reply::File(Answer::Done))),
        Reply::File(Answer::Number(number)) => Ok((
            Reply::File(Answer::Number(*number)),
            Reply::File(Answer::Number(*number)),
        )),
        Reply::File(Answer::Count(count)) => Ok((
            Reply::File(Answer::Count(*count)),
            Reply::File(Answer::Count(*count)),
        )),
        _ => copies_of_any(reply),
    }
}

/// Two copies of a reply that may hold bytes or names.
#[inline(never)]
fn copies_of_any(reply: &Reply) -> Result<(Reply, Reply), Refusal>
    ensures given { IfOk result (λ r. r.0 ≡ reply.now) }
    ensures kept { IfOk result (λ r. r.1 ≡ reply.now) }
    ensures err { IfErr result (λ refusal. refusal ≡ Refusal.Enomem) }
    ensures memory { OnErr result (takes_memory reply.now ≡ true) }
{
    let given = reply.copy()?;
    let kept = reply.copy()?;
    Ok((given, kept))
}
