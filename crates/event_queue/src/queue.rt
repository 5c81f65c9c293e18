//! A bounded queue of events.
ghost use Rattle.std.specs.Prelude.{◌≡◌, ◌≤◌, ◌+◌, ◌==◌, [], ◌∷◌, ◌++◌, false, true, IfOk, IfErr, nat_lt, length, take};
ghost use Rattle.std.specs.Prelude.{slice_get, option_copied, drop};
ghost use Rattle.event_queue.specs.Backlogs.{IsLimit, overflow_mark, is_mark, has_mark, is_repeated, offered};
ghost use Rattle.event_queue.specs.Backlogs.{after_offer, after_take};
ghost use Rattle.record_codec.specs.Equality.{event_eq};
ghost use Rattle.record_codec.specs.Records.{spelling};
ghost use Rattle.event_queue.specs.Reads.{fitting, IsGreatestFit};
ghost use Rattle.tree_paths.specs.declared.refusal.Refusal.TheVariants.{Enomem};

use crate::fit::Fit;
use crate::offered::Offered;
use circular_buffer::HeapCircularBuffer;
use record_codec::{Event, bits, record_len};
use std::alloc::Global;
use std::marker::Model;
use tree_paths::Refusal;

/// The records of an inotify instance that wait to be read, the oldest first.
///
/// [`Queue::with_limit`] and [`Queue::copy`] allocate a whole buffer. No other call allocates, and none of them fails.
#[derive(Debug)]
pub struct Queue {
    limit: u32,
    // How many of the records are overflow marks.
    marks: usize,
    records: HeapCircularBuffer<Event>,
}

impl Drop for Queue {
    fn drop(self) {
        let Queue {
            limit: _,
            marks: _,
            records: _,
        } = self;
    }
}

impl Model for Queue {
    ghost use Rattle.event_queue.specs.Backlogs.{Backlog};

    ghost Value = { Backlog };

    ghost use Rattle.event_queue.specs.Rings.{backlog_of, IsRing};

    ghost view = { backlog_of };

    ghost invariant = { IsRing };
}

impl Queue {
    /// A queue that keeps up to `limit` records, 1 to 65,535, and one overflow mark beyond them (inotify(7),
    /// `max_queued_events`).
    ///
    /// The buffer for `limit + 1` records is allocated here: `ENOMEM` if that fails.
    pub fn with_limit(alloc: Global, limit: u32) -> Result<Queue, Refusal>
        requires { IsLimit limit }
        ensures queue { IfOk result (λ queue. queue ≡ record { limit = limit; waiting = [] }) }
        ensures err { IfErr result (λ refusal. refusal ≡ Enomem) }
    {
        let records = HeapCircularBuffer::with_capacity(alloc, limit as usize + 1)?;
        Ok(Queue {
            limit,
            marks: 0,
            records,
        })
    }

    /// Returns a copy: the limit, and the records that wait, the oldest first, in a buffer as large as this one.
    ///
    /// # Errors
    /// `ENOMEM`, where there is no memory for the buffer or for a name.
    pub fn copy(&self) -> Result<Queue, Refusal>
        ensures queue { IfOk result (λ queue. queue ≡ self.now) }
        ensures err { IfErr result (λ refusal. refusal ≡ Enomem) }
    {
        let alloc = *self.records.allocator();
        let mut records = HeapCircularBuffer::with_capacity(alloc, self.records.capacity())?;
        for event in self.records.iter() {
            records.push_back(event.copy()?);
        }
        Ok(Queue {
            limit: self.limit,
            marks: self.marks,
            records,
        })
    }

    /// Takes in an event that was delivered.
    ///
    /// - Where it is identical to the last record that waits (the same wd, mask, cookie and name), it is merged.
    ///   This is looked at first; Linux looks at the limit first.
    /// - Else, where fewer records than the limit wait, it is kept.
    /// - Else it is lost, and an overflow mark (wd -1, mask `IN_Q_OVERFLOW`, cookie 0, no name) waits, which joins now
    ///   unless one waits already.
    #[tactic(auto, using(crate::proofs::OfferLemmas::offers))]
    #[inline(always)]
    pub fn offer(&mut self, event: Event) -> Offered
        ensures answer { result ≡ offered self.old.limit self.old.waiting event }
        ensures queue { self.new ≡ after_offer self.old event }
    {
        if self.ends_with(&event) {
            return Offered::Merged;
        }
        if self.len() < self.limit as usize {
            self.enqueue(event);
            return Offered::Kept;
        }
        if self.has_mark() {
            return Offered::Lost;
        }
        self.enqueue(overflow_mark());
        Offered::Marked
    }

    /// How many of the oldest records fit whole into `bytes` bytes, as read(2) gives them, as many as possible. 0 where
    /// none waits, or where the oldest does not fit.
    pub fn fit(&self, bytes: usize) -> usize
        ensures count { result ≡ fitting bytes self.now.waiting }
        ensures greatest { IsGreatestFit bytes self.now.waiting result }
    {
        self.fit_len(bytes).count
    }

    /// What [`Queue::fit`] answers, and how many bytes those records take.
    ///
    /// It looks at those records and the next one alone.
    #[tactic(auto, using(crate::proofs::ReadLemmas::fitting_is_greatest))]
    pub fn fit_len(&self, bytes: usize) -> Fit
        ensures count { result.count ≡ fitting bytes self.now.waiting }
        ensures len { result.len ≡ length (spelling (take result.count self.now.waiting)) }
        ensures greatest { IsGreatestFit bytes self.now.waiting result.count }
    {
        let mut fit = Fit { count: 0, len: 0 };
        for event in self.records.iter() {
            let len = record_len(event);
            if bytes - fit.len < len {
                return fit;
            }
            fit.count += 1;
            fit.len += len;
        }
        fit
    }

    /// Whether any record fits whole into `bytes` bytes, which the oldest decides.
    pub fn any_fits(&self, bytes: usize) -> bool
        ensures { result ≡ nat_lt 0 (fitting bytes self.now.waiting) }
    {
        let Some(oldest) = self.records.front() else {
            return false;
        };
        record_len(oldest) <= bytes
    }

    /// The record that is read after `index` others.
    pub fn peek(&self, index: usize) -> Option<&Event>
        ensures { option_copied result ≡ slice_get self.now.waiting index }
    {
        self.records.get(index)
    }

    /// Reads the oldest record: it is moved out of the queue. `None` where none waits.
    #[tactic(auto, using(crate::proofs::OfferLemmas::takes))]
    pub fn take(&mut self) -> Option<Event>
        ensures record { result ≡ slice_get self.old.waiting 0 }
        ensures queue { self.new ≡ after_take self.old }
    {
        let event = self.records.pop_front()?;
        if is_mark(&event) {
            self.marks -= 1;
        }
        Some(event)
    }

    /// Reads the `count` oldest records, or all if fewer wait: they are dropped, as by [`Queue::take`] of each.
    ///
    /// Where no record is left, the next one is kept where the oldest was, so that a queue that is read whole over and
    /// over stays in the same part of its buffer.
    pub fn drop_oldest(&mut self, count: usize)
        ensures { self.new ≡ record self.old { waiting = drop count self.old.waiting } }
    {
        if self.len() <= count {
            self.records.clear();
            self.marks = 0;
        } else if self.marks == 0 {
            self.records.truncate_front(self.records.len() - count);
        } else {
            self.take_each(count);
        }
    }

    /// Takes `count` records, one by one.
    fn take_each(&mut self, count: usize)
        ensures { self.new ≡ record self.old { waiting = drop count self.old.waiting } }
    {
        for _ in 0..count {
            self.take();
        }
    }

    /// How many records wait, an overflow mark counted: at most one more than the limit.
    pub fn len(&self) -> usize
        ensures len { result ≡ length self.now.waiting }
        ensures within { result ≤ self.now.limit + 1 }
    {
        self.records.len()
    }

    /// Whether no record waits.
    pub fn is_empty(&self) -> bool
        ensures { result ≡ (length self.now.waiting == 0) }
    {
        self.records.is_empty()
    }

    /// How many records may wait before events are lost: 1 to 65,535.
    pub fn limit(&self) -> u32
        ensures value { result ≡ self.now.limit }
        ensures within { IsLimit result }
    {
        self.limit
    }

    /// Whether the last record that waits is identical to the event.
    #[tactic(auto, unfolding(crate::specs::Backlogs::is_repeated))]
    fn ends_with(&self, event: &Event) -> bool
        ensures { result ≡ is_repeated self.now.waiting event.now }
    {
        match self.records.back() {
            Some(last) => is_identical(last, event),
            None => false,
        }
    }

    /// Whether an overflow mark waits. If none does, the slot beyond the limit is free.
    fn has_mark(&self) -> bool
        ensures value { result ≡ has_mark self.now.waiting }
        ensures room { result ≡ false → length self.now.waiting ≤ self.now.limit }
    {
        0 < self.marks
    }

    /// Appends a record. The slot beyond the limit is for a mark.
    #[tactic(auto, using(crate::proofs::OfferLemmas::enqueues))]
    #[inline(always)]
    fn enqueue(&mut self, event: Event)
        requires room { length self.old.waiting ≤ self.old.limit }
        requires slot { self.old.limit ≤ length self.old.waiting → is_mark event ≡ true }
        ensures { self.new ≡ record self.old { waiting = self.old.waiting ++ event ∷ [] } }
    {
        if is_mark(&event) {
            self.marks += 1;
        }
        let Ok(()) = self.records.try_push_back(event) else {
            unreachable!()
        };
    }
}

/// The record that says that events were lost.
#[tactic(auto, unfolding(crate::specs::Backlogs::overflow_mark))]
fn overflow_mark() -> Event
    ensures { result ≡ overflow_mark }
{
    Event {
        wd: -1,
        mask: bits::IN_Q_OVERFLOW,
        cookie: 0,
        name: None,
    }
}

/// Whether an event is an overflow mark. The descriptor mostly says that it is not.
#[tactic(auto, using(crate::proofs::EventLemmas::is_mark_other), unfolding(crate::specs::Backlogs::is_mark))]
#[inline(always)]
fn is_mark(event: &Event) -> bool
    ensures { result ≡ is_mark event.now }
{
    if event.wd != -1 {
        return false;
    }
    is_identical(event, &overflow_mark())
}

/// Whether two events have the same descriptor, mask, cookie and name.
#[tactic(auto, using(crate::proofs::EventLemmas::event_eq_regrouped))]
fn is_identical(left: &Event, right: &Event) -> bool
    ensures { result ≡ event_eq left.now right.now }
{
    left == right
}
