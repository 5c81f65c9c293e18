//! The two ends of a pipe, and what goes through it.

ghost use Rattle.std.specs.Prelude.{◌≡◌, ◌<◌, ◌↔◌, [], ◌∷◌, ◌++◌, IsTrue, IfOk, IfSome, IfNone, false};
ghost use Rattle.shared_tree.specs.Pipes.{fed};
ghost use Rattle.shared_tree.specs.PipeEnds.{piped};

use record_codec::Events;
use rtrb::{Consumer, Producer, RingBuffer};
use std::alloc::{AllocError, Global};
use std::marker::Model;

/// What one call handed over to the pipe of an instance.
#[derive(Debug, Drop, PartialEq, Eq)]
pub struct Batch {
    /// The number of the instance.
    pub instance: u32,
    /// The sequence number of the call's entry in the journal, from 1.
    pub place: u64,
    /// The records that were pumped, one at least. The end batch, which comes of the close, has none.
    pub records: Events,
}

impl Batch {
    /// Whether it is the end batch, after which none comes.
    pub fn is_last(&self) -> bool
        ensures { IsTrue result ↔ (self.now.records ≡ []) }
    {
        self.records.as_slice().is_empty()
    }
}

// The sending end. Contracts see what it has sent, and how many slots it knows to be free.
pub(crate) struct Pipe {
    producer: Producer<Batch>,
}

impl Drop for Pipe {
    fn drop(self) {
        let Pipe { producer: _ } = self;
    }
}

impl Model for Pipe {
    ghost use Rattle.rtrb.specs.Ring.{sent, known_free};
    ghost use Rattle.shared_tree.specs.PipeEnds.{Piped, piped};

    ghost Value = { Piped };

    ghost view = { λ p. piped (sent p.producer) (known_free p.producer) };
}

impl Pipe {
    /// Whether no slot is free. The listener may free one at any time.
    pub(crate) fn is_full(&mut self) -> bool
        ensures sent { self.new.sent ≡ self.old.sent }
        ensures free { result ≡ false → 0 < self.new.free }
    {
        self.producer.is_full()
    }

    /// Hands a batch over.
    pub(crate) fn push(&mut self, batch: Batch)
        requires { 0 < self.old.free }
        ensures { self.new.sent ≡ self.old.sent ++ batch ∷ [] }
    {
        self.producer.push_reserved(batch);
    }
}

/// The end of a pipe that takes. It belongs to a listener, who needs neither the tree nor its lock.
///
/// Contracts see the number of its instance, the batches that it has received, and how many slots the pipe has.
pub struct Feed {
    instance: u32,
    consumer: Consumer<Batch>,
}

impl Drop for Feed {
    fn drop(self) {
        let Feed {
            instance: _,
            consumer: _,
        } = self;
    }
}

impl Model for Feed {
    ghost use Rattle.rtrb.specs.Ring.{consumer_capacity, received};
    ghost use Rattle.shared_tree.specs.Pipes.{Fed, fed};

    ghost Value = { Fed };

    ghost view = { λ f. fed f.instance (received f.consumer) (consumer_capacity f.consumer) };
}

impl Feed {
    /// The next batch, if one has come. It does not wait, and takes no memory.
    pub fn take(&mut self) -> Option<Batch>
        ensures instance { self.new.instance ≡ self.old.instance }
        ensures slots { self.new.slots ≡ self.old.slots }
        ensures some { IfSome result (λ b. self.new.received ≡ self.old.received ++ b ∷ []) }
        ensures none { IfNone result (self.new ≡ self.old) }
    {
        self.consumer.pop().ok()
    }

    /// The number of the instance whose batches it takes.
    pub fn instance(&self) -> u32
        ensures { result ≡ self.now.instance }
    {
        self.instance
    }

    /// The same end, for the instance of a number.
    pub(crate) fn numbered(self, instance: u32) -> Feed
        ensures { result ≡ fed instance self.received self.slots }
    {
        let Feed {
            instance: _,
            consumer,
        } = self;
        Feed { instance, consumer }
    }
}

/// Makes a pipe with this number of slots. Its feed has no number yet.
pub(crate) fn open_pipe(alloc: Global, slots: usize) -> Result<(Pipe, Feed), AllocError>
    ensures { IfOk result (λ r. (r.0.sent ≡ []) × (r.1 ≡ fed 0 [] slots)) }
{
    let (producer, consumer) = RingBuffer::new(alloc, slots)?;
    Ok((
        Pipe { producer },
        Feed {
            instance: 0,
            consumer,
        },
    ))
}
