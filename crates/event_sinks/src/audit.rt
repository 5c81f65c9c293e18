//! Whether a book, the logs of its seats, and the listeners that ended agree.

ghost use Rattle.std.specs.Prelude.{◌≡◌};
ghost use Rattle.event_sinks.specs.declared.audit.SettleFault.TheVariants.{Memory};
ghost use Rattle.event_sinks.specs.Audited.{Settles, outcomes};

use crate::listener::Ended;
use crate::served::first_unserved;
use crate::strays::{are_as_many, count_calls, first_stray};
use shared_tree::{Book, SeatLog};
use std::alloc::{AllocError, Global};
use thiserror::Error;

/// What was settled.
#[derive(Clone, Copy, Debug, PartialEq, Eq)]
pub struct Settled {
    /// How many entries the journal has.
    pub entries: u64,
    /// How many calls the seats kept, which is the same number.
    pub calls: u64,
}

/// Why a book was not settled: the first that holds, in this order. What is said of instances is said of the least
/// number with which anything is wrong.
#[derive(Clone, Copy, Debug, PartialEq, Eq, Error)]
pub enum SettleFault {
    /// The journal has another number of entries than the seats kept calls. A number of calls that a `u64` can't hold
    /// is reported as its greatest value.
    #[error("CountDiffers {entries} {calls}")]
    CountDiffers {
        /// How many entries the journal has.
        entries: u64,
        /// How many calls the seats kept.
        calls: u64,
    },
    /// The seat of this number, the first in the order handed in, kept a call that is not the journal's entry of its
    /// sequence number, or whose sequence number was kept before, or is not above that of the call before it.
    #[error("Stray {0}")]
    Stray(u32),
    /// No listener ended for the instance of this number, or the first one did not end by the end batch.
    #[error("NotEnded {0}")]
    NotEnded(u32),
    /// The listener was handed other batches than the journal hands to the instance.
    #[error("HandedDiffers {instance} {place}")]
    HandedDiffers {
        /// The number of the instance.
        instance: u32,
        /// The sequence number of the first batch that is not the one handed at its index, or of the first one handed
        /// past the end. It is 0 for a second listener, and if the book has no pipe of that number.
        place: u64,
    },
    /// There was no memory to settle. Any fault may then stand unsaid.
    #[error("out of memory")]
    Memory,
}

impl From<AllocError> for SettleFault {
    ghost from_gives = { λ _ e. e ≡ Memory };

    fn from(_e: AllocError) -> SettleFault {
        SettleFault::Memory
    }
}

/// Settles a book: each entry is a call that its seat kept, and each pipe's listener was handed what the journal hands
/// over, whole and in order. It takes time in proportion to the kept calls, entries and batches, and copies none of
/// them. It takes memory for a mark for each kept call, and for what it knows of each instance.
///
/// # Errors
/// The first [`SettleFault`] that holds; `Memory` in place of any, if out of memory.
pub fn settle<S: Drop>(
    alloc: Global,
    book: Book,
    logs: Vec<SeatLog>,
    ended: Vec<Ended<S>>,
) -> Result<Settled, SettleFault>
    ensures { Settles book logs.items (outcomes ended.items) result }
{
    let entries = book.entries();
    if !are_as_many(entries, logs.as_slice()) {
        let calls = count_calls(logs.as_slice());
        return Err(SettleFault::CountDiffers { entries, calls });
    }
    if let Some(number) = first_stray(alloc, &book, logs.as_slice())? {
        return Err(SettleFault::Stray(number));
    }
    match first_unserved(alloc, &book, ended.as_slice())? {
        Some(fault) => Err(fault),
        None => Ok(Settled {
            entries,
            calls: entries,
        }),
    }
}
