//! Stories of a tree: seats, pipes with few slots and their feeds, and journals that are full.

ghost use Rattle.std.specs.Prelude.{◌≡◌};

use super::*;
use std::marker::Brand;

/// Each kind of instance refuses what is for the other.
const INSTANCES: &[(Act, Says)] = &[
    (Act::Opens(0, 1), Says::Refused(Refusal::Einval)),
    (Act::Takes(1), Says::NoFeed),
    (Act::Opens(16, 1), Says::Instance(1)),
    (Act::Takes(1), Says::Nothing),
    (Act::Reads(1), Says::Refused(Refusal::Piped)),
    (Act::Inits, Says::Instance(2)),
    (Act::Takes(2), Says::NoFeed),
    (Act::Pumps(2, 4096), Says::Refused(Refusal::NotPiped)),
    (Act::Pumps(9, 4096), Says::Refused(Refusal::Ebadf)),
    (Act::Pumps(1, 4096), Says::Refused(Refusal::Eagain)),
];

/// A full pipe is not pumped, and the pump is no entry. That the pipe is full is found also when nothing waits, where a
/// pump would otherwise be refused with `EAGAIN`.
const FULL_PIPE: &[(Act, Says)] = &[
    (Act::Opens(16, 1), Says::Instance(1)),
    (Act::Watches(1), Says::Wd(1)),
    (Act::Creates("/f"), Says::Number(2)),
    (Act::Pumps(1, 4096), Says::Records),
    (Act::Waits(1), Says::Waiting(Some(0))),
    (Act::Pumps(1, 4096), Says::Fails(Refusal::PipeFull)),
    (Act::Creates("/g"), Says::Number(3)),
    (Act::Pumps(1, 4096), Says::Fails(Refusal::PipeFull)),
    (Act::Waits(1), Says::Waiting(Some(1))),
    (Act::Takes(1), Says::Batch(4, 1)),
    (Act::Pumps(1, 4096), Says::Records),
    (Act::Waits(1), Says::Waiting(Some(0))),
    (Act::Takes(1), Says::Batch(6, 1)),
    (Act::Pumps(1, 4096), Says::Refused(Refusal::Eagain)),
    (Act::Takes(1), Says::Nothing),
];

/// The record that waits takes 32 bytes. If the pipe has a free slot, a pump of fewer is an entry, and reads nothing.
const NO_RECORD_FITS: &[(Act, Says)] = &[
    (Act::Opens(16, 1), Says::Instance(1)),
    (Act::Watches(1), Says::Wd(1)),
    (Act::Creates("/f"), Says::Number(2)),
    (Act::Pumps(1, 15), Says::Refused(Refusal::Einval)),
    (Act::Waits(1), Says::Waiting(Some(1))),
    (Act::Takes(1), Says::Nothing),
    (Act::Pumps(1, 32), Says::Records),
    (Act::Creates("/g"), Says::Number(3)),
    (Act::Pumps(1, 15), Says::Fails(Refusal::PipeFull)),
    (Act::Pumps(1, 0), Says::Fails(Refusal::PipeFull)),
    (Act::Pumps(1, 31), Says::Fails(Refusal::PipeFull)),
    (Act::Waits(1), Says::Waiting(Some(1))),
    (Act::Takes(1), Says::Batch(5, 1)),
    (Act::Pumps(1, 31), Says::Refused(Refusal::Einval)),
    (Act::Waits(1), Says::Waiting(Some(1))),
    (Act::Takes(1), Says::Nothing),
];

/// A close needs a free slot for the end batch.
const END_BATCH: &[(Act, Says)] = &[
    (Act::Opens(16, 1), Says::Instance(1)),
    (Act::Watches(1), Says::Wd(1)),
    (Act::Creates("/f"), Says::Number(2)),
    (Act::Pumps(1, 4096), Says::Records),
    (Act::Closes(1), Says::Fails(Refusal::PipeFull)),
    (Act::Waits(1), Says::Waiting(Some(0))),
    (Act::Takes(1), Says::Batch(4, 1)),
    (Act::Closes(1), Says::Done),
    (Act::Waits(1), Says::Waiting(None)),
    (Act::Takes(1), Says::Batch(5, 0)),
    (Act::Takes(1), Says::Nothing),
];

/// Each feed has its own pipe.
const TWO_PIPES: &[(Act, Says)] = &[
    (Act::Opens(16, 4), Says::Instance(1)),
    (Act::Opens(16, 4), Says::Instance(2)),
    (Act::Watches(1), Says::Wd(1)),
    (Act::Watches(2), Says::Wd(1)),
    (Act::Creates("/f"), Says::Number(2)),
    (Act::Pumps(1, 4096), Says::Records),
    (Act::Takes(2), Says::Nothing),
    (Act::Creates("/g"), Says::Number(3)),
    (Act::Pumps(2, 4096), Says::Records),
    (Act::Takes(1), Says::Batch(6, 1)),
    (Act::Takes(1), Says::Nothing),
    (Act::Takes(2), Says::Batch(8, 2)),
    (Act::Takes(2), Says::Nothing),
];

/// A full pipe whose feed is dropped stays full.
const DROPPED_FEED: &[(Act, Says)] = &[
    (Act::Opens(16, 1), Says::Instance(1)),
    (Act::Watches(1), Says::Wd(1)),
    (Act::Drops, Says::Done),
    (Act::Creates("/f"), Says::Number(2)),
    (Act::Pumps(1, 4096), Says::Records),
    (Act::Creates("/g"), Says::Number(3)),
    (Act::Pumps(1, 4096), Says::Fails(Refusal::PipeFull)),
    (Act::Closes(1), Says::Fails(Refusal::PipeFull)),
    (Act::Waits(1), Says::Waiting(Some(1))),
];

/// A pipe has as many slots as were asked for.
const THREE_SLOTS: &[(Act, Says)] = &[
    (Act::Opens(16, 3), Says::Instance(1)),
    (Act::Watches(1), Says::Wd(1)),
    (Act::Creates("/f"), Says::Number(2)),
    (Act::Pumps(1, 4096), Says::Records),
    (Act::Creates("/g"), Says::Number(3)),
    (Act::Pumps(1, 4096), Says::Records),
    (Act::Creates("/h"), Says::Number(4)),
    (Act::Pumps(1, 4096), Says::Records),
    (Act::Creates("/i"), Says::Number(5)),
    (Act::Pumps(1, 4096), Says::Fails(Refusal::PipeFull)),
    (Act::Takes(1), Says::Batch(4, 1)),
    (Act::Pumps(1, 4096), Says::Records),
    (Act::Closes(1), Says::Fails(Refusal::PipeFull)),
];

/// What was pumped before a cut, and what waits then, reaches the feed.
const CUT_BETWEEN: &[(Act, Says)] = &[
    (Act::Opens(16, 4), Says::Instance(1)),
    (Act::Watches(1), Says::Wd(1)),
    (Act::Creates("/f"), Says::Number(2)),
    (Act::Pumps(1, 4096), Says::Records),
    (Act::Creates("/g"), Says::Number(3)),
    (Act::Cuts, Says::Cut(5)),
    (Act::Waits(1), Says::Waiting(Some(1))),
    (Act::Pumps(1, 4096), Says::Records),
    (Act::Closes(1), Says::Done),
    (Act::Takes(1), Says::Batch(4, 1)),
    (Act::Takes(1), Says::Batch(6, 1)),
    (Act::Takes(1), Says::Batch(7, 0)),
    (Act::Takes(1), Says::Nothing),
];

/// Each limit that pipes, seats and the journal have, at its last value. A full pipe is found before a full journal. A
/// full journal takes no call until it is cut.
const LIMITED: &[(Act, Says)] = &[
    (Act::Opens(2, 1), Says::Refused(Refusal::Einval)),
    (Act::Opens(1, 1), Says::Instance(1)),
    (Act::Opens(1, 1), Says::Refused(Refusal::Emfile)),
    (Act::Inits, Says::Refused(Refusal::Einval)),
    (Act::Closes(1), Says::Done),
    (Act::Opens(1, 1), Says::Instance(2)),
    (Act::Watches(2), Says::Wd(1)),
    (Act::Creates("/f"), Says::Number(2)),
    (Act::Pumps(2, 4096), Says::Records),
    (Act::Creates("/g"), Says::Number(3)),
    (Act::Frees, Says::Free(0)),
    (Act::Creates("/h"), Says::Fails(Refusal::JournalFull)),
    (Act::Opens(1, 1), Says::Fails(Refusal::JournalFull)),
    (Act::Pumps(1, 4096), Says::Fails(Refusal::JournalFull)),
    (Act::Pumps(2, 4096), Says::Fails(Refusal::PipeFull)),
    (Act::Closes(2), Says::Fails(Refusal::PipeFull)),
    (Act::Takes(2), Says::Batch(9, 1)),
    (Act::Pumps(2, 4096), Says::Fails(Refusal::JournalFull)),
    (Act::Closes(2), Says::Fails(Refusal::JournalFull)),
    (Act::Cuts, Says::Cut(10)),
    (Act::Frees, Says::Free(10)),
    (Act::Creates("/h"), Says::Number(4)),
    (Act::Pumps(2, 4096), Says::Records),
    (Act::Takes(2), Says::Batch(12, 2)),
    (Act::Closes(2), Says::Done),
    (Act::Opens(1, 1), Says::Refused(Refusal::Emfile)),
];

/// The limits of that story.
fn low_limits() -> Limits {
    let mut limits = Limits::full();
    limits.queue = 1;
    limits.instances = 1;
    limits.ids = 2;
    limits.journal = 10;
    limits.seats = 1;
    limits
}

/// The other stories.
const STORIES: [&[(Act, Says)]; 8] = [
    INSTANCES,
    FULL_PIPE,
    NO_RECORD_FITS,
    END_BATCH,
    TWO_PIPES,
    DROPPED_FEED,
    THREE_SLOTS,
    CUT_BETWEEN,
];

/// Plays a story with a new tree. The seat is number 1, and keeps each call that made an entry. Returns why there is no
/// other seat.
fn start<L: Ledger>(
    rt: &impl Abort,
    alloc: Global,
    blank: Blank,
    limits: Limits,
    story: &[(Act, Says)],
) -> Option<Refusal>
    requires name { blank.name ≡ L.name }
    requires parts { (blank.parts ≡ L.parts) × (blank.parts ≡ 65537) }
{
    let mut stage = Stage::<L>::new(rt, alloc, blank, limits);
    stage.plays(rt, alloc, story);
    let Stage {
        mut pass,
        seat,
        last,
        ..
    } = stage;
    let log = pass.join(seat);
    equal(
        rt,
        (log.number, log.kept.as_slice().len() as u64),
        (1, last),
    );
    pass.seat().err()
}

/// Plays a story with a new tree.
fn plays(rt: &impl Abort, alloc: Global, limits: Limits, story: &[(Act, Says)]) -> Option<Refusal> {
    start::<Brand>(rt, alloc, Blank::new(65537), limits, story)
}

#[test]
fn stories_come_to_what_they_say(rt: HostRuntime) {
    for story in &STORIES {
        equal(&rt, plays(&rt, rt.alloc(), Limits::full(), story), None);
    }
}

#[test]
fn limits_at_their_last_values(rt: HostRuntime) {
    let no_seat = plays(&rt, rt.alloc(), low_limits(), LIMITED);
    equal(&rt, no_seat, Some(Refusal::SeatsSpent));
}
