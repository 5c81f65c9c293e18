//! Calls, by each way that they are made, with their entries of the journal, and each limit at its last value.

use super::*;

/// A call, and what it answers.
type Told = (Ask<'static>, Gives<'static>);

// Each call, also refused: instance 2 has a pipe.
const STORY: [Told; 57] = [
    (Ask::Create("/f"), Gives::Number(2)),
    (Ask::Write("/f", 3, "ab"), Gives::Count(2)),
    (Ask::ReadFile("/f", 0, 10), Gives::Contents("\0\0\0ab")),
    (Ask::ReadFile("/f", 9, 1), Gives::Contents("")),
    (Ask::Stat("/f"), Gives::File(2, 0o644, 1, 5)),
    (Ask::Stat("/"), Gives::Directory(1, 0o755)),
    (Ask::Truncate("/f", 1), Gives::Filed),
    (Ask::Chmod("/f", 0o600), Gives::Filed),
    (Ask::Stat("/f"), Gives::File(2, 0o600, 1, 1)),
    (Ask::Mkdir("/d"), Gives::Number(3)),
    (Ask::Link("/f", "/d/g"), Gives::Filed),
    (Ask::Stat("/d/g"), Gives::File(2, 0o600, 2, 1)),
    (Ask::Unlink("/f"), Gives::Filed),
    (Ask::Rename("/d/g", "/h"), Gives::Filed),
    (Ask::List("/"), Gives::Names(&["d", "h"])),
    (Ask::Exchange("/d", "/h"), Gives::Filed),
    (Ask::Rmdir("/h"), Gives::Filed),
    (Ask::Create("/d"), Gives::Refused(Refusal::Eexist)),
    (Ask::Mkdir("/e"), Gives::Number(4)),
    (Ask::Init(0), Gives::Refused(Refusal::Einval)),
    (Ask::Init(65_536), Gives::Refused(Refusal::Einval)),
    (Ask::InitPiped(u32::MAX), Gives::Refused(Refusal::Einval)),
    (Ask::Init(65_535), Gives::Instance(1)),
    (Ask::InitPiped(10), Gives::Instance(2)),
    (Ask::Watch(3, "/", 0x100), Gives::Refused(Refusal::Ebadf)),
    (Ask::Watch(1, "/", 0x100), Gives::Wd(1)),
    (Ask::Watch(2, "/", 0x148), Gives::Wd(1)),
    (Ask::Read(1, 0), Gives::Refused(Refusal::Eagain)),
    (Ask::Pump(2, 0), Gives::Refused(Refusal::Eagain)),
    (Ask::Create("/f"), Gives::Number(5)),
    (Ask::Read(3, ALL), Gives::Refused(Refusal::Ebadf)),
    (Ask::Pump(3, ALL), Gives::Refused(Refusal::Ebadf)),
    (Ask::Read(2, ALL), Gives::Refused(Refusal::Piped)),
    (Ask::Pump(1, ALL), Gives::Refused(Refusal::NotPiped)),
    (Ask::Read(1, 31), Gives::Refused(Refusal::Einval)),
    (Ask::Pump(2, 31), Gives::Refused(Refusal::Einval)),
    (Ask::Pump(2, 0), Gives::Refused(Refusal::Einval)),
    (Ask::Read(1, 32), Gives::Records(&[(1, 0x100, 0, "f")])),
    (Ask::Rename("/f", "/g"), Gives::Filed),
    // One byte less than three records take.
    (
        Ask::Pump(2, 95),
        Gives::Records(&[(1, 0x100, 0, "f"), (1, 0x8, 0, "f")]),
    ),
    (Ask::Pump(2, ALL), Gives::Records(&[(1, 0x40, 4, "f")])),
    (Ask::Pump(2, 32), Gives::Refused(Refusal::Eagain)),
    (Ask::Read(1, ALL), Gives::Refused(Refusal::Eagain)),
    (Ask::Unwatch(1, -1), Gives::Refused(Refusal::Einval)),
    (Ask::Unwatch(1, 1), Gives::Done),
    (Ask::Read(1, 16), Gives::Records(&[(1, 0x8000, 0, "")])),
    (Ask::Close(3), Gives::Refused(Refusal::Ebadf)),
    (Ask::Close(0), Gives::Refused(Refusal::Ebadf)),
    (Ask::Create("/i"), Gives::Number(6)),
    (Ask::Close(1), Gives::Done),
    (Ask::Read(1, ALL), Gives::Refused(Refusal::Ebadf)),
    (Ask::Close(2), Gives::Done),
    (Ask::Pump(2, ALL), Gives::Refused(Refusal::Ebadf)),
    (Ask::Init(10), Gives::Instance(3)),
    (Ask::List("/"), Gives::Names(&["d", "e", "g", "i"])),
    (Ask::Stat("/d"), Gives::File(2, 0o600, 1, 1)),
    (Ask::Stat("/gone"), Gives::Refused(Refusal::Enoent)),
];

// Calls on a tree of low limits. The comments say which limit is reached.
const LAST: [Told; 61] = [
    // File numbers 1 to 4.
    (Ask::Create("/a"), Gives::Number(2)),
    (Ask::Create("/b"), Gives::Number(3)),
    (Ask::Mkdir("/c"), Gives::Number(4)),
    (Ask::Create("/e"), Gives::Refused(Refusal::NumbersSpent)),
    (Ask::Mkdir("/e"), Gives::Refused(Refusal::NumbersSpent)),
    (Ask::Unlink("/b"), Gives::Filed),
    (Ask::Create("/b"), Gives::Refused(Refusal::NumbersSpent)),
    (Ask::List("/"), Gives::Names(&["a", "c"])),
    // 4 bytes of a file, and 2 links.
    (Ask::Write("/a", 0, "abcd"), Gives::Count(4)),
    (Ask::Write("/a", 4, "e"), Gives::Refused(Refusal::Efbig)),
    (
        Ask::Write("/a", u64::MAX, "e"),
        Gives::Refused(Refusal::Efbig),
    ),
    (Ask::Write("/a", u64::MAX, ""), Gives::Count(0)),
    (Ask::Truncate("/a", 5), Gives::Refused(Refusal::Efbig)),
    (Ask::Truncate("/a", 4), Gives::Filed),
    (Ask::Link("/a", "/l"), Gives::Filed),
    (Ask::Link("/a", "/m"), Gives::Refused(Refusal::Emlink)),
    (Ask::Stat("/a"), Gives::File(2, 0o644, 2, 4)),
    (Ask::ReadFile("/a", 0, 9), Gives::Contents("abcd")),
    // A queue of 1 record, and 1 instance at a time.
    (Ask::Init(2), Gives::Refused(Refusal::Einval)),
    (Ask::InitPiped(2), Gives::Refused(Refusal::Einval)),
    (Ask::Init(0), Gives::Refused(Refusal::Einval)),
    (Ask::Init(1), Gives::Instance(1)),
    (Ask::Init(1), Gives::Refused(Refusal::Emfile)),
    (Ask::InitPiped(1), Gives::Refused(Refusal::Emfile)),
    // 1 watch at a time, and 2 watch descriptors.
    (Ask::Watch(1, "/a", 0x4), Gives::Wd(1)),
    (Ask::Watch(1, "/c", 0x4), Gives::Refused(Refusal::Enospc)),
    (Ask::Watch(1, "/a", 0x2), Gives::Wd(1)),
    (Ask::Chmod("/c", 0o755), Gives::Filed),
    (Ask::Read(1, ALL), Gives::Refused(Refusal::Eagain)),
    (Ask::Unwatch(1, 1), Gives::Done),
    (Ask::Read(1, ALL), Gives::Records(&[(1, 0x8000, 0, "")])),
    (Ask::Watch(1, "/", 0x40), Gives::Wd(2)),
    (Ask::Watch(1, "/", 0xc0), Gives::Wd(2)),
    // 2 cookies, of which an exchange takes two.
    (Ask::Rename("/c", "/d"), Gives::Filed),
    (
        Ask::Read(1, ALL),
        Gives::Records(&[(2, 0x4000_0040, 1, "c"), (-1, 0x4000, 0, "")]),
    ),
    (
        Ask::Exchange("/a", "/d"),
        Gives::Refused(Refusal::CookiesSpent),
    ),
    (Ask::Exchange("/a", "/a"), Gives::Filed),
    (Ask::Stat("/d"), Gives::Directory(4, 0o755)),
    (Ask::Read(1, ALL), Gives::Refused(Refusal::Eagain)),
    (Ask::Rename("/d", "/c"), Gives::Filed),
    (
        Ask::Read(1, ALL),
        Gives::Records(&[(2, 0x4000_0040, 2, "d"), (-1, 0x4000, 0, "")]),
    ),
    (
        Ask::Rename("/c", "/d"),
        Gives::Refused(Refusal::CookiesSpent),
    ),
    (Ask::Rename("/a", "/l"), Gives::Filed),
    (Ask::Rename("/a", "/a"), Gives::Filed),
    (
        Ask::Rename("/l", "/n"),
        Gives::Refused(Refusal::CookiesSpent),
    ),
    (Ask::List("/"), Gives::Names(&["a", "c", "l"])),
    (Ask::Stat("/a"), Gives::File(2, 0o644, 2, 4)),
    (Ask::Read(1, ALL), Gives::Refused(Refusal::Eagain)),
    // All watch descriptors were given.
    (Ask::Unwatch(1, 2), Gives::Done),
    (Ask::Watch(1, "/c", 0x4), Gives::Refused(Refusal::Enospc)),
    (Ask::Watch(1, "/", 0x4), Gives::Refused(Refusal::Enospc)),
    (Ask::Read(1, ALL), Gives::Records(&[(2, 0x8000, 0, "")])),
    // And both numbers of instances.
    (Ask::Close(1), Gives::Done),
    (Ask::InitPiped(1), Gives::Instance(2)),
    (Ask::Init(1), Gives::Refused(Refusal::Emfile)),
    (Ask::Watch(2, "/a", 0x4), Gives::Wd(1)),
    (Ask::Chmod("/a", 0o600), Gives::Filed),
    (Ask::Close(2), Gives::Done),
    (Ask::Init(1), Gives::Refused(Refusal::Emfile)),
    (Ask::InitPiped(1), Gives::Refused(Refusal::Emfile)),
    (Ask::Stat("/c"), Gives::Directory(4, 0o755)),
];

/// The limits of those calls.
fn low_limits() -> Limits {
    let mut limits = Limits::full();
    limits.numbers = 4;
    limits.file_bytes = 4;
    limits.links = 2;
    limits.instances = 1;
    limits.ids = 2;
    limits.watches = 1;
    limits.wds = 2;
    limits.queue = 1;
    limits.cookies = 2;
    limits.journal = 61;
    limits
}

/// Whether all that a call gave is as its entry says.
fn is_given(rt: &impl Abort, alloc: Global, given: &Given, entry: &Entry) -> bool {
    let is_replied = match &given.reply {
        Some(reply) => *reply == entry.reply,
        None => true,
    };
    let is_kept = match &given.kept {
        Some(kept) => {
            kept.place == given.place && kept.call == entry.call && kept.reply == entry.reply
        }
        None => true,
    };
    let are_records = match &given.events {
        Some(events) => Reply::Records(spelled(rt, alloc, events.as_slice())) == entry.reply,
        None => true,
    };
    is_replied && is_kept && are_records
}

/// How many records wait in the first two instances.
fn both_wait(tree: &State) -> (Option<usize>, Option<usize>) {
    (tree.waiting(1), tree.waiting(2))
}

/// The call of a row is answered so, and is the entry of this sequence number. A refused one changes no queue.
fn tells(rt: &impl Abort, alloc: Global, tree: &mut State, place: u64, way: Way, row: Told) {
    let (ask, wanted) = row;
    let entry = Entry {
        caller: CALLER,
        call: call(rt, alloc, ask),
        reply: reply(rt, alloc, wanted),
    };
    let before = both_wait(tree);
    let copy = entry.call.copy().expect(rt, "memory");
    let given = made(tree, copy, way).expect(rt, "a call");
    let is_given = is_given(rt, alloc, &given, &entry);
    let is_pumped = matches!(
        (way, ask, wanted),
        (Way::Keep, Ask::Pump(_, _), Gives::Records(_))
    );
    let are_records = given.events.is_some() == is_pumped;
    let is_last = tree.last_entry() == Some(&entry) && tree.entry(place) == Some(&entry);
    let is_as_before = !matches!(wanted, Gives::Refused(_)) || both_wait(tree) == before;
    let is_plain = !matches!(ask, Ask::InitPiped(_) | Ask::Pump(_, _));
    let is_copied = entry.reply.copy().expect(rt, "memory") == entry.reply;
    equal(
        rt,
        (given.place, is_given, are_records),
        (place, true, true),
    );
    equal(rt, (place, is_last, is_as_before), (place, true, true));
    equal(
        rt,
        (place, entry.call.is_plain(), is_copied),
        (place, is_plain, true),
    );
}

/// Plays a story on a new tree, each call in this way.
fn plays(rt: &impl Abort, alloc: Global, limits: Limits, way: Way, story: &[Told]) -> State {
    let mut tree = opened(rt, alloc, limits);
    let mut place = 0u64;
    let mut free = u64::from(limits.journal);
    for row in story {
        equal(rt, (tree.last_place(), tree.free_entries()), (place, free));
        place = place.saturating_add(1);
        free = free.saturating_sub(1);
        tells(rt, alloc, &mut tree, place, way, *row);
    }
    tree
}

#[test]
fn calls_are_journaled(rt: HostRuntime) {
    for way in WAYS {
        let _ = plays(&rt, rt.alloc(), Limits::full(), way, &STORY);
    }
}

/// At the end the journal is full too, by whichever way a call is made, until it is cut.
#[test]
fn limits_at_their_last_values(rt: HostRuntime) {
    let alloc = rt.alloc();
    for way in WAYS {
        let mut tree = plays(&rt, alloc, low_limits(), way, &LAST);
        for ask in [Ask::Create("/f"), Ask::Close(1), Ask::Pump(1, ALL)] {
            let made = made(&mut tree, call(&rt, alloc, ask), way).err();
            equal(
                &rt,
                (made, tree.last_place()),
                (Some(Refusal::JournalFull), 61),
            );
        }
        equal(
            &rt,
            (tree.free_entries(), tree.cut(), tree.free_entries()),
            (0, Ok(61), 61),
        );
        tells(
            &rt,
            alloc,
            &mut tree,
            62,
            way,
            (Ask::Stat("/c"), Gives::Directory(4, 0o755)),
        );
        equal(&rt, (tree.last_place(), tree.free_entries()), (62, 60));
    }
}

/// Receipts are equal where their sequence numbers and replies are.
#[test]
fn receipts_are_of_their_places(rt: HostRuntime) {
    for (place, reply, is_same) in [
        (3, Reply::Done, true),
        (4, Reply::Done, false),
        (3, Reply::Wd(1), false),
    ] {
        let first = Receipt {
            place: 3,
            reply: Reply::Done,
        };
        equal(&rt, first == Receipt { place, reply }, is_same);
    }
}
