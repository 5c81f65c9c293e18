//! Masks, and watches by tables of steps: what joins, what is replaced, what ends, and what is refused.

use bitflags::Flags;
use record_codec::bits::{IN_ALL_EVENTS, IN_ATTRIB, IN_CREATE, IN_DELETE, IN_MODIFY, IN_ONLYDIR};
use std::process::Abort;
use tree_paths::{Limits, Refusal};
use watch_table::{Mask, Watches};

/// A call and its answer, or what is watched.
#[derive(Clone, Copy, Debug)]
pub(crate) enum Step {
    /// A watch for these bits, of the file or of the directory of this number.
    File(u32, u32, Result<i32, Refusal>),
    Directory(u32, u32, Result<i32, Refusal>),
    Remove(i32, Result<(), Refusal>),
    DropFile(u32, Option<i32>),
    /// The watch of a file, and the file of a watch.
    Has(u32, Option<(i32, u32)>),
    Watched(i32, Option<u32>),
    /// How many watches there are, and the next descriptor.
    Counts(usize, u32),
}

const JOINED: [Step; 18] = [
    Step::Counts(0, 1),
    Step::Has(7, None),
    Step::Directory(7, IN_CREATE, Ok(1)),
    Step::Has(7, Some((1, 0x100))),
    Step::Directory(7, 0xa000_0200, Ok(1)),
    Step::Has(7, Some((1, 0x8000_0300))),
    Step::Directory(7, 0x2000_0001, Ok(1)),
    Step::Has(7, Some((1, 0x8000_0301))),
    Step::Directory(7, 0x0100_0200, Ok(1)),
    Step::Has(7, Some((1, 0x200))),
    // A file that is not watched yet gets the bits of the call, also to be joined.
    Step::File(3, 0x2600_4002, Ok(2)),
    Step::Has(3, Some((2, 0x2))),
    Step::File(3, 0x0100_0fff, Err(Refusal::Enotdir)),
    Step::Has(3, Some((2, 0x2))),
    // Under MASK_CREATE a file that is watched already is refused, after a look at ONLYDIR, and keeps its bits.
    Step::File(3, 0x1000_0001, Err(Refusal::Eexist)),
    Step::File(3, 0x1100_0001, Err(Refusal::Enotdir)),
    Step::Has(3, Some((2, 0x2))),
    Step::Counts(2, 3),
];

const ENDED: [Step; 14] = [
    Step::File(9, IN_ALL_EVENTS, Ok(1)),
    Step::File(4, IN_ALL_EVENTS, Ok(2)),
    Step::File(6, IN_ALL_EVENTS, Ok(3)),
    Step::Counts(3, 4),
    Step::Watched(1, Some(9)),
    Step::Watched(-1, None),
    Step::Remove(1, Ok(())),
    Step::Remove(1, Err(Refusal::Einval)),
    Step::Has(9, None),
    Step::DropFile(6, Some(3)),
    Step::DropFile(6, None),
    Step::Remove(3, Err(Refusal::Einval)),
    Step::File(9, IN_ALL_EVENTS, Ok(4)),
    Step::Counts(2, 5),
];

// Of a copy of the watches that JOINED leaves, and then of these watches themselves.
const COPIED: [Step; 4] = [
    Step::Has(7, Some((1, 0x200))),
    Step::Remove(1, Ok(())),
    Step::File(9, IN_CREATE, Ok(3)),
    Step::Counts(2, 4),
];

const LEFT: [Step; 4] = [
    Step::Has(7, Some((1, 0x200))),
    Step::Has(3, Some((2, 0x2))),
    Step::Has(9, None),
    Step::Counts(2, 3),
];

// Of an instance that may watch one file.
const ONE_FILE: [Step; 6] = [
    Step::File(5, IN_MODIFY, Ok(1)),
    Step::File(6, IN_MODIFY, Err(Refusal::Enospc)),
    Step::File(6, 0x0100_0002, Err(Refusal::Enotdir)),
    Step::File(5, IN_ATTRIB, Ok(1)),
    Step::DropFile(5, Some(1)),
    Step::File(6, IN_MODIFY, Ok(2)),
];

// Of one that has two descriptors.
const TWO_DESCRIPTORS: [Step; 6] = [
    Step::File(5, IN_MODIFY, Ok(1)),
    Step::File(6, IN_MODIFY, Ok(2)),
    Step::File(7, IN_MODIFY, Err(Refusal::Enospc)),
    Step::Remove(1, Ok(())),
    Step::File(7, IN_MODIFY, Err(Refusal::Enospc)),
    Step::File(6, IN_ATTRIB, Ok(2)),
];

// Of one that watches the files 0, 7 and 14, and may watch no more.
pub(crate) const SMALL: [Step; 10] = [
    Step::Has(7, Some((2, IN_CREATE))),
    Step::Watched(3, Some(14)),
    Step::File(7, IN_DELETE, Ok(2)),
    Step::File(7, IN_DELETE | IN_ONLYDIR, Err(Refusal::Enotdir)),
    Step::File(21, IN_CREATE, Err(Refusal::Enospc)),
    Step::Remove(2, Ok(())),
    Step::Remove(2, Err(Refusal::Einval)),
    Step::DropFile(14, Some(3)),
    Step::Has(14, None),
    Step::Counts(1, 4),
];

/// Watches a file or a directory.
pub(crate) fn watch(
    watches: &mut Watches,
    number: u32,
    bits: u32,
    is_directory: bool,
) -> Result<i32, Refusal> {
    let mask = Mask::of(bits);
    if let Some(refusal) = mask.fault() {
        return Err(refusal);
    }
    watches.add(number, mask, is_directory)
}

/// Whether there are `len` watches, by rising numbers of files, and `next_wd` is the next descriptor.
fn are_counted(watches: &Watches, len: usize, next_wd: u32) -> bool {
    let (mut least, mut count) = (0, 0_usize);
    for number in watches.numbers() {
        if *number < least {
            return false;
        }
        least = number.saturating_add(1);
        count = count.saturating_add(1);
    }
    count == len
        && watches.len() == len
        && watches.is_empty() == (len == 0)
        && watches.next_wd() == next_wd
}

/// Whether a step goes as it says.
fn is_right(watches: &mut Watches, step: Step) -> bool {
    match step {
        Step::File(number, bits, answer) => watch(watches, number, bits, false) == answer,
        Step::Directory(number, bits, answer) => watch(watches, number, bits, true) == answer,
        Step::Remove(wd, answer) => watches.remove(wd) == answer,
        Step::DropFile(number, answer) => watches.drop_file(number) == answer,
        Step::Has(number, watch) => watches.of(number).map(|watch| (watch.wd, watch.mask)) == watch,
        Step::Watched(wd, number) => watches.watched_by(wd) == number,
        Step::Counts(len, next_wd) => are_counted(watches, len, next_wd),
    }
}

/// Makes the steps, each of which goes as it says.
pub(crate) fn plays(rt: &impl Abort, watches: &mut Watches, steps: &[Step]) {
    for (index, step) in steps.iter().enumerate() {
        let is_right = is_right(watches, *step);
        assert!(rt; is_right, "step {index}, {step:?}");
    }
}

#[test]
fn watches_join_and_end(rt: HostRuntime) {
    let alloc = rt.alloc();
    let limits = Limits::full();
    plays(&rt, &mut Watches::new(alloc, &limits), &ENDED);
    let mut watches = Watches::new(alloc, &limits);
    plays(&rt, &mut watches, &JOINED);
    let mut copy = watches.copy().expect(&rt, "memory");
    plays(&rt, &mut copy, &COPIED);
    plays(&rt, &mut watches, &LEFT);
    drop(watches);
    plays(&rt, &mut copy, &[Step::Has(9, Some((3, IN_CREATE)))]);
    let mut limits = Limits::full();
    limits.watches = 1;
    plays(&rt, &mut Watches::new(alloc, &limits), &ONE_FILE);
    let mut limits = Limits::full();
    limits.wds = 2;
    plays(&rt, &mut Watches::new(alloc, &limits), &TWO_DESCRIPTORS);
}

/// What a mask has, what a watch keeps of it, what a watch of 0x300 has after it, and why none takes it.
#[test]
fn masks(rt: HostRuntime) {
    let einval = Some(Refusal::Einval);
    for (bits, known, stored, next, fault) in [
        (0x0000_0001, 0x0000_0001, 0x1, 0x1, None),
        (0xffff_ffff, 0xb700_0fff, 0x8000_0fff, 0x8000_0fff, einval),
        (0xa100_0100, 0xa100_0100, 0x8000_0100, 0x8000_0300, None),
        (0x4000_f000, 0, 0, 0, einval),
        (0x8000_0000, 0x8000_0000, 0x8000_0000, 0x8000_0000, einval),
        (0x1000_0100, 0x1000_0100, 0x100, 0x100, None),
        (0x3000_0100, 0x3000_0100, 0x100, 0x300, einval),
        (0x1000_0000, 0x1000_0000, 0, 0, einval),
        (0x0600_0002, 0x0600_0002, 0x2, 0x2, None),
        (0x0100_0001, 0x0100_0001, 0x1, 0x1, None),
        (0xa000_0001, 0xa000_0001, 0x8000_0001, 0x8000_0301, None),
    ] {
        let mask = Mask::of(bits);
        let is_right = mask.bits() == known
            && mask.stored() == stored
            && mask.next_bits(0x300) == next
            && mask.fault() == fault;
        assert!(rt; is_right, "{bits:08x}");
    }
    let both = Mask::CREATE | Mask::DELETE;
    assert!(rt; both.contains(Mask::CREATE), "a mask of two");
}

/// Each bit by its name and its value: inotify(7), and inotify_add_watch(2).
#[test]
fn masks_have_names(rt: HostRuntime) {
    for (name, bits) in [
        ("ACCESS", 0x0000_0001),
        ("MODIFY", 0x0000_0002),
        ("ATTRIB", 0x0000_0004),
        ("CLOSE_WRITE", 0x0000_0008),
        ("CLOSE_NOWRITE", 0x0000_0010),
        ("OPEN", 0x0000_0020),
        ("MOVED_FROM", 0x0000_0040),
        ("MOVED_TO", 0x0000_0080),
        ("CREATE", 0x0000_0100),
        ("DELETE", 0x0000_0200),
        ("DELETE_SELF", 0x0000_0400),
        ("MOVE_SELF", 0x0000_0800),
        ("ALL_EVENTS", 0x0000_0fff),
        ("ONLYDIR", 0x0100_0000),
        ("DONT_FOLLOW", 0x0200_0000),
        ("EXCL_UNLINK", 0x0400_0000),
        ("MASK_CREATE", 0x1000_0000),
        ("MASK_ADD", 0x2000_0000),
        ("ONESHOT", 0x8000_0000),
    ] {
        let mask = Mask::from_name(name);
        assert!(rt; mask == Some(Mask::of(bits)), "{name}");
    }
    let isdir = Mask::from_name("ISDIR");
    assert!(rt; isdir == None, "ISDIR is of events alone");
}
