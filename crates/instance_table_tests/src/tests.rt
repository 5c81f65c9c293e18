//! The instances from outside: who receives what, when watches end, and who watches a file.

mod model;
mod refused;

use event_rules::{Audience, Notice};
use instance_table::{Instances, Staging};
use record_codec::bits::{
    IN_ALL_EVENTS, IN_CREATE, IN_DELETE_SELF, IN_IGNORED, IN_ONESHOT, IN_ONLYDIR,
};
use std::alloc::Global;
use std::process::Abort;
use tree_paths::{Limits, Refusal};
use watch_table::Mask;

const FILE: u32 = 5;

/// How many instances there may be at a time.
const MANY: u32 = 128;

/// A notice or a call about the file, or what is seen then.
#[derive(Clone, Copy, Debug)]
enum Step {
    Told(u32),
    Gone,
    Watch(u32, u32, Result<i32, Refusal>),
    Unwatch(u32),
    DropOldest(u32),
    Close(u32),
    /// What waits in an instance: a letter for each record, which is of its first watch.
    Waits(u32, &'static str),
    IsClosed(u32),
    /// How many instances there are, and the digits of those that watch the file.
    Has(usize, &'static str),
}

// Of instances 1 and 2, which watch the file for all events, and 3, which watches nothing.
const STORY: [Step; 36] = [
    Step::Has(3, "12"),
    Step::Told(IN_CREATE),
    Step::Waits(1, "c"),
    Step::Waits(2, "c"),
    Step::Waits(3, ""),
    Step::DropOldest(1),
    Step::Waits(1, ""),
    Step::Waits(2, "c"),
    // Another mask.
    Step::Watch(1, IN_DELETE_SELF, Ok(1)),
    Step::Told(IN_CREATE),
    Step::Waits(1, ""),
    Step::Told(IN_DELETE_SELF),
    Step::Waits(1, "d"),
    Step::Waits(2, "cd"),
    // A watch that is refused leaves no trace.
    Step::Watch(3, IN_CREATE | IN_ONLYDIR, Err(Refusal::Enotdir)),
    Step::Has(3, "12"),
    // A watch for one event.
    Step::Watch(3, IN_CREATE | IN_ONESHOT, Ok(1)),
    Step::Has(3, "123"),
    Step::Told(IN_DELETE_SELF),
    Step::Has(3, "123"),
    Step::Waits(3, ""),
    Step::Told(IN_CREATE),
    Step::Waits(3, "ci"),
    Step::Has(3, "12"),
    Step::Told(IN_CREATE),
    Step::Waits(3, "ci"),
    Step::Waits(2, "cdc"),
    Step::Unwatch(2),
    Step::Waits(2, "cdci"),
    Step::Has(3, "1"),
    Step::Close(1),
    Step::IsClosed(1),
    Step::Has(2, ""),
    Step::Told(IN_CREATE),
    Step::Waits(2, "cdci"),
    Step::Waits(3, "ci"),
];

// A file that is gone.
const GONE: [Step; 5] = [
    Step::Gone,
    Step::Waits(1, "i"),
    Step::Waits(2, "i"),
    Step::Waits(3, ""),
    Step::Has(3, ""),
];

// Of a copy.
const COPIED: [Step; 3] = [
    Step::Has(3, "12"),
    Step::Told(IN_CREATE),
    Step::Waits(2, "c"),
];

/// Opens an instance whose queue takes ten records, unless the number is taken.
fn open(instances: &mut Instances, id: u32) -> Result<(), Refusal> {
    if instances.get(id).is_some() {
        return Ok(());
    }
    instances.open(id, 10, false, &Limits::full())
}

/// Watches a regular file for an open instance, for bits that are no fault.
fn watch(instances: &mut Instances, id: u32, number: u32, bits: u32) -> Result<i32, Refusal> {
    let mask = Mask::of(bits);
    if instances.get(id).is_none() || mask.fault().is_some() {
        return Err(Refusal::Ebadf);
    }
    instances.watch(id, 0, number, mask, false)
}

/// Opens instances 1 to `count`.
fn opened(alloc: Global, count: u32) -> Result<Instances, Refusal> {
    let mut instances = Instances::new(alloc);
    for id in 1..=count {
        open(&mut instances, id)?;
    }
    Ok(instances)
}

/// Instances 1 and 2, which watch the file for all events, and 3, which watches nothing.
fn three(alloc: Global) -> Result<Instances, Refusal> {
    let mut instances = opened(alloc, 3)?;
    watch(&mut instances, 2, FILE, IN_ALL_EVENTS)?;
    watch(&mut instances, 1, FILE, IN_ALL_EVENTS)?;
    Ok(instances)
}

/// A notice of an event of the file.
fn told(bits: u32) -> Notice {
    Notice::Told {
        number: FILE,
        bits,
        cookie: 0,
        name: None,
    }
}

/// Stages one notice for the instances, and delivers what it raises.
fn tell(alloc: Global, instances: &mut Instances, notice: Notice) -> Result<(), Refusal> {
    let mut notices = Vec::new(alloc);
    notices.push(notice)?;
    let mut staging = Staging::new(alloc);
    instances.stage(&notices, &mut staging)?;
    instances.deliver(&notices, &mut staging);
    Ok(())
}

/// How many records wait, 99 where there is no such instance.
fn waiting(instances: &Instances, id: u32) -> usize {
    match instances.get(id) {
        Some(instance) => instance.queue.len(),
        None => 99,
    }
}

/// The mask of a letter.
fn mask_of(letter: u8) -> u32 {
    match letter {
        b'c' => IN_CREATE,
        b'd' => IN_DELETE_SELF,
        _ => IN_IGNORED,
    }
}

/// Whether just records of these masks wait, all of the first watch.
fn waits(instances: &Instances, id: u32, letters: &[u8]) -> bool {
    let Some(instance) = instances.get(id) else {
        return false;
    };
    for (index, letter) in letters.iter().enumerate() {
        match instance.queue.peek(index) {
            Some(event) if event.wd == 1 && event.mask == mask_of(*letter) => {}
            _ => return false,
        }
    }
    instance.queue.len() == letters.len()
}

/// Whether just these instances watch the file.
fn has_watchers(instances: &Instances, digits: &[u8]) -> bool {
    let mut ids = instances.watchers(FILE).iter();
    for digit in digits {
        let id = u32::from(digit.wrapping_sub(b'0'));
        if ids.next() != Some(&id) {
            return false;
        }
    }
    ids.next().is_none()
}

/// Whether a step goes as it says.
fn is_right(alloc: Global, instances: &mut Instances, step: Step) -> Result<bool, Refusal> {
    match step {
        Step::Told(bits) => tell(alloc, instances, told(bits))?,
        Step::Gone => tell(alloc, instances, Notice::Gone { number: FILE })?,
        Step::Watch(id, bits, answer) => return Ok(watch(instances, id, FILE, bits) == answer),
        Step::Unwatch(id) => instances.unwatch(id, 0, 1),
        Step::DropOldest(id) => instances.drop_oldest(id, 0, 1),
        Step::Close(id) => instances.close(id, 0),
        Step::Waits(id, letters) => return Ok(waits(instances, id, letters.as_bytes())),
        Step::IsClosed(id) => return Ok(instances.get(id).is_none()),
        Step::Has(count, digits) => {
            return Ok(instances.len() == count && has_watchers(instances, digits.as_bytes()));
        }
    }
    Ok(true)
}

/// Makes the steps, each of which goes as it says.
fn plays(rt: &impl Abort, alloc: Global, instances: &mut Instances, steps: &[Step]) {
    for (index, step) in steps.iter().enumerate() {
        let is_right = is_right(alloc, instances, *step).expect(rt, "memory");
        assert!(rt; is_right, "step {index}, {step:?}");
    }
}

#[test]
fn watchers_receive_events(rt: HostRuntime) {
    let alloc = rt.alloc();
    let mut instances = three(alloc).expect(&rt, "memory");
    plays(&rt, alloc, &mut instances, &STORY);
}

#[test]
fn a_file_that_is_gone_is_unwatched(rt: HostRuntime) {
    let alloc = rt.alloc();
    let mut instances = three(alloc).expect(&rt, "memory");
    plays(&rt, alloc, &mut instances, &GONE);
}

#[test]
fn a_copy_is_independent(rt: HostRuntime) {
    let alloc = rt.alloc();
    let mut instances = three(alloc).expect(&rt, "memory");
    let mut copy = instances.copy().expect(&rt, "memory");
    plays(&rt, alloc, &mut copy, &COPIED);
    plays(&rt, alloc, &mut instances, &[Step::Waits(2, "")]);
    drop(instances);
    let last = [Step::Has(3, "12"), Step::Waits(2, "c")];
    plays(&rt, alloc, &mut copy, &last);
}

/// Whether an instance is the first or the last of as many as there may be.
fn is_outer(id: u32) -> bool {
    id == 1 || id == MANY
}

/// As many instances as there may be, once an event of the file has notified those that watch it: the first and the
/// last, or all.
fn notified_crowd(alloc: Global, are_all: bool) -> Result<Instances, Refusal> {
    let mut instances = opened(alloc, MANY)?;
    for id in 1..=MANY {
        if are_all || is_outer(id) {
            watch(&mut instances, id, FILE, IN_CREATE)?;
        }
    }
    tell(alloc, &mut instances, told(IN_CREATE))?;
    Ok(instances)
}

#[test]
fn watchers_among_many_receive_events(rt: HostRuntime) {
    for (are_all, count) in [(false, 2), (true, 128)] {
        let instances = notified_crowd(rt.alloc(), are_all).expect(&rt, "memory");
        assert!(rt; instances.watchers(FILE).len() == count, "{count} watch");
        for id in 1..=MANY {
            let letters = if are_all || is_outer(id) { "c" } else { "" };
            let is_right = waits(&instances, id, letters.as_bytes());
            assert!(rt; is_right, "{id} of {count}");
        }
    }
}

/// Numbers with the remainder of the file's, and others.
const NUMBERS: [(u32, bool); 6] = [
    (FILE, true),
    (FILE + 1024, true),
    (0, false),
    (FILE - 1, false),
    (FILE + 1023, false),
    (u32::MAX, false),
];

/// Of these numbers the file's, and those with its remainder, pass once it was watched, also of a copy.
fn passes_right(rt: &impl Abort, instances: &Instances, has_watched: bool) {
    let copy = instances.copy().expect(rt, "memory");
    for (number, is_like) in NUMBERS {
        let passes = instances.watch_filter().may_be_watched(number);
        assert!(rt; passes == (is_like && has_watched), "{number}");
        let copy_passes = copy.watch_filter().may_be_watched(number);
        assert!(rt; copy_passes == passes, "{number} of a copy");
    }
}

/// No file passes before one is watched. Then those with its remainder do, also of a copy, and after the watch ended.
#[test]
fn a_file_that_was_watched_passes(rt: HostRuntime) {
    let mut instances = opened(rt.alloc(), 1).expect(&rt, "memory");
    for has_watched in [false, true] {
        passes_right(&rt, &instances, has_watched);
        let _ = watch(&mut instances, 1, FILE, IN_CREATE).expect(&rt, "a watch");
        instances.unwatch(1, 0, 1);
    }
}
