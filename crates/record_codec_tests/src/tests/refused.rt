//! Fault injection: each allocation of each call fails in turn. The call then runs out of memory, and leaves a
//! vector as it was. Without the shim each call is made once.

use super::*;
use refuser::{refuse, refuse_from, was_refused};
use std::alloc::AllocError;

/// More allocations than a call here makes.
const MOST: u32 = 50;

/// The shortest name that takes memory.
const LONG: [u8; NAME_IN_PLACE + 1] = [b'n'; NAME_IN_PLACE + 1];

/// How many calls there are.
const CALLS: u32 = 10;

/// Makes a call on the first event of `SPELLED`. Whether what it gives, or appends behind the word `before`, is right.
fn is_right(
    alloc: Global,
    which: u32,
    event: &Event,
    text: &mut Vec<u8>,
) -> Result<bool, AllocError> {
    match which {
        0 => append(event, text)?,
        1 => append_record_line(event, text)?,
        2 => return Ok(encode(alloc, &[event.copy()?])?.as_slice() == &SPELLED[..32]),
        3 => return is_decoded(alloc),
        4 => return is_copied(alloc),
        5 => return Ok(Name::new(alloc, &LONG)?.is_some()),
        6 => return Ok(Events::from_vec(decoded(alloc)?).copy()?.as_slice().len() == 2),
        7 => return Ok(
            Bytes::from_vec(SPELLED.to_vec(alloc)?).copy()?.as_slice() == SPELLED.as_slice(),
        ),
        8 => match &event.name {
            Some(name) => append_name(name, text)?,
            None => return Ok(false),
        },
        _ => append_printed(b"/a b%", text)?,
    }
    let wanted = match which {
        0 => &SPELLED[..32],
        1 => b"1 00000100 0 f".as_slice(),
        8 => b"f".as_slice(),
        _ => b"/a%20b%25".as_slice(),
    };
    Ok(text.get(6..) == Some(wanted))
}

/// Whether an event is copied, the name of which takes memory.
fn is_copied(alloc: Global) -> Result<bool, AllocError> {
    let event = Event {
        wd: 1,
        mask: IN_CREATE,
        cookie: 0,
        name: Name::new(alloc, &LONG)?,
    };
    Ok(event.copy()? == event)
}

/// The events of `SPELLED`, or none of them where they are read wrong.
fn decoded(alloc: Global) -> Result<Vec<Event>, AllocError> {
    match decode(alloc, &SPELLED) {
        Ok(events) => Ok(events),
        Err(CodecFault::Memory) => Err(AllocError),
        Err(_) => Ok(Vec::new(alloc)),
    }
}

/// Whether those are spelled so.
fn is_decoded(alloc: Global) -> Result<bool, AllocError> {
    Ok(spells(&decoded(alloc)?, &SPELLED))
}

/// How many allocations a call makes, each of which fails in turn.
fn fails_in_turn(rt: &impl Abort, alloc: Global, which: u32, event: &Event) -> u32 {
    for k in 1..MOST {
        let mut text = Vec::from_slice(alloc, b"before").expect(rt, "memory");
        let _ = refuse(alloc, k);
        let answer = is_right(alloc, which, event, &mut text);
        let is_refused = was_refused(alloc);
        if !is_refused {
            equal(rt, (which, answer), (which, Ok(true)));
            return k - 1;
        }
        let got = (which, answer.is_err(), text.as_slice());
        equal(rt, got, (which, true, b"before".as_slice()));
    }
    MOST
}

#[test]
fn each_growth_of_each_call(rt: HostRuntime) {
    let alloc = rt.alloc();
    let has_refuser = refuse(alloc, MOST);
    let _ = was_refused(alloc);
    let event = named(&rt, alloc, 1, IN_CREATE, 0, b"f");
    for which in 0..CALLS {
        let count = fails_in_turn(&rt, alloc, which, &event);
        let got = (which, count > 0, count < MOST);
        equal(&rt, got, (which, has_refuser, true));
    }
}

/// Whether the calls that take no memory answer as they should.
fn are_answered(events: &[Event], name: &Name) -> bool {
    let mut len: usize = 0;
    for event in events {
        len = len.saturating_add(record_len(event));
    }
    spells(events, &SPELLED)
        && !spells(events, &SPELLED[..47])
        && len == SPELLED.len()
        && name.bytes() == b"f".as_slice()
}

/// Whether a name of these bytes is made and copied. `Err` means out of memory.
fn is_made_and_copied(alloc: Global, bytes: &[u8]) -> Result<bool, AllocError> {
    Ok(match Name::new(alloc, bytes)? {
        Some(name) => name.copy()?.bytes() == bytes,
        None => false,
    })
}

/// Nor do some calls.
#[test]
fn short_names_take_no_memory(rt: HostRuntime) {
    let alloc = rt.alloc();
    let events = two_events(&rt, alloc);
    let name = name(&rt, alloc, b"f");
    let has_refuser = refuse_from(alloc, 1);
    let are_answered = are_answered(&events, &name);
    let short = is_made_and_copied(alloc, &LONG[..NAME_IN_PLACE]);
    let shortest = is_made_and_copied(alloc, &LONG[..1]);
    let is_refused = was_refused(alloc);
    equal(&rt, (short, shortest), (Ok(true), Ok(true)));
    equal(&rt, (are_answered, is_refused), (true, false));
    let _ = refuse_from(alloc, 1);
    let long = is_made_and_copied(alloc, &LONG);
    let is_refused = was_refused(alloc);
    let got = (long.is_err(), is_refused);
    equal(&rt, got, (has_refuser, has_refuser));
    equal(&rt, is_made_and_copied(alloc, &LONG), Ok(true));
}
