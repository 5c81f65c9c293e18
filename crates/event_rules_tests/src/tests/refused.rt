//! Fault injection: each allocation of `notices`, `stage` and `stage_watch` fails in turn. Without the shim each is
//! called once.

use super::*;
use refuser::{refuse, refuse_from, was_refused};

/// More allocations than a call here makes.
const MOST: u32 = 60;

/// How many allocations the notices of a call take. Each was made to fail. `None` if a result was wrong.
fn notices_refused(calls: &Calls, call: &FileCall, wanted: &Notices) -> Option<u32> {
    for k in 1..MOST {
        let _ = refuse(calls.alloc, k);
        let told = calls.noticed(call, &Everybody);
        match (told, was_refused(calls.alloc)) {
            (Err(Refusal::Enomem), true) => {}
            (Ok(told), false) if told.as_slice() == wanted.as_slice() => return Some(k - 1),
            _ => return None,
        }
    }
    None
}

/// Stages what [`stage`] stages for the watches, or the same notice by notice: by the watch of each file, unless a
/// notice before it ended that.
fn stages(
    watches: &Watches,
    notices: &[Notice],
    is_each: bool,
    staged: &mut Staged,
) -> Result<(), Refusal> {
    if !is_each {
        return stage(ID, watches, notices, staged);
    }
    for (place, notice) in notices.iter().enumerate() {
        let ended = EndedWatches::of(&notices[..place], notice.number());
        if let Some(watch) = watches.of(notice.number())
            && !ended.has_ended(watch)
        {
            stage_watch(ID, watch, notice, staged)?;
        }
    }
    Ok(())
}

/// Whether the same events are raised, and the same watches end.
fn are_same(one: &Staged, other: &Staged) -> bool {
    one.events.iter().eq(other.events.iter()) && one.drops.as_slice() == other.drops.as_slice()
}

/// Whether they are staged again in the capacity that was allocated.
fn stages_in_place(
    alloc: Global,
    watches: &Watches,
    notices: &[Notice],
    is_each: bool,
    staged: &mut Staged,
) -> bool {
    staged.clear();
    let _ = refuse_from(alloc, 1);
    let again = stages(watches, notices, is_each, staged);
    !was_refused(alloc) && again.is_ok()
}

/// How many allocations the events of a call take. Each was made to fail. `None` if a result was not that of
/// [`stage`], or if staging them again in the capacity that was allocated takes another one.
fn stage_refused(
    alloc: Global,
    watches: &Watches,
    notices: &[Notice],
    is_each: bool,
) -> Result<Option<u32>, Refusal> {
    let mut wanted = Staged::new(alloc);
    stage(ID, watches, notices, &mut wanted)?;
    for k in 1..MOST {
        let mut staged = Staged::new(alloc);
        let _ = refuse(alloc, k);
        let told = stages(watches, notices, is_each, &mut staged);
        match (told, was_refused(alloc)) {
            (Err(Refusal::Enomem), true) => {}
            (Ok(()), false) if are_same(&staged, &wanted) => {
                let is_well = stages_in_place(alloc, watches, notices, is_each, &mut staged);
                return Ok((is_well && are_same(&staged, &wanted)).then_some(k - 1));
            }
            _ => return Ok(None),
        }
    }
    Ok(None)
}

/// How many allocations the notices of a call take, its events, and its events notice by notice.
type Taken = [Option<u32>; 3];

fn counts_in_turn(
    calls: &Calls,
    watches: &Watches,
    call: &FileCall,
    wanted: &Notices,
) -> Result<Taken, Refusal> {
    let notices = notices_refused(calls, call, wanted);
    let staged = stage_refused(calls.alloc, watches, wanted.as_slice(), false)?;
    let each = stage_refused(calls.alloc, watches, wanted.as_slice(), true)?;
    Ok([notices, staged, each])
}

fn counts_of_call(calls: &Calls, watches: &Watches, call: &FileCall) -> Result<Taken, Refusal> {
    let wanted = calls.noticed(call, &Everybody)?;
    counts_in_turn(calls, watches, call, &wanted)
}

fn counts_of(calls: &Calls, watches: &Watches, ask: Ask) -> Result<Taken, Refusal> {
    let call = call_of(calls.alloc, ask)?;
    counts_of_call(calls, watches, &call)
}

/// Whether there are allocations just where a call takes memory.
fn is_grown(count: Option<u32>, grows: bool) -> bool {
    match count {
        Some(count) => (count > 0) == grows,
        None => false,
    }
}

/// Each allocation of each call fails in turn.
fn each_call_fails(rt: &impl Abort, calls: &Calls, watches: &Watches, has_refuser: bool) {
    for (ask, lines) in CALLS {
        let counts = counts_of(calls, watches, ask).expect(rt, "memory");
        let grows = has_refuser && !lines.is_empty();
        for count in counts {
            assert!(rt; is_grown(count, grows), "{ask:?}: {counts:?}");
        }
    }
}

#[test]
fn each_allocation_of_notices_and_events(rt: HostRuntime) {
    let alloc = rt.alloc();
    let has_refuser = refuse(alloc, MOST);
    let _ = was_refused(alloc);
    let calls = Calls::prepared(alloc).expect(&rt, "memory");
    let watches = watching(alloc).expect(&rt, "memory");
    each_call_fails(&rt, &calls, &watches, has_refuser);
}
