//! Fault injection: each allocation of each call fails in turn. Also the calls that take no memory. Without the shim
//! each call is made once.

use super::*;
use refuser::{refuse, refuse_from, was_refused};

/// More allocations than a call here makes.
const MOST: u32 = 400;

/// Steps enough for two nodes of each ordered map.
const STEPS: u32 = 60;

/// How many instances watch the file at last, one after the other.
const ROW: u32 = 40;

/// The most requests for memory of the first watch of a file: one for each of three maps.
const FIRST: u32 = 3;

/// The most allocations that stage the events of a crowd, 320 in all, and the 128 watches that end: two buffers that
/// grow, one of up to 512 events, and one of up to 128 watches.
const ENDS: u32 = 14;

// The calls that take no memory, of instances 1 and 2, which watch the file, and 3.
const QUIET: [Step; 10] = [
    Step::Has(3, "12"),
    Step::Unwatch(2),
    Step::Has(3, "1"),
    Step::Waits(2, "i"),
    Step::DropOldest(2),
    Step::Waits(2, ""),
    Step::Watch(3, IN_CREATE | IN_ONLYDIR, Err(Refusal::Enotdir)),
    Step::Close(1),
    Step::IsClosed(1),
    Step::Has(2, ""),
];

/// What allocates.
#[derive(Clone, Copy)]
enum Call<'a> {
    Open(u32),
    /// The instance and the file.
    Watch(u32, u32),
    Rows,
    Copy,
    Stage(&'a [Notice]),
}

/// Makes a call. Whether what it gives is right.
fn does(alloc: Global, instances: &mut Instances, call: Call) -> Result<bool, Refusal> {
    match call {
        Call::Open(id) => open(instances, id)?,
        Call::Watch(id, number) => {
            watch(instances, id, number, IN_ALL_EVENTS)?;
        }
        Call::Rows => return Ok(instances.rows()?.len() == instances.len()),
        Call::Copy => return Ok(are_alike(&instances.copy()?, instances)),
        Call::Stage(notices) => {
            let mut staging = Staging::new(alloc);
            instances.stage(notices, &mut staging)?;
            let _ = refuse_from(alloc, 1);
            instances.deliver(notices, &mut staging);
        }
    }
    Ok(true)
}

/// Whether an instance has the same watches and as many records waiting in both.
fn is_alike(one: &Instances, other: &Instances, id: u32) -> bool {
    match (one.get(id), other.get(id)) {
        (Some(one), Some(other)) => {
            (0..23).all(|number| one.watches.of(number) == other.watches.of(number))
                && one.queue.len() == other.queue.len()
        }
        (None, None) => true,
        _ => false,
    }
}

/// Whether both agree on each instance and each file.
fn are_alike(one: &Instances, other: &Instances) -> bool {
    for id in 0..41 {
        if !is_alike(one, other, id) || one.watchers(id) != other.watchers(id) {
            return false;
        }
    }
    one.len() == other.len()
}

/// Makes a call on both: on the first each allocation fails in turn. How many there were; none if one did not go well.
fn refused_in_turn(
    alloc: Global,
    instances: &mut Instances,
    control: &mut Instances,
    call: Call,
) -> Result<Option<u32>, Refusal> {
    for k in 1..MOST {
        let _ = refuse(alloc, k);
        let told = does(alloc, instances, call);
        match (told, was_refused(alloc)) {
            (Err(Refusal::Enomem), true) if are_alike(instances, control) => {}
            (Ok(true), false) => {
                does(alloc, control, call)?;
                let is_well = !was_refused(alloc) && are_alike(instances, control);
                return Ok(is_well.then_some(k - 1));
            }
            _ => return Ok(None),
        }
    }
    Ok(None)
}

/// Whether allocations can be made to fail.
fn has_refuser(alloc: Global) -> bool {
    let has = refuse(alloc, MOST);
    let _ = was_refused(alloc);
    has
}

/// The call of a step: instances are opened, each with a file that it watches, and notified then.
fn call_of<'a>(step: u32, notices: &'a [Notice]) -> Call<'a> {
    let id = step / 2 % 30;
    match step.wrapping_sub(STEPS) {
        0 => Call::Rows,
        1 => Call::Copy,
        2 => Call::Stage(notices),
        _ if step % 2 == 0 => Call::Open(id),
        _ => Call::Watch(id, step.wrapping_mul(7) % 23),
    }
}

/// A notice of an event of a file, of a file that is gone, and of an unwatched file.
fn three_notices(alloc: Global) -> Result<Vec<Notice>, Refusal> {
    let (gone, unwatched) = (Notice::Gone { number: 7 }, Notice::Gone { number: 99 });
    Ok(vec![in alloc; told(IN_CREATE), gone, unwatched]?)
}

#[test]
fn each_allocation_of_each_call(rt: HostRuntime) {
    let alloc = rt.alloc();
    let has_refuser = has_refuser(alloc);
    let notices = three_notices(alloc).expect(&rt, "memory");
    let mut instances = Instances::new(alloc);
    let mut control = Instances::new(alloc);
    for step in 0..STEPS + 3 {
        let call = call_of(step, &notices);
        let count = refused_in_turn(alloc, &mut instances, &mut control, call).expect(
            &rt, "memory",
        );
        let is_well = matches!(count, Some(count) if (count > 0) == has_refuser);
        assert!(rt; is_well, "step {step}: {count:?}");
    }
}

/// Whether a watch that a row refuses makes no allocation.
fn is_refused_at_once(alloc: Global, instances: &mut Instances) -> bool {
    let _ = refuse_from(alloc, 1);
    let refused = watch(instances, ROW, FILE, IN_CREATE | IN_ONLYDIR);
    !was_refused(alloc) && refused == Err(Refusal::Enotdir)
}

/// The watch of the next instance of a row.
fn next_of_row(step: u32) -> Call<'static> {
    Call::Watch(step.wrapping_mul(7).wrapping_add(4) % ROW + 1, FILE)
}

/// A file is watched by one instance after another, and copied then.
#[test]
fn each_allocation_of_a_row_of_watchers(rt: HostRuntime) {
    let alloc = rt.alloc();
    let has_refuser = has_refuser(alloc);
    let mut instances = opened(alloc, ROW).expect(&rt, "memory");
    let mut control = opened(alloc, ROW).expect(&rt, "memory");
    for step in 0..ROW {
        let is_at_once = is_refused_at_once(alloc, &mut instances);
        assert!(rt; is_at_once, "{step} watchers: a refusal takes memory");
        let call = next_of_row(step);
        let watched = refused_in_turn(alloc, &mut instances, &mut control, call).expect(
            &rt, "memory",
        );
        let is_well = matches!(watched, Some(count) if step > 0 || count <= FIRST);
        assert!(rt; is_well, "{step} watchers: {watched:?}");
        let copied = refused_in_turn(alloc, &mut instances, &mut control, Call::Copy).expect(
            &rt, "memory",
        );
        let is_well = matches!(copied, Some(count) if (count > 0) == has_refuser);
        assert!(rt; is_well, "a copy of {step} watchers: {copied:?}");
    }
}

/// Many instances that watch the file, every second of them for these bits too, and one that watches nothing.
fn crowd(alloc: Global, bits: u32) -> Result<Instances, Refusal> {
    let mut instances = opened(alloc, MANY + 1)?;
    for id in 1..=MANY {
        let more = if id % 2 == 0 { bits } else { 0 };
        watch(&mut instances, id, FILE, IN_ALL_EVENTS | more)?;
    }
    Ok(instances)
}

/// Whether `count` records wait in each instance that watches, and none in the one that does not.
fn have_received(instances: &Instances, count: usize) -> bool {
    (1..=MANY).all(|id| waiting(instances, id) == count) && waiting(instances, MANY + 1) == 0
}

/// Two notices of events of the file, and if wanted one that it is gone.
fn notices_of_file(alloc: Global, is_gone: bool) -> Result<Vec<Notice>, Refusal> {
    let mut notices = Vec::new(alloc);
    notices.push(told(IN_CREATE))?;
    notices.push(told(IN_DELETE_SELF))?;
    if is_gone {
        notices.push(Notice::Gone { number: FILE })?;
    }
    Ok(notices)
}

/// The capacity of the first time is enough for the second.
#[test]
fn what_many_hear_takes_no_memory_again(rt: HostRuntime) {
    let alloc = rt.alloc();
    let mut instances = crowd(alloc, 0).expect(&rt, "memory");
    let notices = notices_of_file(alloc, false).expect(&rt, "memory");
    let mut staging = Staging::new(alloc);
    for count in [2, 4] {
        if count > 2 {
            let _ = refuse_from(alloc, 1);
        }
        instances
            .stage(&notices, &mut staging)
            .expect(&rt, "memory");
        instances.deliver(&notices, &mut staging);
        let is_refused = was_refused(alloc);
        assert!(rt;
            have_received(&instances, count) && !is_refused,
            "{count} records"
        );
    }
}

#[test]
fn watches_that_end_take_two_buffers(rt: HostRuntime) {
    let alloc = rt.alloc();
    let has_refuser = has_refuser(alloc);
    let mut instances = crowd(alloc, IN_ONESHOT).expect(&rt, "memory");
    let mut control = crowd(alloc, IN_ONESHOT).expect(&rt, "memory");
    let notices = notices_of_file(alloc, true).expect(&rt, "memory");
    let call = Call::Stage(&notices);
    let count = refused_in_turn(alloc, &mut instances, &mut control, call).expect(&rt, "memory");
    let is_well = matches!(count, Some(count) if (count > 0) == has_refuser && count <= ENDS);
    assert!(rt; is_well, "{count:?}");
}

#[test]
fn some_calls_take_no_memory(rt: HostRuntime) {
    let alloc = rt.alloc();
    let mut instances = three(alloc).expect(&rt, "memory");
    let _ = refuse_from(alloc, 1);
    plays(&rt, alloc, &mut instances, &QUIET);
    let is_refused = was_refused(alloc);
    assert!(rt; !is_refused, "an allocation");
}
