//! Fault injection: each allocation fails in turn. Also the calls that do not allocate.

use crate::tests::{SMALL, plays, watch};
use record_codec::bits::IN_CREATE;
use refuser::{refuse, refuse_from, was_refused};
use std::alloc::Global;
use std::process::Abort;
use tree_paths::{Limits, Refusal};
use watch_table::Watches;

/// More allocations than a call makes.
const MOST: u32 = 200;

/// Watches enough for two nodes of an ordered map.
const FILES: u32 = 40;

/// The numbers of the files, which do not rise.
fn number_of(file: u32) -> u32 {
    file.wrapping_mul(7) % 41
}

/// `count` watches, of files whose numbers do not rise.
fn watching(rt: &impl Abort, alloc: Global, count: u32, limits: &Limits) -> Watches {
    let mut watches = Watches::new(alloc, limits);
    for file in 0..count {
        watch(&mut watches, number_of(file), IN_CREATE, false).expect(rt, "a watch");
    }
    watches
}

/// Whether both have the same watch for each file and each descriptor.
fn are_alike(one: &Watches, other: &Watches) -> bool {
    for number in 0..50 {
        let wd = number as i32;
        if one.of(number) != other.of(number) || one.watched_by(wd) != other.watched_by(wd) {
            return false;
        }
    }
    one.len() == other.len() && one.next_wd() == other.next_wd()
}

/// What allocates.
#[derive(Clone, Copy, Debug)]
enum Call {
    /// The watch of one more file.
    Watch,
    Rows,
    Copy,
}

/// Makes a call on `count` watches. Whether what it gives or leaves is right.
fn is_right(
    watches: &mut Watches,
    next: &Watches,
    count: u32,
    call: Call,
) -> Result<bool, Refusal> {
    match call {
        Call::Watch => {
            watch(watches, number_of(count), IN_CREATE, false)?;
            Ok(are_alike(watches, next))
        }
        Call::Rows => Ok(watches.rows()?.as_slice().len() == watches.len()),
        Call::Copy => Ok(are_alike(&watches.copy()?, watches)),
    }
}

/// How many allocations a call makes, if all stays as it was when each fails in turn. None if not.
fn refused_in_turn(rt: &impl Abort, alloc: Global, count: u32, call: Call) -> Option<u32> {
    let limits = Limits::full();
    let control = watching(rt, alloc, count, &limits);
    let next = watching(rt, alloc, count.saturating_add(1), &limits);
    let mut watches = watching(rt, alloc, count, &limits);
    for k in 1..MOST {
        let _ = refuse(alloc, k);
        let told = is_right(&mut watches, &next, count, call);
        match (told, was_refused(alloc)) {
            (Err(Refusal::Enomem), true) if are_alike(&watches, &control) => {}
            (Ok(true), false) => return Some(k - 1),
            _ => return None,
        }
    }
    None
}

#[test]
fn each_allocation_of_each_call(rt: HostRuntime) {
    let alloc = rt.alloc();
    let has_refuser = refuse(alloc, MOST);
    let _ = was_refused(alloc);
    let mut sum: u32 = 0;
    for count in 0..FILES {
        let refused = refused_in_turn(&rt, alloc, count, Call::Watch);
        assert!(rt; refused.is_some(), "watch {count}");
        sum = sum.saturating_add(refused.unwrap_or(0));
    }
    assert!(rt; (sum > 0) == has_refuser, "{sum} of all watches");
    for call in [Call::Rows, Call::Copy] {
        let count = refused_in_turn(&rt, alloc, FILES, call);
        let is_well = matches!(count, Some(count) if (count > 0) == has_refuser);
        assert!(rt; is_well, "{call:?}: {count:?}");
    }
}

#[test]
fn some_calls_take_no_memory(rt: HostRuntime) {
    let alloc = rt.alloc();
    let mut limits = Limits::full();
    limits.watches = 3;
    let mut watches = watching(&rt, alloc, 3, &limits);
    let _ = refuse_from(alloc, 1);
    plays(&rt, &mut watches, &SMALL);
    let is_refused = was_refused(alloc);
    assert!(rt; !is_refused, "an allocation");
}
