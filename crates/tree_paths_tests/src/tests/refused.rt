//! Fault injection: each allocation of each call fails in turn. Also tested are the calls that take no memory. Without
//! the shim each call is made once.

use super::*;
use refuser::{refuse, refuse_from, was_refused};

/// More allocations than a call here makes.
const MOST: u32 = 50;

/// A path of twelve short names, and its text.
const DEEP: &[u8] = b"/a/b/c//d/e/f/g/h/i/j/k/a_name_of_just_23_bytes";

const DEEP_TEXT: &[u8] = b"/a/b/c/d/e/f/g/h/i/j/k/a_name_of_just_23_bytes";

/// A path whose text is longer than what a path has in place.
const THREE: &[u8] = b"/a_name_of_no_less_than_27_byte/b/c";

/// A path whose text is not the shortest one.
const DOUBLED: &[u8] = b"/a/bb///ccc/d/e/a_name_of_just_23_bytes";

const SQUEEZED: &[u8] = b"/a/bb/ccc/d/e/a_name_of_just_23_bytes";

/// Makes a call. Whether its answer is right.
fn is_right(alloc: Global, which: u32, path: &Path, names: &Names) -> Result<bool, Refusal> {
    Ok(match which {
        0 => Path::parse(alloc, THREE)?.text() == Some(THREE),
        1 => Path::parse(alloc, DOUBLED)? == Path::parse(alloc, SQUEEZED)?,
        2 => path.copy()? == *path,
        3 => Path::parse(alloc, DEEP)?.text() == Some(DEEP_TEXT),
        _ => names.copy()? == *names,
    })
}

/// How many allocations a call makes, each of which fails in turn.
fn fails_in_turn(rt: &impl Abort, alloc: Global, which: u32, path: &Path, names: &Names) -> u32 {
    for k in 1..MOST {
        let _ = refuse(alloc, k);
        let answer = is_right(alloc, which, path, names);
        if !was_refused(alloc) {
            equal(rt, (which, answer), (which, Ok(true)));
            return k - 1;
        }
        equal(rt, (which, answer), (which, Err(Refusal::Enomem)));
    }
    MOST
}

/// A path of short names takes one allocation, however many they are.
#[test]
fn each_growth_of_each_call(rt: HostRuntime) {
    let alloc = rt.alloc();
    let has_refuser = refuse(alloc, MOST);
    let _ = was_refused(alloc);
    let path = path(&rt, alloc, SQUEEZED);
    let names = two_names(&rt, alloc);
    for (which, count) in [(0, 1), (1, 2), (2, 1), (3, 1), (4, 1)] {
        let wanted = if has_refuser { count } else { 0 };
        let got = fails_in_turn(&rt, alloc, which, &path, &names);
        equal(&rt, (which, got), (which, wanted));
    }
}

/// Whether texts that are no paths are refused with the right error.
fn are_refused(alloc: Global, long: &[u8]) -> bool {
    Path::parse(alloc, b"").err() == Some(Refusal::Enoent)
        && Path::parse(alloc, b"a/b").err() == Some(Refusal::Einval)
        && Path::parse(alloc, b"/a/..").err() == Some(Refusal::Einval)
        && Path::parse(alloc, long).err() == Some(Refusal::Enametoolong)
}

/// Whether the calls of two paths that take no memory answer as they should.
fn are_answered(above: &Path, below: &Path) -> bool {
    let is_last = match below.last_name() {
        Some(name) => name.as_name().bytes() == b"c".as_slice(),
        None => false,
    };
    let parent = match below.split_last() {
        Some((text, _)) => Some(text),
        None => None,
    };
    is_last
        && below.is_below(above)
        && !above.is_below(below)
        && above != below
        && below.text() == Some(b"/a/b/c".as_slice())
        && parent == above.text()
}

#[test]
fn some_calls_take_no_memory(rt: HostRuntime) {
    let alloc = rt.alloc();
    let long = vec![in alloc; b'/'; 4096].expect(&rt, "memory");
    let above = path(&rt, alloc, b"/a/b");
    let below = path(&rt, alloc, b"/a/b/c");
    let _ = refuse_from(alloc, 1);
    let are_answered = are_refused(alloc, &long) && are_answered(&above, &below);
    let is_refused = was_refused(alloc);
    equal(&rt, (are_answered, is_refused), (true, false));
}

/// Whether the path of a text is made and copied, and has the second text. `Err` means out of memory.
fn is_made_and_copied(alloc: Global, (text, shortest): (&[u8], &[u8])) -> Result<bool, Refusal> {
    let path = Path::parse(alloc, text)?;
    Ok(path.text() == Some(shortest) && path.copy()? == path)
}

/// Short texts of paths, and the shortest text of each.
const SHORT: [(&[u8], &[u8]); 4] = [
    (b"/", b""),
    (b"/a_name_of_just_23_bytes", b"/a_name_of_just_23_bytes"),
    (b"/a/b", b"/a/b"),
    (b"///a", b"/a"),
];

#[test]
fn a_path_of_a_short_text_takes_no_memory(rt: HostRuntime) {
    let alloc = rt.alloc();
    let has_refuser = refuse_from(alloc, 1);
    let mut are_made = true;
    for texts in &SHORT {
        are_made &= is_made_and_copied(alloc, *texts) == Ok(true);
    }
    equal(&rt, (are_made, was_refused(alloc)), (true, false));
    let _ = refuse_from(alloc, 1);
    let three = is_made_and_copied(alloc, (THREE, THREE));
    let got = (three.is_err(), was_refused(alloc));
    equal(&rt, got, (has_refuser, has_refuser));
    let three = is_made_and_copied(alloc, (THREE, THREE));
    equal(&rt, three, Ok(true));
}
