mod refused;

use record_codec::{NAME_IN_PLACE, Name};
use std::alloc::{AllocError, Global};
use std::fmt::Debug;
use std::process::Abort;
use tree_paths::*;

/// Asserts that two values are equal. Tests assert in this function, and their helpers end the test where a call fails:
/// a macro or a `?` in a long body costs seconds to prove.
fn equal<T: PartialEq + Debug + Drop>(rt: &impl Abort, got: T, wanted: T) {
    assert_eq!(rt; got, wanted);
}

/// A refusal, its name as it is printed, and its number.
const REFUSALS: [(Refusal, &str, u32); 23] = [
    (Refusal::Eperm, "EPERM", 1),
    (Refusal::Enoent, "ENOENT", 2),
    (Refusal::Ebadf, "EBADF", 9),
    (Refusal::Eagain, "EAGAIN", 11),
    (Refusal::Enomem, "ENOMEM", 12),
    (Refusal::Ebusy, "EBUSY", 16),
    (Refusal::Eexist, "EEXIST", 17),
    (Refusal::Enotdir, "ENOTDIR", 20),
    (Refusal::Eisdir, "EISDIR", 21),
    (Refusal::Einval, "EINVAL", 22),
    (Refusal::Emfile, "EMFILE", 24),
    (Refusal::Efbig, "EFBIG", 27),
    (Refusal::Enospc, "ENOSPC", 28),
    (Refusal::Emlink, "EMLINK", 31),
    (Refusal::Enametoolong, "ENAMETOOLONG", 36),
    (Refusal::Enotempty, "ENOTEMPTY", 39),
    (Refusal::JournalFull, "JournalFull", 1001),
    (Refusal::PipeFull, "PipeFull", 1002),
    (Refusal::Piped, "Piped", 1003),
    (Refusal::CookiesSpent, "CookiesSpent", 1004),
    (Refusal::NotPiped, "NotPiped", 1005),
    (Refusal::SeatsSpent, "SeatsSpent", 1006),
    (Refusal::NumbersSpent, "NumbersSpent", 1007),
];

#[test]
fn refusals(rt: HostRuntime) {
    for (refusal, name, number) in &REFUSALS {
        let printed = format!(in rt.alloc(); "{refusal}").expect(&rt, "memory");
        let got = (refusal.name(), printed.as_str(), refusal.number());
        equal(&rt, got, (*name, *name, *number));
    }
    equal(&rt, Refusal::from(AllocError), Refusal::Enomem);
}

/// The path of a text.
fn path(rt: &impl Abort, alloc: Global, text: &[u8]) -> Path {
    Path::parse(alloc, text).expect(rt, "a path")
}

/// The name of a path after this one.
fn next_name(rt: &impl Abort, names: &mut PathNames<'_>, bytes: &[u8]) -> Name {
    let name = names.next().expect(rt, "a name");
    equal(rt, name.as_name().bytes(), bytes);
    name.as_name().copy().expect(rt, "memory")
}

/// Compares the path of a text: it has these names, is what comes of one after another from the root on, and is equal
/// to its copy. Compares its text, and that of its directory, which it has where no name is long.
fn parses(rt: &impl Abort, alloc: Global, text: &[u8], names: &[&[u8]]) {
    let path = path(rt, alloc, text);
    let mut left = path.names();
    let mut built = Path::root();
    let mut whole = Vec::new(alloc);
    let mut parent_len = 0;
    for bytes in names {
        let name = next_name(rt, &mut left, bytes);
        built = built.child(alloc, &name).expect(rt, "memory");
        parent_len = whole.len();
        whole.push(b'/').expect(rt, "memory");
        whole.extend_from_slice(bytes).expect(rt, "memory");
    }
    let copied = path.copy().expect(rt, "memory");
    let are_same = built == path && copied == path;
    equal(rt, (text, left.is_empty(), are_same), (text, true, true));
    let has_text = names.iter().all(|name| name.len() <= NAME_IN_PLACE);
    let has_parent = has_text && !path.is_root();
    let parent = whole.get(..parent_len).unwrap_or_default();
    equal(rt, path.text(), has_text.then_some(whole.as_slice()));
    equal(rt, path.split_last().is_some(), has_parent);
    if let Some((above, last)) = path.split_last() {
        equal(
            rt,
            (above, Some(last.name().as_name().bytes())),
            (parent, names.last().copied()),
        );
    }
}

/// Texts of paths, and their names.
const TEXTS: [(&[u8], &[&[u8]]); 9] = [
    (b"/", &[]),
    (b"/a", &[b"a"]),
    (b"/a/b", &[b"a", b"b"]),
    (b"/a/b/c", &[b"a", b"b", b"c"]),
    (b"/a//b", &[b"a", b"b"]),
    (b"//a///b", &[b"a", b"b"]),
    (b"///a", &[b"a"]),
    (b"/..x/...", &[b"..x", b"..."]),
    (b"/ \xff", &[b" \xff"]),
];

/// The lengths of the names of a path.
const SHAPES: [&[usize]; 16] = [
    &[29],
    &[30],
    &[31],
    &[32],
    &[255],
    &[14, 14],
    &[14, 15],
    &[20, 15],
    &[20, 16],
    &[20, 31],
    &[1, 32],
    &[32, 1],
    &[31, 1, 1],
    &[31, 31, 31, 31],
    &[3, 31, 2, 1, 8, 5],
    &[3, 32, 2, 1, 8, 5],
];

/// The bytes of the longest name.
const NAME: [u8; 255] = [b'n'; 255];

/// Compares the path of names of these lengths, with one slash in front and with two.
fn has_shape(rt: &impl Abort, alloc: Global, lens: &[usize]) {
    let mut names = Vec::new(alloc);
    let mut text = Vec::new(alloc);
    for len in lens {
        let name = NAME.get(..*len).unwrap_or_default();
        names.push(name).expect(rt, "memory");
        text.push(b'/').expect(rt, "memory");
        text.extend_from_slice(name).expect(rt, "memory");
    }
    parses(rt, alloc, &text, &names);
    text.insert(0, b'/').expect(rt, "memory");
    parses(rt, alloc, &text, &names);
}

#[test]
fn texts_of_paths(rt: HostRuntime) {
    for (text, names) in &TEXTS {
        parses(&rt, rt.alloc(), text, names);
    }
    for lens in &SHAPES {
        has_shape(&rt, rt.alloc(), lens);
    }
}

/// Texts that are no paths.
const REFUSED: [(&[u8], Refusal); 9] = [
    (b"", Refusal::Enoent),
    (b"a", Refusal::Einval),
    (b"a/b", Refusal::Einval),
    (b"/a\0b", Refusal::Einval),
    (b"/a/", Refusal::Einval),
    (b"//", Refusal::Einval),
    (b"/.", Refusal::Einval),
    (b"/a/..", Refusal::Einval),
    (b"/./a", Refusal::Einval),
];

/// The text is refused so.
fn refuses(rt: &impl Abort, alloc: Global, text: &[u8], refusal: Refusal) {
    let got = Path::parse(alloc, text).err();
    equal(rt, (text, got), (text, Some(refusal)));
}

/// Also refused are a name of 256 bytes, before which a fault behind it comes, and a text of 4,096 bytes; one of 4,095
/// bytes is a path.
#[test]
fn refused_texts(rt: HostRuntime) {
    let alloc = rt.alloc();
    for (text, refusal) in &REFUSED {
        refuses(&rt, alloc, text, *refusal);
    }
    let mut text = vec![in alloc; b'/'].expect(&rt, "memory");
    text.extend_from_slice(&[b'n'; 256]).expect(&rt, "memory");
    refuses(&rt, alloc, &text, Refusal::Enametoolong);
    text.extend_from_slice(b"/..").expect(&rt, "memory");
    refuses(&rt, alloc, &text, Refusal::Einval);
    text.clear();
    for _ in 0..2047 {
        text.extend_from_slice(b"/n").expect(&rt, "memory");
    }
    text.push(b'n').expect(&rt, "memory");
    equal(&rt, path(&rt, alloc, &text).text(), Some(text.as_slice()));
    text.push(b'n').expect(&rt, "memory");
    refuses(&rt, alloc, &text, Refusal::Enametoolong);
    text.fill(b'a');
    refuses(&rt, alloc, &text, Refusal::Enametoolong);
}

/// Two paths, the last name of the first, and whether the first is below the second.
const BELOW: [(&[u8], &[u8], Option<&[u8]>, bool); 7] = [
    (b"/a/b/c", b"/a/b", Some(b"c"), true),
    (b"/a/b", b"/", Some(b"b"), true),
    (b"/a/b", b"/a/b/c", Some(b"b"), false),
    (b"/a/b", b"/a/b", Some(b"b"), false),
    (b"/a/b/c", b"/a/c", Some(b"c"), false),
    (b"/a/bc", b"/a/b", Some(b"bc"), false),
    (b"/", b"/a", None, false),
];

#[test]
fn paths_below_others(rt: HostRuntime) {
    for (below, above, last, is_below) in &BELOW {
        let this = path(&rt, rt.alloc(), below);
        let other = path(&rt, rt.alloc(), above);
        let got = (this.is_below(&other), this == other);
        equal(&rt, got, (*is_below, *below == *above));
        match this.last_name() {
            Some(name) => equal(&rt, Some(name.as_name().bytes()), *last),
            None => equal(&rt, None, *last),
        }
    }
}

/// The names `a` and `b`.
fn two_names(rt: &impl Abort, alloc: Global) -> Names {
    let mut names = Vec::new(alloc);
    for bytes in [b"a".as_slice(), b"b"] {
        let name = Name::new(alloc, bytes).expect(rt, "memory");
        names.extend(name).expect(rt, "memory");
    }
    Names::from_vec(names)
}

#[test]
fn lists_of_names(rt: HostRuntime) {
    let names = two_names(&rt, rt.alloc());
    let copied = names.copy().expect(&rt, "memory");
    equal(&rt, copied == names, true);
    let copied = copied.into_vec();
    equal(&rt, copied.as_slice(), names.as_slice());
    equal(&rt, copied.len(), 2);
}

#[test]
fn the_greatest_limits(rt: HostRuntime) {
    let limits = Limits::full();
    let counts = (limits.links, limits.instances, limits.watches, limits.queue);
    equal(&rt, counts, (65_000, 128, 8_192, 65_535));
    let spent = (limits.numbers, limits.ids, limits.wds, limits.cookies);
    let wanted = (1_048_576, 2_147_483_647, 2_147_483_647, 4_294_967_295);
    equal(&rt, spent, wanted);
    let sizes = (limits.file_bytes, limits.journal, limits.seats);
    equal(&rt, sizes, (16_777_216, 1_000_000, 65_536));
}
