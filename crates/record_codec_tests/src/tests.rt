ghost use Rattle.std.specs.Prelude.{◌≤◌, IfOk};
ghost use Rattle.record_codec.specs.Views.{AreRecords};

mod refused;

use record_codec::bits::{IN_CREATE, IN_ISDIR, IN_MOVED_TO, IN_Q_OVERFLOW};
use record_codec::{bits, *};
use std::alloc::Global;
use std::fmt::Debug;
use std::io;
use std::io::{ErrorKind, Read, Write};
use std::mem::size_of;
use std::process::Abort;

/// Asserts that two values are equal. Tests assert in this function, and their helpers end the test where a call fails:
/// a macro or a `?` in a long body costs seconds to prove.
fn equal<T: PartialEq + Debug + Drop>(rt: &impl Abort, got: T, wanted: T) {
    assert_eq!(rt; got, wanted);
}

/// The record of a file `f` that was made in the directory of watch 1, and that of an overflow.
const SPELLED: [u8; 48] = [
    1, 0, 0, 0, 0, 1, 0, 0, 0, 0, 0, 0, 16, 0, 0, 0, 0x66, 0, 0, 0, 0, 0, 0, 0, 0, 0, 0, 0, 0, 0,
    0, 0, 255, 255, 255, 255, 0, 0x40, 0, 0, 0, 0, 0, 0, 0, 0, 0, 0,
];

/// An event, with no name where these bytes are none.
fn named(rt: &impl Abort, alloc: Global, wd: i32, mask: u32, cookie: u32, name: &[u8]) -> Event {
    let name = Name::new(alloc, name).expect(rt, "memory");
    Event {
        wd,
        mask,
        cookie,
        name,
    }
}

/// The events of `SPELLED`.
fn two_events(rt: &impl Abort, alloc: Global) -> Vec<Event> {
    let first = named(rt, alloc, 1, IN_CREATE, 0, b"f");
    let mark = named(rt, alloc, -1, IN_Q_OVERFLOW, 0, b"");
    vec![in alloc; first, mark].expect(rt, "memory")
}

#[test]
fn writes_and_reads(rt: HostRuntime) {
    let alloc = rt.alloc();
    let events = two_events(&rt, alloc);
    let mut bytes = encode(alloc, &events).expect(&rt, "memory");
    equal(&rt, bytes.as_slice(), SPELLED.as_slice());
    let read = decode(alloc, &bytes).expect(&rt, "records");
    equal(&rt, read.as_slice(), events.as_slice());
    equal(&rt, spells(&events, &bytes), true);
    equal(&rt, spells(&events, &SPELLED[..47]), false);
    for event in &events {
        append(event, &mut bytes).expect(&rt, "memory");
    }
    equal(&rt, bytes.get(48..), Some(SPELLED.as_slice()));
}

/// Lists of bytes and of events are equal to their copies.
#[test]
fn lists(rt: HostRuntime) {
    let alloc = rt.alloc();
    let bytes = Bytes::from_vec(SPELLED.to_vec(alloc).expect(&rt, "memory"));
    let events = Events::from_vec(two_events(&rt, alloc));
    let copied = (
        bytes.copy().expect(&rt, "memory"),
        events.copy().expect(&rt, "memory"),
    );
    equal(&rt, (copied.0 == bytes, copied.1 == events), (true, true));
    equal(&rt, spells(events.as_slice(), bytes.as_slice()), true);
    equal(&rt, spells(&events.into_vec(), &bytes.into_vec()), true);
}

/// Whether these bytes are made a name. A copy of it has them too.
fn is_name(rt: &impl Abort, alloc: Global, bytes: &[u8]) -> bool {
    let Some(name) = Name::new(alloc, bytes).expect(rt, "memory") else {
        return false;
    };
    let copied = name.copy().expect(rt, "memory");
    equal(rt, (name.bytes(), copied.bytes()), (bytes, bytes));
    true
}

#[test]
fn names(rt: HostRuntime) {
    for bytes in [b"".as_slice(), b".", b"..", b"a/b", b"a\0", b" !%~\x7f/"] {
        equal(
            &rt,
            (bytes, is_name(&rt, rt.alloc(), bytes)),
            (bytes, false),
        );
    }
    for bytes in [b"a".as_slice(), b"...", b".a", b"\xff"] {
        equal(&rt, (bytes, is_name(&rt, rt.alloc(), bytes)), (bytes, true));
    }
    let long = [b'n'; NAME_MAX + 1];
    equal(&rt, is_name(&rt, rt.alloc(), &long), false);
}

/// The name of these bytes.
fn name(rt: &impl Abort, alloc: Global, bytes: &[u8]) -> Name {
    let name = Name::new(alloc, bytes).expect(rt, "memory");
    name.expect(rt, "a name")
}

/// The first of two names is lower, and is level with its copy.
fn is_lower(rt: &impl Abort, alloc: Global, low: &[u8], high: &[u8]) {
    let low = name(rt, alloc, low);
    let high = name(rt, alloc, high);
    let copied = low.copy().expect(rt, "memory");
    let is_level = copied == low && low.cmp(&copied).is_eq();
    equal(rt, (low < high, low != high, is_level), (true, true, true));
}

/// Names of 1 to 255 bytes that differ in the last byte alone, and names of which one is the front of the other.
#[test]
fn names_that_differ_in_the_last_byte(rt: HostRuntime) {
    let mut low = [b'm'; 255];
    low[254] = b'a';
    let mut high = [b'm'; 255];
    high[254] = b'z';
    for start in [254, 248, 247, 246, 232, 231, 230, 225, 224, 223, 215, 0] {
        equal(&rt, is_name(&rt, rt.alloc(), &high[start..]), true);
        is_lower(&rt, rt.alloc(), &low[start..], &high[start..]);
    }
    for len in [2, 7, 8, 9, 24, 25, 30, 31, 32, 39] {
        is_lower(&rt, rt.alloc(), &high[1..len], &high[..len]);
    }
}

#[test]
fn sizes(rt: HostRuntime) {
    let alloc = rt.alloc();
    let sizes = [
        size_of::<Name>(),
        size_of::<Option<Name>>(),
        size_of::<Event>(),
    ];
    equal(&rt, sizes, [32, 40, 56]);
    equal(&rt, [NAME_IN_PLACE, NAME_MAX], [31, 255]);
    let name = [b'n'; 255];
    for (name_len, len) in [(0, 16), (15, 32), (16, 48), (255, 272)] {
        let events = [named(&rt, alloc, 1, IN_CREATE, 0, &name[..name_len])];
        let bytes = encode(alloc, &events).expect(&rt, "memory");
        equal(&rt, (record_len(&events[0]), bytes.len()), (len, len));
    }
}

/// The records of the events, as bytes that are records.
fn spelled(rt: &impl Abort, alloc: Global, events: &[Event]) -> Vec<u8>
    ensures { AreRecords result.items }
{
    encode(alloc, events).expect(rt, "memory")
}

/// An event is printed as this line behind the word `a`, and so is its record where it lies.
fn has_line(rt: &impl Abort, alloc: Global, event: Event, line: &str) {
    let mut text = vec![in alloc; b'a'].expect(rt, "memory");
    append_record_line(&event, &mut text).expect(rt, "memory");
    let events = vec![in alloc; event].expect(rt, "memory");
    let bytes = spelled(rt, alloc, &events);
    let (record, rest) = next_record(&bytes).expect(rt, "a record");
    append_view_line(&record, &mut text).expect(rt, "memory");
    let wanted = format!(in alloc; "a{line}{line}").expect(rt, "memory");
    equal(rt, text.as_slice(), wanted.as_bytes());
    equal(rt, rest.is_empty() && next_record(rest).is_none(), true);
}

/// The numbers and the name of an event, and its line.
const LINES: [(i32, u32, u32, &[u8], &str); 3] = [
    (1, IN_CREATE, 0, b"f", "1 00000100 0 f"),
    (-1, IN_Q_OVERFLOW, 0, b"", "-1 00004000 0"),
    (
        2,
        IN_MOVED_TO | IN_ISDIR,
        4_294_967_295,
        b" !%~\x7f\x0a\xff",
        "2 40000080 4294967295 %20!%25~%7F%0A%FF",
    ),
];

/// Bytes, and how they are printed.
const PRINTED: [(&[u8], &str); 11] = [
    (b"", "|"),
    (b"/a/b", "|/a/b"),
    (b"%\0 \x7f\x80\xff", "|%25%00%20%7F%80%FF"),
    (b"!\"#$&'~", "|!\"#$&'~"),
    (b"/8_bytes", "|/8_bytes"),
    (b"/8 bytes", "|/8%20bytes"),
    (b"/9_bytes!", "|/9_bytes!"),
    (b"/more/than/16/bytes", "|/more/than/16/bytes"),
    (b"%more/than/16/bytes", "|%25more/than/16/bytes"),
    (b"/more/than\0/16/bytes", "|/more/than%00/16/bytes"),
    (b"/more/than/16/byte\xff", "|/more/than/16/byte%FF"),
];

#[test]
fn prints(rt: HostRuntime) {
    let alloc = rt.alloc();
    for (wd, mask, cookie, name, line) in &LINES {
        let event = named(&rt, alloc, *wd, *mask, *cookie, name);
        has_line(&rt, alloc, event, line);
    }
    for (bytes, printed) in &PRINTED {
        let mut text = vec![in alloc; b'|'].expect(&rt, "memory");
        append_printed(bytes, &mut text).expect(&rt, "memory");
        equal(&rt, text.as_slice(), printed.as_bytes());
    }
    let mut text = vec![in alloc; b'|'].expect(&rt, "memory");
    append_name(&name(&rt, alloc, b"~ "), &mut text).expect(&rt, "memory");
    equal(&rt, text.as_slice(), b"|~%20".as_slice());
}

/// The first bytes of `SPELLED`, or those of a record of 288 bytes with a name of 256 bytes, as some file systems of
/// Linux have them; bytes that are changed, each by its offset; and the fault.
const FAULTS: [(bool, usize, &[(usize, u8)], CodecFault); 12] = [
    (false, 15, &[], CodecFault::Short(0)),
    (false, 31, &[], CodecFault::Short(0)),
    (false, 35, &[], CodecFault::Short(32)),
    (false, 48, &[(12, 0x18)], CodecFault::BadLen(0)),
    (false, 48, &[(44, 0x08)], CodecFault::BadLen(32)),
    (false, 32, &[(16, 0x2f)], CodecFault::BadName(0)),
    (false, 32, &[(16, 0x00)], CodecFault::BadName(0)),
    (false, 32, &[(31, 0x01)], CodecFault::BadPad(0)),
    (true, 288, &[], CodecFault::BadLen(0)),
    (true, 280, &[(12, 0)], CodecFault::BadName(0)),
    (true, 280, &[(12, 0), (271, 0)], CodecFault::Short(272)),
    (true, 280, &[(12, 0), (20, 0)], CodecFault::BadPad(0)),
];

/// A fault, and its text.
const TEXTS: [(CodecFault, &str); 5] = [
    (CodecFault::Short(16), "bytes end within the record at 16"),
    (CodecFault::BadLen(32), "bad length of the name at 32"),
    (CodecFault::BadName(48), "no name in the record at 48"),
    (
        CodecFault::BadPad(0),
        "bad bytes behind the name in the record at 0",
    ),
    (CodecFault::Memory, "out of memory"),
];

#[test]
fn reads_faults(rt: HostRuntime) {
    let mut long = [b'n'; 288];
    long[..12].copy_from_slice(&SPELLED[..12]);
    long[12..16].copy_from_slice(&[16, 1, 0, 0]);
    long[272..].fill(0);
    for (is_long, len, changes, fault) in &FAULTS {
        let whole = if *is_long { long.as_slice() } else { &SPELLED };
        let mut bytes = whole.to_vec(rt.alloc()).expect(&rt, "memory");
        bytes.truncate(*len);
        for (at, byte) in *changes {
            if let Some(changed) = bytes.get_mut(*at) {
                *changed = *byte;
            }
        }
        equal(&rt, decode(rt.alloc(), &bytes).err(), Some(*fault));
    }
    for (fault, text) in &TEXTS {
        let printed = format!(in rt.alloc(); "{fault}").expect(&rt, "memory");
        equal(&rt, printed.as_str(), *text);
    }
}

/// What a reader or a writer answers.
type Answer = Result<usize, ErrorKind>;

/// A reader and a writer that answers each call so, and then with one byte a call.
#[derive(Drop)]
struct Shaky<'a> {
    answers: &'a [Answer],
    calls: usize,
}

impl Shaky<'_> {
    fn next(&mut self) -> io::Result<usize>
        ensures { IfOk result (λ n. n ≤ 1) }
    {
        let answer = self.answers.get(self.calls).copied();
        self.calls = self.calls.saturating_add(1);
        match answer {
            Some(Err(kind)) => Err(io::Error::from(kind)),
            Some(Ok(0)) => Ok(0),
            _ => Ok(1),
        }
    }
}

impl Read for Shaky<'_> {
    fn read(&mut self, buf: &mut [u8]) -> io::Result<usize> {
        if buf.is_empty() {
            return Ok(0);
        }
        self.next()
    }
}

impl Write for Shaky<'_> {
    fn write(&mut self, buf: &[u8]) -> io::Result<usize> {
        if buf.is_empty() {
            return Ok(0);
        }
        self.next()
    }

    fn flush(&mut self) -> io::Result<()> {
        Ok(())
    }
}

/// A port with this reader or writer.
fn port_of(answers: &[Answer]) -> Port<Shaky<'_>> {
    Port::new(Shaky { answers, calls: 0 })
}

/// What a call of a port comes to, how many faults the port has counted, and how many calls its reader or writer had.
type Known<T> = (Result<T, ErrorKind>, u64, usize);

fn known<T>(answer: io::Result<T>, port: &Port<Shaky<'_>>) -> Known<T> {
    let calls = port.inner().calls;
    (answer.map_err(|e| e.kind()), port.faults(), calls)
}

const OTHER: Answer = Err(ErrorKind::Other);

const INTERRUPTED: Answer = Err(ErrorKind::Interrupted);

/// The answers of a reader or a writer, and what reads and writes come to.
const CALLS: [(Answer, Known<usize>, Known<usize>); 4] = [
    (INTERRUPTED, (INTERRUPTED, 1, 1), (INTERRUPTED, 1, 1)),
    (Ok(0), (Ok(0), 1, 2), (Err(ErrorKind::WriteZero), 2, 2)),
    (Ok(1), (Ok(1), 1, 3), (Ok(1), 2, 3)),
    (OTHER, (OTHER, 2, 4), (OTHER, 3, 4)),
];

#[test]
fn a_port_makes_one_call(rt: HostRuntime) {
    let mut answers = [Ok(1); 4];
    for (answer, (wanted, _, _)) in answers.iter_mut().zip(&CALLS) {
        *answer = *wanted;
    }
    let mut reader = port_of(&answers);
    let mut writer = port_of(&answers);
    for (_, read, written) in &CALLS {
        let got = reader.read(&mut [0; 4]);
        equal(&rt, known(got, &reader), *read);
        let got = writer.write(b"abcd");
        equal(&rt, known(got, &writer), *written);
    }
}

/// The answers of a writer, and what comes of writing four bytes: it fails at one of its calls, or takes nothing.
const WRITES: [(&[Answer], Known<()>); 7] = [
    (&[], (Ok(()), 0, 4)),
    (&[OTHER], (Err(ErrorKind::Other), 1, 1)),
    (&[Ok(1), OTHER], (Err(ErrorKind::Other), 1, 2)),
    (&[Ok(1), Ok(1), OTHER], (Err(ErrorKind::Other), 1, 3)),
    (&[Ok(1), Ok(1), Ok(1), OTHER], (Err(ErrorKind::Other), 1, 4)),
    (&[Ok(1), Ok(0)], (Err(ErrorKind::WriteZero), 1, 2)),
    (&[INTERRUPTED], (Err(ErrorKind::Interrupted), 1, 1)),
];

/// Of no bytes it makes no call.
#[test]
fn writes_all(rt: HostRuntime) {
    for (answers, wanted) in &WRITES {
        let mut writer = port_of(answers);
        let got = writer.write_all(b"abcd");
        equal(&rt, known(got, &writer), *wanted);
        let got = writer.write_all(b"");
        equal(&rt, known(got, &writer), (Ok(()), wanted.1, wanted.2));
    }
}

/// Each bit by its name and its value: inotify(7), and inotify_add_watch(2).
#[test]
fn bits_have_their_values(rt: HostRuntime) {
    for (bit, value) in [
        (bits::IN_ACCESS, 0x0000_0001),
        (bits::IN_MODIFY, 0x0000_0002),
        (bits::IN_ATTRIB, 0x0000_0004),
        (bits::IN_CLOSE_WRITE, 0x0000_0008),
        (bits::IN_CLOSE_NOWRITE, 0x0000_0010),
        (bits::IN_OPEN, 0x0000_0020),
        (bits::IN_MOVED_FROM, 0x0000_0040),
        (bits::IN_MOVED_TO, 0x0000_0080),
        (bits::IN_CREATE, 0x0000_0100),
        (bits::IN_DELETE, 0x0000_0200),
        (bits::IN_DELETE_SELF, 0x0000_0400),
        (bits::IN_MOVE_SELF, 0x0000_0800),
        (bits::IN_ALL_EVENTS, 0x0000_0fff),
        (bits::IN_Q_OVERFLOW, 0x0000_4000),
        (bits::IN_IGNORED, 0x0000_8000),
        (bits::IN_ONLYDIR, 0x0100_0000),
        (bits::IN_DONT_FOLLOW, 0x0200_0000),
        (bits::IN_EXCL_UNLINK, 0x0400_0000),
        (bits::IN_MASK_CREATE, 0x1000_0000),
        (bits::IN_MASK_ADD, 0x2000_0000),
        (bits::IN_ISDIR, 0x4000_0000),
        (bits::IN_ONESHOT, 0x8000_0000),
    ] {
        equal(&rt, bit, value);
    }
}
