ghost use Rattle.std.specs.Prelude.{◌≡◌, true};

mod books;
mod listeners;
mod refused;
mod stories;

use event_sinks::*;
use record_codec::bits::{IN_CREATE, IN_Q_OVERFLOW};
use record_codec::{Event, Name};
use std::alloc::Global;
use std::fmt::Debug;
use std::io;
use std::io::{ErrorKind, Write};
use std::process::Abort;
use std::sync::Arc;
use std::sync::atomic::{AtomicU64, Ordering};

/// Asserts that two values are equal. Tests assert in this function, and their helpers end the test where a call fails:
/// a macro or a `?` in a long body costs seconds to prove.
fn equal<T: PartialEq + Debug + Drop>(rt: &impl Abort, got: T, wanted: T) {
    assert_eq!(rt; got, wanted);
}

/// The event of a new file `f` in the directory of watch 1.
fn created(rt: &impl Abort, alloc: Global) -> Event {
    Event {
        wd: 1,
        mask: IN_CREATE,
        cookie: 0,
        name: Name::new(alloc, b"f").expect(rt, "memory"),
    }
}

/// Takes at most `step` bytes a call. With `free` bytes taken it fails `faults` times, and then goes on.
#[derive(Drop)]
struct ShortWriter<'a> {
    text: &'a mut Vec<u8>,
    step: usize,
    free: usize,
    faults: usize,
}

impl Write for ShortWriter<'_> {
    fn write(&mut self, buf: &[u8]) -> io::Result<usize> {
        let mut count = buf.len().min(self.step);
        if self.faults > 0 {
            if self.free == 0 {
                self.faults -= 1;
                return Err(io::Error::from(ErrorKind::Other));
            }
            count = count.min(self.free);
            self.free -= count;
        }
        match self.text.extend_from_slice(&buf[..count]) {
            Ok(()) => Ok(count),
            Err(_) => Err(io::Error::from(ErrorKind::OutOfMemory)),
        }
    }

    fn flush(&mut self) -> io::Result<()> {
        Ok(())
    }
}

/// Counts the bytes that were written, in every copy of the counter.
#[derive(Drop)]
struct CountingWriter {
    bytes: Arc<AtomicU64, Global>,
}

impl Write for CountingWriter {
    fn write(&mut self, buf: &[u8]) -> io::Result<usize> {
        self.bytes.fetch_add(buf.len() as u64, Ordering::SeqCst);
        Ok(buf.len())
    }

    fn flush(&mut self) -> io::Result<()> {
        Ok(())
    }
}

/// The fault of a put: none, that of a full sink, or that of a write that failed.
const TAKEN: Option<SinkFault> = None;

const FULL: Option<SinkFault> = Some(SinkFault::Full);

const UNWRITTEN: Option<SinkFault> = Some(SinkFault::Write);

/// Puts the record once for each of these faults, and compares them.
fn puts<S: Sink>(rt: &impl Abort, sink: &mut S, event: &Event, faults: &[Option<SinkFault>])
    requires { S.is_open sink.old ≡ true }
    ensures { S.is_open sink.new ≡ true }
{
    for fault in faults {
        let got = sink.put(event).err();
        equal(rt, (sink.taken(), got), (sink.taken(), *fault));
    }
}

/// Puts the record once for each of these faults, and closes the sink, which is open until then. Compares the faults,
/// and how many records it took.
fn takes<S: Sink>(
    rt: &impl Abort,
    mut sink: S,
    event: &Event,
    faults: &[Option<SinkFault>],
    taken: u64,
)
    requires { S.is_open sink ≡ true }
{
    puts(rt, &mut sink, event, faults);
    let before = sink.is_open();
    sink.close();
    let got = (sink.taken(), before, sink.is_open());
    equal(rt, got, (taken, true, false));
}

/// How many records a sink takes, and the faults of five puts.
const MOST: [(u64, [Option<SinkFault>; 5]); 6] = [
    (0, [FULL, FULL, FULL, FULL, FULL]),
    (1, [TAKEN, FULL, FULL, FULL, FULL]),
    (2, [TAKEN, TAKEN, FULL, FULL, FULL]),
    (3, [TAKEN, TAKEN, TAKEN, FULL, FULL]),
    (4, [TAKEN, TAKEN, TAKEN, TAKEN, FULL]),
    (5, [TAKEN, TAKEN, TAKEN, TAKEN, TAKEN]),
];

/// A sink that takes some records, also in a box; one that passes some on to a sink that takes all of them; and one
/// that passes all on to a sink that takes some.
#[test]
fn sinks_take(rt: HostRuntime) {
    let alloc = rt.alloc();
    let event = created(&rt, alloc);
    for (most, faults) in &MOST {
        let count = CountSink::new(alloc, *most);
        takes(&rt, count, &event, faults, *most);
        let stop = StopSink::new(MemorySink::new(alloc), *most);
        takes(&rt, stop, &event, faults, *most);
        let stop = StopSink::new(CountSink::new(alloc, *most), 9);
        takes(&rt, stop, &event, faults, *most);
        let count = CountSink::new(alloc, *most);
        let boxed: Box<dyn Sink> = Box::new(alloc, count).expect(&rt, "memory");
        takes(&rt, boxed, &event, faults, *most);
    }
    // What the other sink took before does not count.
    let mut first = MemorySink::new(alloc);
    puts(&rt, &mut first, &event, &[TAKEN, TAKEN]);
    takes(&rt, StopSink::new(first, 1), &event, &[TAKEN, FULL], 3);
}

/// How many records a sink takes, whose writer takes at most `step` bytes a call, and fails a number of times once a
/// number of bytes is written; the faults of its puts; whether it is closed before it is dropped; how many records it
/// took, and what it wrote.
type Written = (
    u64,
    (usize, usize, usize),
    &'static [Option<SinkFault>],
    bool,
    u64,
    &'static str,
);

/// The lines of 1 to 5 records, and the closing line.
const ONE: &str = "1 00000100 0 f\nclosed 1\n";

const TWO: &str = "1 00000100 0 f\n1 00000100 0 g\nclosed 2\n";

const THREE: &str = "1 00000100 0 f\n1 00000100 0 g\n1 00000100 0 h\nclosed 3\n";

const FOUR: &str = "1 00000100 0 f\n1 00000100 0 g\n1 00000100 0 h\n1 00000100 0 i\nclosed 4\n";

const FIVE: &str =
    "1 00000100 0 f\n1 00000100 0 g\n1 00000100 0 h\n1 00000100 0 i\n1 00000100 0 j\nclosed 5\n";

/// A line and the closing line after a line that was cut off.
const CUT: &str = "1 000001001 00000100 0 f\nclosed 1\n";

/// A write that fails is the fault of a put, which then does not count, or cuts off the closing line. The closing line
/// is written once: at the close, or at the drop of a sink that is open.
const WRITTEN: [Written; 9] = [
    (9, (99, 0, 0), &[TAKEN], true, 1, ONE),
    (9, (1, 0, 0), &[TAKEN], true, 1, ONE),
    (9, (99, 0, 0), &[TAKEN], false, 1, ONE),
    (1, (99, 0, 0), &[TAKEN, FULL], true, 1, ONE),
    (9, (4, 10, 1), &[UNWRITTEN], true, 0, "1 00000100closed 0\n"),
    (9, (99, 10, 99), &[UNWRITTEN], true, 0, "1 00000100"),
    (9, (99, 17, 1), &[TAKEN], true, 1, "1 00000100 0 f\ncl"),
    (9, (99, 22, 1), &[TAKEN], true, 1, "1 00000100 0 f\nclosed "),
    (1, (99, 10, 1), &[UNWRITTEN, TAKEN, FULL], false, 1, CUT),
];

/// Puts the record into such a sink, and compares what comes of it.
fn writes(
    rt: &impl Abort,
    alloc: Global,
    (most, (step, free, faults), puts_to, is_closed, taken, wanted): &Written,
) {
    let mut text = Vec::with_capacity(alloc, 99).expect(rt, "memory");
    let writer = ShortWriter {
        text: &mut text,
        step: *step,
        free: *free,
        faults: *faults,
    };
    let mut sink = StopSink::new(LineSink::new(alloc, writer), *most);
    puts(rt, &mut sink, &created(rt, alloc), puts_to);
    equal(rt, sink.taken(), *taken);
    if *is_closed {
        sink.close();
    }
    drop(sink);
    equal(rt, text.as_slice(), wanted.as_bytes());
}

#[test]
fn sinks_write_lines(rt: HostRuntime) {
    for row in &WRITTEN {
        writes(&rt, rt.alloc(), row);
    }
}

/// The overflow mark has no name, and a sink in a box is closed when it is dropped.
#[test]
fn a_dropped_box_closes(rt: HostRuntime) {
    let alloc = rt.alloc();
    let bytes = Arc::new(alloc, AtomicU64::new(0)).expect(&rt, "memory");
    let writer = CountingWriter {
        bytes: Arc::try_clone(&bytes).expect(&rt, "memory"),
    };
    let mark = Event {
        wd: -1,
        mask: IN_Q_OVERFLOW,
        cookie: 0,
        name: None,
    };
    let sink = LineSink::new(alloc, writer);
    let mut sink: Box<dyn Sink> = Box::new(alloc, sink).expect(&rt, "memory");
    puts(&rt, &mut sink, &mark, &[TAKEN]);
    let line = "-1 00004000 0\n".len() as u64;
    equal(&rt, bytes.load(Ordering::SeqCst), line);
    drop(sink);
    let closing = "closed 1\n".len() as u64;
    equal(&rt, bytes.load(Ordering::SeqCst), line + closing);
}

/// The text of each fault.
const TEXTS: [(SinkFault, &str); 3] = [
    (SinkFault::Memory, "out of memory"),
    (SinkFault::Write, "write fault"),
    (SinkFault::Full, "full"),
];

#[test]
fn says_why(rt: HostRuntime) {
    for (fault, wanted) in &TEXTS {
        let printed = format!(in rt.alloc(); "{fault}").expect(&rt, "memory");
        equal(&rt, printed.as_str(), *wanted);
    }
}
