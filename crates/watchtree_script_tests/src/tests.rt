mod lines;
mod refused;

use record_codec::Port;
use std::alloc::Global;
use std::fmt::Debug;
use std::io;
use std::io::{ErrorKind, Read, Write};
use std::process::Abort;
use watchtree_script::{
    RunFault, SCRIPT_MAX, ScriptFault, journals_are_lawful, run_script, texts_are_one,
};

/// Asserts that two values are equal. Tests assert in this function, and their helpers end the test where a call fails:
/// a macro or a `?` in a long body costs seconds to prove.
fn equal<T: PartialEq + Debug + Drop>(rt: &impl Abort, got: T, wanted: T) {
    assert_eq!(rt; got, wanted);
}

/// The limit of instances that name none.
const QUEUE: u32 = 16_384;

/// More calls of a reader or a writer than a test makes.
const EVER: usize = 10_000_000;

/// Five lines, and what they print.
const FIVE: &[u8] = b"mkdir /d 755\ninit\nwatch 1 /d 0x100\ncreate /d/f 644\nhex 1 4096\n";

const PRINTED: &[u8] =
    b"ok 2\nok 1\nok 1\nok 3\nok 32\n  0100000000010000000000001000000066000000000000000000000000000000\n";

/// A reader that gives at most `step` bytes at a time, and fails after `reads` reads.
#[derive(Drop)]
struct Slow<'a> {
    rest: &'a [u8],
    step: usize,
    reads: usize,
}

impl Read for Slow<'_> {
    fn read(&mut self, buf: &mut [u8]) -> io::Result<usize> {
        if self.reads == 0 {
            return Err(io::Error::from(ErrorKind::Other));
        }
        self.reads -= 1;
        let count = self.step.min(self.rest.len()).min(buf.len());
        buf[..count].copy_from_slice(&self.rest[..count]);
        self.rest = &self.rest[count..];
        Ok(count)
    }
}

/// A writer that takes at most `step` bytes at a time, and fails after `writes` writes.
#[derive(Drop)]
struct Narrow {
    taken: Vec<u8>,
    step: usize,
    writes: usize,
}

impl Write for Narrow {
    fn write(&mut self, buf: &[u8]) -> io::Result<usize> {
        if self.writes == 0 {
            return Err(io::Error::from(ErrorKind::Other));
        }
        self.writes -= 1;
        let count = self.step.min(buf.len());
        self.taken.extend_from_slice(&buf[..count])?;
        Ok(count)
    }

    fn flush(&mut self) -> io::Result<()> {
        Ok(())
    }
}

/// How much a reader or a writer does a call, and after how many calls it fails.
type Steps = (usize, usize);

/// A reader or a writer that does much a call, and never fails.
const MUCH: Steps = (4096, EVER);

/// Runs a script that is read and printed in these steps. Compares how the run ends, what it printed, and the ports'
/// counts of faults.
fn compare(
    rt: &impl Abort,
    alloc: Global,
    script: &[u8],
    ((step, reads), (width, writes)): (Steps, Steps),
    ends: Result<(), RunFault>,
    prints: &[u8],
) {
    let mut input = Port::new(Slow {
        rest: script,
        step,
        reads,
    });
    let mut output = Port::new(Narrow {
        taken: Vec::new(alloc),
        step: width,
        writes,
    });
    equal(rt, run_script(alloc, &mut input, &mut output, QUEUE), ends);
    equal(rt, output.inner().taken.as_slice(), prints);
    equal(rt, input.faults(), u64::from(ends == Err(RunFault::Read)));
    equal(rt, output.faults(), u64::from(ends == Err(RunFault::Write)));
}

/// A run of the five lines that ends well, and one without the last line's end; each number of reads after which a read
/// fails, of which the last gives no byte, and of writes after which a write fails; and a writer that takes nothing.
#[test]
fn five_lines(rt: HostRuntime) {
    let alloc = rt.alloc();
    compare(&rt, alloc, FIVE, (MUCH, MUCH), Ok(()), PRINTED);
    let shorter = &FIVE[..FIVE.len() - 1];
    let steps = ((7, EVER), (3, EVER));
    compare(&rt, alloc, shorter, steps, Ok(()), PRINTED);
    for reads in 0..=FIVE.len() {
        let ends = Err(RunFault::Read);
        compare(&rt, alloc, FIVE, ((1, reads), MUCH), ends, b"");
    }
    let steps = ((1, FIVE.len() + 1), (1, PRINTED.len()));
    compare(&rt, alloc, FIVE, steps, Ok(()), PRINTED);
    let ends = Err(RunFault::Write);
    for writes in 0..PRINTED.len() {
        let steps = (MUCH, (1, writes));
        compare(&rt, alloc, FIVE, steps, ends, &PRINTED[..writes]);
    }
    compare(&rt, alloc, FIVE, (MUCH, (0, EVER)), ends, b"");
    journals_are_lawful();
    texts_are_one();
}

/// The third line of a script, and its fault.
const FAULTS: [(&[u8], ScriptFault); 33] = [
    (b"frob\x01", ScriptFault::BadByte),
    (b"\tmkdir /b 755", ScriptFault::BadByte),
    (b"mkdir /b 755\r", ScriptFault::BadByte),
    (b"stat /\x7f", ScriptFault::BadByte),
    (b"stat /name-of-9\x1f", ScriptFault::BadByte),
    (b"stat /name-of-10\x7f/b", ScriptFault::BadByte),
    (
        b"stat /name/with/more/than-two-blocks\xff",
        ScriptFault::BadByte,
    ),
    (b"frob", ScriptFault::UnknownCommand),
    (b"rm %zz", ScriptFault::UnknownCommand),
    (b"Mkdir /b 755", ScriptFault::UnknownCommand),
    (b"mkdir %zz", ScriptFault::WrongNumber),
    (b"init 1 2", ScriptFault::WrongNumber),
    (b"hex 1 1 # more", ScriptFault::WrongNumber),
    (b"read 1", ScriptFault::WrongNumber),
    (b"list", ScriptFault::WrongNumber),
    (b"write /f 0", ScriptFault::WrongNumber),
    (b"mkdir %zz 999", ScriptFault::BadEscape),
    (b"create /%4 644", ScriptFault::BadEscape),
    (b"rename x %", ScriptFault::BadEscape),
    (b"mkdir b 8", ScriptFault::BadMode),
    (b"chmod /b 0000755", ScriptFault::BadMode),
    (b"write x 0 6", ScriptFault::BadHex),
    (b"write x 0 6g", ScriptFault::BadHex),
    (b"write x 18446744073709551616 6", ScriptFault::BadNumber),
    (b"cat x 0 4294967296", ScriptFault::BadNumber),
    (b"truncate x -1", ScriptFault::BadNumber),
    (b"watch x %z 0x", ScriptFault::BadNumber),
    (b"watch 1 / 100", ScriptFault::BadMask),
    (b"watch 1 / 0X1", ScriptFault::BadMask),
    (b"watch 1 / 0x123456789", ScriptFault::BadMask),
    (b"unwatch 1 2147483648", ScriptFault::BadNumber),
    (b"unwatch 1 --1", ScriptFault::BadNumber),
    (b"hex 000000000000000000001 1", ScriptFault::BadNumber),
];

/// What was printed before a fault is written then, and where that fails, it is the fault of the run.
#[test]
fn script_faults(rt: HostRuntime) {
    let alloc = rt.alloc();
    let short = (MUCH, (2, 1));
    let unwritten = Err(RunFault::Write);
    for (line, fault) in &FAULTS {
        let mut script = Vec::with_capacity(alloc, 99).expect(&rt, "memory");
        for part in [b"mkdir /a 755\n\n".as_slice(), *line, b"\nmkdir /c 755\n"] {
            script.extend_from_slice(part).expect(&rt, "memory");
        }
        let (line, fault) = (3, *fault);
        let ends = Err(RunFault::Script { line, fault });
        compare(&rt, alloc, &script, (MUCH, MUCH), ends, b"ok 2\n");
        compare(&rt, alloc, &script, short, unwritten, b"ok");
    }
}

/// How much is printed at the end of each write, where two lines are longer than what is printed at once.
const ENDS: [usize; 5] = [0, 8, 80_012, 160_016, 160_036];

#[test]
fn long_lines(rt: HostRuntime) {
    let alloc = rt.alloc();
    let script =
        b"create /f 644\ntruncate /f 40000\ncat /f 0 40000\ncat /f 0 40000\nstat /f\nfrob\n";
    let zeros = vec![in alloc; b'0'; 80_000].expect(&rt, "memory");
    let mut prints = Vec::new(alloc);
    for part in [
        b"ok 2\nok\nok ".as_slice(),
        &zeros,
        b"\nok ",
        &zeros,
        b"\nok 2 f 0644 1 40000\n",
    ] {
        prints.extend_from_slice(part).expect(&rt, "memory");
    }
    let fault = ScriptFault::UnknownCommand;
    let stops = Err(RunFault::Script { line: 6, fault });
    for (writes, end) in ENDS.iter().enumerate() {
        let ends = if writes == 4 {
            stops
        } else {
            Err(RunFault::Write)
        };
        let printed = prints.get(..*end).unwrap_or_default();
        compare(&rt, alloc, script, (MUCH, (EVER, writes)), ends, printed);
    }
    compare(&rt, alloc, script, (MUCH, (1000, EVER)), stops, &prints);
}

#[test]
fn many_lines(rt: HostRuntime) {
    let alloc = rt.alloc();
    let mut script = Vec::new(alloc);
    let mut prints = Vec::new(alloc);
    for _ in 0..20_000 {
        script.extend_from_slice(b"stat /\n").expect(&rt, "memory");
        let line = b"ok 1 d 0755 1 0\n";
        prints.extend_from_slice(line).expect(&rt, "memory");
    }
    for width in [4096, EVER] {
        let steps = (MUCH, (width, EVER));
        compare(&rt, alloc, &script, steps, Ok(()), &prints);
    }
}

/// Once a script is too long no further read is made, so one that would fail is not met.
#[test]
fn long_scripts(rt: HostRuntime) {
    let alloc = rt.alloc();
    let script = vec![in alloc; b'\n'; SCRIPT_MAX + 1].expect(&rt, "memory");
    let ends = Err(RunFault::TooLong);
    compare(&rt, alloc, &script, ((4096, 257), MUCH), ends, b"");
}
