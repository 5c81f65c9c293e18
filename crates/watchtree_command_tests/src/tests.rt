//! What the words of a command line ask for, what each fault says, and how the program ends where a storm was made.

ghost use Rattle.std.specs.Prelude.{◌≡◌, ◌≤◌};

use event_sinks::{CountSink, SettleFault, Sink};
use record_codec::Port;
use std::alloc::Global;
use std::fmt::Debug;
use std::io::ErrorKind;
use std::process::Abort;
use std::sync::Wait;
use std::thread::Threads;
use watchtree_command::{Fault, Invocation, invocation_from, write_report};
use watchtree_script::{RunFault, ScriptFault};
use watchtree_storm::{OpenGate, storm};

/// Asserts that two values are equal. Tests assert in this function, and their helpers end the test where a call fails:
/// a macro or a `?` in a long body costs seconds to prove.
fn equal<T: PartialEq + Debug + Drop>(rt: &impl Abort, got: T, wanted: T) {
    assert_eq!(rt; got, wanted);
}

/// Words behind the program's name, which single spaces part, and what they ask for.
const ASKED: [(&str, Invocation); 7] = [
    ("run", Invocation::Run { queue: 16_384 }),
    ("run --queue 1", Invocation::Run { queue: 1 }),
    ("run --queue=65535", Invocation::Run { queue: 65_535 }),
    ("run --queue 00005", Invocation::Run { queue: 5 }),
    ("storm", Invocation::Storm { calls: 100 }),
    ("storm --calls 1", Invocation::Storm { calls: 1 }),
    ("storm --calls=1000", Invocation::Storm { calls: 1_000 }),
];

/// Words that are refused.
const REFUSED: [&str; 36] = [
    "",
    "walk",
    "run run",
    "run storm",
    "run more",
    "run --",
    "-- run",
    "run --queue",
    "run --queue=",
    "run --queue 0",
    "run --queue 65536",
    "run --queue 000001",
    "run --queue +1",
    "run --queue -1",
    "run --queue 0x1",
    "run --queue 5 6",
    "run --queue 5 --queue 5",
    "run --calls 5",
    "run --que 5",
    "run -q 5",
    "run -h",
    "run --help",
    "run help",
    "run --version",
    "storm storm",
    "storm --calls 0",
    "storm --calls 1001",
    "storm --queue 5",
    "storm --calls 1 --calls 1",
    "--queue 5 run",
    "help",
    "help run",
    "-h",
    "--help",
    "-V",
    "--version",
];

/// The words of a line, behind the program's name.
fn words_of(rt: &impl Abort, alloc: Global, line: &str) -> Vec<String> {
    let mut words = Vec::new(alloc);
    words.push(String::new(alloc)).expect(rt, "memory");
    for word in line.split(' ') {
        let word = format!(in alloc; "{word}").expect(rt, "memory");
        words.push(word).expect(rt, "memory");
    }
    words
}

#[test]
fn words_ask(rt: HostRuntime) {
    let alloc = rt.alloc();
    for (line, wanted) in &ASKED {
        let asked = invocation_from(alloc, &words_of(&rt, alloc, line));
        equal(&rt, (*line, asked), (*line, Ok(*wanted)));
    }
    for line in &REFUSED {
        let asked = invocation_from(alloc, &words_of(&rt, alloc, line));
        equal(&rt, (*line, asked), (*line, Err(Fault::CommandLine)));
    }
    equal(&rt, invocation_from(alloc, &[]), Err(Fault::CommandLine));
}

/// A fault, its line on standard error, behind `watchtree: `, and the exit status.
const FAULTS: [(Fault, &str, u8); 10] = [
    (Fault::CommandLine, "bad command line", 2),
    (Fault::Memory, "out of memory", 3),
    (Fault::Run(RunFault::TooLong), "script too long", 2),
    (Fault::Run(RunFault::Read), "read fault", 3),
    (Fault::Run(RunFault::Write), "write fault", 3),
    (Fault::Run(RunFault::Memory), "out of memory", 3),
    (
        Fault::Settle(SettleFault::CountDiffers {
            entries: 7,
            calls: 18_446_744_073_709_551_615,
        }),
        "settle: CountDiffers 7 18446744073709551615",
        1,
    ),
    (Fault::Settle(SettleFault::Stray(3)), "settle: Stray 3", 1),
    (
        Fault::Settle(SettleFault::NotEnded(2)),
        "settle: NotEnded 2",
        1,
    ),
    (
        Fault::Settle(SettleFault::HandedDiffers {
            instance: 4,
            place: 0,
        }),
        "settle: HandedDiffers 4 0",
        1,
    ),
];

/// A fault of line 9 of a script, and its line.
const SCRIPT_FAULTS: [(ScriptFault, &str); 8] = [
    (ScriptFault::BadByte, "line 9: bad byte"),
    (ScriptFault::UnknownCommand, "line 9: unknown command"),
    (ScriptFault::WrongNumber, "line 9: wrong number of words"),
    (ScriptFault::BadEscape, "line 9: bad escape"),
    (ScriptFault::BadMode, "line 9: bad mode"),
    (ScriptFault::BadHex, "line 9: bad hex"),
    (ScriptFault::BadMask, "line 9: bad mask"),
    (ScriptFault::BadNumber, "line 9: bad number"),
];

/// Compares the line of a fault, and its exit status.
fn has_line(rt: &impl Abort, alloc: Global, fault: Fault, line: &str, status: u8) {
    let printed = format!(in alloc; "{fault}").expect(rt, "memory");
    equal(rt, (printed.as_str(), fault.status()), (line, status));
}

#[test]
fn faults_have_lines_and_statuses(rt: HostRuntime) {
    for (fault, line, status) in &FAULTS {
        has_line(&rt, rt.alloc(), *fault, line, *status);
    }
    for (fault, line) in &SCRIPT_FAULTS {
        let (number, fault) = (9, *fault);
        let fault = RunFault::Script {
            line: number,
            fault,
        };
        has_line(&rt, rt.alloc(), Fault::Run(fault), line, 2);
    }
    let short = Fault::of_words(ErrorKind::OutOfMemory);
    let wrong = Fault::of_words(ErrorKind::InvalidData);
    equal(&rt, (short, wrong), (Fault::Memory, Fault::CommandLine));
}

/// Compares what the program writes of a storm of three calls whose sinks take at most `most` records, and its exit
/// status.
fn reports<R: Threads + Wait + Abort + Sync>(
    rt: &R,
    alloc: Global,
    most: u64,
    lines: &str,
    wanted: u8,
) {
    let mut sinks: Vec<Box<dyn Sink>> = Vec::with_capacity(alloc, 2).expect(rt, "memory");
    let one = CountSink::new(alloc, most);
    let other = CountSink::new(alloc, most);
    sinks.push_reserved(Box::new(alloc, one).expect(rt, "memory"));
    sinks.push_reserved(Box::new(alloc, other).expect(rt, "memory"));
    let stormed = storm(rt, alloc, 3, &OpenGate, sinks).expect(rt, "a storm");
    let mut output = Port::new(Vec::new(alloc));
    let status = match write_report(alloc, &stormed, &mut output) {
        Ok(()) => 0,
        Err(fault) => fault.status(),
    };
    equal(rt, output.inner().as_slice(), lines.as_bytes());
    equal(rt, status, wanted);
}

/// A storm whose sinks are large enough is settled, and one whose sinks are full is not: its listeners did not end by
/// the end batch.
#[test]
fn storms_have_statuses(rt: HostRuntime) {
    let settled = "entries 21\nlistener 1 last 16\nlistener 2 last 16\nsettled\n";
    reports(&rt, rt.alloc(), 16, settled, 0);
    let full = "entries 21\nlistener 1 sink 2\nlistener 2 sink 2\n";
    reports(&rt, rt.alloc(), 2, full, 1);
}
