//! The program `watchtree`: runs a script of calls on a tree of files and prints their replies, or lets two writers and
//! two listeners work on one tree at once and settles its book.
#![tactic(auto)]

ghost use Rattle.std.specs.Prelude.{◌≤◌};

use event_sinks::{CountSink, Sink};
use record_codec::Port;
use std::alloc::Global;
use std::io::Write;
use std::process::ExitCode;
use std::sync::Wait;
use std::thread::Threads;
use std::{env, io};
use watchtree_command::{Fault, Invocation, invocation_from, write_report};
use watchtree_script::run_script;
use watchtree_storm::{OpenGate, storm};

/// How many records each sink of a storm takes at most.
const MOST: u64 = 1_000_000;

/// A storm, and what is printed of it.
fn run_storm<W: Write, R: Threads + Wait + Sync>(
    rt: &R,
    alloc: Global,
    calls: u32,
    output: &mut Port<W>,
) -> Result<(), Fault>
    requires { (1 ≤ calls) × (calls ≤ 1000) }
{
    let mut sinks: Vec<Box<dyn Sink>> = Vec::with_capacity(alloc, 2)?;
    sinks.push_reserved(Box::new(alloc, CountSink::new(alloc, MOST))?);
    sinks.push_reserved(Box::new(alloc, CountSink::new(alloc, MOST))?);
    let stormed = storm(rt, alloc, calls, &OpenGate, sinks)?;
    write_report(alloc, &stormed, output)
}

fn main(rt: HostRuntime) -> ExitCode {
    let alloc = rt.alloc();
    let asked = match env::args(&rt) {
        Ok(args) => match args.collect::<Vec<String>>(alloc) {
            Ok(words) => invocation_from(alloc, &words),
            Err(_) => Err(Fault::Memory),
        },
        Err(error) => Err(Fault::of_words(error.kind())),
    };
    let mut output = Port::new(io::writer(&rt));
    let ended = match asked {
        Ok(Invocation::Run { queue }) => {
            let mut input = Port::new(rt.reader());
            run_script(alloc, &mut input, &mut output, queue).map_err(Fault::Run)
        }
        Ok(Invocation::Storm { calls }) => run_storm(&rt, alloc, calls, &mut output),
        Err(fault) => Err(fault),
    };
    match ended {
        Ok(()) => ExitCode::SUCCESS,
        Err(fault) => {
            // The status reports the fault even if its line cannot be written.
            let _ = eprintln!(rt; "watchtree: {fault}");
            ExitCode::from(fault.status())
        }
    }
}
