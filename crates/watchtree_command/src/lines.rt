//! What is printed of a storm.

ghost use Rattle.std.specs.Prelude.{◌≡◌, ◌++◌, IfErr, IfOk, IsOk, OnOk};
ghost use Rattle.std.specs.Io.KnownBytes.{Appends};
ghost use Rattle.std.specs.List.{flat_map};
ghost use Rattle.record_codec.specs.Ports.{faults_of, inner_of};
ghost use Rattle.watchtree_command.specs.Report.{EndTells, cause_word, listener_line, report_of, told_faults};

use crate::fault::Fault;
use event_sinks::{Cause, SettleFault};
use itoa::Buffer;
use record_codec::Port;
use std::alloc::{AllocError, Global};
use std::io::Write;
use watchtree_script::RunFault;
use watchtree_storm::Stormed;

/// Writes the lines of a storm, as [`report`] has them, and says how the program ends: well only where they were
/// written whole and the book is settled.
///
/// # Errors
/// The first that holds: [`Fault::Memory`], where there is no memory for the lines, and none is written;
/// [`RunFault::Write`], where a write failed, and a front of them is written; [`Fault::Settle`] with the fault of the
/// book, or [`Fault::Memory`], where there was no memory to settle it.
pub fn write_report<W: Write>(
    alloc: Global,
    stormed: &Stormed,
    output: &mut Port<W>,
) -> Result<(), Fault>
    ensures settled { OnOk result (IsOk stormed.now.settled) }
    ensures lines { OnOk result
        (Appends (W.contents (inner_of output.old)) (W.contents (inner_of output.new)) (report_of stormed.now)) }
    ensures err { IfErr result (λ fault.
        EndTells stormed.now fault (W.contents (inner_of output.old)) (W.contents (inner_of output.new))) }
    ensures faults { faults_of output.new ≡ told_faults result (faults_of output.old) }
{
    let text = report(alloc, stormed)?;
    if output.write_all(&text).is_err() {
        return Err(Fault::Run(RunFault::Write));
    }
    match stormed.settled {
        Ok(_) => Ok(()),
        Err(SettleFault::Memory) => Err(Fault::Memory),
        Err(fault) => Err(Fault::Settle(fault)),
    }
}

/// The lines of a storm: its entries, its listeners, and `settled` where the book is.
///
/// # Errors
/// `AllocError`, where there is no memory for them.
pub fn report(alloc: Global, stormed: &Stormed) -> Result<Vec<u8>, AllocError>
    ensures { IfOk result (λ text. text.items ≡ report_of stormed.now) }
{
    let mut text = Vec::new(alloc);
    let mut digits = Buffer::new();
    text.extend_from_slice(b"entries ")?;
    text.extend_from_slice(digits.format(stormed.entries).as_bytes())?;
    text.extend_from_slice(b"\n")?;
    add_listeners(&mut text, &stormed.listeners)?;
    if stormed.settled.is_ok() {
        text.extend_from_slice(b"settled\n")?;
    }
    Ok(text)
}

/// Adds the lines of listeners.
fn add_listeners(text: &mut Vec<u8>, listeners: &[(u32, Cause, u64)]) -> Result<(), AllocError>
    ensures { OnOk result (text.new.items ≡ text.old.items ++ flat_map listener_line listeners.now) }
{
    for listener in listeners {
        add_listener(text, listener)?;
    }
    Ok(())
}

/// Adds the line of a listener.
fn add_listener(text: &mut Vec<u8>, listener: &(u32, Cause, u64)) -> Result<(), AllocError>
    ensures { OnOk result (text.new.items ≡ text.old.items ++ listener_line listener.now) }
{
    let (number, cause, taken) = *listener;
    let mut digits = Buffer::new();
    text.extend_from_slice(b"listener ")?;
    text.extend_from_slice(digits.format(number).as_bytes())?;
    text.extend_from_slice(b" ")?;
    text.extend_from_slice(word_of(cause))?;
    text.extend_from_slice(b" ")?;
    text.extend_from_slice(digits.format(taken).as_bytes())?;
    text.extend_from_slice(b"\n")
}

/// Why a listener ended, in a word.
fn word_of(cause: Cause) -> &'static [u8]
    ensures { result.now ≡ cause_word cause }
{
    match cause {
        Cause::Last => b"last",
        Cause::Turns => b"turns",
        Cause::Given => b"given",
        Cause::Sink(_) => b"sink",
        Cause::Memory => b"memory",
    }
}
