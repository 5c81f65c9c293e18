//! Runs of scripts.

ghost use Rattle.std.specs.Prelude.{◌≡◌, ◌<◌, [], ℕ, List, None, Some, IfOk, OnOk, OnErr, IfErr, IfSome, Ok, take};
ghost use Rattle.std.specs.List.{last_or, list_all};
ghost use Rattle.record_codec.specs.Ports.{inner_of, faults_of};
ghost use Rattle.tree_core.specs.Calls.{IsSpelled};
ghost use Rattle.tree_core.specs.declared.reply.Entry.{Entry};
ghost use Rattle.tree_core.specs.declared.reply.Reply.{Reply};
ghost use Rattle.watchtree_script.specs.Commands.{line_of};
ghost use Rattle.watchtree_script.specs.Lines.{is_line_byte};
ghost use Rattle.watchtree_script.specs.Replies.{IsReplyText};
ghost use Rattle.watchtree_script.specs.Script.{PrintsLine, MayHaveRun, FaultTells, IsShort, Adds, IsText, Replies};
ghost use Rattle.watchtree_script.specs.Script.{write_faults, read_faults, PrintsNothing, LeavesLine};
ghost use Rattle.watchtree_script.specs.Running.{LineTells, ReadTells, IsRunFault, Passes};
ghost use Rattle.watchtree_script.specs.Words.{is_escaped};

use crate::fault::RunFault;
use crate::line::{Line, LineError, OutputFormat, read_line};
use crate::lines::{Lines, ScriptLine};
use crate::page::Page;
use crate::print::{push_ok, push_refusal, push_reply};
use record_codec::Port;
use std::alloc::{AllocError, Global};
use std::io::{Read, Write};
use tree_core::{Call, State};
use tree_paths::{Limits, Refusal};

/// The most bytes of a script.
pub const SCRIPT_MAX: usize = 1_048_576;

/// How many bytes one read asks for.
const READ_SIZE: usize = 4096;

/// Who makes the calls of a script, as the journal names it.
const CALLER: u32 = 1;

/// Runs the script that the reader gives on a new tree of the greatest limits, and prints each call's reply.
///
/// `queue` is the limit of each instance that names none. The whole script is read before its first line is run; a
/// read of nothing ends it, and once more than [`SCRIPT_MAX`] bytes were read there is no further read. A refusal
/// is a reply like any other, also `ENOMEM`, and the run goes on; so it does where there is no memory for a path of a
/// call.
///
/// # Errors
/// [`RunFault`] says why the run ended before its script. What the lines before printed stays written.
pub fn run_script<R: Read, W: Write>(
    alloc: Global,
    input: &mut Port<R>,
    output: &mut Port<W>,
    queue: u32,
) -> Result<(), RunFault>
    ensures ok { OnOk result (Adds (IsText queue) (R.remaining (inner_of input.old)) (W.contents (inner_of output.old))
        (W.contents (inner_of output.new))) }
    ensures err { IfErr result (λ fault. FaultTells queue fault (R.remaining (inner_of input.old))
        (W.contents (inner_of output.old)) (W.contents (inner_of output.new))) }
    ensures read { faults_of input.new ≡ read_faults result (faults_of input.old) }
    ensures written { faults_of output.new ≡ write_faults result (faults_of output.old) }
{
    let script = read_script(alloc, input)?;
    run_lines(alloc, &script, output, queue)
}

/// All that the reader gives.
fn read_script<R: Read>(alloc: Global, input: &mut Port<R>) -> Result<Vec<u8>, RunFault>
    ensures short { IfOk result (λ script. IsShort script.items) }
    ensures whole { IfOk result (λ script. IfSome (R.remaining (inner_of input.old)) (λ known. known ≡ script.items)) }
    ensures err { IfErr result (λ fault. ReadTells fault (R.remaining (inner_of input.old))) }
    ensures faults { faults_of input.new ≡ read_faults result (faults_of input.old) }
{
    let mut script = Vec::new(alloc);
    let mut buffer = [0u8; READ_SIZE];
    while script.len() <= SCRIPT_MAX {
        let Ok(count) = input.read(&mut buffer) else {
            return Err(RunFault::Read);
        };
        if count == 0 {
            return Ok(script);
        }
        script.extend_from_slice(&buffer[..count])?;
    }
    Err(RunFault::TooLong)
}

/// Runs a script line by line.
fn run_lines<W: Write>(
    alloc: Global,
    script: &[u8],
    output: &mut Port<W>,
    queue: u32,
) -> Result<(), RunFault>
    requires { IsShort script.now }
    ensures ok { OnOk result
        (Adds (IsText queue) (Some script.now) (W.contents (inner_of output.old)) (W.contents (inner_of output.new))) }
    ensures kind { IfErr result IsRunFault }
    ensures err { IfErr result (λ fault. FaultTells queue fault (Some script.now) (W.contents (inner_of output.old))
        (W.contents (inner_of output.new))) }
    ensures faults { faults_of output.new ≡ write_faults result (faults_of output.old) }
{
    let Ok(mut state) = State::new(alloc, Limits::full()) else {
        return Err(RunFault::Memory);
    };
    let mut lines = Lines::new(script);
    let mut number = 0;
    let mut text = Vec::new(alloc);
    let mut page = Page::new(alloc)?;
    while let Some(line) = lines.next_line() {
        number += 1;
        run_line(
            &mut state, queue, number, line, &mut text, &mut page, output,
        )?;
    }
    page.write(output)
}

/// Runs one line, and puts what it prints on the page. Where the line has a fault, what waits there is written.
///
/// The text is a buffer, which one line after another uses.
fn run_line<W: Write>(
    state: &mut State,
    queue: u32,
    number: u64,
    line: ScriptLine<'_>,
    text: &mut Vec<u8>,
    page: &mut Page,
    output: &mut Port<W>,
) -> Result<(), RunFault>
    requires printable { line.is_printable ≡ list_all is_line_byte line.bytes.now }
    requires escape { line.has_escape ≡ is_escaped line.bytes.now }
    ensures ok { OnOk result ((printed : List ℕ)
        × PrintsLine state.old (line_of queue line.entry.bytes.now) printed state.new
        × Passes page.old.text.items printed page.new.text.items
        (W.contents (inner_of output.old)) (W.contents (inner_of output.new))) }
    ensures err { IfErr result (λ fault. LineTells queue number state.old line.entry.bytes.now fault page.old.text.items
        (W.contents (inner_of output.old)) (W.contents (inner_of output.new))) }
    ensures faults { faults_of output.new ≡ write_faults result (faults_of output.old) }
{
    match print_script_line(text, state, queue, number, line) {
        Ok(()) => page.take(output, text.as_slice()),
        Err(fault) => {
            page.write(output)?;
            Err(fault)
        }
    }
}

/// Runs one line of a script on a tree, and makes the text that it prints, in place of what the text held.
///
/// # Errors
/// - [`RunFault::Script`], with the line's number: nothing was done.
/// - [`RunFault::Memory`]: there was none to read its words or for its text. Nothing was done, or all that the line
///   asks for.
pub fn print_line(
    text: &mut Vec<u8>,
    state: &mut State,
    queue: u32,
    number: u64,
    line: &[u8],
) -> Result<(), RunFault>
    ensures ok { OnOk result (PrintsLine state.old (line_of queue line.now) text.new.items state.new) }
    ensures err { IfErr result (PrintsNothing queue number line.now) }
    ensures left { IfErr result (λ fault. LeavesLine fault state.old (line_of queue line.now) state.new) }
{
    print_script_line(text, state, queue, number, ScriptLine::of(line))
}

/// Runs a line whose bytes were looked at, as [`print_line`] does.
#[tactic(auto, using(crate::proofs::PathLemmas::path_answered))]
#[inline(always)]
fn print_script_line(
    text: &mut Vec<u8>,
    state: &mut State,
    queue: u32,
    number: u64,
    line: ScriptLine<'_>,
) -> Result<(), RunFault>
    requires printable { line.is_printable ≡ list_all is_line_byte line.bytes.now }
    requires escape { line.has_escape ≡ is_escaped line.bytes.now }
    ensures ok { OnOk result (PrintsLine state.old (line_of queue line.entry.bytes.now) text.new.items state.new) }
    ensures err { IfErr result (PrintsNothing queue number line.entry.bytes.now) }
    ensures left { IfErr result (λ fault. LeavesLine fault state.old (line_of queue line.entry.bytes.now) state.new) }
{
    text.clear();
    match read_line(*text.allocator(), queue, line) {
        Ok(Line::Run { call, format }) => Ok(push_call(text, state, call, format)?),
        Ok(Line::Cut) => Ok(push_cut(text, state)?),
        Ok(Line::Silent) => Ok(()),
        Err(LineError::Refused(refusal)) => Ok(push_refusal(text, refusal)?),
        Err(LineError::PathMemory) => Ok(push_refusal(text, Refusal::Enomem)?),
        Err(LineError::Memory) => Err(RunFault::Memory),
        Err(LineError::Fault(fault)) => Err(RunFault::Script {
            line: number,
            fault,
        }),
    }
}

/// Cuts the journal, and adds the reply to an empty text.
fn push_cut(text: &mut Vec<u8>, state: &mut State) -> Result<(), AllocError>
    requires { text.old.items ≡ [] }
    ensures ok { OnOk result (PrintsLine state.old (Ok Line.Cut) text.new.items state.new) }
    ensures left { OnErr result (MayHaveRun state.old (Ok Line.Cut) state.new) }
{
    match state.cut() {
        Ok(place) => push_ok(text, place),
        Err(refusal) => push_refusal(text, refusal),
    }
}

/// Makes a call, and adds its reply to an empty text. It may be that memory or the journal is spent.
fn push_call(
    text: &mut Vec<u8>,
    state: &mut State,
    call: Call,
    format: OutputFormat,
) -> Result<(), AllocError>
    requires { text.old.items ≡ [] }
    ensures ok { OnOk result ((reply : Reply) × Replies state.old call reply state.new
        × IsReplyText format reply text.new.items) }
    ensures left { OnErr result (MayHaveRun state.old (Ok (Line.Run call format)) state.new) }
{
    match state.record(CALLER, call) {
        Ok(_) => push_last(text, state, format),
        Err(refusal) => push_refusal(text, refusal),
    }
}

/// Adds the reply of the journal's last entry to an empty text.
fn push_last(text: &mut Vec<u8>, state: &State, format: OutputFormat) -> Result<(), AllocError>
    requires empty { text.old.items ≡ [] }
    requires entry { (entry : Entry) × (last_or None state.now.entries ≡ Some entry) × IsSpelled entry.reply }
    ensures { OnOk result (IfSome (last_or None state.now.entries)
        (λ entry. IsReplyText format entry.reply text.new.items)) }
{
    let Some(entry) = state.last_entry() else {
        unreachable!()
    };
    push_reply(text, format, &entry.reply)
}
