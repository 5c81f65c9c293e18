//! Lines of scripts.

ghost use Rattle.std.specs.Prelude.{◌≡◌};
ghost use Rattle.watchtree_c.specs.Lines.{Runs, RunsOn, IsTextTold, fault_number, run_number};

use crate::answers::{count_number, put, refused_number};
use crate::opened::Opened;
use crate::tree::TreeHandle;
use std::alloc::Global;
use tree_paths::Refusal;
use watchtree_script::{RunFault, ScriptFault, print_line};

/// The number of each line: C counts its own.
const LINE: u64 = 1;

/// Runs one line of a script, and puts the text that it prints at the front of `out`, as much as fits. It answers how
/// many bytes the text has. The whole text is kept until the next line: [`wt_text`] gives it. `queue` is the limit of
/// an instance that names none.
///
/// # Errors
/// - `EBADF`, where the tree is not open.
/// - 1101 to 1108: the line has a fault, and nothing was done.
/// - `ENOMEM`: there is no memory for the line or its text. Nothing was done, or all that the line asks for.
#[unsafe(no_mangle)]
pub extern "C" fn wt_line(
    alloc: Global,
    tree: &mut TreeHandle,
    queue: u32,
    line: &[u8],
    out: &mut [u8],
) -> i64
    ensures { Runs queue line.now tree.old.held.state result tree.new.held.state out.old out.new }
{
    let Some(mut opened) = tree.take(alloc) else {
        return refused_number(Refusal::Ebadf);
    };
    let number = run(&mut opened, queue, line, out);
    *tree = TreeHandle::of(opened);
    number
}

fn run(opened: &mut Opened, queue: u32, line: &[u8], out: &mut [u8]) -> i64
    ensures { RunsOn queue line.now opened.old result opened.new out.old out.new }
{
    match print_line(&mut opened.text, &mut opened.state, queue, LINE, line) {
        Ok(()) => {
            put(out, opened.text.as_slice());
            count_number(opened.text.len() as u64)
        }
        Err(fault) => {
            opened.text.clear();
            run_number(fault)
        }
    }
}

fn run_number(fault: RunFault) -> i64
    ensures { result ≡ run_number fault }
{
    match fault {
        RunFault::Script { fault, .. } => -i64::from(fault_number(fault)),
        _ => refused_number(Refusal::Enomem),
    }
}

/// Puts the text of the last line that [`wt_line`] ran at the front of `out`, as much as fits. It answers how many
/// bytes the text has: 0 where no line ran, or the last one had a fault or no memory. No call is made for it.
///
/// # Errors
/// `EBADF`, where the tree is not open.
#[unsafe(no_mangle)]
pub extern "C" fn wt_text(alloc: Global, tree: &mut TreeHandle, out: &mut [u8]) -> i64
    ensures told { IsTextTold tree.old.held.state result out.old out.new }
    ensures same { tree.new.held.state ≡ tree.old.held.state }
{
    let Some(opened) = tree.take(alloc) else {
        return refused_number(Refusal::Ebadf);
    };
    put(out, opened.text.as_slice());
    let number = count_number(opened.text.len() as u64);
    *tree = TreeHandle::of(opened);
    number
}

fn fault_number(fault: ScriptFault) -> u32
    ensures { result ≡ fault_number fault }
{
    match fault {
        ScriptFault::BadByte => 1101,
        ScriptFault::UnknownCommand => 1102,
        ScriptFault::WrongNumber => 1103,
        ScriptFault::BadEscape => 1104,
        ScriptFault::BadMode => 1105,
        ScriptFault::BadHex => 1106,
        ScriptFault::BadMask => 1107,
        ScriptFault::BadNumber => 1108,
    }
}
