//! What a line of a script asks for.

ghost use Rattle.std.specs.Prelude.{◌≡◌};
ghost use Rattle.std.specs.List.{list_all};
ghost use Rattle.watchtree_script.specs.Lines.{is_blank_or_comment, is_line_byte, is_silent};
ghost use Rattle.watchtree_script.specs.Commands.{command_of, line_of};
ghost use Rattle.watchtree_script.specs.Reading.{GivesLine};
ghost use Rattle.watchtree_script.specs.Words.{is_escaped};

use crate::fault::ScriptFault;
use crate::lines::ScriptLine;
use crate::pieces::Words;
use crate::rows::Parser;
use std::alloc::Global;
use tree_core::Call;
use tree_paths::Refusal;

/// A command of a script.
#[derive(Clone, Copy, Debug, PartialEq, Eq)]
pub enum Command {
    /// `mkdir PATH MODE` makes a directory.
    Mkdir,
    /// `create PATH MODE` makes a regular file.
    Create,
    /// `write PATH OFFSET HEX` writes bytes into a file.
    Write,
    /// `cat PATH OFFSET COUNT` reads bytes of a file.
    Cat,
    /// `truncate PATH LEN` gives a file another length.
    Truncate,
    /// `chmod PATH MODE` gives a file or a directory another mode.
    Chmod,
    /// `link OLD NEW` gives a file one more path.
    Link,
    /// `unlink PATH` takes a path from a file.
    Unlink,
    /// `rmdir PATH` takes away an empty directory.
    Rmdir,
    /// `rename OLD NEW` moves a file, or a directory with its descendants.
    Rename,
    /// `rename2 OLD NEW FLAGS` renames by flags.
    Rename2,
    /// `stat PATH` shows what is at a path.
    Stat,
    /// `list PATH` lists the names in a directory.
    List,
    /// `init` or `init LIMIT` makes an instance.
    Init,
    /// `watch ID PATH MASK` watches a file.
    Watch,
    /// `unwatch ID WD` ends a watch.
    Unwatch,
    /// `read ID BYTES` reads records of an instance, and shows a line of each.
    Read,
    /// `hex ID BYTES` reads records of an instance, and shows their bytes.
    Hex,
    /// `close ID` closes an instance.
    Close,
    /// `cut` puts a snapshot in the place of the journal.
    Cut,
}

/// How the records of a reply are shown.
#[derive(Clone, Copy, Debug, PartialEq, Eq)]
pub enum OutputFormat {
    /// By their number of bytes alone.
    Plain,
    /// By a line of each too.
    Records,
    /// By their bytes too, as hexadecimal digits.
    Hexadecimal,
}

/// What a line asks for.
#[derive(Drop)]
pub enum Line {
    /// Nothing: the line is empty, or a comment.
    Silent,
    /// A cut of the journal. The sequence number of its last entry is printed.
    Cut,
    /// A call, whose reply is printed.
    Run { call: Call, format: OutputFormat },
}

/// Why a line asks for no call.
#[derive(Clone, Copy, Debug, PartialEq, Eq)]
pub enum LineError {
    /// The line is wrong, and the run ends.
    Fault(ScriptFault),
    /// Its path is refused, which is printed as that of a call.
    Refused(Refusal),
    /// Its words were read, and there is no memory for a path of its call, which is printed as the call's `ENOMEM`.
    PathMemory,
    /// There is no memory to read its words, and the run ends.
    Memory,
}

/// What the line asks for, or the first reason why it asks for no call.
#[tactic(auto, unfolding(crate::specs::Commands::line_of, crate::specs::Commands::words_line))]
pub(crate) fn read_line(alloc: Global, queue: u32, line: ScriptLine<'_>) -> Result<Line, LineError>
    requires printable { line.is_printable ≡ list_all is_line_byte line.bytes.now }
    requires escape { line.has_escape ≡ is_escaped line.bytes.now }
    ensures { GivesLine result (line_of queue line.entry.bytes.now) }
{
    if is_silent(line.bytes) {
        return Ok(Line::Silent);
    }
    if !line.is_printable {
        return Err(LineError::Fault(ScriptFault::BadByte));
    }
    let mut words = Words::new(b' ', line.bytes);
    let Some(command) = words.next_word().and_then(command_named) else {
        return Err(LineError::Fault(ScriptFault::UnknownCommand));
    };
    Parser::new(alloc, queue, words, line.has_escape).line_asked(command)
}

/// Whether a line asks for nothing.
fn is_silent(line: &[u8]) -> bool
    ensures { result ≡ is_silent line.now }
{
    is_blank_or_comment(line) || line == b"--".as_slice()
}

/// Whether a line is empty, of spaces alone, or a comment.
fn is_blank_or_comment(line: &[u8]) -> bool
    ensures { result ≡ is_blank_or_comment line.now }
{
    for b in line {
        if *b != b' ' {
            return *b == b'#';
        }
    }
    true
}

/// The command that a word names.
#[tactic(auto, unfolding(crate::specs::Commands::command_of))]
fn command_named(word: &[u8]) -> Option<Command>
    ensures { result ≡ command_of word.now }
{
    match word {
        b"mkdir" => Some(Command::Mkdir),
        b"create" => Some(Command::Create),
        b"write" => Some(Command::Write),
        b"cat" => Some(Command::Cat),
        b"truncate" => Some(Command::Truncate),
        b"chmod" => Some(Command::Chmod),
        b"link" => Some(Command::Link),
        b"unlink" => Some(Command::Unlink),
        b"rmdir" => Some(Command::Rmdir),
        b"rename" => Some(Command::Rename),
        b"rename2" => Some(Command::Rename2),
        b"stat" => Some(Command::Stat),
        b"list" => Some(Command::List),
        b"init" => Some(Command::Init),
        b"watch" => Some(Command::Watch),
        b"unwatch" => Some(Command::Unwatch),
        b"read" => Some(Command::Read),
        b"hex" => Some(Command::Hex),
        b"close" => Some(Command::Close),
        b"cut" => Some(Command::Cut),
        _ => None,
    }
}
