//! Calls as the lines of a script that make them, and entries of a journal with their replies as comments.

ghost use Rattle.std.specs.Prelude.{◌≡◌, ◌∷◌, ◌++◌, ◌≤◌, List, ℕ, [], OnOk, OnErr, codes, decimal};
ghost use Rattle.std.specs.Prelude.{false, length};
ghost use Rattle.std.specs.Fmt.{digits, digit_glyph};
ghost use Rattle.tree_core.specs.Calls.{IsSpelled};
ghost use Rattle.watchtree_script.specs.CallLines.{call_line, call_text, has_line, file_has_line, is_short, is_mode};
ghost use Rattle.watchtree_script.specs.CallLines.{path_text, mode_digits_of, mask_text, commented, IsEntryText};
ghost use Rattle.watchtree_script.specs.Replies.{hexadecimal};
ghost use Rattle.record_codec.specs.Lines.{printed_name};
ghost use Rattle.tree_paths.specs.Paths.{slashed};

use crate::line::OutputFormat;
use crate::pieces::Words;
use crate::print::{push_digits, push_field, push_reply};
use record_codec::{append_name, append_printed};
use std::alloc::AllocError;
use tree_core::{Call, Entry};
use tree_ops::FileCall;
use tree_paths::Path;

/// The bytes of a path's text with a zero byte behind it, as POSIX counts them.
const PATH_MAX: usize = 4096;

/// The first mode that has more octal digits than a line may have.
const MODE_END: u32 = 0o1_000_000;

/// How many bytes the buffer of an entry has at the start, which most entries do not outgrow.
const ENTRY_ROOM: usize = 256;

/// How many bytes a comment has beside what it says.
const COMMENT_LEN: usize = 3;

const OCTAL: u32 = 8;

const HEXADECIMAL: u32 = 16;

/// Adds the line of a script that makes the call, with its line feed, at the end.
///
/// A call that no line makes is added as a comment that says so: a [`Call::Pump`], a [`Call::Init`] with a pipe, a call
/// with a path of 4096 bytes or more, and one with a mode of more than six octal digits.
///
/// # Errors
/// `AllocError`, where there is no memory for it. The text is then as it was.
pub fn append_call_line(call: &Call, text: &mut Vec<u8>) -> Result<(), AllocError>
    ensures ok { OnOk result (text.new.items ≡ text.old.items ++ call_line call.now) }
    ensures err { OnErr result (text.new.items ≡ text.old.items) }
{
    let mut line = Vec::new(*text.allocator());
    push_call_line(&mut line, call)?;
    text.extend_from_slice(line.as_slice())
}

/// Adds an entry at the end: the line of its call, as [`append_call_line`], and its reply as comments, with a line for
/// each record.
///
/// # Errors
/// `AllocError`, where there is no memory for it. The text is then as it was.
pub fn append_entry(entry: &Entry, text: &mut Vec<u8>) -> Result<(), AllocError>
    requires { IsSpelled entry.now.reply }
    ensures ok { OnOk result ((added : List ℕ) × IsEntryText entry.now added
        × (text.new.items ≡ text.old.items ++ added)) }
    ensures err { OnErr result (text.new.items ≡ text.old.items) }
{
    let mut entry_text = Vec::with_capacity(*text.allocator(), ENTRY_ROOM)?;
    push_reply(&mut entry_text, OutputFormat::Records, &entry.reply)?;
    let len = entry_text.len();
    push_call_line(&mut entry_text, &entry.call)?;
    let (reply, line) = entry_text.split_at(len);
    append_lines(line, reply, text)
}

/// Adds the line of a call and the lines of its reply as comments. Most replies have one line.
fn append_lines(line: &[u8], reply: &[u8], text: &mut Vec<u8>) -> Result<(), AllocError>
    ensures ok { OnOk result (text.new.items ≡ text.old.items ++ line.now ++ commented reply.now) }
    ensures err { OnErr result (text.new.items ≡ text.old.items) }
{
    if let Some(said) = Words::new(b'\n', reply).one() {
        let len = line.len().saturating_add(said.len());
        text.reserve(len.saturating_add(COMMENT_LEN))?;
        text.extend_from_slice(line).unwrap();
        text.extend_from_slice(b"# ").unwrap();
        text.extend_from_slice(said).unwrap();
        text.push_reserved(b'\n');
        return Ok(());
    }
    let mut lines = Vec::with_capacity(*text.allocator(), ENTRY_ROOM)?;
    lines.extend_from_slice(line)?;
    push_comments(&mut lines, reply)?;
    text.extend_from_slice(lines.as_slice())
}

#[tactic(auto, unfolding(crate::specs::CallLines::call_line))]
fn push_call_line(text: &mut Vec<u8>, call: &Call) -> Result<(), AllocError>
    ensures { OnOk result (text.new.items ≡ text.old.items ++ call_line call.now) }
{
    let start = text.len();
    push_call(text, call)?;
    if has_line(call, text.len() - start) {
        return text.extend_from_slice(b"\n");
    }
    text.truncate(start);
    text.extend_from_slice(b"# ")?;
    push_call(text, call)?;
    text.extend_from_slice(b" (no line of a script makes this call)\n")
}

/// The lines of a text as comments.
fn push_comments(text: &mut Vec<u8>, said: &[u8]) -> Result<(), AllocError>
    ensures { OnOk result (text.new.items ≡ text.old.items ++ commented said.now) }
{
    let mut lines = Words::new(b'\n', said);
    while let Some(line) = lines.next_word() {
        text.extend_from_slice(b"# ")?;
        text.extend_from_slice(line)?;
        text.extend_from_slice(b"\n")?;
    }
    Ok(())
}

/// Whether a line of a script makes the call, whose words take at most `len` bytes.
#[tactic(auto, using(crate::proofs::CallLemmas::third_within), unfolding(crate::specs::CallLines::call_text))]
fn has_line(call: &Call, len: usize) -> bool
    requires { length (call_text call.now) ≤ len }
    ensures { result ≡ has_line call.now }
{
    match call {
        Call::File(call) => file_has_line(call, len),
        Call::Init { piped, .. } => !*piped,
        Call::AddWatch { path, .. } => is_short(path, len),
        Call::Pump { .. } => false,
        Call::RmWatch { .. } | Call::Read { .. } | Call::Close { .. } => true,
    }
}

#[tactic(auto, using(crate::proofs::CallLemmas::within), unfolding(crate::specs::CallLines::call_text))]
fn file_has_line(call: &FileCall, len: usize) -> bool
    requires { length (call_text (Call.File call.now)) ≤ len }
    ensures { result ≡ file_has_line call.now }
{
    match call {
        FileCall::Create { path, mode }
        | FileCall::Mkdir { path, mode }
        | FileCall::Chmod { path, mode } => is_short(path, len) && *mode < MODE_END,
        FileCall::Link { old, new }
        | FileCall::Rename { old, new }
        | FileCall::Rename2 { old, new, .. } => is_short(old, len) && is_short(new, len),
        FileCall::Write { path, .. }
        | FileCall::ReadFile { path, .. }
        | FileCall::Truncate { path, .. }
        | FileCall::Unlink { path }
        | FileCall::Rmdir { path }
        | FileCall::Stat { path }
        | FileCall::List { path } => is_short(path, len),
    }
}

/// Whether a path is not too long for a line. Its text has at most `len` bytes.
#[tactic(auto, using(crate::proofs::CallLemmas::short_path))]
#[inline(always)]
fn is_short(path: &Path, len: usize) -> bool
    requires { length (path_text path.now) ≤ len }
    ensures { result ≡ is_short path.now }
{
    len < PATH_MAX || has_short_name(path)
}

/// Whether a path is not too long for a line, by its names.
#[cold]
fn has_short_name(path: &Path) -> bool
    ensures { result ≡ is_short path.now }
{
    let mut names = path.names();
    let mut len = 0;
    while let Some(name) = names.next() {
        len += 1 + name.as_name().bytes().len();
        if PATH_MAX <= len {
            return false;
        }
    }
    true
}

/// The words of a call, with a space between each two.
#[tactic(auto, unfolding(crate::specs::CallLines::call_text))]
fn push_call(text: &mut Vec<u8>, call: &Call) -> Result<(), AllocError>
    ensures { OnOk result (text.new.items ≡ text.old.items ++ call_text call.now) }
{
    match call {
        Call::File(call) => push_file_call(text, call),
        Call::Init { limit, piped } => push_init(text, *limit, *piped),
        Call::AddWatch {
            instance,
            path,
            mask,
        } => {
            text.extend_from_slice(b"watch")?;
            push_field(text, *instance)?;
            push_path(text, path)?;
            push_mask(text, *mask)
        }
        Call::RmWatch { instance, wd } => {
            text.extend_from_slice(b"unwatch")?;
            push_field(text, *instance)?;
            push_field(text, *wd)
        }
        Call::Read { instance, bytes } => {
            text.extend_from_slice(b"read")?;
            push_field(text, *instance)?;
            push_field(text, *bytes)
        }
        Call::Pump { instance, bytes } => {
            text.extend_from_slice(b"pump")?;
            push_field(text, *instance)?;
            push_field(text, *bytes)
        }
        Call::Close { instance } => {
            text.extend_from_slice(b"close")?;
            push_field(text, *instance)
        }
    }
}

#[tactic(auto, unfolding(crate::specs::CallLines::call_text))]
fn push_init(text: &mut Vec<u8>, limit: u32, piped: bool) -> Result<(), AllocError>
    ensures { OnOk result (text.new.items ≡ text.old.items ++ call_text (Call.Init limit piped)) }
{
    text.extend_from_slice(b"init")?;
    push_field(text, limit)?;
    if piped {
        text.extend_from_slice(b" for a pipe")?;
    }
    Ok(())
}

#[tactic(auto, unfolding(crate::specs::CallLines::call_text))]
fn push_file_call(text: &mut Vec<u8>, call: &FileCall) -> Result<(), AllocError>
    ensures { OnOk result (text.new.items ≡ text.old.items ++ call_text (Call.File call.now)) }
{
    match call {
        FileCall::Create { path, mode } => push_with_mode(text, b"create", path, *mode),
        FileCall::Mkdir { path, mode } => push_with_mode(text, b"mkdir", path, *mode),
        FileCall::Write {
            path,
            offset,
            bytes,
        } => {
            push_with_path(text, b"write", path)?;
            push_field(text, *offset)?;
            push_hex(text, bytes.as_slice())
        }
        FileCall::ReadFile {
            path,
            offset,
            count,
        } => {
            push_with_path(text, b"cat", path)?;
            push_field(text, *offset)?;
            push_field(text, *count)
        }
        FileCall::Truncate { path, len } => {
            push_with_path(text, b"truncate", path)?;
            push_field(text, *len)
        }
        FileCall::Chmod { path, mode } => push_with_mode(text, b"chmod", path, *mode),
        FileCall::Link { old, new } => push_with_paths(text, b"link", old, new),
        FileCall::Unlink { path } => push_with_path(text, b"unlink", path),
        FileCall::Rmdir { path } => push_with_path(text, b"rmdir", path),
        FileCall::Rename { old, new } => push_with_paths(text, b"rename", old, new),
        FileCall::Rename2 { old, new, flags } => {
            push_with_paths(text, b"rename2", old, new)?;
            push_field(text, *flags)
        }
        FileCall::Stat { path } => push_with_path(text, b"stat", path),
        FileCall::List { path } => push_with_path(text, b"list", path),
    }
}

/// A command, and its path.
fn push_with_path(text: &mut Vec<u8>, command: &[u8], path: &Path) -> Result<(), AllocError>
    ensures { OnOk result (text.new.items
        ≡ text.old.items ++ command.now ++ codes " " ++ path_text path.now) }
{
    text.extend_from_slice(command)?;
    push_path(text, path)
}

/// A command, its path and its mode.
fn push_with_mode(
    text: &mut Vec<u8>,
    command: &[u8],
    path: &Path,
    mode: u32,
) -> Result<(), AllocError>
    ensures { OnOk result (text.new.items
        ≡ text.old.items ++ command.now ++ codes " " ++ path_text path.now ++ codes " " ++ mode_digits_of mode) }
{
    push_with_path(text, command, path)?;
    text.extend_from_slice(b" ")?;
    push_number(text, OCTAL, mode)
}

/// A command, its old path and its new one.
fn push_with_paths(
    text: &mut Vec<u8>,
    command: &[u8],
    old: &Path,
    new: &Path,
) -> Result<(), AllocError>
    ensures { OnOk result (text.new.items
        ≡ text.old.items ++ command.now ++ codes " " ++ path_text old.now ++ codes " " ++ path_text new.now) }
{
    push_with_path(text, command, old)?;
    push_path(text, new)
}

/// A path behind a space.
fn push_path(text: &mut Vec<u8>, path: &Path) -> Result<(), AllocError>
    ensures { OnOk result (text.new.items ≡ text.old.items ++ codes " " ++ path_text path.now) }
{
    if path.is_root() {
        return text.extend_from_slice(b" /");
    }
    text.extend_from_slice(b" ")?;
    match path.text() {
        Some(whole) => append_printed(whole, text),
        None => push_long_names(text, path),
    }
}

/// The pathname of a path that has a long name, with each byte printed as one of a name.
#[cold]
fn push_long_names(text: &mut Vec<u8>, path: &Path) -> Result<(), AllocError>
    ensures { OnOk result (text.new.items ≡ text.old.items ++ printed_name (slashed path.now)) }
{
    let mut names = path.names();
    while let Some(name) = names.next() {
        text.extend_from_slice(b"/")?;
        append_name(name.as_name(), text)?;
    }
    Ok(())
}

/// The bytes of a write behind a space, as hexadecimal digits.
fn push_hex(text: &mut Vec<u8>, bytes: &[u8]) -> Result<(), AllocError>
    ensures { OnOk result (text.new.items ≡ text.old.items ++ codes " " ++ hexadecimal bytes.now) }
{
    if bytes.is_empty() {
        return text.extend_from_slice(b" -");
    }
    text.extend_from_slice(b" ")?;
    push_digits(text, bytes)
}

/// A mask behind a space.
fn push_mask(text: &mut Vec<u8>, mask: u32) -> Result<(), AllocError>
    ensures { OnOk result (text.new.items ≡ text.old.items ++ codes " " ++ mask_text mask) }
{
    text.extend_from_slice(b" 0x")?;
    push_number(text, HEXADECIMAL, mask)
}

/// The digits of a number of a radix.
#[tactic(auto, using(crate::proofs::CallLemmas::digits_one, crate::proofs::CallLemmas::digits_more))]
fn push_number(text: &mut Vec<u8>, radix: u32, number: u32) -> Result<(), AllocError>
    requires least { 2 ≤ radix }
    requires largest { radix ≤ 16 }
    ensures { OnOk result (text.new.items ≡ text.old.items ++ digits radix false number) }
{
    if radix <= number {
        push_number(text, radix, number / radix)?;
    }
    text.push(digit(number % radix))?;
    Ok(())
}

/// A digit, of which those above 9 are letters.
fn digit(value: u32) -> u8
    requires { value ≤ 15 }
    ensures { result ≡ digit_glyph false value }
{
    if value < 10 {
        b'0' + value as u8
    } else {
        b'a' + (value as u8 - 10)
    }
}
