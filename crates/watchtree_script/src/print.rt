//! Replies as text.

ghost use Rattle.std.specs.Prelude.{◌≡◌, ◌++◌, ◌<◌, ◌≤◌, List, [], OnOk, codes, decimal, length, false, map};
ghost use Rattle.std.specs.Fmt.{digit_glyph};
ghost use Rattle.std.specs.Simd.Lanes.{Each1};
ghost use Rattle.std.specs.List.{flat_map};
ghost use Rattle.watchtree_script.specs.Replies.{ok_line, done_line, hexadecimal, name_line, event_line, kind_letter};
ghost use Rattle.watchtree_script.specs.Replies.{mode_text, octal_digit, refusal_text, answer_text, AreEventsIn};
ghost use Rattle.watchtree_script.specs.Replies.{IsReadText, IsReplyText};
ghost use Rattle.record_codec.specs.declared.event.Event.{Event};
ghost use Rattle.record_codec.specs.Views.{AreRecords, event_seen};
ghost use Rattle.hex.specs.Hex.{encode_lower};
ghost use Rattle.tree_core.specs.Calls.{IsSpelled};

use crate::line::OutputFormat;
use inode_table::Kind;
use itoa::{Buffer, Integer};
use record_codec::{Name, RecordView, append_name, append_view_line, next_record};
use std::alloc::AllocError;
use std::simd::prelude::*;
use tree_core::Reply;
use tree_ops::Answer;
use tree_paths::Refusal;

/// How many bytes are made digits at once.
const BLOCK: usize = 16;

/// Adds a reply to an empty text, as its command shows it.
pub(crate) fn push_reply(
    text: &mut Vec<u8>,
    format: OutputFormat,
    reply: &Reply,
) -> Result<(), AllocError>
    requires empty { text.old.items ≡ [] }
    requires spelled { IsSpelled reply.now }
    ensures { OnOk result (IsReplyText format reply.now text.new.items) }
{
    match reply {
        Reply::File(answer) => push_answer(text, answer),
        Reply::Instance(id) => push_ok(text, *id),
        Reply::Wd(wd) => push_ok(text, *wd),
        Reply::Records(bytes) => push_read(text, format, bytes.as_slice()),
        Reply::Done => push_done(text),
        Reply::Refused(refusal) => push_refusal(text, *refusal),
    }
}

/// Adds a refusal, by its name and its number.
pub(crate) fn push_refusal(text: &mut Vec<u8>, refusal: Refusal) -> Result<(), AllocError>
    ensures { OnOk result (text.new.items ≡ text.old.items ++ refusal_text refusal) }
{
    let mut buffer = Buffer::new();
    text.extend_from_slice(b"err ")?;
    text.extend_from_slice(refusal.name().as_bytes())?;
    text.extend_from_slice(b" ")?;
    text.extend_from_slice(buffer.format(refusal.number()).as_bytes())?;
    text.extend_from_slice(b"\n")
}

fn push_answer(text: &mut Vec<u8>, answer: &Answer) -> Result<(), AllocError>
    ensures { OnOk result (text.new.items ≡ text.old.items ++ answer_text answer.now) }
{
    match answer {
        Answer::Done => push_done(text),
        Answer::Number(number) => push_ok(text, *number),
        Answer::Count(count) => push_ok(text, *count),
        Answer::Bytes(bytes) => push_bytes(text, bytes.as_slice()),
        Answer::Names(names) => push_names(text, names.as_slice()),
        Answer::Stat {
            number,
            kind,
            mode,
            links,
            size,
        } => push_stat(text, *number, *kind, *mode, *links, *size),
    }
}

fn push_done(text: &mut Vec<u8>) -> Result<(), AllocError>
    ensures { OnOk result (text.new.items ≡ text.old.items ++ done_line) }
{
    text.extend_from_slice(b"ok\n")
}

/// The bytes of a file, as hexadecimal digits.
fn push_bytes(text: &mut Vec<u8>, bytes: &[u8]) -> Result<(), AllocError>
    ensures { OnOk result (text.new.items ≡ text.old.items ++ ok_line (hexadecimal bytes.now)) }
{
    if bytes.is_empty() {
        return text.extend_from_slice(b"ok -\n");
    }
    text.extend_from_slice(b"ok ")?;
    push_digits(text, bytes)?;
    text.extend_from_slice(b"\n")
}

/// The names in a directory, in a line each.
fn push_names(text: &mut Vec<u8>, names: &[Name]) -> Result<(), AllocError>
    ensures { OnOk result (text.new.items
        ≡ text.old.items ++ ok_line (decimal (length names.now)) ++ flat_map name_line names.now) }
{
    push_ok(text, names.len())?;
    for name in names {
        push_name(text, name)?;
    }
    Ok(())
}

fn push_name(text: &mut Vec<u8>, name: &Name) -> Result<(), AllocError>
    ensures { OnOk result (text.new.items ≡ text.old.items ++ name_line name.now) }
{
    text.extend_from_slice(b"  ")?;
    append_name(name, text)?;
    text.extend_from_slice(b"\n")
}

/// What stands at a path.
fn push_stat(
    text: &mut Vec<u8>,
    number: u32,
    kind: Kind,
    mode: u32,
    links: u64,
    size: u64,
) -> Result<(), AllocError>
    ensures { OnOk result (text.new.items ≡ text.old.items ++ answer_text (Answer.Stat number kind mode links size)) }
{
    push_kind(text, number, kind)?;
    text.extend_from_slice(&mode_digits(mode))?;
    push_field(text, links)?;
    push_field(text, size)?;
    text.extend_from_slice(b"\n")
}

/// The number and the kind of a file, before its mode.
fn push_kind(text: &mut Vec<u8>, number: u32, kind: Kind) -> Result<(), AllocError>
    ensures { OnOk result (text.new.items
        ≡ text.old.items ++ codes "ok " ++ decimal number ++ codes " " ++ kind_letter kind ++ codes " ") }
{
    let mut buffer = Buffer::new();
    text.extend_from_slice(b"ok ")?;
    text.extend_from_slice(buffer.format(number).as_bytes())?;
    text.extend_from_slice(match kind {
        Kind::Regular => b" f ",
        Kind::Directory => b" d ",
    })
}

/// Adds a number behind a space.
#[inline(always)]
pub(crate) fn push_field<I: Integer>(text: &mut Vec<u8>, number: I) -> Result<(), AllocError>
    ensures { OnOk result (text.new.items ≡ text.old.items ++ codes " " ++ I.text number) }
{
    let mut buffer = Buffer::new();
    text.extend_from_slice(b" ")?;
    text.extend_from_slice(buffer.format(number).as_bytes())
}

/// A mode as four octal digits.
fn mode_digits(mode: u32) -> [u8; 4]
    ensures { result ≡ mode_text mode }
{
    [
        octal_digit(mode / 512),
        octal_digit(mode / 64),
        octal_digit(mode / 8),
        octal_digit(mode),
    ]
}

fn octal_digit(number: u32) -> u8
    ensures { result ≡ octal_digit number }
{
    b'0' + (number % 8) as u8
}

/// Adds ok and a number.
pub(crate) fn push_ok<I: Integer>(text: &mut Vec<u8>, value: I) -> Result<(), AllocError>
    ensures { OnOk result (text.new.items ≡ text.old.items ++ ok_line (I.text value)) }
{
    let mut buffer = Buffer::new();
    text.extend_from_slice(b"ok ")?;
    text.extend_from_slice(buffer.format(value).as_bytes())?;
    text.extend_from_slice(b"\n")
}

/// The reply of a read, in an empty text: the number of bytes that were read, and their records as they are shown.
fn push_read(text: &mut Vec<u8>, format: OutputFormat, bytes: &[u8]) -> Result<(), AllocError>
    requires empty { text.old.items ≡ [] }
    requires spelled { AreRecords bytes.now }
    ensures { OnOk result (IsReadText format bytes.now text.new.items) }
{
    push_ok(text, bytes.len())?;
    match format {
        OutputFormat::Plain => Ok(()),
        OutputFormat::Records => push_records(text, bytes),
        OutputFormat::Hexadecimal => {
            text.extend_from_slice(b"  ")?;
            push_digits(text, bytes)?;
            text.extend_from_slice(b"\n")
        }
    }
}

/// Adds bytes as hexadecimal digits.
pub(crate) fn push_digits(text: &mut Vec<u8>, bytes: &[u8]) -> Result<(), AllocError>
    ensures { OnOk result (text.new.items ≡ text.old.items ++ encode_lower bytes.now) }
{
    // A line feed comes behind the digits, and takes no allocation of its own.
    text.reserve(2 * bytes.len() + 1)?;
    let mut rest = bytes;
    while let Some((block, others)) = rest.split_first_chunk::<BLOCK>() {
        let (front, back) = block_digits(block);
        text.extend_from_slice(front.as_array())?;
        text.extend_from_slice(back.as_array())?;
        rest = others;
    }
    push_few_digits(text, rest)
}

/// Adds bytes that are no whole block as hexadecimal digits.
fn push_few_digits(text: &mut Vec<u8>, bytes: &[u8]) -> Result<(), AllocError>
    requires { length bytes.now ≤ BLOCK }
    ensures { OnOk result (text.new.items ≡ text.old.items ++ encode_lower bytes.now) }
{
    let mut digits = [0; 2 * BLOCK];
    let digits = &mut digits[..2 * bytes.len()];
    hex::encode_to_slice(bytes, digits).unwrap();
    text.extend_from_slice(digits)
}

/// The hexadecimal digits of a block, in two halves.
#[inline(always)]
fn block_digits(block: &[u8; BLOCK]) -> (u8x16, u8x16)
    ensures { encode_lower block.now ≡ result.0 ++ result.1 }
{
    let bytes = u8x16::from_array(*block);
    let high = digits_of(bytes >> u8x16::splat(4));
    let low = digits_of(bytes & u8x16::splat(15));
    high.interleave(low)
}

/// The hexadecimal digit of each value.
#[inline(always)]
fn digits_of(values: u8x16) -> u8x16
    requires len { length values ≡ 16 }
    requires below { Each1 (λ x. x < 16) values }
    ensures { result ≡ map (digit_glyph false) values }
{
    let letters = values.simd_gt(u8x16::splat(9));
    values + letters.select(u8x16::splat(b'a' - 10), u8x16::splat(b'0'))
}

/// A line for each record.
fn push_records(text: &mut Vec<u8>, bytes: &[u8]) -> Result<(), AllocError>
    requires { AreRecords bytes.now }
    ensures { OnOk result ((events : List Event) × AreEventsIn bytes.now events
        × (text.new.items ≡ text.old.items ++ flat_map event_line events)) }
{
    let mut rest = bytes;
    while let Some((record, behind)) = next_record(rest) {
        push_record(text, &record)?;
        rest = behind;
    }
    Ok(())
}

fn push_record(text: &mut Vec<u8>, view: &RecordView<'_>) -> Result<(), AllocError>
    ensures { OnOk result (text.new.items ≡ text.old.items ++ event_line (event_seen view.now)) }
{
    text.extend_from_slice(b"  ")?;
    append_view_line(view, text)?;
    text.extend_from_slice(b"\n")
}
