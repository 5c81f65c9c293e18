//! Names and records as text.

ghost use Rattle.std.specs.Prelude.{◌≡◌, ◌≤◌, ◌+◌, ◌*◌, ◌++◌, decimal, length, vec_len, vec_capacity, OnOk, OnErr};
ghost use Rattle.std.specs.Prelude.{IsTrue};
ghost use Rattle.std.specs.Fmt.{signed_decimal};
ghost use Rattle.std.specs.List.{list_all};
ghost use Rattle.record_codec.specs.Lines.{is_plain, printed_byte, printed_name, printed_numbers, record_line};
ghost use Rattle.record_codec.specs.Views.{event_seen};

use crate::event::Event;
use crate::name::Name;
use crate::view::RecordView;
use crate::writing::add;
use itoa::Buffer;
use percent_encoding::percent_encode_byte;
use std::alloc::AllocError;

/// The most bytes that one byte of a name is printed as.
const PRINTED_BYTE_LEN: usize = 3;

/// The most bytes that the three numbers of a record line take, with the spaces between them.
const NUMBERS_LEN: usize = 11 + 1 + 8 + 1 + 10;

/// The most bytes of a name that are printed one by one without a test before: fewer than are tested at a time.
const SHORT_NAME_LEN: usize = CHUNK_LEN - 1;

/// How many bytes of a name are tested at a time.
const CHUNK_LEN: usize = 8;

/// Adds the printed name at the end: its bytes 0x21 to 0x7e but `%` as they are, each other one as `%` and two
/// upper-case hexadecimal digits.
///
/// # Errors
/// `AllocError` if the capacity of `out` is too small and allocating more fails. Its bytes are then as they were.
pub fn append_name(name: &Name, out: &mut Vec<u8>) -> Result<(), AllocError>
    ensures ok { OnOk result (out.new.items ≡ out.old.items ++ printed_name name.now) }
    ensures err { OnErr result (out.new.items ≡ out.old.items) }
{
    append_printed(name.bytes(), out)
}

/// Adds bytes at the end, printed as `append_name` prints those of a name.
///
/// # Errors
/// `AllocError` if the capacity of `out` is too small and allocating more fails. Its bytes are then as they were.
pub fn append_printed(bytes: &[u8], out: &mut Vec<u8>) -> Result<(), AllocError>
    ensures ok { OnOk result (out.new.items ≡ out.old.items ++ printed_name bytes.now) }
    ensures err { OnErr result (out.new.items ≡ out.old.items) }
{
    out.reserve(bytes.len().saturating_mul(PRINTED_BYTE_LEN))?;
    add_name(bytes, out);
    Ok(())
}

/// Adds the event's record as a line at the end, without a line feed: wd in decimal, mask as eight lower-case
/// hexadecimal digits and cookie in decimal, and where it has a name the printed name (`append_name`), with a space
/// between each two of them.
///
/// # Errors
/// `AllocError` if the capacity of `out` is too small and allocating more fails. Its bytes are then as they were.
pub fn append_record_line(event: &Event, out: &mut Vec<u8>) -> Result<(), AllocError>
    ensures ok { OnOk result (out.new.items ≡ out.old.items ++ record_line event.now) }
    ensures err { OnErr result (out.new.items ≡ out.old.items) }
{
    append_view_line(&view_of(event), out)
}

/// Adds a record as a line at the end, as `append_record_line` does.
///
/// # Errors
/// `AllocError` if the capacity of `out` is too small and allocating more fails. Its bytes are then as they were.
pub fn append_view_line(view: &RecordView<'_>, out: &mut Vec<u8>) -> Result<(), AllocError>
    ensures ok { OnOk result (out.new.items ≡ out.old.items ++ record_line (event_seen view.now)) }
    ensures err { OnErr result (out.new.items ≡ out.old.items) }
{
    match view.name {
        None => {
            out.reserve(NUMBERS_LEN)?;
            add_numbers(view, out);
        }
        Some(name) => {
            out.reserve(NUMBERS_LEN + 1 + PRINTED_BYTE_LEN * name.len())?;
            add_numbers(view, out);
            out.push_reserved(b' ');
            add_name(name, out);
        }
    }
    Ok(())
}

/// Adds the numbers of a record line.
fn add_numbers(view: &RecordView<'_>, out: &mut Vec<u8>)
    requires { vec_len out.old + NUMBERS_LEN ≤ vec_capacity out.old }
    ensures items { out.new.items ≡ out.old.items ++ printed_numbers (event_seen view.now) }
    ensures len { vec_len out.new ≤ vec_len out.old + NUMBERS_LEN }
    ensures room { vec_capacity out.old ≤ vec_capacity out.new }
{
    add_signed(view.wd, out);
    out.push_reserved(b' ');
    let mut mask = [0; 8];
    hex::encode_to_slice(view.mask.to_be_bytes().as_slice(), &mut mask).unwrap();
    add(out, &mask);
    out.push_reserved(b' ');
    add_number(view.cookie, out);
}

/// Adds a number in decimal.
fn add_signed(number: i32, out: &mut Vec<u8>)
    requires { vec_len out.old + 11 ≤ vec_capacity out.old }
    ensures items { out.new.items ≡ out.old.items ++ signed_decimal number }
    ensures len { vec_len out.new ≤ vec_len out.old + 11 }
    ensures room { vec_capacity out.old ≤ vec_capacity out.new }
{
    if number >= 0 {
        return add_number(number as u32, out);
    }
    let mut digits = Buffer::new();
    add(out, digits.format(number).as_bytes());
}

/// Adds a number in decimal. One digit needs no buffer.
#[inline(always)]
fn add_number(number: u32, out: &mut Vec<u8>)
    requires { vec_len out.old + 10 ≤ vec_capacity out.old }
    ensures items { out.new.items ≡ out.old.items ++ decimal number }
    ensures len { vec_len out.new ≤ vec_len out.old + 10 }
    ensures room { vec_capacity out.old ≤ vec_capacity out.new }
{
    if number < 10 {
        return out.push_reserved(b'0' + number as u8);
    }
    let mut digits = Buffer::new();
    add(out, digits.format(number).as_bytes());
}

/// Adds the printed name of these bytes.
fn add_name(name: &[u8], out: &mut Vec<u8>)
    requires { vec_len out.old + PRINTED_BYTE_LEN * length name.now ≤ vec_capacity out.old }
    ensures { out.new.items ≡ out.old.items ++ printed_name name.now }
{
    if is_copied(name) {
        return add(out, name);
    }
    add_each(name, out);
}

/// Adds the bytes one by one, each as it is printed.
#[inline(always)]
fn add_each(bytes: &[u8], out: &mut Vec<u8>)
    requires { vec_len out.old + PRINTED_BYTE_LEN * length bytes.now ≤ vec_capacity out.old }
    ensures { out.new.items ≡ out.old.items ++ printed_name bytes.now }
{
    for byte in bytes {
        add_byte(*byte, out);
    }
}

/// Whether the bytes are copied: more than `SHORT_NAME_LEN`, none of which needs an escape.
#[inline(always)]
fn is_copied(bytes: &[u8]) -> bool
    ensures { IsTrue result → printed_name bytes.now ≡ bytes.now }
{
    SHORT_NAME_LEN < bytes.len() && are_plain(bytes)
}

/// Whether the bytes are printed as they are. Eight of them are tested at a time.
fn are_plain(name: &[u8]) -> bool
    ensures { result ≡ list_all is_plain name.now }
{
    let mut rest = name;
    while let Some((chunk, more)) = rest.split_first_chunk::<CHUNK_LEN>() {
        if !is_plain_chunk(chunk) {
            return false;
        }
        rest = more;
    }
    is_plain_rest(rest)
}

/// Whether eight bytes are printed as they are.
#[inline(always)]
fn is_plain_chunk(chunk: &[u8; CHUNK_LEN]) -> bool
    ensures { result ≡ list_all is_plain chunk.now }
{
    let mut is_all = true;
    for byte in chunk {
        is_all &= is_plain(*byte);
    }
    is_all
}

/// Whether the bytes behind the last eight are printed as they are.
#[inline(always)]
fn is_plain_rest(rest: &[u8]) -> bool
    ensures { result ≡ list_all is_plain rest.now }
{
    rest.iter().all(|b| is_plain(*b))
}

fn add_byte(byte: u8, out: &mut Vec<u8>)
    requires { vec_len out.old + PRINTED_BYTE_LEN ≤ vec_capacity out.old }
    ensures items { out.new.items ≡ out.old.items ++ printed_byte byte }
    ensures len { vec_len out.new ≤ vec_len out.old + PRINTED_BYTE_LEN }
    ensures room { vec_capacity out.old ≤ vec_capacity out.new }
{
    if is_plain(byte) {
        out.push_reserved(byte);
    } else {
        add(out, percent_encode_byte(byte).as_bytes());
    }
}

fn is_plain(byte: u8) -> bool
    ensures { result ≡ is_plain byte }
{
    byte.is_ascii_graphic() && byte != b'%'
}

/// The event as a view of its record.
fn view_of<'a>(event: &'a Event) -> RecordView<'a>
    ensures { event_seen result ≡ event.entry.now }
{
    let name = match &event.name {
        None => None,
        Some(name) => Some(name.bytes()),
    };
    RecordView {
        wd: event.wd,
        mask: event.mask,
        cookie: event.cookie,
        name,
    }
}
