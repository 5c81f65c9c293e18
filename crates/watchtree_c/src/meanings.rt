//! What an answer below zero means, in words, and the version of the library.

ghost use Rattle.std.specs.Prelude.{◌≡◌, ◌≢◌, None, IfSome, length};
ghost use Rattle.std.specs.Option.{option_copied};
ghost use Rattle.tree_paths.specs.Refusals.{refusal_number};
ghost use Rattle.tree_paths.specs.declared.refusal.Refusal.{Refusal as AnyRefusal};
ghost use Rattle.watchtree_script.specs.declared.fault.ScriptFault.{ScriptFault as AnyFault};
ghost use Rattle.watchtree_c.specs.Answers.{count_number, overlaid};
ghost use Rattle.watchtree_c.specs.Lines.{fault_number};
ghost use Rattle.watchtree_c.specs.Meanings.{Explains, IsTextOf, fault_text, refusal_text, version};

use crate::answers::{count_number, put, refused_number};
use tree_paths::Refusal;
use watchtree_script::ScriptFault;

/// Writes the version of the library, as `1.0.0`, over the front of `out`, as many of its bytes as fit. It answers how
/// many bytes the version has.
#[unsafe(no_mangle)]
pub extern "C" fn wt_version(out: &mut [u8]) -> i64
    ensures number { result ≡ count_number (length version) }
    ensures bytes { out.new ≡ overlaid version out.old }
{
    let version = b"1.0.0";
    put(out, version);
    count_number(version.len() as u64)
}

/// Writes what an answer below zero means over the front of `out`, as `ENOENT: No such file or directory`, as many
/// bytes as fit. It answers how many bytes the text has.
///
/// # Errors
/// `EINVAL`, where no call answers this number.
#[unsafe(no_mangle)]
pub extern "C" fn wt_error_text(number: i64, out: &mut [u8]) -> i64
    ensures { Explains number result out.old out.new }
{
    match text_of(number) {
        Some(text) => {
            put(out, text);
            count_number(text.len() as u64)
        }
        None => refused_number(Refusal::Einval),
    }
}

/// The text of a number below zero, if it has one.
fn text_of(number: i64) -> Option<&'static [u8]>
    ensures { IsTextOf number (option_copied result) }
{
    let positive = number.checked_neg()?;
    let Ok(number) = u32::try_from(positive) else {
        return None;
    };
    if let Some(refusal) = refusal_of(number) {
        return Some(refusal_text(refusal));
    }
    match fault_of(number) {
        Some(fault) => Some(fault_text(fault)),
        None => None,
    }
}

/// The refusal of a number.
fn refusal_of(number: u32) -> Option<Refusal>
    ensures some { IfSome result (λ r. number ≡ refusal_number r) }
    ensures none { result ≡ None → (r : AnyRefusal) → number ≢ refusal_number r }
{
    Some(match number {
        1 => Refusal::Eperm,
        2 => Refusal::Enoent,
        9 => Refusal::Ebadf,
        11 => Refusal::Eagain,
        12 => Refusal::Enomem,
        16 => Refusal::Ebusy,
        17 => Refusal::Eexist,
        20 => Refusal::Enotdir,
        21 => Refusal::Eisdir,
        22 => Refusal::Einval,
        24 => Refusal::Emfile,
        27 => Refusal::Efbig,
        28 => Refusal::Enospc,
        31 => Refusal::Emlink,
        36 => Refusal::Enametoolong,
        39 => Refusal::Enotempty,
        1001 => Refusal::JournalFull,
        1002 => Refusal::PipeFull,
        1003 => Refusal::Piped,
        1004 => Refusal::CookiesSpent,
        1005 => Refusal::NotPiped,
        1006 => Refusal::SeatsSpent,
        1007 => Refusal::NumbersSpent,
        _ => return None,
    })
}

/// The fault of a number.
fn fault_of(number: u32) -> Option<ScriptFault>
    ensures some { IfSome result (λ f. number ≡ fault_number f) }
    ensures none { result ≡ None → (f : AnyFault) → number ≢ fault_number f }
{
    Some(match number {
        1101 => ScriptFault::BadByte,
        1102 => ScriptFault::UnknownCommand,
        1103 => ScriptFault::WrongNumber,
        1104 => ScriptFault::BadEscape,
        1105 => ScriptFault::BadMode,
        1106 => ScriptFault::BadHex,
        1107 => ScriptFault::BadMask,
        1108 => ScriptFault::BadNumber,
        _ => return None,
    })
}

fn refusal_text(refusal: Refusal) -> &'static [u8]
    ensures { result.now ≡ refusal_text refusal }
{
    match refusal {
        Refusal::Eperm => b"EPERM: Operation not permitted",
        Refusal::Enoent => b"ENOENT: No such file or directory",
        Refusal::Ebadf => b"EBADF: Bad file descriptor",
        Refusal::Eagain => b"EAGAIN: Resource temporarily unavailable",
        Refusal::Enomem => b"ENOMEM: Cannot allocate memory",
        Refusal::Ebusy => b"EBUSY: Device or resource busy",
        Refusal::Eexist => b"EEXIST: File exists",
        Refusal::Enotdir => b"ENOTDIR: Not a directory",
        Refusal::Eisdir => b"EISDIR: Is a directory",
        Refusal::Einval => b"EINVAL: Invalid argument",
        Refusal::Emfile => b"EMFILE: Too many open files",
        Refusal::Efbig => b"EFBIG: File too large",
        Refusal::Enospc => b"ENOSPC: No space left on device",
        Refusal::Emlink => b"EMLINK: Too many links",
        Refusal::Enametoolong => b"ENAMETOOLONG: File name too long",
        Refusal::Enotempty => b"ENOTEMPTY: Directory not empty",
        Refusal::JournalFull => b"JournalFull: The journal is full",
        Refusal::PipeFull => b"PipeFull: The pipe is full",
        Refusal::Piped => b"Piped: The instance has a pipe",
        Refusal::CookiesSpent => b"CookiesSpent: Each cookie of a rename was given",
        Refusal::NotPiped => b"NotPiped: The instance has no pipe",
        Refusal::SeatsSpent => b"SeatsSpent: Each seat was given",
        Refusal::NumbersSpent => b"NumbersSpent: Each number of a file was given",
    }
}

fn fault_text(fault: ScriptFault) -> &'static [u8]
    ensures { result.now ≡ fault_text fault }
{
    match fault {
        ScriptFault::BadByte => b"BadByte: A byte is neither a space nor from ! to ~",
        ScriptFault::UnknownCommand => b"UnknownCommand: The first word is no command",
        ScriptFault::WrongNumber => b"WrongNumber: The command takes another number of words",
        ScriptFault::BadEscape => b"BadEscape: A % is not followed by two hexadecimal digits",
        ScriptFault::BadMode => b"BadMode: A mode is not 1 to 6 octal digits",
        ScriptFault::BadHex => b"BadHex: Bytes are not an even number of hexadecimal digits",
        ScriptFault::BadMask => b"BadMask: A mask is not 0x and 1 to 8 hexadecimal digits",
        ScriptFault::BadNumber =>
            b"BadNumber: A number is not 1 to 20 decimal digits, or is too large",
    }
}
