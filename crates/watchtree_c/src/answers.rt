//! The numbers that C is answered with.

ghost use Rattle.std.specs.Prelude.{◌≡◌, ◌++◌, ◌≤◌, ◌^◌, ◌-◌, length, take, drop};
ghost use Rattle.watchtree_c.specs.Answers.{reply_number, answer_number, refused_number, count_number};
ghost use Rattle.watchtree_c.specs.Answers.{bytes_of, overlaid};

use tree_core::Reply;
use tree_ops::Answer;
use tree_paths::Refusal;

/// The number of a reply: what a call of C gives, or a negative errno.
pub(crate) fn reply_number(reply: &Reply) -> i64
    ensures { result ≡ reply_number reply.now }
{
    match reply {
        Reply::File(answer) => answer_number(answer),
        Reply::Instance(id) => i64::from(*id),
        Reply::Wd(wd) => i64::from(*wd),
        Reply::Records(bytes) => count_number(bytes.as_slice().len() as u64),
        Reply::Done => 0,
        Reply::Refused(refusal) => refused_number(*refusal),
    }
}

fn answer_number(answer: &Answer) -> i64
    ensures { result ≡ answer_number answer.now }
{
    match answer {
        Answer::Done | Answer::Stat { .. } => 0,
        Answer::Number(number) => i64::from(*number),
        Answer::Count(count) => count_number(*count),
        Answer::Bytes(bytes) => count_number(bytes.as_slice().len() as u64),
        Answer::Names(names) => count_number(names.as_slice().len() as u64),
    }
}

/// A refusal's number below zero.
pub(crate) fn refused_number(refusal: Refusal) -> i64
    ensures { result ≡ refused_number refusal }
{
    -i64::from(refusal.number())
}

/// A count, no greater than an `i64` may be.
pub(crate) fn count_number(count: u64) -> i64
    ensures { result ≡ count_number count }
{
    count.min(i64::MAX as u64) as i64
}

/// The bytes that a reply has for C: none, where it has none.
pub(crate) fn bytes_of(reply: &Reply) -> &[u8]
    ensures { result.now ≡ bytes_of reply.now }
{
    match reply {
        Reply::Records(bytes) => bytes.as_slice(),
        Reply::File(Answer::Bytes(bytes)) => bytes.as_slice(),
        _ => b"",
    }
}

/// Puts bytes at the front of `out`, as many as fit.
pub(crate) fn put(out: &mut [u8], bytes: &[u8])
    ensures { out.new ≡ overlaid bytes.now out.old }
{
    let count = bytes.len().min(out.len());
    out[..count].copy_from_slice(&bytes[..count]);
}
