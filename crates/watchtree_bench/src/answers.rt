//! How the digest takes in what calls answer: a tag for each kind of answer, and then all its parts.

use crate::digest::Digest;
use inode_table::Kind;
use tree_core::{Call, Entry, Receipt, Reply, State};
use tree_ops::Answer;
use tree_paths::{Names, Refusal};

/// Who makes the calls.
const CALLER: u32 = 1;

/// Adds names: how many there are, and each.
pub(crate) fn add_names(digest: &mut Digest, names: &Names) {
    digest.add(0x15);
    digest.add(names.as_slice().len() as u64);
    for name in names.as_slice() {
        digest.add_bytes(name.bytes());
    }
}

/// Adds the answer of a call on files.
pub(crate) fn add_answer(digest: &mut Digest, answer: &Answer) {
    match answer {
        Answer::Done => digest.add(0x11),
        Answer::Number(number) => {
            digest.add(0x12);
            digest.add(u64::from(*number));
        }
        Answer::Count(count) => {
            digest.add(0x13);
            digest.add(*count);
        }
        Answer::Bytes(bytes) => {
            digest.add(0x14);
            digest.add_bytes(bytes.as_slice());
        }
        Answer::Names(names) => add_names(digest, names),
        Answer::Stat {
            number,
            kind,
            mode,
            links,
            size,
        } => {
            digest.add(match kind {
                Kind::Regular => 0x16,
                Kind::Directory => 0x17,
            });
            digest.add(u64::from(*number));
            digest.add(u64::from(*mode));
            digest.add(*links);
            digest.add(*size);
        }
    }
}

/// Adds why a call or a peek was refused.
pub(crate) fn add_refusal(digest: &mut Digest, refusal: Refusal) {
    digest.add(0x21);
    digest.add(u64::from(refusal.number()));
}

/// Adds a reply.
pub(crate) fn add_reply(digest: &mut Digest, reply: &Reply) {
    match reply {
        Reply::File(answer) => add_answer(digest, answer),
        Reply::Instance(id) => {
            digest.add(0x22);
            digest.add(u64::from(*id));
        }
        Reply::Wd(wd) => {
            digest.add(if *wd < 0 { 0x23 } else { 0x24 });
            digest.add(u64::from(wd.unsigned_abs()));
        }
        Reply::Records(bytes) => {
            digest.add(0x25);
            digest.add_bytes(bytes.as_slice());
        }
        Reply::Done => digest.add(0x26),
        Reply::Refused(refusal) => add_refusal(digest, *refusal),
    }
}

/// Adds a receipt: the sequence number of the entry, and the reply.
pub(crate) fn add_receipt(digest: &mut Digest, receipt: &Receipt) {
    digest.add(receipt.place);
    add_reply(digest, &receipt.reply);
}

/// Adds an entry of a journal, or that there is none: who made the call, and the reply.
pub(crate) fn add_entry(digest: &mut Digest, entry: Option<&Entry>) {
    match entry {
        None => digest.add(0x31),
        Some(
            Entry {
                caller,
                call: _,
                reply,
            },
        ) => {
            digest.add(0x32);
            digest.add(u64::from(*caller));
            add_reply(digest, reply);
        }
    }
}

/// Makes a call, and adds its sequence number and its entry.
pub(crate) fn make(state: &mut State, digest: &mut Digest, call: Call) -> Result<(), Refusal> {
    digest.add(state.record(CALLER, call)?);
    add_entry(digest, state.last_entry());
    Ok(())
}
