//! Stories: calls on a tree, one for each byte. A plus opens an instance with a pipe, which is notified of each new
//! file in the root; a digit chooses an instance. An exclamation mark pumps all that waits in it, a full stop closes
//! it, and a comma takes a seat for the calls from there on. A stroke cuts the journal. A capital letter removes the
//! file of the small one, a question mark asks for the state of the root, and any other byte makes the file of that
//! name.

ghost use Rattle.std.specs.Prelude.{◌≡◌, ◌≤◌, IsTrue};
ghost use Rattle.tree_core.specs.Calls.{is_plain};

use super::equal;
use record_codec::bits::IN_CREATE;
use shared_tree::{Book, Feed, Held, Seat, SeatLog};
use std::alloc::Global;
use std::marker::Brand;
use std::process::Abort;
use std::sync::ledger::{Blank, Ledger};
use tree_core::Call;
use tree_ops::FileCall;
use tree_paths::{Limits, Path, Refusal};

/// What a story leaves: the book of its tree, the logs of its seats, and the feeds of its instances.
#[derive(Drop)]
pub(super) struct Left {
    pub book: Book,
    pub logs: Vec<SeatLog>,
    pub feeds: Vec<Feed>,
}

/// The path of this one name in the root, or the root.
fn path(rt: &impl Abort, alloc: Global, name: &[u8]) -> Path {
    let mut text = [b'/'; 2];
    for byte in name {
        text[1] = *byte;
    }
    Path::parse(alloc, &text[..1 + name.len().min(1)]).expect(rt, "a path")
}

/// The call that a byte of a story stands for.
pub(super) fn call_of(rt: &impl Abort, alloc: Global, instance: u32, byte: u8) -> Call
    ensures { IsTrue (is_plain result) }
{
    match byte {
        b'.' => Call::Close { instance },
        b'?' => Call::File(FileCall::Stat {
            path: path(rt, alloc, &[]),
        }),
        b'A'..=b'Z' => Call::File(FileCall::Unlink {
            path: path(rt, alloc, &[byte | 32]),
        }),
        _ => Call::File(FileCall::Create {
            path: path(rt, alloc, &[byte]),
            mode: 0o644,
        }),
    }
}

/// Opens an instance, with the queue limit `limit` and a pipe of `slots` slots, and watches the root.
pub(super) fn watches<L: Ledger>(
    rt: &impl Abort,
    alloc: Global,
    held: &mut Held<L>,
    seat: &mut Seat<L>,
    instance: u32,
    limit: u32,
    slots: usize,
) -> Feed
    requires { (1 ≤ slots) × (slots ≤ 65536) }
{
    let (_, feed) = held
        .open_piped(seat, limit, slots)
        .expect(rt, "an instance");
    let watch = Call::AddWatch {
        instance,
        path: path(rt, alloc, &[]),
        mask: IN_CREATE,
    };
    held.call(seat, watch).expect(rt, "a watch");
    feed.expect(rt, "a feed")
}

/// Makes the call of a byte. Returns false if the pipe is full.
pub(super) fn makes<L: Ledger>(
    rt: &impl Abort,
    alloc: Global,
    held: &mut Held<L>,
    seat: &mut Seat<L>,
    (instance, byte): (u32, u8),
) -> bool {
    let made = match byte {
        b'!' => held.pump(seat, instance, 1_048_576),
        _ => held.call(seat, call_of(rt, alloc, instance, byte)),
    };
    match made {
        Ok(_) => true,
        Err(refusal) => {
            equal(rt, refusal, Refusal::PipeFull);
            false
        }
    }
}

/// Makes the calls of a story on a new tree.
fn plays<L: Ledger>(rt: &impl Abort, alloc: Global, blank: Blank, story: &[u8]) -> Left
    requires name { blank.name ≡ L.name }
    requires parts { (blank.parts ≡ L.parts) × (blank.parts ≡ 65537) }
{
    let (mut held, mut pass) = Held::<L>::new(alloc, blank, Limits::full()).expect(rt, "a tree");
    let mut seat = pass.seat().expect(rt, "a seat");
    let mut logs = Vec::new(alloc);
    let mut feeds = Vec::new(alloc);
    let mut opened = 0u32;
    let mut instance = 0;
    for byte in story {
        match *byte {
            b'+' => {
                opened = opened.saturating_add(1);
                instance = opened;
                let feed = watches(rt, alloc, &mut held, &mut seat, opened, 16, 8_192);
                feeds.push(feed).expect(rt, "memory");
            }
            b',' => {
                let next = pass.seat().expect(rt, "a seat");
                let spent = std::mem::replace(&mut seat, next);
                logs.push(pass.join(spent)).expect(rt, "memory");
            }
            b'|' => {
                held.cut().expect(rt, "a cut");
            }
            b'1'..=b'3' => instance = u32::from(*byte & 3),
            byte => {
                let made = makes(rt, alloc, &mut held, &mut seat, (instance, byte));
                equal(rt, made, true);
            }
        }
    }
    logs.push(pass.join(seat)).expect(rt, "memory");
    let book = held.dissolve(pass);
    Left { book, logs, feeds }
}

/// What a story leaves.
pub(super) fn plays_out(rt: &impl Abort, alloc: Global, story: &str) -> Left {
    plays::<Brand>(rt, alloc, Blank::new(65537), story.as_bytes())
}

/// The feed of the last instance of a story.
pub(super) fn feed_of(rt: &impl Abort, alloc: Global, story: &str) -> Feed {
    let Left { mut feeds, .. } = plays_out(rt, alloc, story);
    feeds.pop().expect(rt, "a feed")
}
