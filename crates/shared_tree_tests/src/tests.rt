//! The locked tree from outside: what no contract can say of seats, pipes and threads.

ghost use Rattle.std.specs.Prelude.{◌≡◌, IfSome, IsTrue};
ghost use Rattle.tree_core.specs.Calls.{is_plain};

mod refused;
mod stories;
mod threads;

use shared_tree::{Batch, Feed, Held, Pass, Seat};
use std::alloc::Global;
use std::fmt::Debug;
use std::process::Abort;
use std::sync::ledger::{Blank, Ledger};
use tree_core::{Call, Receipt, Reply};
use tree_ops::{Answer, FileCall};
use tree_paths::{Limits, Path, Refusal};

/// What was got is what is wanted. Tests assert in this function, and the helpers end the test where a call fails: a
/// macro or a `?` in a long body costs seconds to prove.
fn equal<T: PartialEq + Debug + Drop>(rt: &impl Abort, got: T, wanted: T) {
    assert_eq!(rt; got, wanted);
}

/// What is done on a tree.
#[derive(Clone, Copy)]
enum Act {
    /// An instance with a queue of this limit and a pipe of this many slots is opened, and its feed is kept.
    Opens(u32, usize),
    /// An instance with no pipe is opened.
    Inits,
    /// An instance watches the root for new files.
    Watches(u32),
    Creates(&'static str),
    /// All that waits in an instance is read.
    Reads(u32),
    Closes(u32),
    /// What fits into this many bytes is pumped.
    Pumps(u32, u32),
    /// The feed of an instance gives a batch.
    Takes(u32),
    /// The feeds are dropped.
    Drops,
    /// How many records wait in an instance.
    Waits(u32),
    /// How many more calls the journal takes.
    Frees,
    Cuts,
}

/// What comes of it.
#[derive(Clone, Copy, Debug, PartialEq, Eq)]
enum Says {
    /// The number of a new file.
    Number(u32),
    Instance(u32),
    Wd(i32),
    Records,
    Done,
    Refused(Refusal),
    /// It is not carried out.
    Fails(Refusal),
    /// No feed of the instance was kept.
    NoFeed,
    /// The feed gives nothing.
    Nothing,
    /// A batch with this sequence number and this many records.
    Batch(u64, usize),
    /// A batch of another instance, or one whose end mark is wrong.
    WrongBatch,
    /// How many records wait, if the instance is open.
    Waiting(Option<usize>),
    /// How many more calls the journal takes.
    Free(u64),
    /// The journal is cut after the entry of this sequence number.
    Cut(u64),
}

/// The outcome that a reply stands for.
fn answered(reply: &Reply) -> Says {
    match reply {
        Reply::File(Answer::Number(number)) => Says::Number(*number),
        Reply::Instance(id) => Says::Instance(*id),
        Reply::Wd(wd) => Says::Wd(*wd),
        Reply::Records(_) => Says::Records,
        Reply::File(_) | Reply::Done => Says::Done,
        Reply::Refused(refusal) => Says::Refused(*refusal),
    }
}

/// The call that is made, if it is one that a seat makes by `call`.
fn call_of(rt: &impl Abort, alloc: Global, act: Act) -> Option<Call>
    ensures { IfSome result (λ call. IsTrue (is_plain call)) }
{
    Some(match act {
        Act::Inits => Call::Init {
            limit: 16,
            piped: false,
        },
        Act::Watches(instance) => Call::AddWatch {
            instance,
            path: Path::root(),
            mask: 0x100,
        },
        Act::Creates(text) => Call::File(FileCall::Create {
            path: Path::parse(alloc, text.as_bytes()).expect(rt, "a path"),
            mode: 0o644,
        }),
        Act::Reads(instance) => Call::Read {
            instance,
            bytes: 4096,
        },
        Act::Closes(instance) => Call::Close { instance },
        _ => return None,
    })
}

/// A tree with one seat, the feeds of its instances, and the sequence number of its last entry.
#[derive(Drop)]
struct Stage<L: Ledger> {
    held: Held<L>,
    pass: Pass<L>,
    seat: Seat<L>,
    feeds: Vec<Feed>,
    last: u64,
}

impl<L: Ledger> Stage<L> {
    /// Makes a tree with a seat.
    fn new(rt: &impl Abort, alloc: Global, blank: Blank, limits: Limits) -> Stage<L>
        requires name { blank.name ≡ L.name }
        requires parts { (blank.parts ≡ L.parts) × (blank.parts ≡ 65537) }
    {
        let (held, mut pass) = Held::<L>::new(alloc, blank, limits).expect(rt, "a tree");
        let seat = pass.seat().expect(rt, "a seat");
        let feeds = Vec::with_capacity(alloc, 9).expect(rt, "memory");
        Stage {
            held,
            pass,
            seat,
            feeds,
            last: 0,
        }
    }

    /// The outcome of a call. Each has the next sequence number.
    fn said(&mut self, rt: &impl Abort, receipt: Result<Receipt, Refusal>) -> Says {
        match receipt {
            Ok(receipt) => {
                self.last = self.last.saturating_add(1);
                equal(rt, receipt.place, self.last);
                answered(&receipt.reply)
            }
            Err(refusal) => Says::Fails(refusal),
        }
    }

    /// Opens an instance with a pipe, and keeps its feed.
    fn opens(&mut self, rt: &impl Abort, limit: u32, slots: usize) -> Says {
        let slots = slots.clamp(1, 65_536);
        match self.held.open_piped(&mut self.seat, limit, slots) {
            Ok((receipt, feed)) => {
                self.feeds.extend(feed).expect(rt, "memory");
                self.said(rt, Ok(receipt))
            }
            Err(refusal) => Says::Fails(refusal),
        }
    }

    /// Takes a batch from the feed of an instance.
    fn takes(&mut self, instance: u32) -> Says {
        for feed in &mut self.feeds {
            if feed.instance() == instance {
                return said_of(&feed.take(), instance);
            }
        }
        Says::NoFeed
    }

    /// Makes a call, for which memory is taken before.
    fn calls(&mut self, rt: &impl Abort, call: Call) -> Says
        requires { IsTrue (is_plain call) }
    {
        let receipt = self.held.call(&mut self.seat, call);
        self.said(rt, receipt)
    }

    /// What comes of an act that is none of the calls of `call_of`.
    fn others(&mut self, rt: &impl Abort, act: Act) -> Says {
        match act {
            Act::Opens(limit, slots) => self.opens(rt, limit, slots),
            Act::Pumps(instance, bytes) => {
                let receipt = self.held.pump(&mut self.seat, instance, bytes);
                self.said(rt, receipt)
            }
            Act::Takes(instance) => self.takes(instance),
            Act::Drops => {
                self.feeds.clear();
                Says::Done
            }
            Act::Waits(instance) => Says::Waiting(self.held.state().waiting(instance)),
            Act::Frees => Says::Free(self.held.state().free_entries()),
            _ => match self.held.cut() {
                Ok(place) => Says::Cut(place),
                Err(refusal) => Says::Fails(refusal),
            },
        }
    }

    /// What comes of an act.
    fn does(&mut self, rt: &impl Abort, alloc: Global, act: Act) -> Says {
        match call_of(rt, alloc, act) {
            Some(call) => self.calls(rt, call),
            None => self.others(rt, act),
        }
    }

    /// Plays a story. What comes of each act is compared, and the sequence number of the last entry then.
    fn plays(&mut self, rt: &impl Abort, alloc: Global, story: &[(Act, Says)]) {
        for (at, (act, wanted)) in story.iter().enumerate() {
            let says = self.does(rt, alloc, *act);
            let last = self.held.state().last_place();
            equal(rt, (at, says, last), (at, *wanted, self.last));
        }
    }
}

/// What the feed of an instance gave.
fn said_of(batch: &Option<Batch>, instance: u32) -> Says {
    let Some(batch) = batch else {
        return Says::Nothing;
    };
    let records = batch.records.as_slice().len();
    if batch.instance == instance && batch.is_last() == (records == 0) {
        Says::Batch(batch.place, records)
    } else {
        Says::WrongBatch
    }
}
