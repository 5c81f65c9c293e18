//! What threads share, by one thread: two seats write logs, 96 at most in eight directories, three instances that watch
//! all of these are pumped, listeners write what they are handed as lines, and the book is settled.

ghost use Rattle.std.specs.Prelude.{◌≡◌, IsTrue, true};
ghost use Rattle.tree_core.specs.Calls.{is_plain};

use crate::answers::{add_receipt, add_reply};
use crate::desk::Desk;
use crate::digest::Digest;
use crate::fault::BenchFault;
use crate::script::Script;
use event_sinks::{Cause, Ended, Gate, LineSink, Listening, Settled, SinkFault, settle};
use shared_tree::{Book, Feed, Held, Pass, Seat, SeatLog};
use std::alloc::Global;
use std::io;
use std::io::Write;
use std::marker::Brand;
use std::sync::Arc;
use std::sync::atomic::{AtomicU64, Ordering};
use std::sync::ledger::{Blank, Ledger};
use tree_core::Call;
use tree_ops::FileCall;
use tree_paths::{Limits, Path};

/// How many calls on files a round makes.
const CALLS: u64 = 24_000;

/// The slots of a pipe: more than the batches of a round.
const SLOTS: usize = 16_384;

/// How many listeners there are.
const LISTENERS: u32 = 3;

/// Lets each turn through.
#[derive(Drop)]
struct Open;

impl Gate for Open {
    ghost may_pass = { λ _ _ _ answer. answer ≡ true };

    ghost most_turns = { λ _. 20000 };

    fn pass(&self, _who: u32, _turn: u64) -> bool {
        true
    }

    fn turns(&self) -> u64 {
        20_000
    }
}

/// Adds what a listener writes to a digest, whose value others see from the closing line on.
#[derive(Drop)]
struct Lines {
    digest: Digest,
    value: Arc<AtomicU64, Global>,
    /// Whether the closing line has begun.
    is_closing: bool,
}

impl Write for Lines {
    fn write(&mut self, buf: &[u8]) -> io::Result<usize> {
        self.digest.add_bytes(buf);
        self.is_closing |= buf.starts_with(b"closed");
        if self.is_closing {
            self.value.store(self.digest.value(), Ordering::SeqCst);
        }
        Ok(buf.len())
    }

    fn flush(&mut self) -> io::Result<()> {
        Ok(())
    }
}

/// The path of a log. The text is a buffer.
fn log_of(desk: &mut Desk, text: &mut Script, folder: u64, file: u64) -> Path {
    text.clear();
    text.text("/var/log/service-");
    text.number(folder);
    text.text("/worker-");
    text.number(file);
    text.text(".log");
    desk.path_of(text)
}

/// The path of a directory of logs.
fn folder_of(desk: &mut Desk, folder: u64) -> Path {
    let mut text = Script::new(desk.alloc);
    text.text("/var/log/service-");
    text.number(folder);
    desk.path_of(&text)
}

/// A call on a log by chance: it is made, written, rotated, cut or taken away.
fn any_call(desk: &mut Desk, text: &mut Script) -> Call
    ensures { IsTrue (is_plain result) }
{
    let folder = desk.rng.below(8);
    let file = desk.rng.below(12);
    let path = log_of(desk, text, folder, file);
    Call::File(match desk.rng.below(8) {
        0 | 1 => FileCall::Create { path, mode: 0o640 },
        2..5 => FileCall::Write {
            path,
            offset: desk.rng.below(400),
            bytes: desk.bytes(b"a line of a log\n"),
        },
        5 => {
            let file = desk.rng.below(12);
            FileCall::Rename {
                old: path,
                new: log_of(desk, text, folder, file),
            }
        }
        6 => FileCall::Truncate { path, len: 0 },
        _ => FileCall::Unlink { path },
    })
}

/// Makes a call with a seat, and adds its receipt.
fn make<L: Ledger>(desk: &mut Desk, held: &mut Held<L>, seat: &mut Seat<L>, call: Call)
    requires { IsTrue (is_plain call) }
{
    if desk.is_well() {
        desk.take(held.call(seat, call));
    }
}

/// Pumps an instance for a seat, and adds the receipt.
fn pump<L: Ledger>(
    desk: &mut Desk,
    held: &mut Held<L>,
    seat: &mut Seat<L>,
    instance: u32,
    bytes: u32,
) {
    if desk.is_well() {
        desk.take(held.pump(seat, instance, bytes));
    }
}

/// Makes a directory with a seat.
fn make_folder<L: Ledger>(desk: &mut Desk, held: &mut Held<L>, seat: &mut Seat<L>, path: Path) {
    let call = FileCall::Mkdir { path, mode: 0o755 };
    make(desk, held, seat, Call::File(call));
}

/// Makes an instance with a pipe, adds its receipt, and puts its feed to the others.
fn open_feed<L: Ledger>(
    desk: &mut Desk,
    held: &mut Held<L>,
    seat: &mut Seat<L>,
    feeds: &mut Vec<Feed>,
) {
    if desk.is_well() {
        match held.open_piped(seat, 1024, SLOTS) {
            Ok((receipt, feed)) => {
                add_receipt(&mut desk.digest, &receipt);
                desk.need(feeds.extend(feed).is_ok());
            }
            Err(refusal) => desk.fail(BenchFault::Refused(refusal)),
        }
    }
}

/// Makes the directories, and an instance with a pipe for each listener, which watches them.
fn begin<L: Ledger>(
    desk: &mut Desk,
    held: &mut Held<L>,
    seat: &mut Seat<L>,
    feeds: &mut Vec<Feed>,
) {
    for path in ["/var", "/var/log"] {
        let path = desk.path(path);
        make_folder(desk, held, seat, path);
    }
    for folder in 0..8 {
        let path = folder_of(desk, folder);
        make_folder(desk, held, seat, path);
    }
    for instance in 1..LISTENERS + 1 {
        open_feed(desk, held, seat, feeds);
        for folder in 0..8 {
            let path = folder_of(desk, folder);
            let watch = Call::AddWatch {
                instance,
                path,
                mask: 0xfce,
            };
            make(desk, held, seat, watch);
        }
    }
}

/// Makes calls by chance with two seats, and pumps each instance now and then.
fn write_logs<L: Ledger>(
    desk: &mut Desk,
    held: &mut Held<L>,
    one: &mut Seat<L>,
    other: &mut Seat<L>,
) {
    let mut text = Script::new(desk.alloc);
    for at in 0..CALLS {
        let seat = if at % 2 == 0 { &mut *one } else { &mut *other };
        let call = any_call(desk, &mut text);
        make(desk, held, seat, call);
        if at % 4 == 0 {
            let instance = (at / 4 % 3) as u32 + 1;
            pump(desk, held, seat, instance, 1024);
        }
    }
}

/// Pumps what is left, and closes each instance.
fn close_all<L: Ledger>(desk: &mut Desk, held: &mut Held<L>, seat: &mut Seat<L>) {
    for instance in 1..LISTENERS + 1 {
        for _ in 0..40 {
            pump(desk, held, seat, instance, 4096);
        }
        make(desk, held, seat, Call::Close { instance });
    }
}

/// Adds why a listener ended.
fn add_cause(digest: &mut Digest, cause: Cause) {
    digest.add(match cause {
        Cause::Last => 1,
        Cause::Turns => 2,
        Cause::Given => 3,
        Cause::Memory => 4,
        Cause::Sink(SinkFault::Full) => 5,
        Cause::Sink(SinkFault::Write) => 6,
        Cause::Sink(SinkFault::Memory) => 7,
    });
}

/// Lets a listener take all that a feed has, and adds its lines, why it ended, and of each batch its instance, its
/// sequence number, and how many records it had, which are those of the lines.
fn listen(
    alloc: Global,
    number: u32,
    feed: Feed,
    digest: &mut Digest,
) -> Result<Ended<LineSink<Lines>>, BenchFault> {
    let value = Arc::new(alloc, AtomicU64::new(0))?;
    let lines = Lines {
        digest: Digest::new(),
        value: Arc::try_clone(&value)?,
        is_closing: false,
    };
    let ended = Listening::new(alloc, number, feed, LineSink::new(alloc, lines)).run(&Open, 20_000);
    digest.add(value.load(Ordering::SeqCst));
    digest.add(u64::from(ended.number()));
    digest.add(u64::from(ended.instance()));
    add_cause(digest, ended.cause());
    digest.add(ended.handed().len() as u64);
    for batch in ended.handed() {
        digest.add(u64::from(batch.instance));
        digest.add(batch.place);
        digest.add(batch.records.as_slice().len() as u64);
    }
    Ok(ended)
}

/// Adds what a seat kept: its number, and of each call its sequence number and its reply.
fn add_log(digest: &mut Digest, log: &SeatLog) {
    digest.add(u64::from(log.number));
    digest.add(log.kept.as_slice().len() as u64);
    for kept in log.kept.as_slice() {
        digest.add(kept.place);
        add_reply(digest, &kept.reply);
    }
}

/// Lets the listeners take all that their feeds have.
fn listen_all(desk: &mut Desk, feeds: Vec<Feed>) -> Vec<Ended<LineSink<Lines>>> {
    let mut ended = Vec::new(desk.alloc);
    let mut number = 0;
    for feed in feeds {
        number = u32::wrapping_add(number, 1);
        match listen(desk.alloc, number, feed, &mut desk.digest) {
            Ok(one) => desk.need(ended.push(one).is_ok()),
            Err(fault) => desk.fail(fault),
        }
    }
    ended
}

/// What two seats kept.
fn join_both<L: Ledger>(
    desk: &mut Desk,
    pass: &mut Pass<L>,
    one: Seat<L>,
    other: Seat<L>,
) -> Vec<SeatLog> {
    let mut logs = Vec::new(desk.alloc);
    desk.need(logs.reserve_exact(2).is_ok());
    desk.need(logs.push(pass.join(one)).is_ok());
    desk.need(logs.push(pass.join(other)).is_ok());
    logs
}

/// Adds what the seats kept, and the settled book.
fn settle_up(desk: &mut Desk, book: Book, logs: Vec<SeatLog>, ended: Vec<Ended<LineSink<Lines>>>) {
    for log in logs.as_slice() {
        add_log(&mut desk.digest, log);
    }
    match settle(desk.alloc, book, logs, ended) {
        Ok(Settled { entries, calls }) => {
            desk.digest.add(entries);
            desk.digest.add(calls);
        }
        Err(fault) => desk.fail(BenchFault::Unsettled(fault)),
    }
}

/// One round: a tree of its own, from its first call to the settled book.
fn round<L: Ledger>(desk: &mut Desk, blank: Blank) -> Result<(), BenchFault>
    requires name { blank.name ≡ L.name }
    requires parts { (blank.parts ≡ L.parts) × (blank.parts ≡ 65537) }
{
    let (mut held, mut pass) = Held::<L>::new(desk.alloc, blank, Limits::full())?;
    let mut one = pass.seat()?;
    let mut other = pass.seat()?;
    let mut feeds = Vec::new(desk.alloc);
    begin(desk, &mut held, &mut one, &mut feeds);
    write_logs(desk, &mut held, &mut one, &mut other);
    close_all(desk, &mut held, &mut other);
    let logs = join_both(desk, &mut pass, one, other);
    let ended = listen_all(desk, feeds);
    settle_up(desk, held.dissolve(pass), logs, ended);
    Ok(())
}

/// The same with the ledger of a brand.
fn branded_round(desk: &mut Desk) -> Result<(), BenchFault> {
    round::<Brand>(desk, Blank::new(65537))
}

/// Runs the rounds, each with a tree of its own.
pub(crate) fn run(alloc: Global, seed: u64, rounds: u64) -> Result<Digest, BenchFault> {
    let mut desk = Desk::new(alloc, seed);
    for _ in 0..rounds {
        if !desk.is_well() {
            break;
        }
        let round = branded_round(&mut desk);
        desk.keep(round);
    }
    desk.finish()
}
