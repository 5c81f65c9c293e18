//! What makes the paths and the calls of `history`, `listen` and `upkeep`, and takes in what they answer.

use crate::answers::{add_answer, add_receipt, add_refusal, make};
use crate::digest::Digest;
use crate::fault::BenchFault;
use crate::rng::Rng;
use crate::script::Script;
use record_codec::Bytes;
use std::alloc::Global;
use tree_core::{Call, Receipt, State};
use tree_ops::FileCall;
use tree_paths::{Limits, Path, Refusal};

/// Who makes the calls.
const CALLER: u32 = 1;

/// What is written into files.
const CONTENTS: &[u8] = b"timeout = 30\nretries = 5\n";

/// What long names are filled up with.
const FILLER: &str = "-minutes-of-the-quarterly-meeting-of-the-branch-office";

/// The lengths of names in bytes.
#[derive(Clone, Copy)]
pub(crate) enum Length {
    /// Seven.
    Short,
    /// Sixty.
    Middle,
    /// From 148 to 255, which the number in the name decides.
    Long,
}

/// What makes paths and calls, draws numbers by chance, and takes in what the calls answer. It keeps the first fault:
/// from then on it makes no call, and [`Desk::finish`] gives the fault in place of the digest. A path that could not be
/// read is the root.
#[derive(Drop)]
pub(crate) struct Desk {
    pub(crate) alloc: Global,
    pub(crate) rng: Rng,
    pub(crate) digest: Digest,
    /// A buffer for the text of a path.
    pub(crate) text: Script,
    /// The filler over and over, at least 255 bytes once it is filled.
    filler: Script,
    fault: Option<BenchFault>,
}

impl Desk {
    /// A desk that draws by this seed.
    pub(crate) fn new(alloc: Global, seed: u64) -> Desk {
        Desk {
            alloc,
            rng: Rng::new(seed),
            digest: Digest::new(),
            text: Script::new(alloc),
            filler: Script::new(alloc),
            fault: None,
        }
    }

    /// Makes the filler, which [`Desk::named`] takes.
    pub(crate) fn fill(&mut self) {
        for _ in 0..5 {
            self.filler.text(FILLER);
        }
        let is_whole = self.filler.is_whole();
        self.need(is_whole);
    }

    /// Whether nothing has gone wrong so far.
    pub(crate) fn is_well(&self) -> bool {
        self.fault.is_none()
    }

    /// Keeps a fault, unless there was one before.
    #[cold]
    pub(crate) fn fail(&mut self, fault: BenchFault) {
        if self.fault.is_none() {
            self.fault = Some(fault);
        }
    }

    /// Keeps that memory ran out, unless `is_met`.
    pub(crate) fn need(&mut self, is_met: bool) {
        if !is_met {
            self.fail(BenchFault::Memory);
        }
    }

    /// Keeps the fault of a step, if there is one.
    pub(crate) fn keep(&mut self, step: Result<(), BenchFault>) {
        if let Err(fault) = step {
            self.fail(fault);
        }
    }

    /// A tree that was made, unless that failed.
    fn tree(&mut self, made: Result<State, Refusal>) -> Option<State> {
        match made {
            Ok(state) => Some(state),
            Err(refusal) => {
                self.fail(BenchFault::Refused(refusal));
                None
            }
        }
    }

    /// A new tree. There is none only after a fault.
    pub(crate) fn open(&mut self) -> Option<State> {
        self.tree(State::new(self.alloc, Limits::full()))
    }

    /// A fork of a tree. There is none only after a fault.
    pub(crate) fn fork(&mut self, state: &State) -> Option<State> {
        self.tree(state.fork())
    }

    /// Cuts the journal of a tree, and adds where.
    pub(crate) fn cut(&mut self, state: &mut State) {
        if self.is_well() {
            match state.cut() {
                Ok(place) => self.digest.add(place),
                Err(refusal) => self.fail(BenchFault::Refused(refusal)),
            }
        }
    }

    /// A path that was read, or the root.
    #[inline(always)]
    fn path_or_root(&mut self, read: Result<Path, Refusal>) -> Path {
        match read {
            Ok(path) => path,
            Err(refusal) => {
                self.fail(BenchFault::Refused(refusal));
                Path::root()
            }
        }
    }

    /// The path of a text.
    pub(crate) fn path(&mut self, text: &str) -> Path {
        self.path_or_root(Path::parse(self.alloc, text.as_bytes()))
    }

    /// The path of the text that a script has.
    #[inline(always)]
    pub(crate) fn path_of(&mut self, text: &Script) -> Path {
        self.need(text.is_whole());
        self.path_or_root(Path::parse(self.alloc, text.as_slice()))
    }

    /// The path of the text in the buffer.
    #[inline(always)]
    pub(crate) fn written(&mut self) -> Path {
        let is_whole = self.text.is_whole();
        self.need(is_whole);
        let read = Path::parse(self.alloc, self.text.as_slice());
        self.path_or_root(read)
    }

    /// The path of a text with a number behind it.
    pub(crate) fn numbered(&mut self, front: &str, number: u64) -> Path {
        self.text.clear();
        self.text.text(front);
        self.text.number(number);
        self.written()
    }

    /// The path of two texts, each with a number behind it.
    pub(crate) fn inner(&mut self, front: &str, number: u64, behind: &str, other: u64) -> Path {
        self.text.clear();
        self.text.text(front);
        self.text.number(number);
        self.text.text(behind);
        self.text.number(other);
        self.written()
    }

    /// The path of a file in a folder. Its name begins with a front and a number, and is filled up to its length.
    pub(crate) fn named(&mut self, folder: &str, front: &str, number: u64, length: Length) -> Path {
        let bytes = match length {
            Length::Short => 0,
            Length::Middle => 60,
            Length::Long => number.wrapping_mul(43) % 108 + 148,
        };
        self.text.clear();
        self.text.text(folder);
        let start = self.text.len();
        self.text.text(front);
        self.text.number(number);
        let written = self.text.len().saturating_sub(start);
        let filler = self.filler.as_slice();
        let missing = (bytes as usize).saturating_sub(written).min(filler.len());
        self.text.bytes(&filler[..missing]);
        self.written()
    }

    /// One of `count` instances by chance.
    pub(crate) fn any_instance(&mut self, count: u32) -> u32 {
        let at = self.rng.below(u64::from(count));
        u32::try_from(at).unwrap_or(0).wrapping_add(1)
    }

    /// Makes a call, and adds its sequence number and its entry.
    #[inline(always)]
    pub(crate) fn call(&mut self, state: &mut State, call: Call) {
        if self.is_well() {
            if let Err(refusal) = make(state, &mut self.digest, call) {
                self.fail(BenchFault::Refused(refusal));
            }
        }
    }

    /// Makes a call on files, and adds its sequence number and its entry.
    #[inline(always)]
    pub(crate) fn file(&mut self, state: &mut State, call: FileCall) {
        self.call(state, Call::File(call));
    }

    /// Makes a call for its receipt, and adds that.
    #[inline(always)]
    pub(crate) fn apply(&mut self, state: &mut State, call: Call) {
        if self.is_well() {
            self.take(state.apply(CALLER, call));
        }
    }

    /// Adds the receipt of a call, unless it failed.
    #[inline(always)]
    pub(crate) fn take(&mut self, answered: Result<Receipt, Refusal>) {
        match answered {
            Ok(receipt) => add_receipt(&mut self.digest, &receipt),
            Err(refusal) => self.fail(BenchFault::Refused(refusal)),
        }
    }

    /// Looks at a file, and adds what it is, or why there is none.
    pub(crate) fn peek_stat(&mut self, state: &State, path: Path) {
        match state.peek_stat(&path) {
            Ok(answer) => add_answer(&mut self.digest, &answer),
            Err(refusal) => add_refusal(&mut self.digest, refusal),
        }
    }

    /// A copy of bytes, which is empty only after a fault or where they are.
    pub(crate) fn bytes(&mut self, bytes: &[u8]) -> Bytes {
        match Vec::from_slice(self.alloc, bytes) {
            Ok(bytes) => Bytes::from_vec(bytes),
            Err(_) => {
                self.fail(BenchFault::Memory);
                Bytes::from_vec(Vec::new(self.alloc))
            }
        }
    }

    /// A write of some bytes.
    pub(crate) fn write(&mut self, path: Path, offset: u64) -> FileCall {
        FileCall::Write {
            path,
            offset,
            bytes: self.bytes(CONTENTS),
        }
    }

    /// Makes a directory.
    pub(crate) fn mkdir(&mut self, state: &mut State, path: Path) {
        self.file(state, FileCall::Mkdir { path, mode: 0o755 });
    }

    /// Makes a file.
    pub(crate) fn create(&mut self, state: &mut State, path: Path) {
        self.file(state, FileCall::Create { path, mode: 0o644 });
    }

    /// Makes `count` instances with queues of 16,384 records.
    pub(crate) fn init(&mut self, state: &mut State, count: u32) {
        for _ in 0..count {
            let init = Call::Init {
                limit: 16_384,
                piped: false,
            };
            self.call(state, init);
        }
    }

    /// Lets an instance watch a file or a directory.
    pub(crate) fn watch(&mut self, state: &mut State, instance: u32, path: Path, mask: u32) {
        let watch = Call::AddWatch {
            instance,
            path,
            mask,
        };
        self.call(state, watch);
    }

    /// Reads an instance.
    pub(crate) fn read(&mut self, state: &mut State, instance: u32) {
        let bytes = 8192;
        self.call(state, Call::Read { instance, bytes });
    }

    /// Reads an eighth of `count` instances, by chance, and at least one.
    pub(crate) fn read_some(&mut self, state: &mut State, count: u32) {
        for _ in 0..count / 8 + 1 {
            let instance = self.any_instance(count);
            self.read(state, instance);
        }
    }

    /// The digest of all that was answered, or the first fault.
    pub(crate) fn finish(self) -> Result<Digest, BenchFault> {
        let Desk {
            alloc: _,
            rng: _,
            digest,
            text: _,
            filler: _,
            fault,
        } = self;
        match fault {
            None => Ok(digest),
            Some(fault) => Err(fault),
        }
    }
}
