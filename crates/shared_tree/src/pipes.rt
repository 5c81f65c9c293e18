//! The pipes of a tree.

ghost use Rattle.std.specs.Prelude.{◌≡◌, ◌<◌, ℕ, [], ◌++◌, length, map, IfOk, IfErr, OnOk, IsTrue, true, false};
ghost use Rattle.tree_paths.specs.declared.refusal.Refusal.TheVariants.{PipeFull};
ghost use Rattle.tree_core.specs.declared.call.Call.TheVariants.{Init};
ghost use Rattle.tree_core.specs.Journal.{now};
ghost use Rattle.shared_tree.specs.Pipes.{feed_of};
ghost use Rattle.shared_tree.specs.Handed.{piped_by, deliver};
ghost use Rattle.shared_tree.specs.Held.{sents, pushed_at, FreeAt, IsFilled, IsPipeFound, IsPlaceOf, IsReady, IsRising};
ghost use Rattle.shared_tree.specs.Held.{Rises};

use crate::pipe::{Batch, Feed, Pipe};
use std::alloc::{AllocError, Global};
use std::marker::Model;
use tree_core::{Reply, State};
use tree_paths::Refusal;

// The pipes of the instances that were made with one, in ascending order of their numbers. Contracts see the numbers,
// the sending ends, and whether there is capacity for one more pipe.
#[derive(Drop)]
pub(crate) struct Pipes {
    numbers: Vec<u32>,
    ends: Vec<Pipe>,
}

impl Model for Pipes {
    ghost use Rattle.std.specs.Prelude.{◌≡◌, ◌&&◌, ◌+◌, length, nat_le, vec_len, vec_capacity};
    ghost use Rattle.shared_tree.specs.PipeEnds.{PipesState, pipes_state};
    ghost use Rattle.shared_tree.specs.Held.{IsRising};

    ghost Value = { PipesState };

    ghost view = { λ p. pipes_state p.numbers.items p.ends.items
        (nat_le (vec_len p.numbers + 1) (vec_capacity p.numbers)
        && nat_le (vec_len p.ends + 1) (vec_capacity p.ends)) };

    ghost invariant = { λ p. IsRising p.numbers.items × (length p.numbers.items ≡ length p.ends.items) };
}

/// Where the pipe of an instance is, by its number.
fn find(numbers: &[u32], instance: u32) -> Option<usize>
    requires { IsRising numbers.now }
    ensures { IsPlaceOf numbers.now instance result }
{
    numbers.binary_search(&instance).ok()
}

/// Whether the pipe at an index has no free slot.
fn is_full_at(pipes: &mut Vec<Pipe>, at: usize) -> bool
    requires { at < length pipes.old.items }
    ensures sent { sents pipes.new.items ≡ sents pipes.old.items }
    ensures free { result ≡ false → FreeAt pipes.new.items at }
{
    let pipe = &mut pipes[at];
    pipe.is_full()
}

/// Hands a batch to the pipe at an index.
fn push_at(pipes: &mut Vec<Pipe>, at: usize, batch: Batch)
    requires { FreeAt pipes.old.items at }
    ensures { sents pipes.new.items ≡ pushed_at (sents pipes.old.items) at batch }
{
    let pipe = &mut pipes[at];
    pipe.push(batch);
}

impl Pipes {
    /// No pipes.
    pub(crate) fn new(alloc: Global) -> Pipes
        ensures { (result.numbers ≡ []) × (result.ends ≡ []) }
    {
        Pipes {
            numbers: Vec::new(alloc),
            ends: Vec::new(alloc),
        }
    }

    /// The numbers of their instances, rising.
    pub(crate) fn numbers(&self) -> &[u32]
        ensures { result.now ≡ self.now.numbers }
    {
        self.numbers.as_slice()
    }

    /// Finds the pipe of an open instance, and checks that it has a free slot.
    #[inline(always)]
    pub(crate) fn look(
        &mut self,
        core: &State,
        target: Option<u32>,
    ) -> Result<Option<usize>, Refusal>
        ensures numbers { self.new.numbers ≡ self.old.numbers }
        ensures sent { sents self.new.ends ≡ sents self.old.ends }
        ensures ok { IfOk result (λ at. IsPipeFound self.new.numbers self.new.ends (now core.now) target at) }
        ensures err { IfErr result (λ e. (e ≡ PipeFull) × IsFilled self.old.numbers (now core.now) target) }
    {
        let Some(instance) = target else {
            return Ok(None);
        };
        self.look_for(core, instance)
    }

    /// Finds the pipe of the instance of this number, if it is open, and checks that it has a free slot.
    #[inline(never)]
    fn look_for(&mut self, core: &State, instance: u32) -> Result<Option<usize>, Refusal>
        ensures numbers { self.new.numbers ≡ self.old.numbers }
        ensures sent { sents self.new.ends ≡ sents self.old.ends }
        ensures ok { IfOk result (λ at.
            IsPipeFound self.new.numbers self.new.ends (now core.now) (Some instance) at) }
        ensures err { IfErr result (λ e.
            (e ≡ PipeFull) × IsFilled self.old.numbers (now core.now) (Some instance)) }
    {
        let Pipes { numbers, ends } = self;
        if core.waiting(instance).is_none() {
            return Ok(None);
        }
        let Some(at) = find(numbers.as_slice(), instance) else {
            return Ok(None);
        };
        if is_full_at(ends, at) {
            return Err(Refusal::PipeFull);
        }
        Ok(Some(at))
    }

    /// Hands a batch over, where there is one and its instance has a pipe.
    #[inline(always)]
    pub(crate) fn hand_over(&mut self, at: Option<usize>, batch: Option<Batch>)
        requires { IsReady self.old.numbers self.old.ends at batch }
        ensures numbers { self.new.numbers ≡ self.old.numbers }
        ensures sent { sents self.new.ends ≡ deliver batch self.old.numbers (sents self.old.ends) }
    {
        let Pipes { numbers: _, ends } = self;
        let Some(batch) = batch else {
            return;
        };
        let Some(at) = at else {
            return;
        };
        push_at(ends, at, batch);
    }

    /// Reserves memory for one more pipe.
    pub(crate) fn reserve(&mut self) -> Result<(), AllocError>
        ensures numbers { self.new.numbers ≡ self.old.numbers }
        ensures ends { self.new.ends ≡ self.old.ends }
        ensures room { OnOk result (IsTrue self.new.has_room) }
    {
        self.numbers.reserve(1)?;
        self.ends.reserve(1)
    }

    /// Puts a new pipe behind the others, where the reply is an instance, whose number is above theirs.
    pub(crate) fn add(&mut self, reply: &Reply, pipe: Pipe, feed: Feed) -> Option<Feed>
        requires empty { (pipe.sent ≡ []) × (feed.received ≡ []) }
        requires room { IsTrue self.old.has_room }
        requires next { (id : ℕ) → reply.now ≡ Reply.Instance id → Rises 1 self.old.numbers id }
        ensures numbers { (limit : ℕ) → self.new.numbers ≡ self.old.numbers ++ piped_by (Init limit true) reply.now }
        ensures sent { (limit : ℕ)
            → sents self.new.ends ≡ sents self.old.ends ++ map (λ (id : ℕ). []) (piped_by (Init limit true) reply.now) }
        ensures feed { result ≡ feed_of reply.now feed.slots }
    {
        match reply {
            Reply::Instance(id) => {
                self.numbers.push_reserved(*id);
                self.ends.push_reserved(pipe);
                Some(feed.numbered(*id))
            }
            _ => None,
        }
    }
}
