//! The life of a tree.

ghost use Rattle.std.specs.Prelude.{◌≡◌, [], None, IfOk, IfErr};
ghost use Rattle.tree_paths.specs.Bounds.{full};
ghost use Rattle.tree_paths.specs.declared.refusal.Refusal.TheVariants.{Enomem};
ghost use Rattle.tree_core.specs.Journal.{cut_off, opened};
ghost use Rattle.watchtree_c.specs.Answers.{IsOpened, IsCutOff, IsForked, IsOpenedAsFork};

use crate::answers::{count_number, refused_number};
use crate::opened::Opened;
use crate::tree::TreeHandle;
use std::alloc::Global;
use tree_core::State;
use tree_paths::{Limits, Refusal};

/// Opens a tree: the root alone, and no instance.
///
/// # Errors
/// - `EBUSY`, where it is open.
/// - `ENOMEM`
#[unsafe(no_mangle)]
pub extern "C" fn wt_open(alloc: Global, tree: &mut TreeHandle) -> i64
    ensures { IsOpened tree.old.held.state result tree.new.held.state }
{
    if tree.ready {
        return refused_number(Refusal::Ebusy);
    }
    match opening(alloc) {
        Ok(opened) => {
            *tree = TreeHandle::of(opened);
            0
        }
        Err(refusal) => refused_number(refusal),
    }
}

fn opening(alloc: Global) -> Result<Box<Opened>, Refusal>
    ensures state { IfOk result (λ b. b.value.state ≡ opened full) }
    ensures text { IfOk result (λ b. b.value.text.items ≡ []) }
    ensures err { IfErr result (λ refusal. refusal ≡ Enomem) }
{
    boxed(alloc, State::new(alloc, Limits::full())?)
}

/// What is open, with no text yet.
fn boxed(alloc: Global, state: State) -> Result<Box<Opened>, Refusal>
    ensures state { IfOk result (λ b. b.value.state ≡ state) }
    ensures text { IfOk result (λ b. b.value.text.items ≡ []) }
    ensures err { IfErr result (λ refusal. refusal ≡ Enomem) }
{
    let text = Vec::new(alloc);
    Ok(Box::new(alloc, Opened { state, text })?)
}

/// Closes a tree, and gives its memory back. A tree that is not open stays so.
#[unsafe(no_mangle)]
pub extern "C" fn wt_close(alloc: Global, tree: &mut TreeHandle)
    ensures { tree.new.held.state ≡ None }
{
    drop(tree.take(alloc));
}

/// Cuts the journal: a snapshot replaces the calls so far. Answers and sequence numbers continue as they would without
/// the cut. It answers the sequence number of the last call.
///
/// # Errors
/// - `EBADF`, where the tree is not open.
/// - `ENOMEM`
#[unsafe(no_mangle)]
pub extern "C" fn wt_cut(alloc: Global, tree: &mut TreeHandle) -> i64
    ensures { IsCutOff tree.old.held.state result tree.new.held.state }
{
    let Some(mut opened) = tree.take(alloc) else {
        return refused_number(Refusal::Ebadf);
    };
    let place = opened.state.cut();
    *tree = TreeHandle::of(opened);
    match place {
        Ok(place) => count_number(place),
        Err(refusal) => refused_number(refusal),
    }
}

/// Forks a tree: opens `fork` as an independent tree with the same files, instances, watches and waiting records, the
/// same last sequence number, an empty journal and no text. The tree itself stays as it is.
///
/// # Errors
/// The first that holds. `fork` is then as it was.
/// - `EBADF`, where the tree is not open.
/// - `EBUSY`, where `fork` is open, also where it is the tree itself.
/// - `ENOMEM`
#[unsafe(no_mangle)]
pub extern "C" fn wt_fork(alloc: Global, tree: &mut TreeHandle, fork: &mut TreeHandle) -> i64
    ensures forked { IsForked tree.old.held.state fork.old.held.state result fork.new.held.state }
    ensures same { tree.new.held.state ≡ tree.old.held.state }
{
    // This comes before anything is taken out, as C may pass one tree twice.
    if tree.ready && fork.ready {
        return refused_number(Refusal::Ebusy);
    }
    let Some(opened) = tree.take(alloc) else {
        return refused_number(Refusal::Ebadf);
    };
    let number = open_fork(alloc, &opened.state, fork);
    *tree = TreeHandle::of(opened);
    number
}

fn open_fork(alloc: Global, state: &State, fork: &mut TreeHandle) -> i64
    ensures { IsOpenedAsFork state.now fork.old.held.state result fork.new.held.state }
{
    if fork.ready {
        return refused_number(Refusal::Ebusy);
    }
    match forking(alloc, state) {
        Ok(opened) => {
            *fork = TreeHandle::of(opened);
            0
        }
        Err(refusal) => refused_number(refusal),
    }
}

fn forking(alloc: Global, state: &State) -> Result<Box<Opened>, Refusal>
    ensures state { IfOk result (λ b. b.value.state ≡ cut_off state.now) }
    ensures text { IfOk result (λ b. b.value.text.items ≡ []) }
    ensures err { IfErr result (λ refusal. refusal ≡ Enomem) }
{
    boxed(alloc, state.fork()?)
}
