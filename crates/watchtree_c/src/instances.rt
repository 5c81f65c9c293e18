//! Calls on instances.

ghost use Rattle.std.specs.Prelude.{◌≡◌, Ok, false};
ghost use Rattle.tree_core.specs.declared.call.Call.TheVariants as call;
ghost use Rattle.watchtree_c.specs.Answers.{Answers, AnswersBytes, IsMade, IsReply, waiting_number};
ghost use Rattle.watchtree_c.specs.Calls.{add_watch_call, asked_bytes};

use crate::answers::{count_number, refused_number};
use crate::tree::TreeHandle;
use std::alloc::Global;
use tree_core::Call;
use tree_paths::{Path, Refusal};

/// As inotify_init(2), with the limit of its queue.
#[unsafe(no_mangle)]
pub extern "C" fn wt_inotify_init(alloc: Global, tree: &mut TreeHandle, limit: u32) -> i64
    ensures { Answers (IsMade tree.old.held.state (Ok (call.Init limit false)) tree.new.held.state) result }
{
    let call = Call::Init {
        limit,
        piped: false,
    };
    tree.make(alloc, Ok(call))
}

/// As inotify_add_watch(2).
#[unsafe(no_mangle)]
pub extern "C" fn wt_inotify_add_watch(
    alloc: Global,
    tree: &mut TreeHandle,
    instance: u32,
    path: &[u8],
    mask: u32,
) -> i64
    ensures { Answers (IsReply tree.old.held.state (add_watch_call instance path.now mask) tree.new.held.state) result }
{
    let call = Path::parse(alloc, path).map(|path| Call::AddWatch {
        instance,
        path,
        mask,
    });
    tree.make(alloc, call)
}

/// As read(2) of an inotify file descriptor that does not block: as many records as fit whole, or `EINVAL` where the
/// first does not, which then still waits.
#[unsafe(no_mangle)]
pub extern "C" fn wt_read(
    alloc: Global,
    tree: &mut TreeHandle,
    instance: u32,
    out: &mut [u8],
) -> i64
    ensures { AnswersBytes (IsMade tree.old.held.state
        (Ok (call.Read instance (asked_bytes out.old))) tree.new.held.state) result out.old out.new }
{
    let bytes = u32::try_from(out.len()).unwrap_or(u32::MAX);
    tree.read(alloc, Ok(Call::Read { instance, bytes }), out)
}

/// As inotify_rm_watch(2).
#[unsafe(no_mangle)]
pub extern "C" fn wt_inotify_rm_watch(
    alloc: Global,
    tree: &mut TreeHandle,
    instance: u32,
    wd: i32,
) -> i64
    ensures { Answers (IsMade tree.old.held.state (Ok (call.RmWatch instance wd)) tree.new.held.state) result }
{
    tree.make(alloc, Ok(Call::RmWatch { instance, wd }))
}

/// As close(2) of an inotify file descriptor.
#[unsafe(no_mangle)]
pub extern "C" fn wt_inotify_close(alloc: Global, tree: &mut TreeHandle, instance: u32) -> i64
    ensures { Answers (IsMade tree.old.held.state (Ok (call.Close instance)) tree.new.held.state) result }
{
    tree.make(alloc, Ok(Call::Close { instance }))
}

/// How many records wait in an instance. No call is made for it.
///
/// # Errors
/// `EBADF`, where there is no such instance.
#[unsafe(no_mangle)]
pub extern "C" fn wt_waiting(alloc: Global, tree: &mut TreeHandle, instance: u32) -> i64
    ensures number { result ≡ waiting_number tree.old.held.state instance }
    ensures same { tree.new.held.state ≡ tree.old.held.state }
{
    let Some(opened) = tree.take(alloc) else {
        return refused_number(Refusal::Ebadf);
    };
    let waiting = opened.state.waiting(instance);
    *tree = TreeHandle::of(opened);
    match waiting {
        Some(count) => count_number(count as u64),
        None => refused_number(Refusal::Ebadf),
    }
}
