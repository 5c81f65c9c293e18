//! What stands in a tree, for callers that make no call: the journal keeps nothing of it, and no event is raised.

ghost use Rattle.std.specs.Prelude.{◌≡◌, length};
ghost use Rattle.tree_paths.specs.Paths.{pathname_of};
ghost use Rattle.watchtree_c.specs.Answers.{AnswersBytes, count_number, overlaid};
ghost use Rattle.watchtree_c.specs.Calls.{asked_bytes, list_call, read_call, stat_call};
ghost use Rattle.watchtree_c.specs.Listings.{Lists};
ghost use Rattle.watchtree_c.specs.Peeks.{IsPathGiven, IsPathOf, IsPeeked, IsReadyTold, MayReply, WouldReply};
ghost use Rattle.watchtree_c.specs.Peeks.{bytes_waiting_number};
ghost use Rattle.watchtree_c.specs.Stats.{Tells};
ghost use Rattle.tree_core.specs.Journal.{now};
ghost use Rattle.tree_core.specs.Tree.{reply_of};

use crate::answers::{count_number, put, refused_number};
use crate::files::{Stat, put_more, put_names, put_stat};
use crate::tree::TreeHandle;
use std::alloc::Global;
use tree_core::{Call, Reply, State};
use tree_ops::FileCall;
use tree_paths::{Path, PathNames, Refusal};

/// How many bytes all records take that wait in an instance: what `ioctl` with `FIONREAD` gives of an inotify file
/// descriptor (inotify(7)). No call is made for it.
///
/// # Errors
/// `EBADF`, where there is no such instance.
#[unsafe(no_mangle)]
pub extern "C" fn wt_bytes_waiting(alloc: Global, tree: &mut TreeHandle, instance: u32) -> i64
    ensures number { result ≡ bytes_waiting_number tree.old.held.state instance }
    ensures same { tree.new.held.state ≡ tree.old.held.state }
{
    let Some(opened) = tree.take(alloc) else {
        return refused_number(Refusal::Ebadf);
    };
    let waiting = opened.state.bytes_waiting(instance);
    *tree = TreeHandle::of(opened);
    match waiting {
        Some(count) => count_number(count as u64),
        None => refused_number(Refusal::Ebadf),
    }
}

/// Writes the numbers of the open instances that have a record waiting over the front of `out`, rising, as many as it
/// holds. It answers how many there are. No call is made for it.
///
/// # Errors
/// `EBADF`, where the tree is not open.
#[unsafe(no_mangle)]
pub extern "C" fn wt_ready(alloc: Global, tree: &mut TreeHandle, out: &mut [u32]) -> i64
    ensures told { IsReadyTold tree.old.held.state result out.old out.new }
    ensures same { tree.new.held.state ≡ tree.old.held.state }
{
    let Some(opened) = tree.take(alloc) else {
        return refused_number(Refusal::Ebadf);
    };
    let count = opened.state.ready(out);
    *tree = TreeHandle::of(opened);
    count_number(count as u64)
}

/// As stat(2), where no call is made for it. What stood in `out` stays there where the path is refused.
#[unsafe(no_mangle)]
pub extern "C" fn wt_peek_stat(
    alloc: Global,
    tree: &mut TreeHandle,
    path: &[u8],
    out: &mut Stat,
) -> i64
    ensures told { Tells (IsPeeked tree.old.held.state (stat_call path.now)) result out.old out.new }
    ensures same { tree.new.held.state ≡ tree.old.held.state }
{
    let Some(opened) = tree.take(alloc) else {
        return refused_number(Refusal::Ebadf);
    };
    let reply = stat_reply(alloc, &opened.state, path);
    *tree = TreeHandle::of(opened);
    put_stat(out, &reply)
}

fn stat_reply(alloc: Global, state: &State, path: &[u8]) -> Reply
    ensures { WouldReply state.now (stat_call path.now) result }
{
    match Path::parse(alloc, path) {
        Ok(path) => stat_at(state, &path),
        Err(refusal) => Reply::Refused(refusal),
    }
}

fn stat_at(state: &State, path: &Path) -> Reply
    ensures { result ≡ reply_of (now state.now) (Call.File (FileCall.Stat path.now)) }
{
    match state.peek_stat(path) {
        Ok(answer) => Reply::File(answer),
        Err(refusal) => Reply::Refused(refusal),
    }
}

/// As `wt_list`, where no call is made for it.
#[unsafe(no_mangle)]
pub extern "C" fn wt_peek_list(
    alloc: Global,
    tree: &mut TreeHandle,
    path: &[u8],
    out: &mut [u8],
) -> i64
    ensures told { Lists (IsPeeked tree.old.held.state (list_call path.now)) result out.old out.new }
    ensures same { tree.new.held.state ≡ tree.old.held.state }
{
    let Some(opened) = tree.take(alloc) else {
        return refused_number(Refusal::Ebadf);
    };
    let number = read_names(alloc, &opened.state, path, out);
    *tree = TreeHandle::of(opened);
    number
}

fn read_names(alloc: Global, state: &State, path: &[u8], out: &mut [u8]) -> i64
    ensures { Lists (WouldReply state.now (list_call path.now)) result out.old out.new }
{
    match Path::parse(alloc, path) {
        Ok(path) => names_at(state, &path, out),
        Err(refusal) => refused_number(refusal),
    }
}

fn names_at(state: &State, path: &Path, out: &mut [u8]) -> i64
    ensures { Lists (MayReply state.now (Call.File (FileCall.List path.now))) result out.old out.new }
{
    match state.peek_names(path) {
        Ok(names) => put_names(out, names.as_slice()),
        Err(refusal) => refused_number(refusal),
    }
}

/// As pread(2) of a file that is opened for it, where no call is made for it. The bytes are copied once, into `out`.
#[unsafe(no_mangle)]
pub extern "C" fn wt_peek_pread(
    alloc: Global,
    tree: &mut TreeHandle,
    path: &[u8],
    offset: u64,
    out: &mut [u8],
) -> i64
    ensures told { AnswersBytes
        (IsPeeked tree.old.held.state (read_call path.now offset (asked_bytes out.old))) result out.old out.new }
    ensures same { tree.new.held.state ≡ tree.old.held.state }
{
    let Some(opened) = tree.take(alloc) else {
        return refused_number(Refusal::Ebadf);
    };
    let number = read_bytes(alloc, &opened.state, path, offset, out);
    *tree = TreeHandle::of(opened);
    number
}

fn read_bytes(alloc: Global, state: &State, path: &[u8], offset: u64, out: &mut [u8]) -> i64
    ensures { AnswersBytes
        (WouldReply state.now (read_call path.now offset (asked_bytes out.old))) result out.old out.new }
{
    match Path::parse(alloc, path) {
        Ok(path) => bytes_at(state, &path, offset, out),
        Err(refusal) => refused_number(refusal),
    }
}

fn bytes_at(state: &State, path: &Path, offset: u64, out: &mut [u8]) -> i64
    ensures { AnswersBytes (MayReply state.now
        (Call.File (FileCall.ReadFile path.now offset (asked_bytes out.old)))) result out.old out.new }
{
    let count = u32::try_from(out.len()).unwrap_or(u32::MAX);
    match state.peek_bytes(path, offset, count) {
        Ok(bytes) => {
            put(out, bytes);
            count_number(bytes.len() as u64)
        }
        Err(refusal) => refused_number(refusal),
    }
}

/// Writes a path of the file with this number over the front of `out`, as many of its bytes as fit: the first of its
/// paths in the order of names. It answers how many bytes the path has. It looks at each path of the tree: its time and
/// memory are in proportion to their number. No call is made for it.
///
/// # Errors
/// `ENOENT`, where no file has this number; `ENOMEM`; `EBADF`, where the tree is not open.
#[unsafe(no_mangle)]
pub extern "C" fn wt_path_of(
    alloc: Global,
    tree: &mut TreeHandle,
    number: u64,
    out: &mut [u8],
) -> i64
    ensures given { IsPathGiven tree.old.held.state number result out.old out.new }
    ensures same { tree.new.held.state ≡ tree.old.held.state }
{
    let Some(opened) = tree.take(alloc) else {
        return refused_number(Refusal::Ebadf);
    };
    let length = put_path_of(&opened.state, number, out);
    *tree = TreeHandle::of(opened);
    length
}

fn put_path_of(state: &State, number: u64, out: &mut [u8]) -> i64
    ensures { IsPathOf state.now number result out.old out.new }
{
    match state.path_of(number) {
        Ok(Some(path)) => put_pathname(out, path.names()),
        Ok(None) => refused_number(Refusal::Enoent),
        Err(refusal) => refused_number(refusal),
    }
}

/// Puts the pathname of names at the front of `out`, as many of its bytes as fit. It answers how many bytes the
/// pathname has.
fn put_pathname(out: &mut [u8], names: PathNames) -> i64
    ensures number { result ≡ count_number (length (pathname_of names.entry)) }
    ensures bytes { out.new ≡ overlaid (pathname_of names.entry) out.old }
{
    if names.is_empty() {
        put(out, b"/");
        return 1;
    }
    let mut names = names;
    let mut len = 0;
    while let Some(name) = names.next() {
        len = put_more(out, len, b"/");
        len = put_more(out, len, name.as_name().bytes());
    }
    count_number(len as u64)
}
