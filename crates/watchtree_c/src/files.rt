//! Calls on files.

ghost use Rattle.std.specs.Prelude.{◌≡◌, ◌+◌, ◌-◌, ◌^◌, ◌++◌, List, ℕ, length, min};
ghost use Rattle.std.specs.List.{flat_map};
ghost use Rattle.watchtree_c.specs.Answers.{Answers, AnswersBytes, IsAsked, IsReply, count_number, overlaid};
ghost use Rattle.watchtree_c.specs.Answers.{reply_number};
ghost use Rattle.watchtree_c.specs.Stats.{Tells, stat_of, told_or};
ghost use Rattle.watchtree_c.specs.Calls.{asked_bytes, mkdir_call, create_call, rename_call, rename2_call};
ghost use Rattle.watchtree_c.specs.Calls.{truncate_call, chmod_call, unlink_call, rmdir_call, link_call, write_call};
ghost use Rattle.watchtree_c.specs.Calls.{read_call, stat_call, list_call};
ghost use Rattle.watchtree_c.specs.Listings.{IsListed, Lists, ended};

use crate::answers::{count_number, put, refused_number, reply_number};
use crate::tree::{TreeHandle, last_reply};
use inode_table::Kind;
use record_codec::{Bytes, Name};
use std::alloc::Global;
use tree_core::{Call, Reply};
use tree_ops::{Answer, FileCall};
use tree_paths::{Path, Refusal};

/// As mkdir(2), but it answers the number of the directory.
#[unsafe(no_mangle)]
pub extern "C" fn wt_mkdir(alloc: Global, tree: &mut TreeHandle, path: &[u8], mode: u32) -> i64
    ensures { Answers (IsReply tree.old.held.state (mkdir_call path.now mode) tree.new.held.state) result }
{
    let call = Path::parse(alloc, path).map(|path| Call::File(FileCall::Mkdir { path, mode }));
    tree.make(alloc, call)
}

/// As open(2) with `O_CREAT | O_EXCL` and close(2), but it answers the number of the file.
#[unsafe(no_mangle)]
pub extern "C" fn wt_create(alloc: Global, tree: &mut TreeHandle, path: &[u8], mode: u32) -> i64
    ensures { Answers (IsReply tree.old.held.state (create_call path.now mode) tree.new.held.state) result }
{
    let call = Path::parse(alloc, path).map(|path| Call::File(FileCall::Create { path, mode }));
    tree.make(alloc, call)
}

/// As rename(2).
#[unsafe(no_mangle)]
pub extern "C" fn wt_rename(alloc: Global, tree: &mut TreeHandle, old: &[u8], to: &[u8]) -> i64
    ensures { Answers (IsReply tree.old.held.state (rename_call old.now to.now) tree.new.held.state) result }
{
    tree.make(alloc, rename(alloc, old, to))
}

fn rename(alloc: Global, old: &[u8], new: &[u8]) -> Result<Call, Refusal>
    ensures { IsAsked result (rename_call old.now new.now) }
{
    let old = Path::parse(alloc, old)?;
    let new = Path::parse(alloc, new)?;
    Ok(Call::File(FileCall::Rename { old, new }))
}

/// As renameat2(2), with its flags.
#[unsafe(no_mangle)]
pub extern "C" fn wt_rename2(
    alloc: Global,
    tree: &mut TreeHandle,
    old: &[u8],
    to: &[u8],
    flags: u32,
) -> i64
    ensures { Answers (IsReply tree.old.held.state (rename2_call old.now to.now flags) tree.new.held.state) result }
{
    tree.make(alloc, rename2(alloc, old, to, flags))
}

fn rename2(alloc: Global, old: &[u8], new: &[u8], flags: u32) -> Result<Call, Refusal>
    ensures { IsAsked result (rename2_call old.now new.now flags) }
{
    let old = Path::parse(alloc, old)?;
    let new = Path::parse(alloc, new)?;
    Ok(Call::File(FileCall::Rename2 { old, new, flags }))
}

/// As truncate(2).
#[unsafe(no_mangle)]
pub extern "C" fn wt_truncate(alloc: Global, tree: &mut TreeHandle, path: &[u8], len: u64) -> i64
    ensures { Answers (IsReply tree.old.held.state (truncate_call path.now len) tree.new.held.state) result }
{
    let call = Path::parse(alloc, path).map(|path| Call::File(FileCall::Truncate { path, len }));
    tree.make(alloc, call)
}

/// As chmod(2).
#[unsafe(no_mangle)]
pub extern "C" fn wt_chmod(alloc: Global, tree: &mut TreeHandle, path: &[u8], mode: u32) -> i64
    ensures { Answers (IsReply tree.old.held.state (chmod_call path.now mode) tree.new.held.state) result }
{
    let call = Path::parse(alloc, path).map(|path| Call::File(FileCall::Chmod { path, mode }));
    tree.make(alloc, call)
}

/// As unlink(2).
#[unsafe(no_mangle)]
pub extern "C" fn wt_unlink(alloc: Global, tree: &mut TreeHandle, path: &[u8]) -> i64
    ensures { Answers (IsReply tree.old.held.state (unlink_call path.now) tree.new.held.state) result }
{
    let call = Path::parse(alloc, path).map(|path| Call::File(FileCall::Unlink { path }));
    tree.make(alloc, call)
}

/// As rmdir(2).
#[unsafe(no_mangle)]
pub extern "C" fn wt_rmdir(alloc: Global, tree: &mut TreeHandle, path: &[u8]) -> i64
    ensures { Answers (IsReply tree.old.held.state (rmdir_call path.now) tree.new.held.state) result }
{
    let call = Path::parse(alloc, path).map(|path| Call::File(FileCall::Rmdir { path }));
    tree.make(alloc, call)
}

/// As link(2).
#[unsafe(no_mangle)]
pub extern "C" fn wt_link(alloc: Global, tree: &mut TreeHandle, old: &[u8], to: &[u8]) -> i64
    ensures { Answers (IsReply tree.old.held.state (link_call old.now to.now) tree.new.held.state) result }
{
    tree.make(alloc, link(alloc, old, to))
}

fn link(alloc: Global, old: &[u8], new: &[u8]) -> Result<Call, Refusal>
    ensures { IsAsked result (link_call old.now new.now) }
{
    let old = Path::parse(alloc, old)?;
    let new = Path::parse(alloc, new)?;
    Ok(Call::File(FileCall::Link { old, new }))
}

/// As pwrite(2) of a file that is opened for it.
#[unsafe(no_mangle)]
pub extern "C" fn wt_write(
    alloc: Global,
    tree: &mut TreeHandle,
    path: &[u8],
    offset: u64,
    bytes: &[u8],
) -> i64
    ensures { Answers (IsReply tree.old.held.state (write_call path.now offset bytes.now) tree.new.held.state) result }
{
    tree.make(alloc, write(alloc, path, offset, bytes))
}

fn write(alloc: Global, path: &[u8], offset: u64, bytes: &[u8]) -> Result<Call, Refusal>
    ensures { IsAsked result (write_call path.now offset bytes.now) }
{
    let path = Path::parse(alloc, path)?;
    let mut copy = Vec::new(alloc);
    copy.extend_from_slice(bytes)?;
    let bytes = Bytes::from_vec(copy);
    Ok(Call::File(FileCall::Write {
        path,
        offset,
        bytes,
    }))
}

/// As pread(2) of a file that is opened for it.
#[unsafe(no_mangle)]
pub extern "C" fn wt_pread(
    alloc: Global,
    tree: &mut TreeHandle,
    path: &[u8],
    offset: u64,
    out: &mut [u8],
) -> i64
    ensures { AnswersBytes (IsReply tree.old.held.state
        (read_call path.now offset (asked_bytes out.old)) tree.new.held.state) result out.old out.new }
{
    let count = u32::try_from(out.len()).unwrap_or(u32::MAX);
    let call = Path::parse(alloc, path).map(|path| {
        Call::File(FileCall::ReadFile {
            path,
            offset,
            count,
        })
    });
    tree.read(alloc, call, out)
}

/// What stands at a path, as C has it: `struct wt_stat`.
#[repr(C)]
#[derive(Clone, Copy)]
pub struct Stat {
    pub links: u64,
    pub size: u64,
    pub number: u32,
    pub mode: u32,
    pub is_directory: u32,
}

/// As stat(2). What stood in `out` stays there where the call is refused.
#[unsafe(no_mangle)]
pub extern "C" fn wt_stat(alloc: Global, tree: &mut TreeHandle, path: &[u8], out: &mut Stat) -> i64
    ensures { Tells (IsReply tree.old.held.state (stat_call path.now) tree.new.held.state) result out.old out.new }
{
    let call = Path::parse(alloc, path).map(|path| Call::File(FileCall::Stat { path }));
    match tree.record(alloc, call) {
        Ok(opened) => {
            let number = put_stat(out, last_reply(&opened.state));
            *tree = TreeHandle::of(opened);
            number
        }
        Err(refusal) => refused_number(refusal),
    }
}

/// Puts the status that a reply has, if any, in `out`. It answers the number of the reply.
pub(crate) fn put_stat(out: &mut Stat, reply: &Reply) -> i64
    ensures number { result ≡ reply_number reply.now }
    ensures told { out.new ≡ told_or (stat_of reply.now) out.old }
{
    if let Some(stat) = stat_of(reply) {
        *out = stat;
    }
    reply_number(reply)
}

fn stat_of(reply: &Reply) -> Option<Stat>
    ensures { result ≡ stat_of reply.now }
{
    let Reply::File(
        Answer::Stat {
            number,
            kind,
            mode,
            links,
            size,
        },
    ) = reply
    else {
        return None;
    };
    Some(Stat {
        links: *links,
        size: *size,
        number: *number,
        mode: *mode,
        is_directory: u32::from(*kind == Kind::Directory),
    })
}

/// The names in a directory in the order of their bytes, each with a zero byte behind it, as many bytes as fit. It
/// answers how many bytes all of them are.
#[unsafe(no_mangle)]
pub extern "C" fn wt_list(alloc: Global, tree: &mut TreeHandle, path: &[u8], out: &mut [u8]) -> i64
    ensures { Lists (IsReply tree.old.held.state (list_call path.now) tree.new.held.state) result out.old out.new }
{
    let call = Path::parse(alloc, path).map(|path| Call::File(FileCall::List { path }));
    match tree.record(alloc, call) {
        Ok(opened) => {
            let number = put_listing(out, last_reply(&opened.state));
            *tree = TreeHandle::of(opened);
            number
        }
        Err(refusal) => refused_number(refusal),
    }
}

/// Puts the names that a reply has, if any, at the front of `out`. It answers how many bytes all of them are, or the
/// number of a reply that has none.
fn put_listing(out: &mut [u8], reply: &Reply) -> i64
    ensures { IsListed reply.now result out.old out.new }
{
    let Reply::File(Answer::Names(names)) = reply else {
        return reply_number(reply);
    };
    put_names(out, names.as_slice())
}

/// Puts names at the front of `out`, each with a zero byte behind it, as many bytes as fit. It answers how many bytes
/// all of them are.
pub(crate) fn put_names(out: &mut [u8], names: &[Name]) -> i64
    ensures number { result ≡ count_number (length (flat_map ended names.now)) }
    ensures bytes { out.new ≡ overlaid (flat_map ended names.now) out.old }
{
    let mut len = 0;
    for name in names {
        len = put_more(out, len, name.bytes());
        len = put_more(out, len, b"\0");
    }
    count_number(len as u64)
}

/// Puts bytes behind the `len` bytes that were put at the front of `out`, as many as fit. It answers how many bytes all
/// of them are, no more than a `usize` may be.
pub(crate) fn put_more(out: &mut [u8], len: usize, bytes: &[u8]) -> usize
    ensures len { result ≡ min (len + length bytes.now) (2 ^ 64 - 1) }
    ensures bytes { (front old : List ℕ) → len ≡ min (length front) (2 ^ 64 - 1) → out.old ≡ overlaid front old
        → out.new ≡ overlaid (front ++ bytes.now) old }
{
    let start = len.min(out.len());
    put(&mut out[start..], bytes);
    len.saturating_add(bytes.len())
}
