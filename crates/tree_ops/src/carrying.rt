//! What accepted calls do.

ghost use Rattle.std.specs.Prelude.{◌≡◌, ◌≢◌, [], None, true, false, IfOk, IfErr, OnOk, OnErr, IsSome, ◌+◌, ◌<◌, ◌≤◌};
ghost use Rattle.std.specs.Prelude.{◌^◌, length, take, drop};
ghost use Rattle.std.specs.FinMap as finmap;
ghost use Rattle.inode_table.specs.Bytes.{resized, written};
ghost use Rattle.inode_table.specs.World.{IsWhole, look, with_file, changed_at};
ghost use Rattle.inode_table.specs.Resolution.{ResolvedPath, IsResolved};
ghost use Rattle.inode_table.specs.Tree.{reserved_at};
ghost use Rattle.inode_table.specs.TableWorld.{world_of, HasNumbersBelow};
ghost use Rattle.inode_table.specs.Refusals.{is_directory_seen, parent_of};
ghost use Rattle.tree_ops.specs.ReadyCall.{IsReady};
ghost use Rattle.tree_ops.specs.After.{after, after_unlink, bytes_at, answer_of, stat_of, names_in, numbers_of};

use crate::answer::Answer;
use crate::call::FileCall;
use crate::lookup::Lookup;
use crate::moves::Moves;
use crate::plan::Plan;
use inode_table::{Kind, Resolved, Table};
use record_codec::Bytes;
use std::alloc::{AllocError, Global};
use tree_paths::{Names, Refusal};

/// Makes a file or a directory.
fn make(
    table: &mut Table,
    path: &Resolved,
    number: u32,
    mode: u32,
    kind: Kind,
) -> Result<Answer, Refusal>
    requires resolved { IsResolved table.old path.now }
    requires directory { is_directory_seen (look (world_of table.old) (parent_of path.now.names)) ≡ true }
    requires free { look (world_of table.old) path.now.names ≡ None }
    requires named { path.now.names ≢ [] }
    requires unused { finmap.get (world_of table.old).files number ≡ None }
    ensures world { OnOk result (world_of table.new
        ≡ with_file (world_of table.old) path.now.names number (record { kind = kind; mode = mode; bytes = [] })) }
    ensures answer { IfOk result (λ answer. answer ≡ Answer.Number number) }
    ensures err { OnErr result (table.new.rows ≡ table.old.rows) }
    ensures memory { IfErr result (λ refusal. refusal ≡ Refusal.Enomem) }
{
    table.reserve_node()?;
    table.add_node(path, number, mode, kind)?;
    Ok(Answer::Number(number))
}

/// Reserves capacity for bytes in a file, from an offset on. No bytes need none.
fn reserve(table: &mut Table, path: &Resolved, offset: usize, bytes: &[u8]) -> Result<(), Refusal>
    requires resolved { IsResolved table.old path.now }
    requires there { IsSome (look (world_of table.old) path.now.names) }
    requires regular { is_directory_seen (look (world_of table.old) path.now.names) ≡ false }
    requires range { 0 < length bytes.now → offset + length bytes.now < 2 ^ 64 }
    ensures world { world_of table.new ≡ world_of table.old }
    ensures resolved { (p : ResolvedPath) → IsResolved table.old p → IsResolved table.new p }
    ensures reserved { OnOk result (0 < length bytes.now
        → offset + length bytes.now ≤ reserved_at table.new path.now.names) }
    ensures err { OnErr result (table.new.rows ≡ table.old.rows) }
    ensures memory { IfErr result (λ refusal. refusal ≡ Refusal.Enomem) }
{
    if bytes.is_empty() {
        return Ok(());
    }
    table.reserve_content(path, offset + bytes.len())
}

/// Writes over the bytes of a file from an offset on.
fn write(table: &mut Table, path: &Resolved, offset: usize, bytes: &[u8]) -> Result<Answer, Refusal>
    requires resolved { IsResolved table.old path.now }
    requires there { IsSome (look (world_of table.old) path.now.names) }
    requires regular { is_directory_seen (look (world_of table.old) path.now.names) ≡ false }
    requires range { 0 < length bytes.now → offset + length bytes.now < 2 ^ 64 }
    ensures world { OnOk result (world_of table.new ≡ changed_at (world_of table.old) path.now.names
        (λ f. record f { bytes = written offset bytes.now f.bytes })) }
    ensures answer { IfOk result (λ answer. answer ≡ Answer.Count (length bytes.now)) }
    ensures err { OnErr result (table.new.rows ≡ table.old.rows) }
    ensures memory { IfErr result (λ refusal. refusal ≡ Refusal.Enomem) }
{
    reserve(table, path, offset, bytes)?;
    table.write(path, offset, bytes);
    Ok(Answer::Count(bytes.len() as u64))
}

/// Cuts a file, or fills it up with zero bytes.
fn truncate(table: &mut Table, path: &Resolved, len: usize) -> Result<Answer, Refusal>
    requires resolved { IsResolved table.old path.now }
    requires there { IsSome (look (world_of table.old) path.now.names) }
    requires regular { is_directory_seen (look (world_of table.old) path.now.names) ≡ false }
    ensures world { OnOk result (world_of table.new ≡ changed_at (world_of table.old) path.now.names
        (λ f. record f { bytes = resized len f.bytes })) }
    ensures answer { IfOk result (λ answer. answer ≡ Answer.Done) }
    ensures err { OnErr result (table.new.rows ≡ table.old.rows) }
    ensures memory { IfErr result (λ refusal. refusal ≡ Refusal.Enomem) }
{
    table.reserve_content(path, len)?;
    table.set_len(path, len);
    Ok(Answer::Done)
}

/// Takes out a path of a regular file.
fn unlink(table: &mut Table, path: &Resolved) -> Answer
    requires resolved { IsResolved table.old path.now }
    requires there { IsSome (look (world_of table.old) path.now.names) }
    requires regular { is_directory_seen (look (world_of table.old) path.now.names) ≡ false }
    ensures world { world_of table.new ≡ after_unlink (world_of table.old) path.now.names }
    ensures answer { result ≡ Answer.Done }
{
    table.law();
    table.drop_name(path);
    Answer::Done
}

/// What `stat` answers for a file.
pub(crate) fn stat(path: &Lookup) -> Answer
    requires { IsSome (look (world_of path.now.tree) path.now.path.names) }
    ensures { result ≡ stat_of (world_of path.now.tree) path.now.path.names }
{
    let table = path.table();
    let key = table.key(path.resolved());
    Answer::Stat {
        number: table.number(key),
        kind: table.kind(key),
        mode: table.mode(key),
        links: table.links(key),
        size: table.content(key).len() as u64,
    }
}

/// The bytes from an index on.
pub(crate) fn rest(bytes: &[u8], from: usize) -> &[u8]
    ensures { result.now ≡ drop from bytes.now }
{
    if from < bytes.len() {
        &bytes[from..]
    } else {
        &[]
    }
}

/// The first bytes, up to a count.
pub(crate) fn front(bytes: &[u8], count: usize) -> &[u8]
    ensures { result.now ≡ take count bytes.now }
{
    if count < bytes.len() {
        &bytes[..count]
    } else {
        bytes
    }
}

/// Answers the bytes of a file from an offset on, up to a count.
#[inline(never)]
fn read(alloc: Global, path: &Lookup, offset: usize, count: usize) -> Result<Answer, Refusal>
    requires { IsSome (look (world_of path.now.tree) path.now.path.names) }
    ensures answer { IfOk result (λ answer. answer ≡ Answer.Bytes (take count
        (drop offset (bytes_at (world_of path.now.tree) path.now.path.names)))) }
    ensures memory { IfErr result (λ refusal. refusal ≡ Refusal.Enomem) }
{
    let bytes = Vec::from_slice(alloc, front(rest(path.content(), offset), count))?;
    Ok(Answer::Bytes(Bytes::from_vec(bytes)))
}

/// The names in a directory, in the order of their bytes.
pub(crate) fn list(alloc: Global, path: &Lookup) -> Result<Names, AllocError>
    requires there { IsSome (look (world_of path.now.tree) path.now.path.names) }
    requires directory { is_directory_seen (look (world_of path.now.tree) path.now.path.names) ≡ true }
    ensures { IfOk result (λ names. names ≡ names_in (world_of path.now.tree) path.now.path.names) }
{
    let table = path.table();
    let mut names = Vec::new(alloc);
    for name in table.child_names(table.key(path.resolved())) {
        names.push(name.copy()?)?;
    }
    Ok(Names::from_vec(names))
}

/// Answers the names in a directory.
#[inline(never)]
fn list_names(alloc: Global, path: &Lookup) -> Result<Answer, Refusal>
    requires there { IsSome (look (world_of path.now.tree) path.now.path.names) }
    requires directory { is_directory_seen (look (world_of path.now.tree) path.now.path.names) ≡ true }
    ensures answer { IfOk result (λ answer. answer
        ≡ Answer.Names (names_in (world_of path.now.tree) path.now.path.names)) }
    ensures memory { IfErr result (λ refusal. refusal ≡ Refusal.Enomem) }
{
    Ok(Answer::Names(list(alloc, path)?))
}

/// Does what a call that moves nothing says.
fn perform(alloc: Global, table: &mut Table, plan: &Plan) -> Result<Answer, Refusal>
    requires ready { IsReady table.old plan.now }
    requires moves { plan.now.moves ≡ Moves.Nothing }
    ensures world { OnOk result (world_of table.new ≡ after (world_of table.old) plan.now.counts plan.now.call) }
    ensures answer { IfOk result (λ answer. answer ≡ answer_of (world_of table.old) plan.now.counts plan.now.call) }
    ensures err { OnErr result (table.new.rows ≡ table.old.rows) }
    ensures memory { IfErr result (λ refusal. refusal ≡ Refusal.Enomem) }
{
    table.law();
    let number = plan.counts.next_number;
    let path = plan.path;
    match plan.call {
        FileCall::Create { mode, .. } => make(table, path, number, *mode, Kind::Regular),
        FileCall::Mkdir { mode, .. } => make(table, path, number, *mode, Kind::Directory),
        FileCall::Write { offset, bytes, .. } => {
            write(table, path, *offset as usize, bytes.as_slice())
        }
        FileCall::ReadFile { offset, count, .. } => {
            let path = Lookup::new(table, path);
            read(alloc, &path, *offset as usize, *count as usize)
        }
        FileCall::Truncate { len, .. } => truncate(table, path, *len as usize),
        FileCall::Chmod { mode, .. } => {
            table.set_mode(path, *mode);
            Ok(Answer::Done)
        }
        FileCall::Link { .. } => {
            table.add_name(path, plan.other_path())?;
            Ok(Answer::Done)
        }
        FileCall::Unlink { .. } => Ok(unlink(table, path)),
        FileCall::Rmdir { .. } => {
            table.drop_name(path);
            Ok(Answer::Done)
        }
        FileCall::Rename { .. } | FileCall::Rename2 { .. } => Ok(Answer::Done),
        FileCall::Stat { .. } => Ok(stat(&Lookup::new(table, path))),
        FileCall::List { .. } => list_names(alloc, &Lookup::new(table, path)),
    }
}

/// Does what the call says.
fn apply(alloc: Global, table: &mut Table, plan: &Plan) -> Result<Answer, Refusal>
    requires ready { IsReady table.old plan.now }
    ensures world { OnOk result (world_of table.new ≡ after (world_of table.old) plan.now.counts plan.now.call) }
    ensures answer { IfOk result (λ answer. answer ≡ answer_of (world_of table.old) plan.now.counts plan.now.call) }
    ensures err { OnErr result (table.new.rows ≡ table.old.rows) }
    ensures memory { IfErr result (λ refusal. refusal ≡ Refusal.Enomem) }
{
    table.law();
    match plan.moves {
        Moves::Nothing => perform(alloc, table, plan),
        Moves::Move => {
            table.replace_name(plan.path, plan.other_path())?;
            Ok(Answer::Done)
        }
        Moves::Exchange => {
            table.swap_names(plan.path, plan.other_path());
            Ok(Answer::Done)
        }
    }
}

/// Does what the call says, and answers as the call's variant of [`FileCall`] says.
///
/// `plan` is that of a [`Ready`](crate::Ready) call on this table, which has not changed since. If each file of the
/// table had a path, each still has one.
///
/// # Errors
/// `ENOMEM` alone, and then the table is as before.
pub fn carry_out(alloc: Global, table: &mut Table, plan: &Plan) -> Result<Answer, Refusal>
    requires ready { IsReady table.old plan.now }
    ensures world { OnOk result (world_of table.new ≡ after (world_of table.old) plan.now.counts plan.now.call) }
    ensures numbers { OnOk result (HasNumbersBelow (world_of table.new)
        (plan.now.counts.next_number + numbers_of plan.now.call)) }
    ensures answer { IfOk result (λ answer. answer ≡ answer_of (world_of table.old) plan.now.counts plan.now.call) }
    ensures err { OnErr result (table.new.rows ≡ table.old.rows) }
    ensures err_world { OnErr result (world_of table.new ≡ world_of table.old) }
    ensures err_numbers { OnErr result (HasNumbersBelow (world_of table.new) plan.now.counts.next_number) }
    ensures whole { IsWhole (world_of table.old) → IsWhole (world_of table.new) }
    ensures memory { IfErr result (λ refusal. refusal ≡ Refusal.Enomem) }
{
    table.law();
    apply(alloc, table, plan)
}
