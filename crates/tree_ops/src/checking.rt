//! Which calls are refused.
ghost use Rattle.std.specs.Prelude.{◌≡◌, Some, None, IfOk, IfErr, OnOk};
ghost use Rattle.std.specs.Result.{result_err};
ghost use Rattle.inode_table.specs.World.{look};
ghost use Rattle.inode_table.specs.TableWorld.{world_of, HasNumbersBelow};
ghost use Rattle.tree_paths.specs.Rows.{first_row};
ghost use Rattle.inode_table.specs.Refusals.{is_directory_seen, find, parent};
ghost use Rattle.tree_ops.specs.Refused.{name_rows, file_rows, make_rows, write_rows, read_rows, truncate_rows};
ghost use Rattle.tree_ops.specs.Refused.{chmod_rows, link_rows, unlink_rows, rmdir_rows, move_rows, source_rows};
ghost use Rattle.tree_ops.specs.Refused.{rename_rows, noreplace_rows, swap_rows, exchange_rows, rename2_rows};
ghost use Rattle.tree_ops.specs.Refused.{list_rows, cookies_row, refusal_seen, refused, has_names_seen, are_same_seen};
ghost use Rattle.tree_ops.specs.ReadyCall.{IsReady};
ghost use Rattle.tree_ops.specs.CallPaths.{other_path_of, path_of};
ghost use Rattle.tree_ops.specs.Moves.{moves_between, moves_for, moves_seen};

use crate::call::{Counts, FileCall, MAX_MODE, RENAME_EXCHANGE, RENAME_NOREPLACE};
use crate::lookup::Lookup;
use crate::moves::Moves;
use crate::paths::Paths;
use crate::plan::Ready;
use inode_table::{Kind, Seen};
use tree_paths::{Limits, Refusal};

fn is_directory(seen: Option<Seen>) -> bool
    ensures { result ≡ is_directory_seen seen }
{
    match seen {
        Some(seen) => matches!(seen.kind, Kind::Directory),
        None => false,
    }
}

fn has_names(seen: Option<Seen>) -> bool
    ensures { result ≡ has_names_seen seen }
{
    match seen {
        Some(seen) => seen.has_names,
        None => false,
    }
}

/// Whether the same file stands at both paths.
fn are_same(old: Option<Seen>, new: Option<Seen>) -> bool
    ensures { result ≡ are_same_seen old new }
{
    match (old, new) {
        (Some(old), Some(new)) => old.number == new.number,
        _ => false,
    }
}

/// Whether something stands at the path.
pub(crate) fn check_found(path: &Lookup) -> Result<(), Refusal>
    ensures { result_err result ≡ find (look (world_of path.now.tree)) path.now.path.names }
{
    match path.find() {
        Ok(_) => Ok(()),
        Err(refusal) => Err(refusal),
    }
}

/// Whether a name can stand in the directory of its path.
#[tactic(auto, unfolding(inode_table::specs::Refusals::parent))]
fn check_parent(path: &Lookup) -> Result<(), Refusal>
    ensures { result_err result ≡ parent (look (world_of path.now.tree)) path.now.path.names }
{
    match path.find_parent() {
        Err(refusal) => Err(refusal),
        Ok(seen) if is_directory(Some(seen)) => Ok(()),
        Ok(_) => Err(Refusal::Enotdir),
    }
}

/// Whether a new name can stand at the path.
fn check_name(path: &Lookup) -> Result<(), Refusal>
    ensures { result_err result ≡ first_row (name_rows (look (world_of path.now.tree)) path.now.path.names) }
{
    if path.is_root() {
        return Err(Refusal::Eexist);
    }
    check_parent(path)?;
    if path.seen().is_some() {
        return Err(Refusal::Eexist);
    }
    Ok(())
}

/// Whether a regular file stands at the path; `refusal` says that a directory does.
fn check_file(path: &Lookup, refusal: Refusal) -> Result<Seen, Refusal>
    ensures err { result_err result ≡ first_row (file_rows (look
        (world_of path.now.tree)) path.now.path.names refusal) }
    ensures seen { IfOk result (λ seen. look (world_of path.now.tree) path.now.path.names ≡ Some seen) }
{
    match path.find() {
        Err(refusal) => Err(refusal),
        Ok(seen) if is_directory(Some(seen)) => Err(refusal),
        Ok(seen) => Ok(seen),
    }
}

#[tactic(auto, unfolding(crate::specs::Refused::make_rows))]
fn check_make(path: &Lookup, mode: u32, counts: &Counts, limits: &Limits) -> Result<(), Refusal>
    ensures { result_err result ≡ first_row (make_rows (look
        (world_of path.now.tree)) limits.now counts.now path.now.path.names mode) }
{
    if mode > MAX_MODE {
        return Err(Refusal::Einval);
    }
    check_name(path)?;
    if counts.next_number > limits.numbers {
        return Err(Refusal::NumbersSpent);
    }
    Ok(())
}

#[tactic(auto, unfolding(crate::specs::Refused::read_rows))]
pub(crate) fn check_read(path: &Lookup) -> Result<(), Refusal>
    ensures { result_err result ≡ first_row (read_rows (look (world_of path.now.tree)) path.now.path.names) }
{
    check_file(path, Refusal::Eisdir)?;
    Ok(())
}

#[tactic(auto, unfolding(crate::specs::Refused::write_rows))]
fn check_write(path: &Lookup, offset: u64, count: usize, limits: &Limits) -> Result<(), Refusal>
    ensures { result_err result ≡ first_row (write_rows (look
        (world_of path.now.tree)) limits.now path.now.path.names offset count) }
{
    check_file(path, Refusal::Eisdir)?;
    if count > 0 && u128::from(offset) + count as u128 > u128::from(limits.file_bytes) {
        return Err(Refusal::Efbig);
    }
    Ok(())
}

#[tactic(auto, unfolding(crate::specs::Refused::truncate_rows))]
fn check_truncate(path: &Lookup, len: u64, limits: &Limits) -> Result<(), Refusal>
    ensures { result_err result ≡ first_row (truncate_rows (look
        (world_of path.now.tree)) limits.now path.now.path.names len) }
{
    check_file(path, Refusal::Eisdir)?;
    if len > u64::from(limits.file_bytes) {
        return Err(Refusal::Efbig);
    }
    Ok(())
}

#[tactic(auto, unfolding(crate::specs::Refused::chmod_rows))]
fn check_chmod(path: &Lookup, mode: u32) -> Result<(), Refusal>
    ensures { result_err result ≡ first_row (chmod_rows (look (world_of path.now.tree)) path.now.path.names mode) }
{
    if mode > MAX_MODE {
        return Err(Refusal::Einval);
    }
    check_found(path)
}

#[tactic(auto, unfolding(crate::specs::Refused::link_rows))]
fn check_link(old: &Lookup, new: &Lookup, limits: &Limits) -> Result<(), Refusal>
    requires { new.now.tree ≡ old.now.tree }
    ensures { result_err result ≡ first_row (link_rows (look
        (world_of old.now.tree)) limits.now old.now.path.names new.now.path.names) }
{
    let file = check_file(old, Refusal::Eperm)?;
    check_name(new)?;
    if file.links >= u64::from(limits.links) {
        return Err(Refusal::Emlink);
    }
    Ok(())
}

#[tactic(auto, unfolding(crate::specs::Refused::unlink_rows))]
fn check_unlink(path: &Lookup) -> Result<(), Refusal>
    ensures { result_err result ≡ first_row (unlink_rows (look (world_of path.now.tree)) path.now.path.names) }
{
    check_file(path, Refusal::Eperm)?;
    Ok(())
}

#[tactic(auto, unfolding(crate::specs::Refused::rmdir_rows))]
fn check_rmdir(path: &Lookup) -> Result<(), Refusal>
    ensures { result_err result ≡ first_row (rmdir_rows (look (world_of path.now.tree)) path.now.path.names) }
{
    if path.is_root() {
        return Err(Refusal::Ebusy);
    }
    match path.find() {
        Err(refusal) => Err(refusal),
        Ok(seen) if !is_directory(Some(seen)) => Err(Refusal::Enotdir),
        Ok(seen) if seen.has_names => Err(Refusal::Enotempty),
        Ok(_) => Ok(()),
    }
}

#[tactic(auto, unfolding(crate::specs::Refused::list_rows))]
pub(crate) fn check_list(path: &Lookup) -> Result<(), Refusal>
    ensures { result_err result ≡ first_row (list_rows (look (world_of path.now.tree)) path.now.path.names) }
{
    match path.find() {
        Err(refusal) => Err(refusal),
        Ok(seen) if is_directory(Some(seen)) => Ok(()),
        Ok(_) => Err(Refusal::Enotdir),
    }
}

/// Whether a cookie is left.
fn check_cookie(counts: &Counts, limits: &Limits) -> Result<(), Refusal>
    ensures { result_err result ≡ cookies_row limits.now counts.now }
{
    if counts.next_cookie == 0 || counts.next_cookie > limits.cookies {
        return Err(Refusal::CookiesSpent);
    }
    Ok(())
}

/// Whether what stands at the old path can get the new one, and what that is.
#[inline(always)]
fn check_source(paths: &Paths) -> Result<Seen, Refusal>
    ensures err { result_err result ≡ first_row (source_rows (look (world_of paths.now.tree)) (path_of paths.now.call)
        (other_path_of paths.now.call)) }
    ensures seen { IfOk result (λ seen. look (world_of paths.now.tree) (path_of paths.now.call) ≡ Some seen) }
{
    let old = paths.path();
    let new = paths.other_path();
    if old.is_root() || new.is_root() {
        return Err(Refusal::Ebusy);
    }
    let source = old.find()?;
    if is_directory(Some(source)) && new.as_path().is_below(old.as_path()) {
        return Err(Refusal::Einval);
    }
    check_parent(&new)?;
    Ok(source)
}

/// Whether one thing may replace the other.
#[tactic(auto, unfolding(crate::specs::Refused::move_rows))]
fn check_replaced(
    old: Option<Seen>,
    new: Option<Seen>,
    counts: &Counts,
    limits: &Limits,
) -> Result<(), Refusal>
    ensures { result_err result ≡ first_row (move_rows limits.now counts.now old new) }
{
    if new.is_some() && is_directory(old) && !is_directory(new) {
        return Err(Refusal::Enotdir);
    }
    if is_directory(new) && !is_directory(old) {
        return Err(Refusal::Eisdir);
    }
    if has_names(new) {
        return Err(Refusal::Enotempty);
    }
    check_cookie(counts, limits)
}

#[tactic(auto, unfolding(crate::specs::Refused::rename_rows))]
#[inline(always)]
fn check_rename(paths: &Paths, counts: &Counts, limits: &Limits) -> Result<Moves, Refusal>
    ensures err { result_err result ≡ first_row (rename_rows (look (world_of paths.now.tree)) limits.now counts.now
        (path_of paths.now.call) (other_path_of paths.now.call)) }
    ensures moves { IfOk result (λ moves. moves ≡ moves_between Moves.Move (look (world_of paths.now.tree))
        (path_of paths.now.call) (other_path_of paths.now.call)) }
{
    let source = Some(check_source(paths)?);
    let target = paths.other_path().seen();
    if are_same(source, target) {
        return Ok(Moves::Nothing);
    }
    check_replaced(source, target, counts, limits)?;
    Ok(Moves::Move)
}

#[tactic(auto, unfolding(crate::specs::Refused::noreplace_rows))]
fn check_noreplace(paths: &Paths, counts: &Counts, limits: &Limits) -> Result<Moves, Refusal>
    ensures err { result_err result ≡ first_row (noreplace_rows (look (world_of paths.now.tree)) limits.now counts.now
        (path_of paths.now.call) (other_path_of paths.now.call)) }
    ensures moves { IfOk result (λ moves. moves ≡ moves_between Moves.Move (look (world_of paths.now.tree))
        (path_of paths.now.call) (other_path_of paths.now.call)) }
{
    check_source(paths)?;
    if paths.other_path().seen().is_some() {
        return Err(Refusal::Eexist);
    }
    check_cookie(counts, limits)?;
    Ok(Moves::Move)
}

/// Whether what stands at two paths may be exchanged.
#[tactic(auto, unfolding(crate::specs::Refused::swap_rows))]
#[inline(always)]
fn check_swap(
    paths: &Paths,
    source: Option<Seen>,
    target: Option<Seen>,
    counts: &Counts,
    limits: &Limits,
) -> Result<(), Refusal>
    ensures { result_err result ≡ first_row (swap_rows limits.now counts.now (path_of paths.now.call)
        (other_path_of paths.now.call) source target) }
{
    let old = paths.path().as_path();
    let new = paths.other_path().as_path();
    if is_directory(source) && new.is_below(old) {
        return Err(Refusal::Einval);
    }
    if is_directory(target) && old.is_below(new) {
        return Err(Refusal::Einval);
    }
    let last = u64::from(counts.next_cookie) + 1;
    if counts.next_cookie == 0 || last > u64::from(limits.cookies) {
        return Err(Refusal::CookiesSpent);
    }
    Ok(())
}

#[tactic(auto, unfolding(crate::specs::Refused::exchange_rows))]
fn check_exchange(paths: &Paths, counts: &Counts, limits: &Limits) -> Result<Moves, Refusal>
    ensures err { result_err result ≡ first_row (exchange_rows (look (world_of paths.now.tree)) limits.now counts.now
        (path_of paths.now.call) (other_path_of paths.now.call)) }
    ensures moves { IfOk result (λ moves. moves ≡ moves_between Moves.Exchange (look (world_of paths.now.tree))
        (path_of paths.now.call) (other_path_of paths.now.call)) }
{
    let old = paths.path();
    let new = paths.other_path();
    if old.is_root() || new.is_root() {
        return Err(Refusal::Ebusy);
    }
    let source = Some(old.find()?);
    let target = Some(new.find()?);
    if are_same(source, target) {
        return Ok(Moves::Nothing);
    }
    check_swap(paths, source, target, counts, limits)?;
    Ok(Moves::Exchange)
}

#[tactic(auto, unfolding(crate::specs::Refused::rename2_rows))]
fn check_rename2(
    paths: &Paths,
    flags: u32,
    counts: &Counts,
    limits: &Limits,
) -> Result<Moves, Refusal>
    ensures err { result_err result ≡ first_row (rename2_rows (look (world_of paths.now.tree)) limits.now counts.now
        (path_of paths.now.call) (other_path_of paths.now.call) flags) }
    ensures moves { IfOk result (λ moves. moves ≡ moves_between (moves_for flags) (look (world_of paths.now.tree))
        (path_of paths.now.call) (other_path_of paths.now.call)) }
{
    match flags {
        0 => check_rename(paths, counts, limits),
        RENAME_NOREPLACE => check_noreplace(paths, counts, limits),
        RENAME_EXCHANGE => check_exchange(paths, counts, limits),
        _ => Err(Refusal::Einval),
    }
}

/// Why a call is refused, or what it moves.
#[tactic(auto, unfolding(crate::specs::Refused::refusal_seen))]
fn check_call(paths: &Paths, counts: &Counts, limits: &Limits) -> Result<Moves, Refusal>
    ensures err { result_err result ≡ refusal_seen (look
        (world_of paths.now.tree)) limits.now counts.now paths.now.call }
    ensures moves { IfOk result (λ moves. moves ≡ moves_seen (look (world_of paths.now.tree)) paths.now.call) }
{
    let path = paths.path();
    let checked = match paths.call() {
        FileCall::Create { mode, .. } | FileCall::Mkdir { mode, .. } => {
            check_make(&path, *mode, counts, limits)
        }
        FileCall::Write { offset, bytes, .. } => {
            check_write(&path, *offset, bytes.as_slice().len(), limits)
        }
        FileCall::ReadFile { .. } => check_read(&path),
        FileCall::Truncate { len, .. } => check_truncate(&path, *len, limits),
        FileCall::Chmod { mode, .. } => check_chmod(&path, *mode),
        FileCall::Link { .. } => check_link(&path, &paths.other_path(), limits),
        FileCall::Unlink { .. } => check_unlink(&path),
        FileCall::Rmdir { .. } => check_rmdir(&path),
        FileCall::Rename { .. } => return check_rename(paths, counts, limits),
        FileCall::Rename2 { flags, .. } => return check_rename2(paths, *flags, counts, limits),
        FileCall::Stat { .. } => check_found(&path),
        FileCall::List { .. } => check_list(&path),
    };
    checked.and(Ok(Moves::Nothing))
}

/// Finds the first row that refuses a call, or makes the call ready to be carried out. It does not allocate.
///
/// `counts` says what the call gets where it makes a file or moves one. No number of the table has reached
/// `next_number`.
#[inline(always)]
pub fn check<'p, 't, 'a>(
    paths: &'p Paths<'t, 'a>,
    counts: &Counts,
    limits: &Limits,
) -> Result<Ready<'p, 't, 'a>, Refusal>
    requires { HasNumbersBelow (world_of paths.now.tree) counts.now.next_number }
    ensures refused { IfErr result (λ refusal. refused
        (world_of paths.entry.now.tree) limits.now counts.now paths.entry.now.call ≡ Some refusal) }
    ensures accepted { OnOk result (refused
        (world_of paths.entry.now.tree) limits.now counts.now paths.entry.now.call ≡ None) }
    ensures ready { IfOk result (λ ready. IsReady ready.tree ready.plan) }
    ensures tree { IfOk result (λ ready. ready.tree ≡ paths.entry.now.tree) }
    ensures call { IfOk result (λ ready. ready.plan.call ≡ paths.entry.now.call) }
    ensures counts { IfOk result (λ ready. ready.plan.counts ≡ counts.now) }
{
    paths.law();
    match check_call(paths, counts, limits) {
        Err(refusal) => Err(refusal),
        Ok(moves) => Ok(Ready {
            paths,
            counts: *counts,
            moves,
        }),
    }
}
