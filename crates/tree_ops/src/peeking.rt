//! What calls that only read would answer, for callers that change nothing.

ghost use Rattle.std.specs.Prelude.{◌≡◌, ◌⊎◌, Ok, Err, IfOk, IfErr};
ghost use Rattle.tree_paths.specs.declared.limits.Limits.{Limits};
ghost use Rattle.inode_table.specs.TableWorld.{world_of};
ghost use Rattle.tree_ops.specs.declared.call.Counts.{Counts};
ghost use Rattle.tree_ops.specs.Answered.{answered};

use crate::answer::Answer;
use crate::call::FileCall;
use crate::carrying::{front, list, rest, stat};
use crate::checking::{check_found, check_list, check_read};
use crate::lookup::Lookup;
use inode_table::Table;
use std::alloc::Global;
use tree_paths::{Names, Path, Refusal};

/// What [`FileCall::Stat`] would answer. It takes no memory.
pub fn peek_stat(table: &Table, path: &Path) -> Result<Answer, Refusal>
    ensures { (limits : Limits) (counts : Counts)
        → result ≡ answered (world_of table.now) limits counts (FileCall.Stat path.now) }
{
    let path = table.resolve(path);
    let path = Lookup::new(table, &path);
    check_found(&path)?;
    Ok(stat(&path))
}

/// The names that [`FileCall::List`] would answer.
///
/// # Errors
/// Those of the call, and `ENOMEM`.
pub fn peek_names(alloc: Global, table: &Table, path: &Path) -> Result<Names, Refusal>
    ensures ok { (limits : Limits) (counts : Counts) → IfOk result (λ names.
        answered (world_of table.now) limits counts (FileCall.List path.now) ≡ Ok (Answer.Names names)) }
    ensures err { (limits : Limits) (counts : Counts) → IfErr result (λ refusal.
        (answered (world_of table.now) limits counts (FileCall.List path.now) ≡ Err refusal)
        ⊎ (refusal ≡ Refusal.Enomem)) }
{
    let path = table.resolve(path);
    let path = Lookup::new(table, &path);
    check_list(&path)?;
    Ok(list(alloc, &path)?)
}

/// The bytes that [`FileCall::ReadFile`] would answer, where they stand in the file. It takes no memory.
pub fn peek_bytes<'a>(
    table: &'a Table,
    path: &Path,
    offset: u64,
    count: u32,
) -> Result<&'a [u8], Refusal>
    ensures ok { (limits : Limits) (counts : Counts) → IfOk result (λ bytes.
        answered (world_of table.now) limits counts (FileCall.ReadFile path.now offset count)
        ≡ Ok (Answer.Bytes bytes.now)) }
    ensures err { (limits : Limits) (counts : Counts) → IfErr result (λ refusal.
        answered (world_of table.now) limits counts (FileCall.ReadFile path.now offset count) ≡ Err refusal) }
{
    let path = table.resolve(path);
    check_read(&Lookup::new(table, &path))?;
    let content = table.content(table.key(&path));
    Ok(front(rest(content, offset as usize), count as usize))
}
