//! The table of a new tree.

ghost use Rattle.std.specs.Prelude.{◌≡◌, ◌+◌, IfOk, IfErr};
ghost use Rattle.inode_table.specs.World.{IsWhole, opening_world, root_number};
ghost use Rattle.inode_table.specs.TableWorld.{world_of, HasNumbersBelow};
ghost use Rattle.tree_paths.specs.declared.refusal.Refusal.TheVariants.{Enomem};

use inode_table::Table;
use std::alloc::Global;
use tree_paths::Refusal;

/// The table of a new tree: the root alone, an empty directory with number 1 and mode 0755. The next number is 2.
/// `Err` means out of memory.
pub fn opening_table(alloc: Global) -> Result<Table, Refusal>
    ensures world { IfOk result (λ table. world_of table ≡ opening_world) }
    ensures numbers { IfOk result (λ table. HasNumbersBelow (world_of table) (root_number + 1)) }
    ensures whole { IfOk result (λ table. IsWhole (world_of table)) }
    ensures memory { IfErr result (λ refusal. refusal ≡ Enomem) }
{
    Table::new(alloc)
}
