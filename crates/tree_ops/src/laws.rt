//! Laws of the definitions. Each is a function that does nothing, and its contract is the law.

ghost use Rattle.std.specs.Prelude.{◌≡◌, ◌⊎◌, ℕ, None, IsSome};
ghost use Rattle.std.specs.FinMap as finmap;
ghost use Rattle.tree_paths.specs.declared.limits.Limits.{Limits};
ghost use Rattle.inode_table.specs.World.{World, IsWorld, IsWhole, opening_world};
ghost use Rattle.tree_ops.specs.declared.call.Counts.{Counts};
ghost use Rattle.tree_ops.specs.declared.call.FileCall.{FileCall};
ghost use Rattle.tree_ops.specs.Refused.{refused};
ghost use Rattle.tree_ops.specs.After.{after, numbers_of};

/// A law: from the root alone on, the files are a world after each call that no row refuses, where the next number is
/// no file's; and where each file had a path, each has one after it.
pub fn worlds_stay_worlds()
    ensures opened { IsWorld opening_world }
    ensures opened_whole { IsWhole opening_world }
    ensures world { (w : World) (limits : Limits) (counts : Counts) (call : FileCall) → IsWorld w
        → refused w limits counts call ≡ None → finmap.get w.files counts.next_number ≡ None
        → IsWorld (after w counts call) }
    ensures whole { (w : World) (limits : Limits) (counts : Counts) (call : FileCall) → IsWorld w → IsWhole w
        → refused w limits counts call ≡ None → finmap.get w.files counts.next_number ≡ None
        → IsWhole (after w counts call) }
{}

/// A law: the only file that a call brings has the next number, and the call uses it.
pub fn files_get_numbers()
    ensures { (w : World) (counts : Counts) (call : FileCall) (number : ℕ)
        → IsSome (finmap.get (after w counts call).files number)
        → IsSome (finmap.get w.files number) ⊎ ((number ≡ counts.next_number) × (numbers_of call ≡ 1)) }
{}
