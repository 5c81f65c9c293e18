//! Paths of files by their numbers.
ghost use Rattle.std.specs.Prelude.{◌≡◌, ◌==◌, IfOk, IfErr, option_map};
ghost use Rattle.std.specs.List.{find};
ghost use Rattle.tree_core.specs.Journal.{now};
ghost use Rattle.tree_core.specs.Peeks.{first_path};

use super::State;
use tree_paths::{Path, Refusal};

impl State {
    /// The first path of the file with this number, in the order of names. `None` if no file has it, as none has a
    /// number above `u32::MAX`. It looks at each path of the tree: its time and memory are in proportion to their
    /// number.
    ///
    /// # Errors
    /// `ENOMEM`, where there is no memory for the paths.
    pub fn path_of(&self, number: u64) -> Result<Option<Path>, Refusal>
        ensures ok { IfOk result (λ path. path ≡ first_path (now self.now).world number) }
        ensures err { IfErr result (λ refusal. refusal ≡ Refusal.Enomem) }
    {
        let rows = self.file_system.table.flat()?;
        first_of(&rows, number)
    }
}

/// A copy of the path of the first row with this number.
fn first_of(rows: &[(Path, u32)], number: u64) -> Result<Option<Path>, Refusal>
    ensures ok { IfOk result (λ path. path ≡ option_map (λ e. e.0) (find (λ e. e.1 == number) rows.now)) }
    ensures err { IfErr result (λ refusal. refusal ≡ Refusal.Enomem) }
{
    for (path, owner) in rows {
        if u64::from(*owner) == number {
            return Ok(Some(path.copy()?));
        }
    }
    Ok(None)
}
