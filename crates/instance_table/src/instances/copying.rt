//! Copies of the open instances.
ghost use Rattle.std.specs.Prelude.{◌≡◌, IfOk, IfErr};
ghost use Rattle.tree_paths.specs.declared.refusal.Refusal.TheVariants.{Enomem};

use crate::instances::Instances;
use crate::opened::Opened;
use std::alloc::Global;
use tree_paths::Refusal;

impl Instances {
    /// Returns a copy: what each instance watches, what waits in it, and who watches each file. The index of watchers
    /// is copied as it is.
    ///
    /// # Errors
    /// `ENOMEM`, where there is no memory for them.
    pub fn copy(&self) -> Result<Instances, Refusal>
        ensures instances { IfOk result (λ instances. instances ≡ self.now) }
        ensures err { IfErr result (λ refusal. refusal ≡ Enomem) }
    {
        Ok(Instances {
            alloc: self.alloc,
            opened: copy_rows(self.alloc, self.opened.as_slice())?,
            index: self.index.copy()?,
        })
    }
}

/// Returns copies of the open instances, with their numbers.
fn copy_rows(alloc: Global, rows: &[Opened]) -> Result<Vec<Opened>, Refusal>
    ensures rows { IfOk result (λ copies. copies.items ≡ rows.now) }
    ensures err { IfErr result (λ refusal. refusal ≡ Enomem) }
{
    let mut copies = Vec::with_capacity(alloc, rows.len())?;
    for row in rows {
        copies.push(Opened {
            id: row.id,
            instance: row.instance.copy()?,
        })?;
    }
    Ok(copies)
}
