//! An open instance.

ghost use Rattle.std.specs.Prelude.{◌≡◌, IfOk, IfErr};
ghost use Rattle.tree_paths.specs.declared.refusal.Refusal.TheVariants.{Enomem};

use event_queue::Queue;
use tree_paths::Refusal;
use watch_table::Watches;

/// An open instance of inotify(7).
pub struct Instance {
    /// Whether its records go through a pipe.
    pub is_piped: bool,
    /// What it watches.
    pub watches: Watches,
    /// The records that wait to be read.
    pub queue: Queue,
}

impl Drop for Instance {
    fn drop(self) {
        let Instance {
            is_piped: _,
            watches: _,
            queue: _,
        } = self;
    }
}

impl Instance {
    /// Returns a copy.
    pub(crate) fn copy(&self) -> Result<Instance, Refusal>
        ensures instance { IfOk result (λ instance. instance ≡ self.now) }
        ensures err { IfErr result (λ refusal. refusal ≡ Enomem) }
    {
        Ok(Instance {
            is_piped: self.is_piped,
            watches: self.watches.copy()?,
            queue: self.queue.copy()?,
        })
    }
}
