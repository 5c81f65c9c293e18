//! What a tree shows where no call is made: the journal keeps nothing of it, and no event is raised.
ghost use Rattle.std.specs.Prelude.{◌≡◌, ◌⊎◌, ◌++◌, IfOk, IfErr, length, take, drop};
ghost use Rattle.instance_table.specs.Ready.{ready_in};
ghost use Rattle.tree_core.specs.Journal.{now};
ghost use Rattle.tree_core.specs.Peeks.{bytes_waiting_in};
ghost use Rattle.tree_core.specs.Tree.{reply_of};

use super::State;
use crate::call::Call;
use crate::reply::Reply;
use tree_ops::{Answer, FileCall, peek_bytes, peek_names, peek_stat};
use tree_paths::{Names, Path, Refusal};

impl State {
    /// How many bytes all records take that wait in an open instance. `None` for any other number.
    pub fn bytes_waiting(&self, instance: u32) -> Option<usize>
        ensures { result ≡ bytes_waiting_in (now self.now) instance }
    {
        let opened = self.file_system.instances.get(instance)?;
        Some(opened.queue.bytes())
    }

    /// Writes the numbers of the open instances that have a record waiting over the front of `out`, rising, as many as
    /// it holds. It answers how many there are. It takes no memory.
    pub fn ready(&self, out: &mut [u32]) -> usize
        ensures count { result ≡ length (ready_in (now self.now).instances) }
        ensures ids { out.new ≡ take (length out.old) (ready_in (now self.now).instances)
            ++ drop (length (ready_in (now self.now).instances)) out.old }
    {
        self.file_system.instances.ready(out)
    }

    /// What [`FileCall::Stat`] would be replied to. It takes no memory.
    pub fn peek_stat(&self, path: &Path) -> Result<Answer, Refusal>
        ensures ok { IfOk result (λ answer.
            reply_of (now self.now) (Call.File (FileCall.Stat path.now)) ≡ Reply.File answer) }
        ensures err { IfErr result (λ refusal.
            reply_of (now self.now) (Call.File (FileCall.Stat path.now)) ≡ Reply.Refused refusal) }
    {
        peek_stat(&self.file_system.table, path)
    }

    /// The names that [`FileCall::List`] would be replied to.
    ///
    /// # Errors
    /// Those of the call, and `ENOMEM`, where there is no memory for the names.
    pub fn peek_names(&self, path: &Path) -> Result<Names, Refusal>
        ensures ok { IfOk result (λ names.
            reply_of (now self.now) (Call.File (FileCall.List path.now)) ≡ Reply.File (Answer.Names names)) }
        ensures err { IfErr result (λ refusal.
            (reply_of (now self.now) (Call.File (FileCall.List path.now)) ≡ Reply.Refused refusal)
            ⊎ (refusal ≡ Refusal.Enomem)) }
    {
        peek_names(self.file_system.alloc, &self.file_system.table, path)
    }

    /// The bytes that [`FileCall::ReadFile`] would be replied to, where they stand in the file. It takes no memory.
    pub fn peek_bytes(&self, path: &Path, offset: u64, count: u32) -> Result<&[u8], Refusal>
        ensures ok { IfOk result (λ bytes. reply_of (now self.now) (Call.File (FileCall.ReadFile path.now offset count))
            ≡ Reply.File (Answer.Bytes bytes.now)) }
        ensures err { IfErr result (λ refusal.
            reply_of (now self.now) (Call.File (FileCall.ReadFile path.now offset count)) ≡ Reply.Refused refusal) }
    {
        peek_bytes(&self.file_system.table, path, offset, count)
    }
}
