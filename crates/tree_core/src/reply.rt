//! What calls answer, and the entries of a journal.

ghost use Rattle.std.specs.Prelude.{◌≡◌, ◌↔◌, true, IfOk, IfErr, IsTrue, OnErr};
ghost use Rattle.tree_core.specs.Calls.{has_list, takes_memory};

use crate::call::Call;
use record_codec::Bytes;
use tree_ops::Answer;
use tree_paths::Refusal;

/// What a call answers.
#[derive(Debug, Drop, PartialEq, Eq)]
pub enum Reply {
    /// The answer of an accepted call on files.
    File(Answer),
    /// The number of the new instance, from 1 on. No number is given twice.
    Instance(u32),
    /// The watch descriptor of the file, from 1 on. A second call to watch the file answers the same one; an instance
    /// gives it to no other file, and to no later watch.
    Wd(i32),
    /// The bytes of the records that were read.
    Records(Bytes),
    /// It was done: the answer of all calls that have no other one.
    Done,
    /// The call was refused, and changed nothing.
    Refused(Refusal),
}

/// One call of a journal, with who made it and what it answered.
#[derive(Debug, Drop, PartialEq, Eq)]
pub struct Entry {
    /// Who made the call.
    pub caller: u32,
    /// The call.
    pub call: Call,
    /// What it answered.
    pub reply: Reply,
}

/// What an applied call answered, and the sequence number of its entry.
#[derive(Debug, Drop, PartialEq, Eq)]
pub struct Receipt {
    /// The sequence number of the call's entry. The first is 1.
    pub place: u64,
    /// What the call answered.
    pub reply: Reply,
}

/// A copy of what the journal keeps of a call, for who made it.
#[derive(Debug, Drop, PartialEq, Eq)]
pub struct Kept {
    /// The sequence number of the call's entry. The first is 1.
    pub place: u64,
    /// The call.
    pub call: Call,
    /// What it answered.
    pub reply: Reply,
}

impl Reply {
    ghost use Rattle.tree_paths.specs.declared.refusal.Refusal.TheVariants.{Enomem};

    /// Returns a copy. It takes memory only if the reply holds bytes or names.
    ///
    /// # Errors
    /// `ENOMEM`, where there is no memory for it.
    #[inline(always)]
    pub fn copy(&self) -> Result<Reply, Refusal>
        ensures ok { IfOk result (λ reply. reply ≡ self.now) }
        ensures err { IfErr result (λ refusal. refusal ≡ Enomem) }
        ensures memory { OnErr result (takes_memory self.now ≡ true) }
    {
        Ok(match self {
            Reply::File(answer) => Reply::File(copy_answer(answer)?),
            Reply::Instance(id) => Reply::Instance(*id),
            Reply::Wd(wd) => Reply::Wd(*wd),
            Reply::Records(bytes) => Reply::Records(bytes.copy()?),
            Reply::Done => Reply::Done,
            Reply::Refused(refusal) => Reply::Refused(*refusal),
        })
    }

    /// Whether the other reply is the same one.
    pub fn is_same(&self, other: &Reply) -> bool
        ensures { IsTrue result ↔ (self.now ≡ other.now) }
    {
        self == other
    }
}

/// Returns a copy of an answer.
#[inline(always)]
fn copy_answer(answer: &Answer) -> Result<Answer, Refusal>
    ensures ok { IfOk result (λ copy. copy ≡ answer.now) }
    ensures err { IfErr result (λ refusal. refusal ≡ Refusal.Enomem) }
    ensures memory { OnErr result (has_list answer.now ≡ true) }
{
    match answer {
        Answer::Done => Ok(Answer::Done),
        Answer::Number(number) => Ok(Answer::Number(*number)),
        Answer::Count(count) => Ok(Answer::Count(*count)),
        Answer::Stat {
            number,
            kind,
            mode,
            links,
            size,
        } => Ok(Answer::Stat {
            number: *number,
            kind: *kind,
            mode: *mode,
            links: *links,
            size: *size,
        }),
        Answer::Bytes(_) | Answer::Names(_) => answer.copy(),
    }
}
