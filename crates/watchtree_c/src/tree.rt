//! What C holds of a tree: the address of what it opened.

ghost use Rattle.std.specs.Prelude.{◌≡◌, true, Option, Some, None, IfErr, IfOk, OnOk, is_some, option_map};
ghost use Rattle.std.specs.List.{last_or};
ghost use Rattle.tree_core.specs.declared.reply.Entry.{Entry};
ghost use Rattle.watchtree_c.specs.Owned.{held_owns, held_code, Content};
ghost use Rattle.watchtree_c.specs.Answers.{Answers, IsMade, IsReplied};
ghost use Rattle.watchtree_c.specs.Recorded.{Fills, IsLastReply, IsRecorded, IsTaken};

use crate::answers::{bytes_of, put, refused_number, reply_number};
use crate::opened::Opened;
use crate::parts::Parts;
use std::alloc::Global;
use std::marker::Model;
use std::mem;
use std::ptr::null_mut;
use tree_core::{Call, Reply, State};
use tree_paths::Refusal;

/// Who makes the calls, as the journal names it.
const CALLER: u32 = 1;

/// The address of what C opened, on the heap, which it owns, or none.
#[repr(C)]
#[derive(Drop)]
pub struct OpenTree {
    at: *mut u8,
    alloc: Global,
    pub ghost state: { Option Content } by { held_code },
}

impl Model for OpenTree {
    ghost also_owns = { λ h. held_owns h.alloc h.at h.state };
}

// C may hand it to another thread, where C orders that: the box that it owns may go there.
unsafe impl Send for OpenTree {}

impl OpenTree {
    fn nothing(alloc: Global) -> OpenTree
        ensures { result.state ≡ None }
    {
        OpenTree {
            at: null_mut(),
            alloc,
        }
    }

    fn of_parts(parts: Parts<Opened, Global>) -> OpenTree
        ensures { result.state ≡ Some parts.value }
    {
        let Parts { ptr, alloc } = parts;
        OpenTree {
            at: ptr as *mut u8,
            alloc,
        }
    }

    fn into_parts(self) -> Parts<Opened, Global>
        requires { is_some self.state ≡ true }
        ensures { self.state ≡ Some result.value }
    {
        let OpenTree { at, alloc } = self;
        Parts {
            ptr: at as *mut Opened,
            alloc,
        }
    }
}

/// A tree, as C holds it: `struct wt_tree { void *at; _Bool ready; }`. Zero bytes are a tree that is not open.
#[repr(C)]
#[derive(Drop)]
pub struct TreeHandle {
    pub held: OpenTree,
    pub ready: bool,
    ghost agrees: { ready ≡ is_some held.state },
}

impl TreeHandle {
    /// A tree that is not open.
    fn closed(alloc: Global) -> TreeHandle
        ensures { result.held.state ≡ None }
    {
        TreeHandle {
            held: OpenTree::nothing(alloc),
            ready: false,
        }
    }

    /// An open tree.
    pub(crate) fn of(opened: Box<Opened>) -> TreeHandle
        ensures { result.held.state ≡ Some opened.value }
    {
        TreeHandle {
            held: OpenTree::of_parts(Parts::of(opened)),
            ready: true,
        }
    }

    /// What is open, taken out: the tree is then not open.
    pub(crate) fn take(&mut self, alloc: Global) -> Option<Box<Opened>>
        ensures left { self.new.held.state ≡ None }
        ensures taken { self.old.held.state ≡ option_map (λ b. b.value) result }
    {
        let TreeHandle { held, ready } = mem::replace(self, TreeHandle::closed(alloc));
        if ready {
            Some(held.into_parts().into_box())
        } else {
            None
        }
    }

    /// Makes a call, and takes out what is open: the last entry of its journal is the call, with the only copy of the
    /// reply. The caller puts it back.
    ///
    /// # Errors
    /// The reply of a call that did not join the journal; what is open is then put back.
    /// - `EBADF`, where the tree is not open.
    /// - Why there is no call to make.
    /// - `JournalFull` and `ENOMEM`, as [`State::record`] answers them.
    pub(crate) fn record(
        &mut self,
        alloc: Global,
        call: Result<Call, Refusal>,
    ) -> Result<Box<Opened>, Refusal>
        ensures ok { IfOk result (λ opened. IsTaken self.old.held.state call opened.value) }
        ensures err { IfErr result (λ refusal.
            IsMade self.old.held.state call self.new.held.state (Reply.Refused refusal)) }
    {
        let Some(mut opened) = self.take(alloc) else {
            return Err(Refusal::Ebadf);
        };
        match record(&mut opened.state, call) {
            Ok(()) => Ok(opened),
            Err(refusal) => {
                *self = TreeHandle::of(opened);
                Err(refusal)
            }
        }
    }

    /// Makes a call, and answers the number of its reply.
    pub(crate) fn make(&mut self, alloc: Global, call: Result<Call, Refusal>) -> i64
        ensures { Answers (IsMade self.old.held.state call self.new.held.state) result }
    {
        match self.record(alloc, call) {
            Ok(opened) => {
                let number = reply_number(last_reply(&opened.state));
                *self = TreeHandle::of(opened);
                number
            }
            Err(refusal) => refused_number(refusal),
        }
    }

    /// Makes a call, puts the bytes of its reply at the front of `out`, as many as fit, and answers its number.
    pub(crate) fn read(&mut self, alloc: Global, call: Result<Call, Refusal>, out: &mut [u8]) -> i64
        ensures { Fills (IsMade self.old.held.state call self.new.held.state) result out.old out.new }
    {
        match self.record(alloc, call) {
            Ok(opened) => {
                let reply = last_reply(&opened.state);
                put(out, bytes_of(reply));
                let number = reply_number(reply);
                *self = TreeHandle::of(opened);
                number
            }
            Err(refusal) => refused_number(refusal),
        }
    }
}

fn record(state: &mut State, call: Result<Call, Refusal>) -> Result<(), Refusal>
    ensures ok { OnOk result (IsRecorded state.old call state.new) }
    ensures err { IfErr result (λ refusal. IsReplied state.old call (Reply.Refused refusal) state.new) }
{
    state.record(CALLER, call?)?;
    Ok(())
}

/// The reply of the journal's last entry.
pub(crate) fn last_reply(state: &State) -> &Reply
    requires { (entry : Entry) × (last_or None state.now.entries ≡ Some entry) }
    ensures { IsLastReply state.now result.now }
{
    let Some(entry) = state.last_entry() else {
        unreachable!()
    };
    &entry.reply
}
