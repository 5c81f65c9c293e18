//! The calls of a tree.

ghost use Rattle.std.specs.Prelude.{◌≡◌, ◌↔◌, IfOk, IfErr, IsTrue};
ghost use Rattle.tree_core.specs.Calls.{is_plain};

use tree_ops::FileCall;
use tree_paths::{Path, Refusal};

/// A call of a tree.
#[derive(Debug, Drop, PartialEq, Eq)]
pub enum Call {
    /// A call on the files.
    File(FileCall),
    /// Makes an instance, as `inotify_init`.
    ///
    /// The first that holds: `EINVAL`, a limit of 0 or above that of queues; `EMFILE`, too many instances, or no number
    /// is left.
    Init {
        /// How many records may wait before events are lost, marks of lost events counted. One mark more may wait.
        limit: u32,
        /// Whether its records go through a pipe: they are pumped, and not read.
        piped: bool,
    },
    /// Watches a file, as `inotify_add_watch`. A file that is watched already keeps its watch descriptor, and the mask
    /// replaces the old one, or is joined with it under `IN_MASK_ADD`.
    ///
    /// The first that holds: `EBADF`, no such instance; `EINVAL`, the mask has `IN_MASK_CREATE` and `IN_MASK_ADD`, or
    /// no bit of an event; `ENOENT` or `ENOTDIR`, no such file; `ENOTDIR`, `IN_ONLYDIR` and no directory; `EEXIST`,
    /// `IN_MASK_CREATE` and the file is watched already; `ENOSPC`, too many watches, or no watch descriptor is left.
    AddWatch {
        /// The instance that is to watch.
        instance: u32,
        /// The file.
        path: Path,
        /// The bits of the events that are to be raised, and flags of the call. Other bits have no effect.
        mask: u32,
    },
    /// Ends a watch, as `inotify_rm_watch`: the instance receives `IN_IGNORED`.
    ///
    /// The first that holds: `EBADF`, no such instance; `EINVAL`, no watch has the descriptor.
    RmWatch {
        /// The instance that watches.
        instance: u32,
        /// The descriptor of the watch.
        wd: i32,
    },
    /// Reads the oldest records that fit, as `read` of an inotify file descriptor. It does not wait.
    ///
    /// The first that holds: `EBADF`, no such instance; `Piped`, its records go through a pipe; `EAGAIN`, nothing
    /// waits; `EINVAL`, the first record does not fit.
    Read {
        /// The instance that is read.
        instance: u32,
        /// How many bytes of records fit.
        bytes: u32,
    },
    /// Reads the oldest records that fit, for the pipe of an instance.
    ///
    /// As [`Call::Read`], with `NotPiped` where the instance has no pipe.
    Pump {
        /// The instance that is read.
        instance: u32,
        /// How many bytes of records fit.
        bytes: u32,
    },
    /// Closes an instance, as `close` of an inotify file descriptor: its watches are gone, and what waited is given up.
    ///
    /// `EBADF`, no such instance.
    Close {
        /// The instance that is closed.
        instance: u32,
    },
}

impl Call {
    ghost use Rattle.tree_paths.specs.declared.refusal.Refusal.TheVariants.{Enomem};

    /// Whether the call is neither a [`Call::Pump`] nor a [`Call::Init`] with a pipe.
    pub fn is_plain(&self) -> bool
        ensures { result ≡ is_plain self.now }
    {
        !matches!(self, Call::Pump { .. } | Call::Init { piped: true, .. })
    }

    /// Returns a copy.
    ///
    /// # Errors
    /// `ENOMEM`, where there is no memory for it.
    pub fn copy(&self) -> Result<Call, Refusal>
        ensures ok { IfOk result (λ call. call ≡ self.now) }
        ensures err { IfErr result (λ refusal. refusal ≡ Enomem) }
    {
        Ok(match self {
            Call::File(call) => Call::File(call.copy()?),
            Call::Init { limit, piped } => Call::Init {
                limit: *limit,
                piped: *piped,
            },
            Call::AddWatch {
                instance,
                path,
                mask,
            } => Call::AddWatch {
                instance: *instance,
                path: path.copy()?,
                mask: *mask,
            },
            Call::RmWatch { instance, wd } => Call::RmWatch {
                instance: *instance,
                wd: *wd,
            },
            Call::Read { instance, bytes } => Call::Read {
                instance: *instance,
                bytes: *bytes,
            },
            Call::Pump { instance, bytes } => Call::Pump {
                instance: *instance,
                bytes: *bytes,
            },
            Call::Close { instance } => Call::Close {
                instance: *instance,
            },
        })
    }

    /// Whether the other call is the same one.
    pub fn is_same(&self, other: &Call) -> bool
        ensures { IsTrue result ↔ (self.now ≡ other.now) }
    {
        self == other
    }
}
