//! The directories of the paths that were resolved last.
//!
//! Neighbouring calls are mostly in one directory, or in a few. A directory that is remembered is found by the text of
//! its path, without a walk from the root. The cache is direct-mapped: a text has one slot, by its hash. The number of
//! slots follows the number of directories of the table, and a small table has none.

ghost use Rattle.std.specs.Prelude.{◌≡◌, ◌⊎◌, ◌≤◌, ◌*◌, ℕ, List, Some, IfOk, IfSome, false, take, length};
ghost use Rattle.slab.specs.Slab.{slab_len};
ghost use Rattle.tree_paths.specs.Paths.{names_of};
ghost use Rattle.inode_table.specs.Rows.{Label};
ghost use Rattle.inode_table.specs.Kept.{rows_of, is_directory};
ghost use Rattle.inode_table.specs.Recent.{IsKnown};

use crate::node::{Node, is_directory};
use crate::seen::Kind;
use slab::Slab;
use std::alloc::{AllocError, Global};
use std::marker::Model;

/// The fewest bytes of a text that is remembered. A walk to a directory with a shorter path takes hardly more.
pub(crate) const TEXT_MIN: usize = 8;

/// The most bytes of a text that is remembered.
pub(crate) const TEXT_MAX: usize = 80;

/// How many nodes a table has at least before it has slots.
pub(crate) const NODES_MIN: usize = 32;

/// How many nodes a table has at least for each slot.
const NODES_OF_A_SLOT: usize = 4;

/// How many slots a table has at most.
const SLOTS_MAX: usize = 64;

/// How many slots a table has at most for each directory.
const SLOTS_OF_A_DIRECTORY: usize = 2;

/// What a word is multiplied by: 2^64 divided by the golden ratio. The top bits of the product depend on all bits of
/// the word (Knuth, "The Art of Computer Programming", 6.4, multiplicative hashing).
const MULTIPLIER: u64 = 0x9e37_79b9_7f4a_7c15;

/// A directory that was remembered, and the time when: its key, and the text of its path.
#[derive(Clone, Copy)]
struct Slot {
    time: u64,
    key: u32,
    len: u32,
    text: [u8; TEXT_MAX],
}

/// A slot of a time before the first.
const BLANK: Slot = Slot {
    time: 0,
    key: 0,
    len: 0,
    text: [0; TEXT_MAX],
};

impl Slot {
    /// Writes a directory into the slot.
    fn set(&mut self, time: u64, key: u32, text: &[u8])
        requires { length text.now ≤ TEXT_MAX }
        ensures time { self.new.time ≡ time }
        ensures key { self.new.key ≡ key }
        ensures len { self.new.len ≡ length text.now }
        ensures text { take (length text.now) self.new.text ≡ text.now }
    {
        self.time = time;
        self.key = key;
        self.len = text.len() as u32;
        self.text[..text.len()].copy_from_slice(text);
    }
}

/// Directories by the texts of their paths. Those of an earlier time are forgotten.
pub(crate) struct Recent {
    /// The time now, which begins with 1.
    time: u64,
    /// How many nodes there are before the first slots.
    from: usize,
    /// As many as a power of two, or none.
    slots: Vec<Slot>,
}

impl Drop for Recent {
    fn drop(self) {
        let Recent {
            time: _,
            from: _,
            slots: _,
        } = self;
    }
}

impl Model for Recent {
    ghost use Rattle.std.specs.Prelude.{List, Option};
    ghost use Rattle.inode_table.specs.Recent.{Known, IsRecent, known_of};

    ghost Value = { List (Option Known) };

    ghost view = { λ recent. known_of recent.time recent.slots.items };

    ghost invariant = { λ recent. IsRecent recent.time recent.slots.items };
}

impl Recent {
    /// Nothing is remembered, and there are no slots before there are `from` nodes. It takes no memory.
    pub(crate) fn new(alloc: Global, from: usize) -> Recent
        ensures { (p : List Label) (k : ℕ) → IsKnown result p k → ⊥ }
    {
        Recent {
            time: 1,
            from,
            slots: Vec::new(alloc),
        }
    }

    /// Nothing is remembered, in the slots of a table of these nodes, if these are more than the slots here.
    ///
    /// # Errors
    /// `AllocError`, if there is no memory for the slots.
    pub(crate) fn grown(
        &self,
        alloc: Global,
        nodes: &Slab<Node>,
    ) -> Result<Option<Recent>, AllocError>
        ensures { IfOk result (λ recent. IfSome recent (λ r. (p : List Label) (k : ℕ) → IsKnown r p k → ⊥)) }
    {
        if nodes.len() < self.from || self.slots.len() == SLOTS_MAX {
            return Ok(None);
        }
        let len = slots_for(nodes);
        if len <= self.slots.len() {
            return Ok(None);
        }
        Ok(Some(Recent {
            time: 1,
            from: self.from,
            slots: vec![in alloc; BLANK; len]?,
        }))
    }

    /// Whether there are no slots.
    #[inline(always)]
    pub(crate) fn is_empty(&self) -> bool {
        self.slots.is_empty()
    }

    /// The index of the slot of a text, by all its bytes. There must be slots.
    #[inline(always)]
    pub(crate) fn index_of(&self, text: &[u8]) -> usize {
        hash_of(text) & self.slots.len().wrapping_sub(1)
    }

    /// The key of the directory whose path has this text, if it is remembered in the slot.
    #[inline(always)]
    pub(crate) fn find(&self, at: usize, text: &[u8]) -> Option<usize>
        requires { length text.now ≤ TEXT_MAX }
        ensures { (k : ℕ) → result ≡ Some k → IsKnown self.now (names_of text.now) k }
    {
        if at >= self.slots.len() {
            return None;
        }
        let slot = &self.slots[at];
        if slot.time != self.time || slot.len as usize != text.len() {
            return None;
        }
        if &slot.text[..text.len()] != text {
            return None;
        }
        Some(slot.key as usize)
    }

    /// Remembers a directory in place of the one in the slot, if its key fits in 32 bits. It takes no memory.
    pub(crate) fn keep(&mut self, at: usize, text: &[u8], key: usize)
        requires { length text.now ≤ TEXT_MAX }
        ensures { (p : List Label) (k : ℕ) → IsKnown self.new p k
            → IsKnown self.old p k ⊎ ((p ≡ names_of text.now) × (k ≡ key)) }
    {
        let Ok(short_key) = u32::try_from(key) else {
            return;
        };
        if at < self.slots.len() {
            self.slots[at].set(self.time, short_key, text);
        }
    }

    /// Forgets all directories. It takes no memory.
    pub(crate) fn forget(&mut self)
        ensures { (p : List Label) (k : ℕ) → IsKnown self.new p k → ⊥ }
    {
        if self.time == u64::MAX {
            self.slots.clear();
        } else {
            self.time += 1;
        }
    }
}

/// How many slots a table of these nodes has: at most one for four of them, and two for each directory.
fn slots_for(nodes: &Slab<Node>) -> usize
    ensures { result * NODES_OF_A_SLOT ≤ slab_len nodes.now }
{
    let directories = count_directories(nodes, SLOTS_MAX / SLOTS_OF_A_DIRECTORY);
    let wanted = directories.saturating_mul(SLOTS_OF_A_DIRECTORY);
    slots_within(usize::min(nodes.len() / NODES_OF_A_SLOT, wanted))
}

/// The largest power of two that is at most `most`, from 4 to 64, or none.
fn slots_within(most: usize) -> usize
    ensures { result ≤ most }
{
    match most {
        0..=3 => 0,
        4..=7 => 4,
        8..=15 => 8,
        16..=31 => 16,
        32..=63 => 32,
        _ => SLOTS_MAX,
    }
}

/// How many of the nodes are directories, or `enough` if there are more.
fn count_directories(nodes: &Slab<Node>, enough: usize) -> usize {
    let mut count: usize = 0;
    for (_, node) in nodes.iter() {
        if count == enough {
            break;
        }
        if node.content.kind() == Kind::Directory {
            count = count.saturating_add(1);
        }
    }
    count
}

/// Six bits of a hash of all bytes of a text that has at least eight, and of its length: of each eight bytes from the
/// front, and of the last eight. The last byte of a word is its lowest, as names differ most at their ends.
#[inline(always)]
fn hash_of(text: &[u8]) -> usize {
    let mut hash = text.len() as u64;
    let mut rest = text;
    while let Some((word, behind)) = rest.split_first_chunk::<8>() {
        hash = mixed(hash, u64::from_be_bytes(*word));
        rest = behind;
    }
    if let Some(word) = text.last_chunk::<8>() {
        hash = mixed(hash, u64::from_be_bytes(*word));
    }
    (hash >> 58) as usize
}

/// A hash, and one word more.
#[inline(always)]
fn mixed(hash: u64, word: u64) -> u64 {
    (hash.rotate_left(25) ^ word).wrapping_mul(MULTIPLIER)
}

/// Forgets all directories if the node at a key is one.
pub(crate) fn forget_directory(recent: &mut Recent, nodes: &Slab<Node>, key: usize)
    ensures { (p : List Label) (k : ℕ) → IsKnown recent.new p k
        → IsKnown recent.old p k × (is_directory (rows_of nodes.now) key ≡ false) }
{
    if is_directory(nodes, key) {
        recent.forget();
    }
}

/// The same of a key, if there is one.
pub(crate) fn forget_any_directory(recent: &mut Recent, nodes: &Slab<Node>, key: Option<usize>)
    ensures { (p : List Label) (k : ℕ) → IsKnown recent.new p k
        → IsKnown recent.old p k × ((j : ℕ) → key ≡ Some j → is_directory (rows_of nodes.now) j ≡ false) }
{
    if let Some(key) = key {
        forget_directory(recent, nodes, key);
    }
}
