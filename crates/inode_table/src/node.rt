//! Nodes, and the writes of one node.

ghost use Rattle.std.specs.Prelude.{◌≡◌, ◌<◌, ◌≤◌, ◌+◌, OnOk, OnErr, IfSome, IsSome, true, false, None, Some, ℕ};
ghost use Rattle.std.specs.Prelude.{length};
ghost use Rattle.slab.specs.Slab.{slab_len, ContainsKey, HasRoomFor, Updates};
ghost use Rattle.inode_table.specs.Kept.{rows_of, is_directory, is_live};
ghost use Rattle.inode_table.specs.Rows.{child, what, reserved, Label};
ghost use Rattle.inode_table.specs.Changes.{SetsChild, LosesLink, ChangesWhat, with_links, with_mode, with_bytes};
ghost use Rattle.inode_table.specs.Changes.{with_written, with_len};
ghost use Rattle.inode_table.specs.Room.{HasRoomAs};

use crate::content::Content;
use record_codec::Name;
use slab::Slab;
use std::alloc::AllocError;
use tree_paths::NameRef;

/// A file or a directory: its number, its mode bits, how many paths lead to it, and what it holds.
pub struct Node {
    pub number: u32,
    pub mode: u32,
    pub links: u64,
    pub content: Content,
}

impl Drop for Node {
    fn drop(self) {
        let Node {
            number: _,
            mode: _,
            links: _,
            content: _,
        } = self;
    }
}

/// Puts `key` under the name in the directory, in the place of the key that is there, if any.
pub(crate) fn set_child(
    nodes: &mut Slab<Node>,
    directory: usize,
    name: Name,
    key: usize,
) -> Result<(), AllocError>
    requires { is_directory (rows_of nodes.old) directory ≡ true }
    ensures ok { OnOk result (SetsChild (rows_of nodes.old) (rows_of nodes.new) directory name (Some key)) }
    ensures err { OnErr result (rows_of nodes.new ≡ rows_of nodes.old) }
    ensures vacant_key { nodes.new.vacant_key ≡ nodes.old.vacant_key }
    ensures capacity { nodes.new.capacity ≡ nodes.old.capacity }
    ensures len { slab_len nodes.new ≡ slab_len nodes.old }
{
    nodes[directory].content.set(name, key)
}

/// Puts `key` in the place of the key that is under the name in the directory.
pub(crate) fn point_child(nodes: &mut Slab<Node>, directory: usize, name: &Name, key: usize)
    requires directory { is_directory (rows_of nodes.old) directory ≡ true }
    requires there { IsSome (child (rows_of nodes.old) directory name.now) }
    ensures names { SetsChild (rows_of nodes.old) (rows_of nodes.new) directory name.now (Some key) }
    ensures vacant_key { nodes.new.vacant_key ≡ nodes.old.vacant_key }
    ensures capacity { nodes.new.capacity ≡ nodes.old.capacity }
    ensures len { slab_len nodes.new ≡ slab_len nodes.old }
{
    nodes[directory].content.point(name, key);
}

/// Takes the name out of the directory.
pub(crate) fn unset_child(nodes: &mut Slab<Node>, directory: usize, name: &Name)
    requires { is_directory (rows_of nodes.old) directory ≡ true }
    ensures names { SetsChild (rows_of nodes.old) (rows_of nodes.new) directory name.now None }
    ensures vacant_key { nodes.new.vacant_key ≡ nodes.old.vacant_key }
    ensures capacity { nodes.new.capacity ≡ nodes.old.capacity }
    ensures len { slab_len nodes.new ≡ slab_len nodes.old }
{
    nodes[directory].content.unset(name);
}

/// Takes one from the count of links of a node.
fn lose_link(nodes: &mut Slab<Node>, key: usize)
    requires positive { IfSome (what (rows_of nodes.old) key) (λ w. 1 ≤ w.links) }
    requires live { is_live (rows_of nodes.old) key ≡ true }
    ensures child { (k : ℕ) (l : Label) → child (rows_of nodes.new) k l ≡ child (rows_of nodes.old) k l }
    ensures what { LosesLink (rows_of nodes.old) (rows_of nodes.new) (Some key) }
    ensures vacant_key { nodes.new.vacant_key ≡ nodes.old.vacant_key }
    ensures capacity { nodes.new.capacity ≡ nodes.old.capacity }
    ensures len { slab_len nodes.new ≡ slab_len nodes.old }
{
    nodes[key].links -= 1;
}

/// Takes one from the count of links of the node, if there is one.
pub(crate) fn lose_any_link(nodes: &mut Slab<Node>, replaced: Option<usize>)
    requires positive { (k : ℕ) → replaced ≡ Some k → IfSome (what (rows_of nodes.old) k) (λ w. 1 ≤ w.links) }
    requires live { (k : ℕ) → replaced ≡ Some k → is_live (rows_of nodes.old) k ≡ true }
    ensures child { (k : ℕ) (l : Label) → child (rows_of nodes.new) k l ≡ child (rows_of nodes.old) k l }
    ensures what { LosesLink (rows_of nodes.old) (rows_of nodes.new) replaced }
    ensures vacant_key { nodes.new.vacant_key ≡ nodes.old.vacant_key }
    ensures capacity { nodes.new.capacity ≡ nodes.old.capacity }
    ensures len { slab_len nodes.new ≡ slab_len nodes.old }
{
    if let Some(key) = replaced {
        lose_link(nodes, key);
    }
}

/// Gives another count of links to a node.
pub(crate) fn set_links(nodes: &mut Slab<Node>, key: usize, links: u64)
    requires live { is_live (rows_of nodes.old) key ≡ true }
    ensures child { (k : ℕ) (l : Label) → child (rows_of nodes.new) k l ≡ child (rows_of nodes.old) k l }
    ensures what { ChangesWhat (rows_of nodes.old) (rows_of nodes.new) key (with_links links) }
    ensures room { HasRoomAs nodes.old nodes.new }
{
    nodes[key].links = links;
}

/// Gives another mode to a node.
pub(crate) fn set_mode(nodes: &mut Slab<Node>, key: usize, mode: u32)
    requires live { is_live (rows_of nodes.old) key ≡ true }
    ensures child { (k : ℕ) (l : Label) → child (rows_of nodes.new) k l ≡ child (rows_of nodes.old) k l }
    ensures what { ChangesWhat (rows_of nodes.old) (rows_of nodes.new) key (with_mode mode) }
    ensures room { HasRoomAs nodes.old nodes.new }
{
    nodes[key].mode = mode;
}

/// Gives other bytes to a file.
pub(crate) fn set_bytes(nodes: &mut Slab<Node>, key: usize, bytes: Vec<u8>)
    requires live { is_live (rows_of nodes.old) key ≡ true }
    requires regular { is_directory (rows_of nodes.old) key ≡ false }
    ensures child { (k : ℕ) (l : Label) → child (rows_of nodes.new) k l ≡ child (rows_of nodes.old) k l }
    ensures what { ChangesWhat (rows_of nodes.old) (rows_of nodes.new) key (with_bytes bytes.items) }
    ensures room { HasRoomAs nodes.old nodes.new }
{
    nodes[key].content = Content::Regular(bytes);
}

/// Reserves capacity for `len` bytes in a file.
pub(crate) fn reserve_bytes(
    nodes: &mut Slab<Node>,
    key: usize,
    len: usize,
) -> Result<(), AllocError>
    requires live { is_live (rows_of nodes.old) key ≡ true }
    requires regular { is_directory (rows_of nodes.old) key ≡ false }
    ensures child { (k : ℕ) (l : Label) → child (rows_of nodes.new) k l ≡ child (rows_of nodes.old) k l }
    ensures what { (k : ℕ) → what (rows_of nodes.new) k ≡ what (rows_of nodes.old) k }
    ensures reserved { OnOk result (len ≤ reserved (rows_of nodes.new) key) }
    ensures enough { len ≤ reserved (rows_of nodes.old) key → OnOk result (rows_of nodes.new ≡ rows_of nodes.old) }
    ensures short { OnErr result (reserved (rows_of nodes.old) key < len) }
    ensures err { OnErr result (rows_of nodes.new ≡ rows_of nodes.old) }
    ensures room { HasRoomAs nodes.old nodes.new }
{
    nodes[key].content.reserve(len)
}

/// Writes over the bytes of a file from `offset` on. The capacity is already reserved.
pub(crate) fn write_bytes(nodes: &mut Slab<Node>, key: usize, offset: usize, bytes: &[u8])
    requires live { is_live (rows_of nodes.old) key ≡ true }
    requires regular { is_directory (rows_of nodes.old) key ≡ false }
    requires reserved { 0 < length bytes.now → offset + length bytes.now ≤ reserved (rows_of nodes.old) key }
    ensures child { (k : ℕ) (l : Label) → child (rows_of nodes.new) k l ≡ child (rows_of nodes.old) k l }
    ensures what { ChangesWhat (rows_of nodes.old) (rows_of nodes.new) key (with_written offset bytes.now) }
    ensures room { HasRoomAs nodes.old nodes.new }
{
    nodes[key].content.write(offset, bytes);
}

/// Cuts a file, or fills it up with zero bytes. Capacity for `len` bytes is already reserved.
pub(crate) fn set_len(nodes: &mut Slab<Node>, key: usize, len: usize)
    requires live { is_live (rows_of nodes.old) key ≡ true }
    requires regular { is_directory (rows_of nodes.old) key ≡ false }
    requires reserved { len ≤ reserved (rows_of nodes.old) key }
    ensures child { (k : ℕ) (l : Label) → child (rows_of nodes.new) k l ≡ child (rows_of nodes.old) k l }
    ensures what { ChangesWhat (rows_of nodes.old) (rows_of nodes.new) key (with_len len) }
    ensures room { HasRoomAs nodes.old nodes.new }
{
    nodes[key].content.set_len(len);
}

/// Takes a node away.
pub(crate) fn remove_node(nodes: &mut Slab<Node>, key: usize)
    requires { ContainsKey nodes.old key }
    ensures updates { Updates nodes.old nodes.new key None }
    ensures len { slab_len nodes.new + 1 ≡ slab_len nodes.old }
    ensures capacity { nodes.new.capacity ≡ nodes.old.capacity }
    ensures room { HasRoomFor nodes.new 1 }
{
    nodes.remove(key);
}

/// Whether a directory is at a key.
pub(crate) fn is_directory(nodes: &Slab<Node>, key: usize) -> bool
    ensures { result ≡ is_directory (rows_of nodes.now) key }
{
    match nodes.get(key) {
        Some(
            Node {
                content: Content::Directory(_),
                ..
            },
        ) => true,
        _ => false,
    }
}

/// The key under the name in the directory, if there is one.
pub(crate) fn child(nodes: &Slab<Node>, directory: usize, name: &NameRef) -> Option<usize>
    ensures { result ≡ child (rows_of nodes.now) directory name.now }
{
    match nodes.get(directory)? {
        Node {
            content: Content::Directory(names),
            ..
        } => name.value_in(names),
        _ => None,
    }
}
