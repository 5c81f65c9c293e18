//! What a node holds: the bytes of a file, or the names in a directory.

ghost use Rattle.std.specs.Prelude.{◌≡◌, ◌<◌, ◌≤◌, ◌+◌, ◌-◌, ◌++◌, take, drop, replicate, None, Some, false, is_none};
ghost use Rattle.std.specs.Prelude.{is_some, length, unwrap_or, [], vec_capacity, OnOk, OnErr, IsSome};
ghost use Rattle.std.specs.Option.{option_map};
ghost use Rattle.std.specs.List.Sorted.{IsStrictlySortedBy};
ghost use Rattle.std.specs.Ordering.{nat_cmp, eq_by_cmp};
ghost use Rattle.std.specs.Cmp.Lexicographic.{slice_cmp};
ghost use Rattle.std.specs.Set.{is_member};
ghost use Rattle.std.specs.Map.Iter.{ShowsInOrder, deref};
ghost use Rattle.inode_table.specs.Bytes.{resized, written};
ghost use Rattle.inode_table.specs.Rows.{Label, bytes_in, key_in, reserved_in};
ghost use Rattle.inode_table.specs.Changes.{SetsKey};
ghost use Rattle.inode_table.specs.Kept.{body_of};
ghost use Rattle.inode_table.specs.TableWorld.{kind_of};
ghost use Rattle.inode_table.specs.Stands.{has_names_in};

use crate::seen::Kind;
use record_codec::Name;
use std::alloc::{AllocError, Global};
use std::collections::BTreeMap;
use std::collections::btree_map::Keys;

/// The bytes of a file, or the key of each name in a directory.
#[derive(Drop)]
pub enum Content {
    Regular(Vec<u8>),
    Directory(BTreeMap<Name, usize>),
}

impl Content {
    /// A file or a directory with nothing in it. It takes no memory.
    pub(crate) fn empty(alloc: Global, kind: Kind) -> Content
        ensures kind { kind_of (bytes_in (body_of result)) ≡ kind }
        ensures bytes { unwrap_or (bytes_in (body_of result)) [] ≡ [] }
        ensures names { (l : Label) → key_in (body_of result) l ≡ None }
    {
        match kind {
            Kind::Regular => Content::Regular(Vec::new(alloc)),
            Kind::Directory => Content::Directory(BTreeMap::new(alloc)),
        }
    }

    /// Whether this is a file or a directory.
    pub(crate) fn kind(&self) -> Kind
        ensures { result ≡ kind_of (bytes_in (body_of self.now)) }
    {
        match self {
            Content::Regular(_) => Kind::Regular,
            Content::Directory(_) => Kind::Directory,
        }
    }

    /// The bytes of a file. A directory has none.
    pub(crate) fn bytes(&self) -> &[u8]
        ensures { result.now ≡ unwrap_or (bytes_in (body_of self.now)) [] }
    {
        match self {
            Content::Regular(bytes) => bytes.as_slice(),
            Content::Directory(_) => &[],
        }
    }

    /// The names in a directory, in the order of their bytes.
    pub(crate) fn names(&self) -> Keys<'_, Name, usize>
        requires { kind_of (bytes_in (body_of self.now)) ≡ Kind.Directory }
        ensures ordered { IsStrictlySortedBy (slice_cmp nat_cmp) result }
        ensures members { (l : Label)
            → is_member (eq_by_cmp (slice_cmp nat_cmp)) result l ≡ is_some (key_in (body_of self.now) l) }
        ensures runs { ShowsInOrder (deref {X = Label}) }
    {
        match self {
            Content::Directory(names) => names.keys(),
            Content::Regular(_) => unreachable!(),
        }
    }

    /// Whether this is a directory that is not empty.
    pub(crate) fn has_names(&self) -> bool
        ensures { result ≡ has_names_in (body_of self.now) }
    {
        match self {
            Content::Regular(_) => false,
            Content::Directory(names) => !names.is_empty(),
        }
    }

    /// Puts `key` under the name, in the place of the key that is there, if any.
    pub(crate) fn set(&mut self, name: Name, key: usize) -> Result<(), AllocError>
        requires { bytes_in (body_of self.old) ≡ None }
        ensures ok { OnOk result (SetsKey (body_of self.old) (body_of self.new) name (Some key)) }
        ensures err { OnErr result (body_of self.new ≡ body_of self.old) }
    {
        match self {
            Content::Directory(names) => {
                names.insert(name, key)?;
                Ok(())
            }
            Content::Regular(_) => unreachable!(),
        }
    }

    /// Puts `key` in the place of the key that is under the name.
    pub(crate) fn point(&mut self, name: &Name, key: usize)
        requires directory { bytes_in (body_of self.old) ≡ None }
        requires there { IsSome (key_in (body_of self.old) name.now) }
        ensures { SetsKey (body_of self.old) (body_of self.new) name.now (Some key) }
    {
        match self {
            Content::Directory(names) => {
                if let Some(slot) = names.get_mut(name) {
                    *slot = key;
                }
            }
            Content::Regular(_) => unreachable!(),
        }
    }

    /// Takes the name out.
    pub(crate) fn unset(&mut self, name: &Name)
        requires { bytes_in (body_of self.old) ≡ None }
        ensures { SetsKey (body_of self.old) (body_of self.new) name.now None }
    {
        match self {
            Content::Directory(names) => {
                names.remove(name);
            }
            Content::Regular(_) => unreachable!(),
        }
    }

    /// Reserves capacity for a file of `len` bytes.
    pub(crate) fn reserve(&mut self, len: usize) -> Result<(), AllocError>
        requires { is_none (bytes_in (body_of self.old)) ≡ false }
        ensures bytes { bytes_in (body_of self.new) ≡ bytes_in (body_of self.old) }
        ensures names { (l : Label) → key_in (body_of self.new) l ≡ key_in (body_of self.old) l }
        ensures ok { OnOk result (len ≤ reserved_in (body_of self.new)) }
        ensures enough { len ≤ reserved_in (body_of self.old) → OnOk result (body_of self.new ≡ body_of self.old) }
        ensures short { OnErr result (reserved_in (body_of self.old) < len) }
        ensures err { OnErr result (body_of self.new ≡ body_of self.old) }
    {
        match self {
            Content::Regular(bytes) if len <= bytes.capacity() => Ok(()),
            Content::Regular(bytes) => bytes.reserve(len.saturating_sub(bytes.len())),
            Content::Directory(_) => unreachable!(),
        }
    }

    /// Writes over the bytes from `offset` on, and fills a gap with zero bytes. The capacity is already reserved.
    pub(crate) fn write(&mut self, offset: usize, new: &[u8])
        requires regular { is_none (bytes_in (body_of self.old)) ≡ false }
        requires reserved { 0 < length new.now → offset + length new.now ≤ reserved_in (body_of self.old) }
        ensures bytes { bytes_in (body_of self.new)
            ≡ option_map (written offset new.now) (bytes_in (body_of self.old)) }
        ensures names { (l : Label) → key_in (body_of self.new) l ≡ key_in (body_of self.old) l }
    {
        match self {
            Content::Regular(bytes) => write_at(bytes, offset, new),
            Content::Directory(_) => unreachable!(),
        }
    }

    /// Cuts the file, or fills it up with zero bytes. Capacity for `len` bytes is already reserved.
    pub(crate) fn set_len(&mut self, len: usize)
        requires regular { is_none (bytes_in (body_of self.old)) ≡ false }
        requires reserved { len ≤ reserved_in (body_of self.old) }
        ensures bytes { bytes_in (body_of self.new) ≡ option_map (resized len) (bytes_in (body_of self.old)) }
        ensures names { (l : Label) → key_in (body_of self.new) l ≡ key_in (body_of self.old) l }
    {
        match self {
            Content::Regular(bytes) => {
                let Ok(()) = bytes.resize(len, 0) else {
                    unreachable!()
                };
            }
            Content::Directory(_) => unreachable!(),
        }
    }
}

/// Writes over the bytes from `offset` on, and fills a gap with zero bytes. The capacity is already reserved.
fn write_at(bytes: &mut Vec<u8>, offset: usize, new: &[u8])
    requires { 0 < length new.now → offset + length new.now ≤ vec_capacity bytes.old }
    ensures { bytes.new.items ≡ written offset new.now bytes.old.items }
{
    if new.is_empty() {
        return;
    }
    fill_up(bytes, offset + new.len());
    overwrite(bytes.as_mut_slice(), offset, new);
}

/// Fills up with zero bytes to `end` bytes, for which capacity is already reserved. A longer file stays as it is.
fn fill_up(bytes: &mut Vec<u8>, end: usize)
    requires { end ≤ vec_capacity bytes.old }
    ensures { bytes.new.items ≡ bytes.old.items ++ replicate (end - length bytes.old.items) 0 }
{
    if end <= bytes.len() {
        return;
    }
    let Ok(()) = bytes.resize(end, 0) else {
        unreachable!()
    };
}

/// Writes over the bytes from `offset` on.
fn overwrite(bytes: &mut [u8], offset: usize, new: &[u8])
    requires { offset + length new.now ≤ length bytes.old }
    ensures { bytes.new ≡ take offset bytes.old ++ (new.now ++ drop (offset + length new.now) bytes.old) }
{
    bytes[offset..offset + new.len()].copy_from_slice(new);
}
