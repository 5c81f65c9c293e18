//! The changes of a table by keys. Each states the new paths and nodes, and the new world.

ghost use Rattle.std.specs.Prelude.{◌≡◌, ◌≢◌, ◌+◌, ◌^◌, ◌<◌, ◌≤◌, ◌++◌, ◌∷◌, ℕ, List, [], Some, None, false, IfSome};
ghost use Rattle.std.specs.Prelude.{IfOk, OnOk, OnErr, IsSome, length};
ghost use Rattle.inode_table.specs.Rows.{Label, What};
ghost use Rattle.inode_table.specs.Tree.{at, what_at};

use super::Table;
use crate::content::Content;
use crate::node::{
    Node, lose_any_link, point_child, remove_node, reserve_bytes, set_bytes, set_child, set_len,
    set_links, set_mode, unset_child, write_bytes,
};
use crate::recent_directory::{forget_any_directory, forget_directory};
use record_codec::Name;
use std::alloc::AllocError;

impl Table {
    ghost use Rattle.inode_table.specs.World.{World, with_file, with_path, without_path, with_move, with_swap};
    ghost use Rattle.inode_table.specs.World.{with_content, without_file};
    ghost use Rattle.inode_table.specs.Stands.{Stands, look_in};
    ghost use Rattle.inode_table.specs.TableWorld.{file_of};
    ghost use Rattle.inode_table.specs.Changes.{AddsPath, DropsPath, MovesPath, SwapsPaths, Avoids, IsOpen, LosesLink};
    ghost use Rattle.inode_table.specs.Changes.{ChangesWhat, one_link_more, with_mode, with_bytes, with_written};
    ghost use Rattle.inode_table.specs.Changes.{with_len};
    ghost use Rattle.inode_table.specs.Rows.{child, key_in, bytes_in, reserved};
    ghost use Rattle.inode_table.specs.Kept.{body_of, is_directory};

    /// Gives a name to a new node, for which capacity is already reserved.
    pub(crate) fn add_node_at(
        &mut self,
        directory: usize,
        name: Name,
        number: u32,
        mode: u32,
        content: Content,
    ) -> Result<usize, AllocError>
        requires room { 1 ≤ self.old.room }
        requires directory { IsOpen self.old directory }
        requires free { child self.old.rows directory name ≡ None }
        requires unused { (k : ℕ) (w : What) → what_at self.old k ≡ Some w → w.number ≢ number }
        requires empty { (l : Label) → key_in (body_of content) l ≡ None }

        ensures path { IfOk result (λ key. (p : List Label) → at self.old p ≡ Some directory
            → AddsPath (at self.old) (at self.new) (p ++ name ∷ []) key) }
        ensures vacant { IfOk result (λ key. what_at self.old key ≡ None) }
        ensures node { IfOk result (λ key. what_at self.new key
            ≡ Some (record { number = number; mode = mode; links = 1; bytes = bytes_in (body_of content) })) }
        ensures others { IfOk result (λ key. (k : ℕ) → k ≢ key → what_at self.new k ≡ what_at self.old k) }
        ensures world { OnOk result ((w : World) (p : List Label)
            → Stands self.old w → at self.old p ≡ Some directory
            → Stands self.new (with_file w (p ++ name ∷ []) number
            (file_of (record { number = number; mode = mode; links = 1; bytes = bytes_in (body_of content) })))) }
        ensures room { OnOk result (self.new.room + 1 ≡ self.old.room) }
        ensures err { OnErr result (self.new ≡ self.old) }
    {
        let key = self.nodes.vacant_key();
        set_child(&mut self.nodes, directory, name, key)?;
        self.nodes.insert_reserved(Node {
            number,
            mode,
            links: 1,
            content,
        });
        Ok(key)
    }

    /// Takes out the name of a file or of an empty directory, by the key that is under it.
    pub(crate) fn drop_name_at(&mut self, directory: usize, name: &Name, key: usize)
        requires directory { IsOpen self.old directory }
        requires there { child self.old.rows directory name.now ≡ Some key }
        requires empty { (l : Label) → child self.old.rows key l ≡ None }
        ensures path { (p : List Label) → at self.old p ≡ Some directory
            → DropsPath (at self.old) (at self.new) (p ++ name.now ∷ []) }
        ensures links { LosesLink self.old.rows self.new.rows (Some key) }
        ensures world { (w : World) (p : List Label) → Stands self.old w → at self.old p ≡ Some directory
            → Stands self.new (without_path w (p ++ name.now ∷ [])) }
        ensures room { self.new.room ≡ self.old.room }
    {
        forget_directory(&mut self.recent, &self.nodes, key);
        unset_child(&mut self.nodes, directory, name);
        lose_any_link(&mut self.nodes, Some(key));
    }

    /// Takes away a node to which no path leads.
    pub(crate) fn drop_node_at(&mut self, key: usize)
        requires there { IsSome (what_at self.old key) }
        requires lost { (p : List Label) → at self.old p ≢ Some key }
        ensures paths { (p : List Label) → at self.new p ≡ at self.old p }
        ensures gone { what_at self.new key ≡ None }
        ensures others { (k : ℕ) → k ≢ key → what_at self.new k ≡ what_at self.old k }
        ensures world { (w : World) (v : What) → Stands self.old w → what_at self.old key ≡ Some v
            → Stands self.new (without_file w v.number) }
        ensures room { self.new.room ≡ self.old.room + 1 }
    {
        remove_node(&mut self.nodes, key);
    }

    /// Moves a name, with all its descendants, to another one, which may be taken: `key` is under the name, and
    /// `replaced` under the other one.
    pub(crate) fn replace_name_at(
        &mut self,
        directory: usize,
        name: &Name,
        key: usize,
        other_directory: usize,
        other_name: Name,
        replaced: Option<usize>,
    ) -> Result<(), AllocError>
        requires directory { IsOpen self.old directory }
        requires other_directory { IsOpen self.old other_directory }
        requires there { child self.old.rows directory name.now ≡ Some key }
        requires replaced { child self.old.rows other_directory other_name ≡ replaced }
        requires apart { (p q : List Label) → at self.old p ≡ Some directory → at self.old q ≡ Some other_directory
            → Avoids (p ++ name.now ∷ []) (q ++ other_name ∷ []) }
        requires empty { (y : ℕ) (l : Label) → child self.old.rows other_directory other_name ≡ Some y
            → child self.old.rows y l ≡ None }
        ensures paths { OnOk result ((p q : List Label)
            → at self.old p ≡ Some directory → at self.old q ≡ Some other_directory
            → MovesPath (at self.old) (at self.new) (p ++ name.now ∷ []) (q ++ other_name ∷ [])) }
        ensures links { OnOk result (LosesLink self.old.rows self.new.rows replaced) }
        ensures world { OnOk result ((w : World) (p q : List Label)
            → Stands self.old w → at self.old p ≡ Some directory → at self.old q ≡ Some other_directory
            → Stands self.new (with_move w (p ++ name.now ∷ []) (q ++ other_name ∷ []))) }
        ensures room { OnOk result (self.new.room ≡ self.old.room) }
        ensures err { OnErr result (self.new ≡ self.old) }
    {
        set_child(&mut self.nodes, other_directory, other_name, key)?;
        forget_directory(&mut self.recent, &self.nodes, key);
        forget_any_directory(&mut self.recent, &self.nodes, replaced);
        unset_child(&mut self.nodes, directory, name);
        lose_any_link(&mut self.nodes, replaced);
        Ok(())
    }

    /// Exchanges two names, each with all its descendants, by the keys that are under them.
    pub(crate) fn swap_names_at(
        &mut self,
        directory: usize,
        name: &Name,
        key: usize,
        other_directory: usize,
        other_name: &Name,
        other_key: usize,
    )
        requires directory { IsOpen self.old directory }
        requires other_directory { IsOpen self.old other_directory }
        requires there { child self.old.rows directory name.now ≡ Some key }
        requires other_there { child self.old.rows other_directory other_name.now ≡ Some other_key }
        requires below { (p q : List Label) → at self.old p ≡ Some directory → at self.old q ≡ Some other_directory
            → Avoids (p ++ name.now ∷ []) (q ++ other_name.now ∷ []) }
        requires above { (p q : List Label) → at self.old p ≡ Some directory → at self.old q ≡ Some other_directory
            → Avoids (q ++ other_name.now ∷ []) (p ++ name.now ∷ []) }
        ensures paths { (p q : List Label) → at self.old p ≡ Some directory → at self.old q ≡ Some other_directory
            → SwapsPaths (at self.old) (at self.new) (p ++ name.now ∷ []) (q ++ other_name.now ∷ []) }
        ensures nodes { (k : ℕ) → what_at self.new k ≡ what_at self.old k }
        ensures world { (w : World) (p q : List Label)
            → Stands self.old w → at self.old p ≡ Some directory → at self.old q ≡ Some other_directory
            → Stands self.new (with_swap w (p ++ name.now ∷ []) (q ++ other_name.now ∷ [])) }
        ensures room { self.new.room ≡ self.old.room }
    {
        forget_directory(&mut self.recent, &self.nodes, key);
        forget_directory(&mut self.recent, &self.nodes, other_key);
        point_child(&mut self.nodes, directory, name, other_key);
        point_child(&mut self.nodes, other_directory, other_name, key);
    }

    /// Gives one more name to a regular file.
    pub(crate) fn add_name_at(
        &mut self,
        directory: usize,
        name: Name,
        key: usize,
    ) -> Result<(), AllocError>
        requires directory { IsOpen self.old directory }
        requires free { child self.old.rows directory name ≡ None }
        requires regular { is_directory self.old.rows key ≡ false }
        requires links { IfSome (what_at self.old key) (λ w. w.links + 1 < 2 ^ 64) }
        requires there { IsSome (what_at self.old key) }
        ensures path { OnOk result ((p : List Label) → at self.old p ≡ Some directory
            → AddsPath (at self.old) (at self.new) (p ++ name ∷ []) key) }
        ensures links { OnOk result (ChangesWhat self.old.rows self.new.rows key one_link_more) }
        ensures world { OnOk result ((w : World) (p : List Label) (v : What)
            → Stands self.old w → at self.old p ≡ Some directory → what_at self.old key ≡ Some v
            → Stands self.new (with_path w (p ++ name ∷ []) v.number)) }
        ensures room { OnOk result (self.new.room ≡ self.old.room) }
        ensures err { OnErr result (self.new ≡ self.old) }
    {
        let links = match self.nodes.get(key) {
            Some(node) => node.links,
            None => unreachable!(),
        };
        set_child(&mut self.nodes, directory, name, key)?;
        set_links(&mut self.nodes, key, links + 1);
        Ok(())
    }

    /// Gives another mode to a node.
    pub(crate) fn set_mode_at(&mut self, key: usize, mode: u32)
        requires there { IsSome (what_at self.old key) }
        ensures paths { (p : List Label) → at self.new p ≡ at self.old p }
        ensures node { ChangesWhat self.old.rows self.new.rows key (with_mode mode) }
        ensures world { (w : World) (v : What) → Stands self.old w → what_at self.old key ≡ Some v
            → Stands self.new (with_content w v.number (file_of (with_mode mode v))) }
        ensures room { self.new.room ≡ self.old.room }
    {
        set_mode(&mut self.nodes, key, mode);
    }

    /// Gives other bytes to a file.
    pub(crate) fn set_content_at(&mut self, key: usize, bytes: Vec<u8>)
        requires there { IsSome (what_at self.old key) }
        requires regular { is_directory self.old.rows key ≡ false }
        ensures paths { (p : List Label) → at self.new p ≡ at self.old p }
        ensures node { ChangesWhat self.old.rows self.new.rows key (with_bytes bytes.items) }
        ensures world { (w : World) (v : What) → Stands self.old w → what_at self.old key ≡ Some v
            → Stands self.new (with_content w v.number (file_of (with_bytes bytes.items v))) }
        ensures room { self.new.room ≡ self.old.room }
    {
        set_bytes(&mut self.nodes, key, bytes);
    }

    /// Reserves capacity for `len` bytes in a file.
    pub(crate) fn reserve_bytes_at(&mut self, key: usize, len: usize) -> Result<(), AllocError>
        requires there { IsSome (what_at self.old key) }
        requires regular { is_directory self.old.rows key ≡ false }
        ensures paths { (p : List Label) → at self.new p ≡ at self.old p }
        ensures nodes { (k : ℕ) → what_at self.new k ≡ what_at self.old k }
        ensures looks { (p : List Label) → look_in self.new p ≡ look_in self.old p }
        ensures world { (w : World) → Stands self.old w → Stands self.new w }
        ensures reserved { OnOk result (len ≤ reserved self.new.rows key) }
        ensures enough { len ≤ reserved self.old.rows key → OnOk result (self.new ≡ self.old) }
        ensures short { OnErr result (reserved self.old.rows key < len) }
        ensures room { self.new.room ≡ self.old.room }
        ensures err { OnErr result (self.new ≡ self.old) }
    {
        reserve_bytes(&mut self.nodes, key, len)
    }

    /// Writes over the bytes of a file from `offset` on. The capacity is already reserved.
    pub(crate) fn write_bytes_at(&mut self, key: usize, offset: usize, bytes: &[u8])
        requires there { IsSome (what_at self.old key) }
        requires regular { is_directory self.old.rows key ≡ false }
        requires reserved { 0 < length bytes.now → offset + length bytes.now ≤ reserved self.old.rows key }
        ensures paths { (p : List Label) → at self.new p ≡ at self.old p }
        ensures node { ChangesWhat self.old.rows self.new.rows key (with_written offset bytes.now) }
        ensures world { (w : World) (v : What) → Stands self.old w → what_at self.old key ≡ Some v
            → Stands self.new (with_content w v.number (file_of (with_written offset bytes.now v))) }
        ensures room { self.new.room ≡ self.old.room }
    {
        write_bytes(&mut self.nodes, key, offset, bytes);
    }

    /// Cuts a file, or fills it up with zero bytes. Capacity for `len` bytes is already reserved.
    pub(crate) fn set_len_at(&mut self, key: usize, len: usize)
        requires there { IsSome (what_at self.old key) }
        requires regular { is_directory self.old.rows key ≡ false }
        requires reserved { len ≤ reserved self.old.rows key }
        ensures paths { (p : List Label) → at self.new p ≡ at self.old p }
        ensures node { ChangesWhat self.old.rows self.new.rows key (with_len len) }
        ensures world { (w : World) (v : What) → Stands self.old w → what_at self.old key ≡ Some v
            → Stands self.new (with_content w v.number (file_of (with_len len v))) }
        ensures room { self.new.room ≡ self.old.room }
    {
        set_len(&mut self.nodes, key, len);
    }
}
