//! The bytes of a file, by its path as it is resolved on the table.
//!
//! A write in place is `reserve_content` and then `write`, which takes no memory: n bytes at the end of a file cost n,
//! amortised.

ghost use Rattle.std.specs.Prelude.{◌≡◌, ℕ, OnOk, OnErr, IfErr, false, IsSome, ◌+◌, ◌<◌, ◌≤◌, length};
ghost use Rattle.inode_table.specs.Bytes.{resized, written};

use super::Table;
use crate::resolved::Resolved;
use tree_paths::Refusal;

impl Table {
    ghost use Rattle.inode_table.specs.World.{changed_at, look};
    ghost use Rattle.inode_table.specs.Refusals.{is_directory_seen};
    ghost use Rattle.inode_table.specs.TableWorld.{number_of, world_of};
    ghost use Rattle.inode_table.specs.Tree.{reserved_at};
    ghost use Rattle.inode_table.specs.Resolution.{ResolvedPath, IsResolved};

    /// Gives other bytes to the file at a path. It takes no memory.
    pub fn set_content(&mut self, path: &Resolved, bytes: Vec<u8>)
        requires resolved { IsResolved self.old path.now }
        requires there { IsSome (look (world_of self.old) path.now.names) }
        requires regular { is_directory_seen (look (world_of self.old) path.now.names) ≡ false }
        ensures world { world_of self.new ≡ changed_at (world_of self.old) path.now.names
            (λ f. record f { bytes = bytes.items }) }
        ensures room { self.new.room ≡ self.old.room }
    {
        self.rows_law();
        let key = self.key_at(path);
        self.set_content_at(key, bytes);
    }

    /// Reserves capacity for `len` bytes in the file at a path, for [`Table::write`] and [`Table::set_len`].
    pub fn reserve_content(&mut self, path: &Resolved, len: usize) -> Result<(), Refusal>
        requires resolved { IsResolved self.old path.now }
        requires there { IsSome (look (world_of self.old) path.now.names) }
        requires regular { is_directory_seen (look (world_of self.old) path.now.names) ≡ false }
        ensures world { world_of self.new ≡ world_of self.old }
        ensures resolved { (p : ResolvedPath) → IsResolved self.old p → IsResolved self.new p }
        ensures keys { (key : ℕ) → number_of self.new (Some key) ≡ number_of self.old (Some key) }
        ensures reserved { OnOk result (len ≤ reserved_at self.new path.now.names) }
        ensures enough { len ≤ reserved_at self.old path.now.names → OnOk result (self.new ≡ self.old) }
        ensures short { OnErr result (reserved_at self.old path.now.names < len) }
        ensures room { self.new.room ≡ self.old.room }
        ensures err { OnErr result (self.new ≡ self.old) }
        ensures memory { IfErr result (λ refusal. refusal ≡ Refusal.Enomem) }
    {
        self.rows_law();
        let key = self.key_at(path);
        self.reserve_bytes_at(key, len)?;
        Ok(())
    }

    /// Writes over the bytes of the file at a path from `offset` on, and fills a gap with zero bytes. The capacity is
    /// already reserved.
    pub fn write(&mut self, path: &Resolved, offset: usize, bytes: &[u8])
        requires resolved { IsResolved self.old path.now }
        requires there { IsSome (look (world_of self.old) path.now.names) }
        requires regular { is_directory_seen (look (world_of self.old) path.now.names) ≡ false }
        requires reserved { 0 < length bytes.now → offset + length bytes.now ≤ reserved_at self.old path.now.names }
        ensures world { world_of self.new ≡ changed_at (world_of self.old) path.now.names
            (λ f. record f { bytes = written offset bytes.now f.bytes }) }
        ensures room { self.new.room ≡ self.old.room }
    {
        self.rows_law();
        let key = self.key_at(path);
        self.write_bytes_at(key, offset, bytes);
    }

    /// Cuts the file at a path to `len` bytes, or fills it up with zero bytes. The capacity is already reserved.
    pub fn set_len(&mut self, path: &Resolved, len: usize)
        requires resolved { IsResolved self.old path.now }
        requires there { IsSome (look (world_of self.old) path.now.names) }
        requires regular { is_directory_seen (look (world_of self.old) path.now.names) ≡ false }
        requires reserved { len ≤ reserved_at self.old path.now.names }
        ensures world { world_of self.new ≡ changed_at (world_of self.old) path.now.names
            (λ f. record f { bytes = resized len f.bytes }) }
        ensures room { self.new.room ≡ self.old.room }
    {
        self.rows_law();
        let key = self.key_at(path);
        self.set_len_at(key, len);
    }
}
