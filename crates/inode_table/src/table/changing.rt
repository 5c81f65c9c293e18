//! The changes of a table, by paths that are resolved on it.

ghost use Rattle.std.specs.Prelude.{◌≡◌, ◌≢◌, [], Option, Some, None, IfOk, IfErr, OnOk, OnErr, true, false, IsSome};
ghost use Rattle.std.specs.Prelude.{IfSome, ◌&&◌, ◌+◌, ◌<◌, ◌≤◌, ◌^◌};
ghost use Rattle.std.specs.Option.{IsSomeAnd, option_map_or};
ghost use Rattle.std.specs.FinMap as finmap;
ghost use Rattle.tree_paths.specs.Paths.{is_below};
ghost use Rattle.inode_table.specs.Refusals.{parent_of};
ghost use Rattle.inode_table.specs.Tree.{at, what_at};

use super::Table;
use crate::content::Content;
use crate::key::Key;
use crate::resolved::Resolved;
use crate::seen::Kind;
use tree_paths::Refusal;

impl Table {
    ghost use Rattle.inode_table.specs.World.{with_file, with_move, with_swap, with_path, without_path, without_lost};
    ghost use Rattle.inode_table.specs.World.{changed_at, look};
    ghost use Rattle.inode_table.specs.Refusals.{is_directory_seen};
    ghost use Rattle.inode_table.specs.TableWorld.{world_of};
    ghost use Rattle.inode_table.specs.Resolution.{IsResolved};

    /// Gives a free path to a new file without bytes, or to a new empty directory. `reserve_node` has reserved the
    /// capacity for it.
    pub fn add_node(
        &mut self,
        path: &Resolved,
        number: u32,
        mode: u32,
        kind: Kind,
    ) -> Result<(), Refusal>
        requires resolved { IsResolved self.old path.now }
        requires room { 1 ≤ self.old.room }
        requires named { path.now.names ≢ [] }
        requires directory { is_directory_seen (look (world_of self.old) (parent_of path.now.names)) ≡ true }
        requires free { look (world_of self.old) path.now.names ≡ None }
        requires unused { finmap.get (world_of self.old).files number ≡ None }
        ensures world { OnOk result (world_of self.new
            ≡ with_file (world_of self.old) path.now.names number (record { kind = kind; mode = mode; bytes = [] })) }
        ensures room { OnOk result (self.new.room + 1 ≡ self.old.room) }
        ensures err { OnErr result (self.new ≡ self.old) }
        ensures memory { IfErr result (λ refusal. refusal ≡ Refusal.Enomem) }
    {
        self.rows_law();
        let last = path.last_name_ref();
        let name = last.to_name()?;
        let directory = self.directory_at(path);
        let content = Content::empty(self.alloc, kind);
        self.add_node_at(directory, name, number, mode, content)?;
        Ok(())
    }

    /// Gives a free path more to a file that is there (a hard link).
    pub fn add_name(&mut self, old: &Resolved, new: &Resolved) -> Result<(), Refusal>
        requires resolved { IsResolved self.old old.now }
        requires other_resolved { IsResolved self.old new.now }
        requires source { IsSome (look (world_of self.old) old.now.names) }
        requires regular { is_directory_seen (look (world_of self.old) old.now.names) ≡ false }
        requires links { IfSome (look (world_of self.old) old.now.names) (λ seen. seen.links + 1 < 2 ^ 64) }
        requires named { new.now.names ≢ [] }
        requires directory { is_directory_seen (look (world_of self.old) (parent_of new.now.names)) ≡ true }
        requires free { look (world_of self.old) new.now.names ≡ None }
        ensures world { OnOk result (world_of self.new
            ≡ option_map_or (with_path (world_of self.old) new.now.names)
            (finmap.get (world_of self.old).paths old.now.names) (world_of self.old)) }
        ensures room { OnOk result (self.new.room ≡ self.old.room) }
        ensures err { OnErr result (self.new ≡ self.old) }
        ensures memory { IfErr result (λ refusal. refusal ≡ Refusal.Enomem) }
    {
        self.rows_law();
        let last = new.last_name_ref();
        let name = last.to_name()?;
        let key = self.key_at(old);
        let directory = self.directory_at(new);
        self.add_name_at(directory, name, key)?;
        Ok(())
    }

    /// Moves a file, or a directory with all its descendants, to another path. It replaces a file or an empty directory
    /// there, which is deleted if that was its last path.
    pub fn replace_name(&mut self, old: &Resolved, new: &Resolved) -> Result<(), Refusal>
        requires resolved { IsResolved self.old old.now }
        requires other_resolved { IsResolved self.old new.now }
        requires source { IsSome (look (world_of self.old) old.now.names) }
        requires named { old.now.names ≢ [] }
        requires other_named { new.now.names ≢ [] }
        requires other { old.now.names ≢ new.now.names }
        requires below { (is_directory_seen (look (world_of self.old) old.now.names)
            && is_below new.now.names old.now.names) ≡ false }
        requires directory { is_directory_seen (look (world_of self.old) (parent_of new.now.names)) ≡ true }
        requires empty { IfSome (look (world_of self.old) new.now.names) (λ seen. seen.has_names ≡ false) }
        ensures world { OnOk result (world_of self.new
            ≡ without_lost (with_move (world_of self.old) old.now.names new.now.names)
            (finmap.get (world_of self.old).paths new.now.names)) }
        ensures room { OnOk result (self.old.room ≤ self.new.room) }
        ensures err { OnErr result (self.new ≡ self.old) }
        ensures memory { IfErr result (λ refusal. refusal ≡ Refusal.Enomem) }
    {
        self.rows_law();
        if let Some(replaced) = self.put_name(old, new)? {
            self.drop_if_lost(replaced);
        }
        Ok(())
    }

    /// Takes out the path of a file or of an empty directory, which goes where that was its last path.
    pub fn drop_name(&mut self, path: &Resolved)
        requires resolved { IsResolved self.old path.now }
        requires named { path.now.names ≢ [] }
        requires there { IsSomeAnd (look (world_of self.old) path.now.names) (λ seen. seen.has_names ≡ false) }
        ensures world { world_of self.new ≡ without_lost (without_path (world_of self.old) path.now.names)
            (finmap.get (world_of self.old).paths path.now.names) }
        ensures room { self.old.room ≤ self.new.room }
    {
        self.rows_law();
        let key = self.take_name(path);
        self.drop_if_lost(key);
    }

    /// Exchanges two paths, each with all its descendants.
    pub fn swap_names(&mut self, one: &Resolved, other: &Resolved)
        requires resolved { IsResolved self.old one.now }
        requires other_resolved { IsResolved self.old other.now }
        requires there { IsSome (look (world_of self.old) one.now.names) }
        requires other_there { IsSome (look (world_of self.old) other.now.names) }
        requires other { one.now.names ≢ other.now.names }
        requires below { (is_directory_seen (look (world_of self.old) one.now.names)
            && is_below other.now.names one.now.names) ≡ false }
        requires above { (is_directory_seen (look (world_of self.old) other.now.names)
            && is_below one.now.names other.now.names) ≡ false }
        ensures world { world_of self.new ≡ with_swap (world_of self.old) one.now.names other.now.names }
        ensures room { self.new.room ≡ self.old.room }
    {
        self.rows_law();
        let last = one.last_name();
        let name = last.as_name();
        let other_last = other.last_name();
        let other_name = other_last.as_name();
        let key = self.key_at(one);
        let other_key = self.key_at(other);
        let directory = self.directory_at(one);
        let other_directory = self.directory_at(other);
        self.swap_names_at(directory, name, key, other_directory, other_name, other_key);
    }

    /// Gives another mode to what stands at a path.
    pub fn set_mode(&mut self, path: &Resolved, mode: u32)
        requires resolved { IsResolved self.old path.now }
        requires there { IsSome (look (world_of self.old) path.now.names) }
        ensures world { world_of self.new ≡ changed_at (world_of self.old) path.now.names
            (λ f. record f { mode = mode }) }
        ensures room { self.new.room ≡ self.old.room }
    {
        self.rows_law();
        let key = self.key_at(path);
        self.set_mode_at(key, mode);
    }
}

impl Table {
    ghost use Rattle.inode_table.specs.World.{World, with_move, without_path, without_lost};
    ghost use Rattle.inode_table.specs.Refusals.{is_directory_seen};
    ghost use Rattle.inode_table.specs.Stands.{Stands, look_in};
    ghost use Rattle.inode_table.specs.TableWorld.{number_of};
    ghost use Rattle.inode_table.specs.Resolution.{IsResolved};

    /// Moves a path to another one, which may be taken. Returns the key of what was there, which has one path less.
    fn put_name(&mut self, old: &Resolved, new: &Resolved) -> Result<Option<usize>, Refusal>
        requires resolved { IsResolved self.old old.now }
        requires other_resolved { IsResolved self.old new.now }
        requires source { IsSome (look_in self.old old.now.names) }
        requires named { old.now.names ≢ [] }
        requires other_named { new.now.names ≢ [] }
        requires other { old.now.names ≢ new.now.names }
        requires below { (is_directory_seen (look_in self.old old.now.names) && is_below new.now.names old.now.names)
            ≡ false }
        requires directory { is_directory_seen (look_in self.old (parent_of new.now.names)) ≡ true }
        requires empty { IfSome (look_in self.old new.now.names) (λ seen. seen.has_names ≡ false) }
        ensures world { OnOk result ((w : World) → Stands self.old w
            → Stands self.new (with_move w old.now.names new.now.names)) }
        ensures replaced { IfOk result (λ key. key ≡ at self.old new.now.names) }
        ensures there { IfOk result (λ key. IfSome key (λ replaced. IsSome (what_at self.new replaced))) }
        ensures number { IfOk result (λ key. (w : World) → Stands self.old w
            → finmap.get w.paths new.now.names ≡ number_of self.new key) }
        ensures room { OnOk result (self.new.room ≡ self.old.room) }
        ensures err { OnErr result (self.new ≡ self.old) }
        ensures memory { IfErr result (λ refusal. refusal ≡ Refusal.Enomem) }
    {
        self.rows_law();
        let last = old.last_name();
        let name = last.as_name();
        let other_last = new.last_name_ref();
        let other_name = other_last.to_name()?;
        let key = self.key_at(old);
        let replaced = self.key_if(new);
        let directory = self.directory_at(old);
        let other_directory = self.directory_at(new);
        self.replace_name_at(directory, name, key, other_directory, other_name, replaced)?;
        Ok(replaced)
    }

    /// Takes out a path, and returns its key.
    fn take_name(&mut self, path: &Resolved) -> usize
        requires resolved { IsResolved self.old path.now }
        requires named { path.now.names ≢ [] }
        requires there { IsSomeAnd (look_in self.old path.now.names) (λ seen. seen.has_names ≡ false) }
        ensures world { (w : World) → Stands self.old w → Stands self.new (without_path w path.now.names) }
        ensures key { at self.old path.now.names ≡ Some result }
        ensures there { IsSome (what_at self.new result) }
        ensures number { (w : World) → Stands self.old w
            → finmap.get w.paths path.now.names ≡ number_of self.new (Some result) }
        ensures room { self.new.room ≡ self.old.room }
    {
        self.rows_law();
        let last = path.last_name();
        let name = last.as_name();
        let key = self.key_at(path);
        let directory = self.directory_at(path);
        self.drop_name_at(directory, name, key);
        key
    }

    /// Takes a node away if it has lost its last name.
    fn drop_if_lost(&mut self, key: usize)
        requires there { IsSome (what_at self.old key) }
        ensures world { (w : World) → Stands self.old w
            → Stands self.new (without_lost w (number_of self.old (Some key))) }
        ensures room { self.old.room ≤ self.new.room }
    {
        self.rows_law();
        if self.node(Key::of(key)).links == 0 {
            self.drop_node_at(key);
        }
    }
}
