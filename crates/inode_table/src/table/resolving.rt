//! The resolution of a path: one walk for all that a call wants to know of it (POSIX.1-2017, 4.13).

ghost use Rattle.std.specs.Prelude.{◌≡◌, ◌∷◌, ◌++◌, ◌≤◌, List, [], Some, None, IsSome, IfSome, IfOk, IfErr};
ghost use Rattle.std.specs.Prelude.{length};
ghost use Rattle.std.specs.FinMap as finmap;
ghost use Rattle.inode_table.specs.Rows.{Label};
ghost use Rattle.inode_table.specs.Tree.{at, what_at};
ghost use Rattle.inode_table.specs.Found.{found_of};
ghost use Rattle.tree_paths.specs.Paths.{IsParentText, names_of};

use super::{ROOT, Table, missing_at};
use crate::found::Found;
use crate::key::Key;
use crate::node::{child, is_directory};
use crate::recent_directory::{TEXT_MAX, TEXT_MIN};
use crate::resolved::Resolved;
use crate::seen::Seen;
use tree_paths::{NameRef, Path, PathNames, Refusal};

impl Table {
    ghost use Rattle.inode_table.specs.World.{look};
    ghost use Rattle.inode_table.specs.Refusals.{find, parent_of};
    ghost use Rattle.inode_table.specs.Resolution.{IsFound, IsResolved};
    ghost use Rattle.inode_table.specs.Stands.{look_in};
    ghost use Rattle.inode_table.specs.TableWorld.{number_of, world_of};

    /// Finds what stands at a path and in the directory of its last name, by one walk.
    #[inline(always)]
    pub fn resolve<'a>(&self, path: &'a Path) -> Resolved<'a>
        ensures names { result.names ≡ path.now }
        ensures resolved { IsResolved self.now result }
    {
        self.rows_law();
        let mut names = path.names();
        let Some(first) = names.next_name_ref() else {
            return Resolved {
                path,
                directory: Found::at(Key::of(ROOT)),
                here: Found::at(Key::of(ROOT)),
            };
        };
        let (directory, here) = self.walk(first, names);
        Resolved {
            path,
            directory,
            here,
        }
    }

    /// The keys of the directory of the last name and of what stands under that, or why there are none.
    #[inline(always)]
    fn walk<'a>(&self, first: NameRef<'a>, behind: PathNames<'a>) -> (Found, Found)
        ensures directory { IsFound self.now (parent_of (first.entry ∷ behind.entry)) (found_of result.0) }
        ensures here { IsFound self.now (first.entry ∷ behind.entry) (found_of result.1) }
    {
        self.rows_law();
        let mut name = first;
        let mut names = behind;
        let mut directory = ROOT;
        while let Some(next) = names.next_name_ref() {
            match child(&self.nodes, directory, &name) {
                Some(key) => directory = key,
                None => {
                    let missing = missing_at(&self.nodes, directory);
                    return (missing, missing);
                }
            }
            name = next;
        }
        (
            Found::at(Key::of(directory)),
            self.resolve_in(directory, &name),
        )
    }

    /// The same as [`Table::resolve`]. The directory of the last name is remembered, and no walk leads to one that is:
    /// the next path in the same directory takes a comparison of texts.
    ///
    /// A table remembers directories whose paths have 8 to 80 bytes, until a directory is moved or removed, or there
    /// are more slots. Where its nodes grow from 32 or more, [`Table::reserve_node`] allocates slots of 96 bytes: 4 to
    /// 64, a power of two, at most one for four nodes and two for each directory. A new table has no slots, nor has a
    /// copy until its nodes are also twice as many. A table without slots walks each time, and so does a path with a
    /// name of more than 31 bytes. It takes no memory.
    #[inline(always)]
    pub fn resolve_recent<'a>(&mut self, path: &'a Path) -> Resolved<'a>
        ensures same { self.new ≡ self.old }
        ensures names { result.names ≡ path.now }
        ensures resolved { IsResolved self.old result }
    {
        let Some((text, name)) = self.short_split(path) else {
            return self.resolve(path);
        };
        if text.is_empty() {
            return self.resolve_last(ROOT, path, name);
        }
        let at = self.recent.index_of(text);
        match self.recent.find(at, text) {
            Some(directory) => self.resolve_last(directory, path, name),
            None => self.resolve_anew(path, at, text),
        }
    }

    /// The text of the path of the directory of the last name, if that is the root or may be remembered, and that name.
    #[inline(always)]
    fn short_split<'a>(&self, path: &'a Path) -> Option<(&'a [u8], NameRef<'a>)>
        ensures text { IfSome result (λ split. IsParentText path.now split.0.now) }
        ensures len { IfSome result (λ split. length split.0.now ≤ TEXT_MAX) }
        ensures last { IfSome result (λ split. path.now ≡ parent_of path.now ++ split.1 ∷ []) }
    {
        if self.recent.is_empty() {
            return None;
        }
        let (text, name) = path.split_last()?;
        if !text.is_empty() && (text.len() < TEXT_MIN || TEXT_MAX < text.len()) {
            return None;
        }
        Some((text, name))
    }

    /// What is found at a path by the directory of its last name, and this name.
    #[inline(always)]
    fn resolve_last<'a>(&self, directory: usize, path: &'a Path, name: NameRef<'a>) -> Resolved<'a>
        requires last { path.now ≡ parent_of path.now ++ name ∷ [] }
        requires there { at self.now (parent_of path.now) ≡ Some directory }
        ensures names { result.names ≡ path.now }
        ensures resolved { IsResolved self.now result }
    {
        self.rows_law();
        Resolved {
            path,
            directory: Found::at(Key::of(directory)),
            here: self.resolve_in(directory, &name),
        }
    }

    /// Resolves a path by a walk, and remembers the directory of its last name, which has the text, in a slot.
    #[inline(never)]
    fn resolve_anew<'a>(&mut self, path: &'a Path, slot: usize, text: &[u8]) -> Resolved<'a>
        requires text { IsParentText path.now text.now }
        requires len { length text.now ≤ TEXT_MAX }
        ensures same { self.new ≡ self.old }
        ensures names { result.names ≡ path.now }
        ensures resolved { IsResolved self.old result }
    {
        let resolved = self.resolve(path);
        if let Ok(key) = resolved.directory.get() {
            self.remember(slot, text, key.slot());
        }
        resolved
    }

    /// Remembers a directory in a slot, if one is at the key.
    fn remember(&mut self, slot: usize, text: &[u8], key: usize)
        requires there { at self.old (names_of text.now) ≡ Some key }
        requires len { length text.now ≤ TEXT_MAX }
        ensures { self.new ≡ self.old }
    {
        if is_directory(&self.nodes, key) {
            self.recent.keep(slot, text, key);
        }
    }

    /// What stands at a resolved path, or why nothing does: `ENOENT` below a directory, `ENOTDIR` below a file.
    pub fn lookup(&self, path: &Resolved) -> Result<Seen, Refusal>
        requires resolved { IsResolved self.now path.now }
        ensures seen { IfOk result (λ seen. look (world_of self.now) path.now.names ≡ Some seen) }
        ensures none { IfOk result (λ _. find (look (world_of self.now)) path.now.names ≡ None) }
        ensures missing { IfErr result (λ refusal. find (look (world_of self.now)) path.now.names ≡ Some refusal) }
        ensures absent { IfErr result (λ _. look (world_of self.now) path.now.names ≡ None) }
    {
        self.rows_law();
        match path.here.get() {
            Ok(key) => Ok(self.seen_under(key)),
            Err(refusal) => Err(refusal),
        }
    }

    /// What stands at a resolved path, if anything does.
    pub fn seen(&self, path: &Resolved) -> Option<Seen>
        requires { IsResolved self.now path.now }
        ensures { result ≡ look (world_of self.now) path.now.names }
    {
        self.lookup(path).ok()
    }

    /// What stands at the directory of a resolved path's last name, or why nothing does. Of the root it is the root
    /// itself.
    pub fn lookup_parent(&self, path: &Resolved) -> Result<Seen, Refusal>
        requires resolved { IsResolved self.now path.now }
        ensures seen { IfOk result (λ seen. look (world_of self.now) (parent_of path.now.names) ≡ Some seen) }
        ensures none { IfOk result (λ _. find (look (world_of self.now)) (parent_of path.now.names) ≡ None) }
        ensures missing { IfErr result (λ refusal.
            find (look (world_of self.now)) (parent_of path.now.names) ≡ Some refusal) }
        ensures absent { IfErr result (λ _. look (world_of self.now) (parent_of path.now.names) ≡ None) }
    {
        self.rows_law();
        match path.directory.get() {
            Ok(directory) => Ok(self.seen_under(directory)),
            Err(refusal) => Err(refusal),
        }
    }

    /// The key of what stands at a resolved path.
    pub fn key(&self, path: &Resolved) -> Key
        requires resolved { IsResolved self.now path.now }
        requires there { IsSome (look (world_of self.now) path.now.names) }
        ensures found { number_of self.now (Some result) ≡ finmap.get (world_of self.now).paths path.now.names }
        ensures there { IsSome (number_of self.now (Some result)) }
    {
        self.rows_law();
        match path.here.get() {
            Ok(key) => key,
            Err(_) => unreachable!(),
        }
    }

    /// What stands under a name at a key.
    fn resolve_in(&self, directory: usize, name: &NameRef) -> Found
        requires there { IsSome (what_at self.now directory) }
        ensures { (p : List Label) → at self.now p ≡ Some directory
            → IsFound self.now (p ++ name.now ∷ []) (found_of result) }
    {
        self.rows_law();
        match child(&self.nodes, directory, name) {
            Some(key) => Found::at(Key::of(key)),
            None => missing_at(&self.nodes, directory),
        }
    }

    /// The key of what stands at a resolved path.
    pub(super) fn key_at(&self, path: &Resolved) -> usize
        requires resolved { IsResolved self.now path.now }
        requires there { IsSome (look_in self.now path.now.names) }
        ensures { at self.now path.now.names ≡ Some result }
    {
        self.rows_law();
        match path.here.get() {
            Ok(key) => key.slot(),
            Err(_) => unreachable!(),
        }
    }

    /// The key of the directory of a resolved path's last name.
    pub(super) fn directory_at(&self, path: &Resolved) -> usize
        requires resolved { IsResolved self.now path.now }
        requires there { IsSome (look_in self.now (parent_of path.now.names)) }
        ensures { at self.now (parent_of path.now.names) ≡ Some result }
    {
        self.rows_law();
        match path.directory.get() {
            Ok(key) => key.slot(),
            Err(_) => unreachable!(),
        }
    }

    /// The key of what stands at a resolved path, if anything does.
    pub(super) fn key_if(&self, path: &Resolved) -> Option<usize>
        requires resolved { IsResolved self.now path.now }
        ensures { result ≡ at self.now path.now.names }
    {
        self.rows_law();
        match path.here.get() {
            Ok(key) => Some(key.slot()),
            Err(_) => None,
        }
    }
}
