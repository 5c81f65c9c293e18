//! Few instances that watch a file, each with its watch.
ghost use Rattle.std.specs.Prelude.{◌≡◌, ◌≤◌, ◌<◌, true, false, length, IsSome, None, ◌↔◌, IsTrue};
ghost use Rattle.std.specs.FinMap as map;
ghost use Rattle.file_watchers.specs.Watchers.{AreWatchers, watchers_map};

use crate::ids::index_of;
use std::marker::Model;
use watch_table::Watch;

/// At most `N` instances that watch a file, by their numbers, rising; and the watch of each. They take no
/// memory of their own. What stands behind the first `len` has no meaning.
pub struct Few<const N: usize> {
    len: usize,
    ids: [u32; N],
    watches: [Watch; N],
}

impl<const N: usize> Drop for Few<N> {
    fn drop(self) {
        let Few {
            len: _,
            ids: _,
            watches: _,
        } = self;
    }
}

impl<const N: usize> Model for Few<N> {
    ghost use Rattle.std.specs.Prelude.{take};
    ghost use Rattle.std.specs.Coded.{coded_ℕ};
    ghost use Rattle.std.specs.FinMap as finmap;
    ghost use Rattle.watch_table.specs.Watching.{watch_code};
    ghost use Rattle.file_watchers.specs.Watchers.{AreFew, WatchMap, watchers_map};

    ghost Value = { WatchMap };

    ghost coded = { finmap.code coded_ℕ watch_code };

    ghost view = { λ a. watchers_map (take a.len a.ids) (take a.len a.watches) };

    ghost invariant = { λ a. AreFew N a.len a.ids a.watches };
}

impl<const N: usize> Few<N> {
    /// At most `N` instances, each with its watch.
    pub fn of(ids: &[u32], watches: &[Watch]) -> Few<N>
        requires watchers { AreWatchers ids.now watches.now }
        requires count { length ids.now ≤ N }
        ensures { result ≡ watchers_map ids.now watches.now }
    {
        let len = ids.len();
        let mut its_ids = [0; N];
        let mut its_watches = [Watch { wd: 0, mask: 0 }; N];
        its_ids[..len].copy_from_slice(ids);
        its_watches[..len].copy_from_slice(watches);
        Few {
            len,
            ids: its_ids,
            watches: its_watches,
        }
    }

    /// Fewer than `N` instances, each with its watch, and one more.
    pub fn with(ids: &[u32], watches: &[Watch], id: u32, watch: Watch) -> Few<N>
        requires watchers { AreWatchers ids.now watches.now }
        requires count { length ids.now < N }
        ensures { result ≡ map.insert (watchers_map ids.now watches.now) id watch }
    {
        let mut few = Few::of(ids, watches);
        if !few.put(id, watch) {
            unreachable!()
        }
        few
    }

    /// Puts in an instance with its watch, in place of the one that it has. Where `N` others are there, the answer is
    /// `false`, and nothing changes.
    pub fn put(&mut self, id: u32, watch: Watch) -> bool
        ensures put { result ≡ true → self.new ≡ map.insert self.old id watch }
        ensures rest { result ≡ false → self.new ≡ self.old }
        ensures others { result ≡ false → map.get self.old id ≡ None }
        ensures full { result ≡ false → N ≤ length (map.keys self.old) }
    {
        match index_of(&self.ids[..self.len], id) {
            Ok(index) => self.watches[index] = watch,
            Err(index) => {
                if self.len == N {
                    return false;
                }
                self.ids.copy_within(index..self.len, index + 1);
                self.ids[index] = id;
                self.watches.copy_within(index..self.len, index + 1);
                self.watches[index] = watch;
                self.len += 1;
            }
        }
        true
    }

    /// Gives an instance that is there another watch.
    pub fn set(&mut self, id: u32, watch: Watch)
        requires { IsSome (map.get self.old id) }
        ensures { self.new ≡ map.insert self.old id watch }
    {
        let Ok(index) = index_of(&self.ids[..self.len], id) else {
            unreachable!()
        };
        self.watches[index] = watch;
    }

    /// Takes out an instance, if it is there.
    pub fn remove(&mut self, id: u32)
        ensures { self.new ≡ map.remove self.old id }
    {
        if let Ok(index) = index_of(&self.ids[..self.len], id) {
            self.ids.copy_within(index + 1..self.len, index);
            self.watches.copy_within(index + 1..self.len, index);
            self.len -= 1;
        }
    }

    /// The numbers of the instances, rising, and the watch of each.
    #[inline(always)]
    pub fn as_slices(&self) -> (&[u32], &[Watch])
        ensures watchers { AreWatchers result.0.now result.1.now }
        ensures map { watchers_map result.0.now result.1.now ≡ self.now }
        ensures few { length result.0.now ≤ N }
    {
        (&self.ids[..self.len], &self.watches[..self.len])
    }

    /// Whether there is no instance.
    pub fn is_empty(&self) -> bool
        ensures { IsTrue result ↔ (self.now ≡ map.empty) }
    {
        let (ids, _) = self.as_slices();
        ids.is_empty()
    }
}
