//! Several instances that watch a file, each with its watch.
ghost use Rattle.std.specs.Prelude.{◌≡◌, ◌↔◌, IsTrue, IsSome, IfOk, OnErr, OnOk};
ghost use Rattle.std.specs.FinMap as map;
ghost use Rattle.file_watchers.specs.Watchers.{AreWatchers, watchers_map};

use crate::ids::index_of;
use std::alloc::{AllocError, Global};
use std::marker::Model;
use watch_table::Watch;

/// The numbers of the instances that watch a file, each once, rising; and the watch of each.
pub struct Several {
    ids: Vec<u32>,
    watches: Vec<Watch>,
}

impl Drop for Several {
    fn drop(self) {
        let Several { ids: _, watches: _ } = self;
    }
}

impl Model for Several {
    ghost use Rattle.std.specs.Coded.{coded_ℕ};
    ghost use Rattle.std.specs.FinMap as finmap;
    ghost use Rattle.watch_table.specs.Watching.{watch_code};
    ghost use Rattle.file_watchers.specs.Watchers.{AreWatchers, WatchMap, watchers_map};

    ghost Value = { WatchMap };

    ghost coded = { finmap.code coded_ℕ watch_code };

    ghost view = { λ a. watchers_map a.ids.items a.watches.items };

    ghost invariant = { λ a. AreWatchers a.ids.items a.watches.items };
}

impl Several {
    /// Instances, each with its watch. `Err` is out of memory.
    pub fn of(alloc: Global, ids: &[u32], watches: &[Watch]) -> Result<Several, AllocError>
        requires watchers { AreWatchers ids.now watches.now }
        ensures { IfOk result (λ several. several ≡ watchers_map ids.now watches.now) }
    {
        Several::within(alloc, ids.len(), ids, watches)
    }

    /// Instances, each with its watch, and one more. `Err` is out of memory.
    pub fn with(
        alloc: Global,
        ids: &[u32],
        watches: &[Watch],
        id: u32,
        watch: Watch,
    ) -> Result<Several, AllocError>
        requires watchers { AreWatchers ids.now watches.now }
        ensures { IfOk result (λ several. several ≡ map.insert (watchers_map ids.now watches.now) id watch) }
    {
        let mut several = Several::within(alloc, ids.len() * 2, ids, watches)?;
        several.put(id, watch)?;
        Ok(several)
    }

    /// Instances, each with its watch, in buffers of this capacity. `Err` is out of memory.
    fn within(
        alloc: Global,
        capacity: usize,
        ids: &[u32],
        watches: &[Watch],
    ) -> Result<Several, AllocError>
        requires watchers { AreWatchers ids.now watches.now }
        ensures { IfOk result (λ several. several ≡ watchers_map ids.now watches.now) }
    {
        let mut its_ids = Vec::with_capacity(alloc, capacity)?;
        let mut its_watches = Vec::with_capacity(alloc, capacity)?;
        its_ids.extend_from_slice(ids)?;
        its_watches.extend_from_slice(watches)?;
        Ok(Several {
            ids: its_ids,
            watches: its_watches,
        })
    }

    /// Puts in an instance with its watch, in place of the one that it has. `Err` is out of memory.
    pub fn put(&mut self, id: u32, watch: Watch) -> Result<(), AllocError>
        ensures ok { OnOk result (self.new ≡ map.insert self.old id watch) }
        ensures err { OnErr result (self.new ≡ self.old) }
    {
        match index_of(self.ids.as_slice(), id) {
            Ok(index) => self.watches[index] = watch,
            Err(index) => {
                self.watches.reserve(1)?;
                self.ids.insert(index, id)?;
                let Ok(()) = self.watches.insert(index, watch) else {
                    unreachable!()
                };
            }
        }
        Ok(())
    }

    /// Gives an instance that is there another watch. It takes no memory.
    pub fn set(&mut self, id: u32, watch: Watch)
        requires { IsSome (map.get self.old id) }
        ensures { self.new ≡ map.insert self.old id watch }
    {
        let Ok(index) = index_of(self.ids.as_slice(), id) else {
            unreachable!()
        };
        self.watches[index] = watch;
    }

    /// Takes out an instance, if it is there. It takes no memory.
    pub fn remove(&mut self, id: u32)
        ensures { self.new ≡ map.remove self.old id }
    {
        if let Ok(index) = index_of(self.ids.as_slice(), id) {
            self.ids.remove(index);
            self.watches.remove(index);
        }
    }

    /// The numbers of the instances, rising, and the watch of each.
    pub fn as_slices(&self) -> (&[u32], &[Watch])
        ensures watchers { AreWatchers result.0.now result.1.now }
        ensures map { watchers_map result.0.now result.1.now ≡ self.now }
    {
        (self.ids.as_slice(), self.watches.as_slice())
    }

    /// Whether there is no instance.
    pub fn is_empty(&self) -> bool
        ensures { IsTrue result ↔ (self.now ≡ map.empty) }
    {
        self.ids.is_empty()
    }
}
