//! Who watches each file, and how.
ghost use Rattle.std.specs.Prelude.{◌≡◌, ◌↔◌, IsTrue, IsSome, ℕ, ◌==◌, ◌&&◌, Some, None, if◌then◌else◌};
ghost use Rattle.std.specs.Prelude.{IfOk, OnOk, OnErr};
ghost use Rattle.std.specs.FinMap as map;
ghost use Rattle.std.specs.BTreeMap as tree;
ghost use Rattle.std.specs.Option.{option_copied};
ghost use Rattle.std.specs.Ordering.{nat_cmp};
ghost use Rattle.instance_table.specs.Index.{HasSoundRows, watch_noted, row_under};

use crate::filter::WatchFilter;
use file_watchers::Watchers;
use std::alloc::{AllocError, Global};
use std::collections::BTreeMap;
use watch_table::Watch;

/// The instances that watch each file and their watches, by the number of the file.
pub struct Index {
    alloc: Global,
    watchers: BTreeMap<u32, Watchers>,
    filter: WatchFilter,
}

impl Drop for Index {
    fn drop(self) {
        let Index {
            alloc: _,
            watchers: _,
            filter: _,
        } = self;
    }
}

impl Index {
    /// No file is watched. It takes no memory.
    pub fn new(alloc: Global) -> Index
        ensures noted { (number id : ℕ) → watch_noted result number id ≡ None }
        ensures rows { HasSoundRows result }
    {
        Index {
            alloc,
            watchers: BTreeMap::new(alloc),
            filter: WatchFilter::new(),
        }
    }

    /// Returns a copy. `Err` is out of memory.
    pub fn copy(&self) -> Result<Index, AllocError>
        ensures noted { IfOk result (λ index. (n q : ℕ) → watch_noted index n q ≡ watch_noted self.now n q) }
        ensures rows { IfOk result (λ index. HasSoundRows self.now → HasSoundRows index) }
    {
        Ok(Index {
            alloc: self.alloc,
            watchers: self.watchers.clone()?,
            filter: self.filter,
        })
    }

    /// Notes the watch of an instance for a file, in place of the one that is noted. `Err` is out of memory.
    pub fn put(&mut self, number: u32, id: u32, watch: Watch) -> Result<(), AllocError>
        ensures ok { OnOk result ((n q : ℕ)
            → watch_noted self.new n q ≡ (if n == number && q == id then Some watch else watch_noted self.old n q)) }
        ensures err { OnErr result ((n q : ℕ) → watch_noted self.new n q ≡ watch_noted self.old n q) }
        ensures rows { HasSoundRows self.old → HasSoundRows self.new }
    {
        let alloc = self.alloc;
        if let Some(row) = self.watchers.get_mut(&number) {
            return row.put(alloc, id, watch);
        }
        self.watchers.insert(number, Watchers::one(id, watch))?;
        self.filter.add(number);
        Ok(())
    }

    /// Notes another watch of an instance that watches a file. It takes no memory.
    pub fn set(&mut self, number: u32, id: u32, watch: Watch)
        requires { IsSome (watch_noted self.old number id) }
        ensures noted { (n q : ℕ)
            → watch_noted self.new n q ≡ (if n == number && q == id then Some watch else watch_noted self.old n q) }
        ensures rows { HasSoundRows self.old → HasSoundRows self.new }
    {
        let Some(row) = self.watchers.get_mut(&number) else {
            unreachable!()
        };
        row.set(id, watch);
    }

    /// Notes that an instance does not watch a file any more. An unwatched file has no row. It takes no memory.
    pub fn remove(&mut self, number: u32, id: u32)
        ensures noted { (n q : ℕ)
            → watch_noted self.new n q ≡ (if n == number && q == id then None else watch_noted self.old n q) }
        ensures rows { HasSoundRows self.old → HasSoundRows self.new }
    {
        let Some(row) = self.watchers.get_mut(&number) else {
            return;
        };
        if row.remove(id) {
            self.watchers.remove(&number);
        }
    }

    /// The instances that watch a file. It takes no memory.
    pub fn row(&self, number: u32) -> Option<&Watchers>
        ensures { option_copied result ≡ tree.get nat_cmp self.now.watchers number }
    {
        self.watchers.get(&number)
    }

    /// The numbers of the instances that watch a file, rising. It takes no memory.
    pub fn of(&self, number: u32) -> &[u32]
        ensures { result.now ≡ map.keys (row_under self.now number) }
    {
        match self.watchers.get(&number) {
            Some(row) => row.ids(),
            None => &[],
        }
    }

    /// The filter: each file that has a row passes.
    #[inline(always)]
    pub fn filter(&self) -> &WatchFilter
        ensures { result.now ≡ self.now.filter }
    {
        &self.filter
    }

    /// Whether no file is watched.
    pub fn is_empty(&self) -> bool
        ensures { HasSoundRows self.now → IsTrue result ↔ ((n q : ℕ) → watch_noted self.now n q ≡ None) }
    {
        self.watchers.is_empty()
    }
}
