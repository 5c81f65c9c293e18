//! The watches of an instance.
ghost use Rattle.std.specs.Prelude.{◌≡◌, ◌⊎◌, ℕ, pos, false, Some, None, Ok, Err, IfOk, IfErr, OnOk, OnErr, OnSome};
ghost use Rattle.std.specs.Prelude.{IfNone, IsErr, IsNone, IsTrue, MatchResult, ◌↔◌};
ghost use Rattle.std.specs.FinMap as map;
ghost use Rattle.std.specs.Map.Iter.{ShowsInOrder, deref};
ghost use Rattle.tree_paths.specs.declared.refusal.Refusal.{Refusal};
ghost use Rattle.tree_paths.specs.declared.refusal.Refusal.TheVariants.{Einval, Enomem};
ghost use Rattle.watch_table.specs.Masks.{mask_fault};
ghost use Rattle.watch_table.specs.Index.{bits_in};
ghost use Rattle.watch_table.specs.Rows.{watch_rows};
ghost use Rattle.watch_table.specs.Watching.{IsSound, added, add_refusal, dropped, is_barred, is_full, is_taken};
ghost use Rattle.watch_table.specs.Watching.{no_watches, watched_by, removed, watch_of, wd_added, wd_of};
ghost use Rattle.watch_table.specs.Watching.{with_new_watch};

use crate::{Mask, Watch, WatchRows};
use bitflags::Flags;
use std::alloc::{AllocError, Global};
use std::collections::BTreeMap;
use std::collections::btree_map::Keys;
use std::marker::Model;
use tree_paths::{Limits, Refusal};

/// The watches of an instance, by the numbers of the files and by their descriptors.
///
/// Descriptors are given in turn, 1, 2, 3, .., and none is given again.
pub struct Watches {
    alloc: Global,
    by_number: BTreeMap<u32, Watch>,
    by_wd: BTreeMap<i32, u32>,
    next_wd: u32,
    most_watches: u32,
    last_wd: u32,
}

impl Drop for Watches {
    fn drop(self) {
        let Watches {
            alloc: _,
            by_number: _,
            by_wd: _,
            next_wd: _,
            most_watches: _,
            last_wd: _,
        } = self;
    }
}

impl Model for Watches {
    ghost use Rattle.watch_table.specs.Watching.{Watching, watching_code};

    ghost Value = { Watching };

    ghost coded = { watching_code };

    ghost use Rattle.watch_table.specs.Index.{watching_of, IsIndexed};

    ghost view = { watching_of };

    ghost invariant = { IsIndexed };
}

impl Watches {
    /// No watches. It takes no memory.
    pub fn new(alloc: Global, limits: &Limits) -> Watches
        ensures { result ≡ no_watches limits.now }
    {
        Watches {
            alloc,
            by_number: BTreeMap::new(alloc),
            by_wd: BTreeMap::new(alloc),
            next_wd: 1,
            most_watches: limits.watches,
            last_wd: limits.wds,
        }
    }

    /// Returns a copy: the watches of the same files under the same descriptors, with the same next one and limits.
    ///
    /// # Errors
    /// `ENOMEM`, where there is no memory for them.
    pub fn copy(&self) -> Result<Watches, Refusal>
        ensures watches { IfOk result (λ watches. watches ≡ self.now) }
        ensures err { IfErr result (λ refusal. refusal ≡ Enomem) }
    {
        Ok(Watches {
            alloc: self.alloc,
            by_number: self.by_number.clone()?,
            by_wd: self.by_wd.clone()?,
            next_wd: self.next_wd,
            most_watches: self.most_watches,
            last_wd: self.last_wd,
        })
    }

    /// A file's watch. It takes no memory.
    pub fn of(&self, number: u32) -> Option<Watch>
        ensures { result ≡ watch_of self.now number }
    {
        self.by_number.get(&number).copied()
    }

    /// The number of the file that is watched under a descriptor. It takes no memory.
    pub fn watched_by(&self, wd: i32) -> Option<u32>
        ensures { result ≡ watched_by self.now wd }
    {
        self.by_wd.get(&wd).copied()
    }

    /// How many files are watched.
    pub fn len(&self) -> usize
        ensures { result ≡ map.len self.now.watches }
    {
        self.by_number.len()
    }

    /// Whether no file is watched.
    pub fn is_empty(&self) -> bool
        ensures { IsTrue result ↔ (map.len self.now.watches ≡ 0) }
    {
        self.len() == 0
    }

    /// The descriptor of the next new watch: one more than were given so far. 2^31 where all are spent.
    pub fn next_wd(&self) -> u32
        ensures value { result ≡ self.now.next_wd }
        ensures sound { IsSound self.now }
    {
        self.next_wd
    }

    /// The numbers of the watched files, rising. It takes no memory.
    pub fn numbers(&self) -> Keys<'_, u32, Watch>
        ensures rest { result ≡ map.keys self.now.watches }
        ensures runs { ShowsInOrder (deref {X = ℕ}) }
    {
        self.by_number.keys()
    }

    /// The watches in the order of their descriptors: the number of the file, the descriptor and the bits of each.
    pub fn rows(&self) -> Result<WatchRows, Refusal>
        ensures rows { IfOk result (λ rows. rows ≡ watch_rows self.now) }
        ensures err { IfErr result (λ refusal. refusal ≡ Enomem) }
    {
        let mut rows = Vec::with_capacity(self.alloc, self.by_wd.len())?;
        for (wd, number) in &self.by_wd {
            rows.push((*number, *wd, self.bits(*number)))?;
        }
        Ok(WatchRows::from_vec(rows))
    }

    /// The bits of a file's watch. No bits where it has none.
    fn bits(&self, number: u32) -> u32
        ensures { result ≡ bits_in (watch_of self.now number) }
    {
        self.of(number).map_or(0, |watch| watch.mask)
    }
}

impl Watches {
    /// Checks whether a file that is not watched may be watched with this mask.
    ///
    /// # Errors
    /// `ENOTDIR` and `ENOSPC`, where [`Watches::add`] has them. It takes no memory.
    pub fn check_new(&self, mask: Mask, is_directory: bool) -> Result<(), Refusal>
        ensures { (number : ℕ) → watch_of self.now number ≡ None → MatchResult result
            (λ _. add_refusal self.now number mask.0 is_directory ≡ None)
            (λ refusal. add_refusal self.now number mask.0 is_directory ≡ Some refusal) }
    {
        if is_barred(mask, is_directory) {
            return Err(Refusal::Enotdir);
        }
        if !self.is_full() {
            return Ok(());
        }
        Err(Refusal::Enospc)
    }

    /// Watches a file that is not watched, where [`Watches::check_new`] has accepted it, and answers the descriptor of
    /// its watch. `bits` are those that the watch keeps ([`Mask::stored`]).
    ///
    /// `Err` is out of memory.
    pub fn add_new(&mut self, number: u32, bits: u32) -> Result<i32, AllocError>
        requires absent { watch_of self.old number ≡ None }
        requires room { is_full self.old ≡ false }
        ensures wd { IfOk result (λ wd. wd ≡ pos self.old.next_wd) }
        ensures watches { OnOk result (self.new ≡ with_new_watch self.old number bits) }
        ensures err { OnErr result (self.new ≡ self.old) }
    {
        let wd = self.next_wd as i32;
        self.by_wd.insert(wd, number)?;
        if let Err(refused) = self.by_number.insert(number, Watch { wd, mask: bits }) {
            self.by_wd.remove(&wd);
            return Err(AllocError::from(refused));
        }
        self.next_wd += 1;
        Ok(wd)
    }

    /// Watches a file, and answers the descriptor of its watch.
    ///
    /// `ENOTDIR` where the mask has ONLYDIR and it is no directory; `EEXIST` where the mask has MASK_CREATE and it is
    /// watched already; `ENOSPC` where it is not watched yet and as many files are watched as the limit allows, or all
    /// descriptors were given; `ENOMEM`.
    pub fn add(&mut self, number: u32, mask: Mask, is_directory: bool) -> Result<i32, Refusal>
        requires { mask_fault mask.0 ≡ None }
        ensures wd { IfOk result (λ wd. wd ≡ wd_added self.old number) }
        ensures watches { OnOk result (self.new ≡ added self.old number mask.0) }

        ensures refused { (r : Refusal) → add_refusal self.old number mask.0 is_directory ≡ Some r → result ≡ Err r }
        ensures refusals { IfErr result (λ r.
            (add_refusal self.old number mask.0 is_directory ≡ Some r) ⊎ (r ≡ Enomem)) }
        ensures memory { result ≡ Err Enomem → watch_of self.old number ≡ None }
        ensures err { OnErr result (self.new ≡ self.old) }
    {
        if is_barred(mask, is_directory) {
            return Err(Refusal::Enotdir);
        }
        if self.is_taken(number, mask) {
            return Err(Refusal::Eexist);
        }
        if let Some(wd) = self.watch_again(number, mask) {
            return Ok(wd);
        }
        if self.is_full() {
            return Err(Refusal::Enospc);
        }
        Ok(self.add_new(number, mask.stored())?)
    }

    /// Whether the mask asks for a new watch, and the file has one.
    fn is_taken(&self, number: u32, mask: Mask) -> bool
        ensures { result ≡ is_taken mask.0 (watch_of self.now number) }
    {
        mask.intersects(Mask::MASK_CREATE) && self.of(number).is_some()
    }

    /// Gives the watch of a file, if it has one, the bits of another call, and answers its descriptor.
    fn watch_again(&mut self, number: u32, mask: Mask) -> Option<i32>
        ensures wd { result ≡ wd_of self.old number }
        ensures watches { OnSome result (self.new ≡ added self.old number mask.0) }
        ensures none { IfNone result (self.new ≡ self.old) }
    {
        let watch = self.by_number.get_mut(&number)?;
        watch.mask = mask.next_bits(watch.mask);
        Some(watch.wd)
    }

    /// Whether no file more can be watched, or no descriptor is left.
    fn is_full(&self) -> bool
        ensures { result ≡ is_full self.now }
    {
        self.len() >= self.most_watches as usize || self.next_wd > self.last_wd
    }

    /// Ends the watch of a descriptor. `EINVAL` where there is none. It takes no memory.
    pub fn remove(&mut self, wd: i32) -> Result<(), Refusal>
        ensures watches { self.new ≡ removed self.old wd }
        ensures refused { IsErr result ↔ IsNone (watched_by self.old wd) }
        ensures refusals { IfErr result (λ r. r ≡ Einval) }
    {
        match self.by_wd.remove(&wd) {
            Some(number) => {
                self.by_number.remove(&number);
                Ok(())
            }
            None => Err(Refusal::Einval),
        }
    }

    /// Ends the watch of a file, if it has one, and answers its descriptor. It takes no memory.
    pub fn drop_file(&mut self, number: u32) -> Option<i32>
        ensures wd { result ≡ wd_of self.old number }
        ensures watches { self.new ≡ dropped self.old number }
    {
        let Watch { wd, .. } = self.by_number.remove(&number)?;
        self.by_wd.remove(&wd);
        Some(wd)
    }
}

/// Whether the mask asks for a directory, and it is none.
fn is_barred(mask: Mask, is_directory: bool) -> bool
    ensures { result ≡ is_barred mask.0 is_directory }
{
    mask.intersects(Mask::ONLYDIR) && !is_directory
}
