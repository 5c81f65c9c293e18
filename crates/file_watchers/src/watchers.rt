//! The instances that watch a file, each with its watch.
ghost use Rattle.std.specs.Prelude.{◌≡◌, ◌↔◌, IsTrue, IsSome, IfOk, OnErr, OnOk, false};
ghost use Rattle.std.specs.FinMap as map;
ghost use Rattle.file_watchers.specs.WatcherRow.{row_map};
ghost use Rattle.file_watchers.specs.Watchers.{AreWatchers, watchers_map};

use crate::few::Few;
use crate::several::Several;
use std::alloc::{AllocError, Global};
use std::marker::Model;
use std::mem::size_of;
use std::slice;
use watch_table::Watch;

/// The instances that watch a file, by their numbers; and the watch of each. There is at least one, since an unwatched
/// file has no row. The first is in place, and takes no memory of its own.
pub struct Watchers {
    row: Row,
}

/// One instance and its watch, at most four, eight or sixteen, or any number. A row keeps its form where instances go.
/// A copy takes the smallest form that fits, but `Four` for one that is left in a larger row.
#[derive(Drop)]
enum Row {
    One(u32, Watch),
    Four(Box<Few<4>>),
    Eight(Box<Few<8>>),
    Sixteen(Box<Few<16>>),
    Several(Box<Several>),
}

// A node of the index has eleven of these, whether they are used or not.
const _: () = prove!(size_of::<Row>() == 16);

impl Drop for Watchers {
    fn drop(self) {
        let Watchers { row: _ } = self;
    }
}

impl Model for Watchers {
    ghost use Rattle.std.specs.Coded.{coded_ℕ};
    ghost use Rattle.std.specs.FinMap as finmap;
    ghost use Rattle.watch_table.specs.Watching.{watch_code};
    ghost use Rattle.file_watchers.specs.Watchers.{WatchMap};

    ghost Value = { WatchMap };

    ghost coded = { finmap.code coded_ℕ watch_code };

    ghost use Rattle.file_watchers.specs.WatcherRow.{row_map};

    ghost view = { λ a. row_map a.row };
}

impl Clone for Watchers {
    ghost is_clone = { λ watchers copy. copy ≡ watchers };

    fn clone(&self) -> Result<Watchers, AllocError> {
        let alloc = match &self.row {
            Row::One(id, watch) => return Ok(Watchers::one(*id, *watch)),
            Row::Four(four) => *Box::allocator(four),
            Row::Eight(eight) => *Box::allocator(eight),
            Row::Sixteen(sixteen) => *Box::allocator(sixteen),
            Row::Several(several) => *Box::allocator(several),
        };
        let (ids, watches) = self.as_slices();
        let row = row_of(alloc, ids, watches)?;
        Ok(Watchers { row })
    }
}

impl Watchers {
    /// One instance with its watch. It takes no memory.
    pub fn one(id: u32, watch: Watch) -> Watchers
        ensures { result ≡ map.insert map.empty id watch }
    {
        Watchers {
            row: Row::One(id, watch),
        }
    }

    /// Puts in an instance with its watch, in place of the one that it has. `Err` is out of memory.
    pub fn put(&mut self, alloc: Global, id: u32, watch: Watch) -> Result<(), AllocError>
        ensures ok { OnOk result (self.new ≡ map.insert self.old id watch) }
        ensures err { OnErr result (self.new ≡ self.old) }
    {
        let is_put = match &mut self.row {
            Row::One(first, its) => {
                let is_first = *first == id;
                if is_first {
                    *its = watch;
                }
                is_first
            }
            Row::Four(four) => four.put(id, watch),
            Row::Eight(eight) => eight.put(id, watch),
            Row::Sixteen(sixteen) => sixteen.put(id, watch),
            Row::Several(several) => return several.put(id, watch),
        };
        if !is_put {
            let (ids, watches) = self.as_slices();
            self.row = larger_row(alloc, ids, watches, id, watch)?;
        }
        Ok(())
    }

    /// Gives an instance that is there another watch. It takes no memory.
    pub fn set(&mut self, id: u32, watch: Watch)
        requires { IsSome (map.get self.old id) }
        ensures { self.new ≡ map.insert self.old id watch }
    {
        match &mut self.row {
            Row::One(_, its) => *its = watch,
            Row::Four(four) => four.set(id, watch),
            Row::Eight(eight) => eight.set(id, watch),
            Row::Sixteen(sixteen) => sixteen.set(id, watch),
            Row::Several(several) => several.set(id, watch),
        }
    }

    /// Takes out an instance, if it is there. The answer is whether none is left: these watchers are then to be thrown
    /// away. It takes no memory.
    pub fn remove(&mut self, id: u32) -> bool
        ensures none { IsTrue result ↔ (map.remove self.old id ≡ map.empty) }
        ensures rest { result ≡ false → self.new ≡ map.remove self.old id }
    {
        match &mut self.row {
            Row::One(first, _) => *first == id,
            Row::Four(four) => {
                four.remove(id);
                four.is_empty()
            }
            Row::Eight(eight) => {
                eight.remove(id);
                eight.is_empty()
            }
            Row::Sixteen(sixteen) => {
                sixteen.remove(id);
                sixteen.is_empty()
            }
            Row::Several(several) => {
                several.remove(id);
                several.is_empty()
            }
        }
    }

    /// The numbers of the instances, rising, and the watch of each.
    #[inline(always)]
    pub fn as_slices(&self) -> (&[u32], &[Watch])
        ensures watchers { AreWatchers result.0.now result.1.now }
        ensures map { watchers_map result.0.now result.1.now ≡ self.now }
    {
        match &self.row {
            Row::One(id, watch) => (slice::from_ref(id), slice::from_ref(watch)),
            Row::Four(four) => four.as_slices(),
            Row::Eight(eight) => eight.as_slices(),
            Row::Sixteen(sixteen) => sixteen.as_slices(),
            Row::Several(several) => several.as_slices(),
        }
    }

    /// The numbers of the instances, rising.
    pub fn ids(&self) -> &[u32]
        ensures { result.now ≡ map.keys self.now }
    {
        let (ids, _) = self.as_slices();
        ids
    }
}

/// The smallest row, of four or more, for these instances, each with its watch. `Err` is out of memory.
fn row_of(alloc: Global, ids: &[u32], watches: &[Watch]) -> Result<Row, AllocError>
    requires { AreWatchers ids.now watches.now }
    ensures { IfOk result (λ row. row_map row ≡ watchers_map ids.now watches.now) }
{
    match ids.len() {
        0..=4 => Ok(Row::Four(Box::new(alloc, Few::of(ids, watches))?)),
        5..=8 => Ok(Row::Eight(Box::new(alloc, Few::of(ids, watches))?)),
        9..=16 => Ok(Row::Sixteen(Box::new(alloc, Few::of(ids, watches))?)),
        _ => Ok(Row::Several(Box::new(alloc, Several::of(alloc, ids, watches)?)?)),
    }
}

/// A row of instances, each with its watch, and one more. `Err` is out of memory.
fn larger_row(
    alloc: Global,
    ids: &[u32],
    watches: &[Watch],
    id: u32,
    watch: Watch,
) -> Result<Row, AllocError>
    requires { AreWatchers ids.now watches.now }
    ensures { IfOk result (λ row. row_map row ≡ map.insert (watchers_map ids.now watches.now) id watch) }
{
    match ids.len() {
        0..=3 => Ok(Row::Four(Box::new(alloc, Few::with(ids, watches, id, watch))?)),
        4..=7 => Ok(Row::Eight(Box::new(alloc, Few::with(ids, watches, id, watch))?)),
        8..=15 => Ok(Row::Sixteen(Box::new(alloc, Few::with(ids, watches, id, watch))?)),
        _ => Ok(Row::Several(Box::new(alloc, Several::with(alloc, ids, watches, id, watch)?)?)),
    }
}
