//! The open instances.
ghost use Rattle.std.specs.Prelude.{◌≡◌, ◌↔◌, ◌≤◌, ◌+◌, ◌++◌, ◌∷◌, ◌⊎◌, ◌&&◌, ◌==◌, ℕ, is_some, drop, false};
ghost use Rattle.std.specs.Prelude.{take, vec_len, vec_capacity, Some, None, Ok, Err, IfOk, IfErr, OnOk, OnErr, IsSome};
ghost use Rattle.std.specs.Prelude.{IfSome, if◌then◌else◌, map, pos, ◌<◌, ◌^◌};
ghost use Rattle.std.specs.Option.{option_copied};
ghost use Rattle.std.specs.VecDeque.{deque_len};
ghost use Rattle.std.specs.FinMap as finmap;
ghost use Rattle.tree_paths.specs.declared.refusal.Refusal.{Refusal};
ghost use Rattle.tree_paths.specs.declared.refusal.Refusal.TheVariants.{Enomem};
ghost use Rattle.event_queue.specs.Backlogs.{IsLimit, after_offer};
ghost use Rattle.watch_table.specs.Masks.{mask_fault, stored};
ghost use Rattle.watch_table.specs.Watching.{IsSound, add_refusal, added, removed, watch_of, wd_added};
ghost use Rattle.instance_table.specs.Index.{HasSoundRows, watch_noted};
ghost use Rattle.instance_table.specs.Filters.{passes};
ghost use Rattle.instance_table.specs.Rows.{instance_row};
ghost use Rattle.instance_table.specs.Heard.{delivered_all};
ghost use Rattle.instance_table.specs.Instances.{NobodyWatches, PassesWatched, WaitingAreEvents, after_read, changed};
ghost use Rattle.instance_table.specs.Watchers.{IsRowOf, row_or_none};
ghost use Rattle.instance_table.specs.Instances.{instance_of, new_instance, unwatching, waiting_of, watchers_of};
ghost use Rattle.instance_table.specs.Instances.{watching};

use crate::filter::WatchFilter;
use crate::index::Index;
use crate::instance::Instance;
use crate::opened::{Opened, index_of};
use crate::rows::{InstanceRow, instance_row};
use crate::staging::{offer_one, offer_run};
use event_queue::Queue;
use event_rules::{StagedEvent, ignored};
use file_watchers::Watchers;
use record_codec::Event;
use std::alloc::Global;
use std::collections::VecDeque;
use std::marker::Model;
use tree_paths::{Limits, Refusal};
use watch_table::{Mask, Watch, Watches};

mod copying;
mod ready;

/// The open instances of inotify(7) by their numbers, with an index of who watches each file.
pub struct Instances {
    pub(crate) alloc: Global,
    opened: Vec<Opened>,
    index: Index,
}

impl Drop for Instances {
    fn drop(self) {
        let Instances {
            alloc: _,
            opened: _,
            index: _,
        } = self;
    }
}

impl Model for Instances {
    ghost use Rattle.instance_table.specs.Instances.{Instances as InstanceMap};
    ghost use Rattle.instance_table.specs.Codes.{instances_code};

    ghost Value = { InstanceMap };

    ghost coded = { instances_code };

    ghost use Rattle.instance_table.specs.Views.{instances_of, NotesEveryWatch};

    ghost view = { instances_of };

    ghost invariant = { NotesEveryWatch };
}

impl Instances {
    /// No instances. It takes no memory.
    pub fn new(alloc: Global) -> Instances
        ensures { result ≡ finmap.empty }
    {
        Instances {
            alloc,
            opened: Vec::new(alloc),
            index: Index::new(alloc),
        }
    }

    /// What waits in the instances are events: their values fit their types, and their names are names.
    pub fn law(&self)
        ensures { WaitingAreEvents self.now }
    {
        let _alloc = self.alloc;
    }

    /// How many instances are open.
    pub fn len(&self) -> usize
        ensures { result ≡ finmap.len self.now }
    {
        self.opened.len()
    }

    /// The open instance of a number.
    pub fn get(&self, id: u32) -> Option<&Instance>
        ensures { option_copied result ≡ instance_of self.now id }
    {
        self.find(id, &mut 0)
    }

    /// The open instance of a number. `index` is tried first, and is then the instance's index among the open
    /// ones: a call for the same instance that gets it need not search again. Any index gives the same answer.
    pub fn find(&self, id: u32, index: &mut usize) -> Option<&Instance>
        ensures { option_copied result ≡ instance_of self.now id }
    {
        let Ok(found) = index_of(&self.opened, id, *index) else {
            return None;
        };
        *index = found;
        Some(&self.opened[found].instance)
    }

    /// The numbers of the instances that watch a file, rising. It takes no memory.
    pub fn watchers(&self, number: u32) -> &[u32]
        ensures { result.now ≡ watchers_of self.now number }
    {
        self.index.of(number)
    }

    /// The instances that watch a file, with their watches. It takes no memory.
    pub(crate) fn row(&self, number: u32) -> Option<&Watchers>
        ensures { IsRowOf self.now number (row_or_none (option_copied result)) }
    {
        self.index.row(number)
    }

    /// Whether any instance watches any file. It takes no memory.
    pub fn is_watching(&self) -> bool
        ensures { (result ≡ false) ↔ NobodyWatches self.now }
    {
        !self.index.is_empty()
    }

    /// The files that may be watched: each that an instance watches, and some others. It takes no memory.
    #[inline(always)]
    pub fn watch_filter(&self) -> &WatchFilter
        ensures { PassesWatched (passes result.now) self.now }
    {
        self.index.filter()
    }

    /// The open instances in the order of their numbers.
    pub fn rows(&self) -> Result<Vec<InstanceRow>, Refusal>
        ensures rows { IfOk result (λ rows. rows.items ≡ map instance_row (finmap.entries self.now)) }
        ensures err { IfErr result (λ refusal. refusal ≡ Enomem) }
    {
        let mut rows = Vec::new(self.alloc);
        for row in &self.opened {
            rows.push(instance_row(self.alloc, row.id, &row.instance)?)?;
        }
        Ok(rows)
    }

    /// Opens an instance with a queue of `limit` records. `Err` is out of memory.
    pub fn open(
        &mut self,
        id: u32,
        limit: u32,
        is_piped: bool,
        limits: &Limits,
    ) -> Result<(), Refusal>
        requires free { instance_of self.old id ≡ None }
        requires limit { IsLimit limit }
        ensures ok { OnOk result (self.new ≡ finmap.insert self.old id (new_instance limits.now limit is_piped)) }
        ensures err { OnErr result (self.new ≡ self.old) }
        ensures memory { IfErr result (λ refusal. refusal ≡ Enomem) }
    {
        let Err(index) = index_of(&self.opened, id, 0) else {
            unreachable!()
        };
        let instance = Instance {
            is_piped,
            watches: Watches::new(self.alloc, limits),
            queue: Queue::with_limit(self.alloc, limit)?,
        };
        match self.opened.insert(index, Opened { id, instance }) {
            Ok(()) => Ok(()),
            Err(_) => Err(Refusal::Enomem),
        }
    }

    /// Closes an instance: its watches are gone, and what waited is given up. It takes no memory. `index` is tried
    /// first.
    pub fn close(&mut self, id: u32, index: usize)
        ensures { self.new ≡ finmap.remove self.old id }
    {
        let Ok(found) = index_of(&self.opened, id, index) else {
            return;
        };
        let closed = self.opened.remove(found);
        forget(&mut self.index, &closed.instance.watches, id);
    }

    /// Watches a file for an instance, and answers the descriptor of the watch. `index` is tried first.
    ///
    /// It is refused as [`Watches::add`] says; then all is as it was.
    pub fn watch(
        &mut self,
        id: u32,
        index: usize,
        number: u32,
        mask: Mask,
        is_directory: bool,
    ) -> Result<i32, Refusal>
        requires there { IsSome (instance_of self.old id) }
        requires mask { mask_fault mask.0 ≡ None }
        ensures wd { IfOk result (λ wd. IfSome (instance_of self.old id) (λ i. wd ≡ wd_added i.watches number)) }
        ensures ok { OnOk result (self.new ≡ changed self.old id (watching number mask.0)) }
        ensures accepted { OnOk result (IfSome (instance_of self.old id)
            (λ i. add_refusal i.watches number mask.0 is_directory ≡ None)) }
        ensures refused { IfSome (instance_of self.old id) (λ i. (r : Refusal)
            → add_refusal i.watches number mask.0 is_directory ≡ Some r → result ≡ Err r) }
        ensures refusals { IfErr result (λ r. IfSome (instance_of self.old id)
            (λ i. (add_refusal i.watches number mask.0 is_directory ≡ Some r) ⊎ (r ≡ Enomem))) }
        ensures err { OnErr result (self.new ≡ self.old) }
    {
        let Ok(found) = index_of(&self.opened, id, index) else {
            unreachable!()
        };
        add_noted(
            &mut self.index,
            &mut self.opened[found].instance.watches,
            id,
            number,
            mask,
            is_directory,
        )
    }

    /// Ends the watch of a descriptor: the instance receives `IN_IGNORED`. It takes no memory. `index` is tried first.
    pub fn unwatch(&mut self, id: u32, index: usize, wd: i32)
        ensures { self.new ≡ changed self.old id (unwatching wd) }
    {
        let mut next = index;
        self.end_watch(id, wd, &mut next);
        self.offer(id, index, ignored(wd));
    }

    /// Takes the oldest records out of an instance's queue. It takes no memory. `index` is tried first.
    pub fn drop_oldest(&mut self, id: u32, index: usize, count: usize)
        ensures { self.new ≡ changed self.old id (after_read count) }
    {
        let Ok(found) = index_of(&self.opened, id, index) else {
            return;
        };
        self.opened[found].instance.queue.drop_oldest(count);
    }

    /// Moves the oldest records out of an instance's queue, to the end of a vector that has the capacity for them. It
    /// takes no memory. `index` is tried first.
    pub fn move_oldest(&mut self, id: u32, index: usize, count: usize, records: &mut Vec<Event>)
        requires room { vec_len records.old + count ≤ vec_capacity records.old }
        ensures instances { self.new ≡ changed self.old id (after_read count) }
        ensures records { records.new.items ≡ records.old.items ++ take count (waiting_of (instance_of self.old id)) }
    {
        let Ok(found) = index_of(&self.opened, id, index) else {
            return;
        };
        move_oldest(&mut self.opened[found].instance.queue, count, records);
    }

    /// The open instance of a number. `next` is tried first, and is then the one behind the instance.
    pub(crate) fn get_next(&self, id: u32, next: &mut usize) -> Option<&Instance>
        ensures { option_copied result ≡ instance_of self.now id }
    {
        let Ok(index) = index_of(&self.opened, id, *next) else {
            return None;
        };
        *next = index + 1;
        Some(&self.opened[index].instance)
    }

    /// Delivers an event to its instance, and the events for it that directly follow. `next` is tried first, and is
    /// then the one behind the instance.
    pub(crate) fn deliver_to(
        &mut self,
        first: StagedEvent,
        events: &mut VecDeque<StagedEvent>,
        next: &mut usize,
    )
        ensures delivered { delivered_all self.new events.new.items
            ≡ delivered_all self.old (first ∷ events.old.items) }
        ensures fewer { deque_len events.new ≤ deque_len events.old }
    {
        let Ok(index) = index_of(&self.opened, first.id, *next) else {
            return;
        };
        *next = index + 1;
        offer_run(&mut self.opened[index].instance.queue, first, events);
    }

    /// Offers an event to the queue of an instance. `index` is tried first.
    pub(crate) fn offer(&mut self, id: u32, index: usize, event: Event)
        ensures { self.new ≡ changed self.old id (λ i. record i { queue = after_offer i.queue event }) }
    {
        let Ok(found) = index_of(&self.opened, id, index) else {
            return;
        };
        offer_one(&mut self.opened[found].instance.queue, event);
    }

    /// Ends the watch of a descriptor, if there is one. `next` is tried first, and is then the one behind the
    /// instance.
    pub(crate) fn end_watch(&mut self, id: u32, wd: i32, next: &mut usize)
        ensures { self.new ≡ changed self.old id (λ i. record i { watches = removed i.watches wd }) }
    {
        let Ok(index) = index_of(&self.opened, id, *next) else {
            return;
        };
        *next = index + 1;
        let watches = &mut self.opened[index].instance.watches;
        let Some(number) = watches.watched_by(wd) else {
            return;
        };
        watches.drop_file(number);
        self.index.remove(number, id);
    }
}

/// Watches a file for an instance, and notes it in the index. What fails leaves both as they were.
fn add_noted(
    index: &mut Index,
    watches: &mut Watches,
    id: u32,
    number: u32,
    mask: Mask,
    is_directory: bool,
) -> Result<i32, Refusal>
    requires mask { mask_fault mask.0 ≡ None }
    requires noted { watch_noted index.old number id ≡ watch_of watches.old number }
    ensures wd { IfOk result (λ wd. wd ≡ wd_added watches.old number) }
    ensures watches { OnOk result (watches.new ≡ added watches.old number mask.0) }
    ensures noted { OnOk result ((n q : ℕ)
        → watch_noted index.new n q
        ≡ (if n == number && q == id then watch_of watches.new number else watch_noted index.old n q)) }
    ensures accepted { OnOk result (add_refusal watches.old number mask.0 is_directory ≡ None) }
    ensures refused { (r : Refusal) → add_refusal watches.old number mask.0 is_directory ≡ Some r → result ≡ Err r }
    ensures refusals { IfErr result (λ r. (add_refusal watches.old number mask.0 is_directory ≡ Some r)
        ⊎ (r ≡ Enomem)) }
    ensures err { OnErr result (watches.new ≡ watches.old) }
    ensures rows { HasSoundRows index.old → HasSoundRows index.new }
    ensures err_noted { OnErr result ((n q : ℕ) → watch_noted index.new n q ≡ watch_noted index.old n q) }
{
    match watches.of(number) {
        Some(before) => match watches.add(number, mask, is_directory) {
            Ok(wd) => {
                let watch = Watch {
                    wd: before.wd,
                    mask: mask.next_bits(before.mask),
                };
                index.set(number, id, watch);
                Ok(wd)
            }
            Err(refusal) => Err(refusal),
        },
        None => add_first(index, watches, id, number, mask, is_directory),
    }
}

/// The same of a file that the instance does not watch.
fn add_first(
    index: &mut Index,
    watches: &mut Watches,
    id: u32,
    number: u32,
    mask: Mask,
    is_directory: bool,
) -> Result<i32, Refusal>
    requires mask { mask_fault mask.0 ≡ None }
    requires unwatched { watch_of watches.old number ≡ None }
    requires noted { watch_noted index.old number id ≡ None }
    ensures wd { IfOk result (λ wd. wd ≡ wd_added watches.old number) }
    ensures watches { OnOk result (watches.new ≡ added watches.old number mask.0) }
    ensures noted { OnOk result ((n q : ℕ)
        → watch_noted index.new n q
        ≡ (if n == number && q == id then watch_of watches.new number else watch_noted index.old n q)) }
    ensures accepted { OnOk result (add_refusal watches.old number mask.0 is_directory ≡ None) }
    ensures refused { (r : Refusal) → add_refusal watches.old number mask.0 is_directory ≡ Some r → result ≡ Err r }
    ensures refusals { IfErr result (λ r. (add_refusal watches.old number mask.0 is_directory ≡ Some r)
        ⊎ (r ≡ Enomem)) }
    ensures err { OnErr result (watches.new ≡ watches.old) }
    ensures rows { HasSoundRows index.old → HasSoundRows index.new }
    ensures err_noted { OnErr result ((n q : ℕ) → watch_noted index.new n q ≡ watch_noted index.old n q) }
{
    // A call that a row refuses allocates nothing.
    if let Err(refusal) = watches.check_new(mask, is_directory) {
        return Err(refusal);
    }
    let bits = mask.stored();
    let watch = Watch {
        wd: watches.next_wd() as i32,
        mask: bits,
    };
    index.put(number, id, watch)?;
    match watches.add_new(number, bits) {
        Ok(wd) => Ok(wd),
        Err(_) => {
            index.remove(number, id);
            Err(Refusal::Enomem)
        }
    }
}

/// Takes the watches of an instance out of the index.
fn forget(index: &mut Index, watches: &Watches, id: u32)
    ensures rows { HasSoundRows index.old → HasSoundRows index.new }
    ensures noted { (n q : ℕ)
        → watch_noted index.new n q
        ≡ (if is_some (watch_of watches.now n) && q == id then None else watch_noted index.old n q) }
{
    for number in watches.numbers() {
        index.remove(*number, id);
    }
}

/// Moves the oldest records out of a queue, behind those of a vector.
fn move_oldest(queue: &mut Queue, count: usize, records: &mut Vec<Event>)
    requires room { vec_len records.old + count ≤ vec_capacity records.old }
    ensures queue { queue.new ≡ record queue.old { waiting = drop count queue.old.waiting } }
    ensures records { records.new.items ≡ records.old.items ++ take count queue.old.waiting }
{
    for _ in 0..count {
        let Some(event) = queue.take() else {
            return;
        };
        records.push_reserved(event);
    }
}
