//! What notices raise for all instances.
ghost use Rattle.std.specs.Prelude.{◌≡◌, ◌≤◌, ◌⊎◌, ℕ, List, [], ◌∷◌, ◌++◌, Some, fold, map, IfErr, OnOk};
ghost use Rattle.std.specs.Option.{option_copied};
ghost use Rattle.std.specs.VecDeque.{deque_len};
ghost use Rattle.tree_paths.specs.declared.refusal.Refusal.TheVariants.{Enomem};
ghost use Rattle.record_codec.specs.Records.{AreEvents, IsEvent};
ghost use Rattle.watch_table.specs.Watching.{IsSound};
ghost use Rattle.event_queue.specs.Backlogs.{after_offer};
ghost use Rattle.event_rules.specs.Raised.{events_of, wds_ended};
ghost use Rattle.event_rules.specs.Staging.{staged_event};
ghost use Rattle.record_codec.specs.declared.event.Event.{Event};
ghost use Rattle.instance_table.specs.declared.instance.Instance.{Instance};
ghost use Rattle.instance_table.specs.Instances.{all_changed, instance_of, told};
ghost use Rattle.instance_table.specs.Heard.{ended_all, delivered_all};
ghost use Rattle.instance_table.specs.Staging.{IsStaged, events_to, wds_to};

use crate::instances::Instances;
use crate::recent_row::RecentRows;
use crate::row::stage_row;
use event_queue::Queue;
use event_rules::{Notice, Staged, StagedEnd, StagedEvent, removals_leave_the_rest};
use record_codec::Event;
use std::alloc::Global;
use std::collections::VecDeque;
use tree_paths::Refusal;

/// What notices raise for their recipients. Its buffers are kept from one call to the next.
#[derive(Drop)]
pub struct Staging {
    pub(crate) staged: Staged,
}

impl Staging {
    /// Nothing. It takes no memory.
    pub fn new(alloc: Global) -> Staging {
        Staging {
            staged: Staged::new(alloc),
        }
    }
}

impl Instances {
    /// Stages what notices raise for the instances, in place of what was staged. It looks only at instances that watch
    /// one of the files, and changes nothing.
    ///
    /// # Errors
    /// `ENOMEM` alone.
    pub fn stage(&self, notices: &[Notice], staging: &mut Staging) -> Result<(), Refusal>
        ensures staged { OnOk result (IsStaged self.now notices.now staging.new) }
        ensures memory { IfErr result (λ refusal. refusal ≡ Enomem) }
    {
        removals_leave_the_rest();
        staging.staged.clear();
        self.stage_each(notices, &mut staging.staged)?;
        self.find_ended(&staging.staged.drops);
        Ok(())
    }

    /// Stages what each notice raises for the watches that the notices before it left.
    fn stage_each(&self, notices: &[Notice], staged: &mut Staged) -> Result<(), Refusal>
        requires events { staged.old.events.items ≡ [] }
        requires drops { staged.old.drops.items ≡ [] }
        ensures events { OnOk result ((q : ℕ) (i : Instance) → instance_of self.now q ≡ Some i
            → events_to q staged.new.events.items ≡ events_of i.watches notices.now) }
        ensures drops { OnOk result ((q : ℕ) (i : Instance) → instance_of self.now q ≡ Some i
            → wds_to q staged.new.drops.items ≡ wds_ended i.watches notices.now) }
        ensures memory { IfErr result (λ refusal. refusal ≡ Enomem) }
    {
        let Some(first) = notices.first() else {
            return Ok(());
        };
        let mut recent = RecentRows::of(self, first.number());
        for (index, notice) in notices.iter().enumerate() {
            let row = recent.row_of(self, notice.number());
            stage_row(row, &notices[..index], notice, staged)?;
        }
        Ok(())
    }

    /// Looks up the instances of which watches end: the watches of each are sound.
    fn find_ended(&self, drops: &[StagedEnd])
        ensures { (q : ℕ) (i : Instance) → instance_of self.now q ≡ Some i
            → (wds_to q drops.now ≡ []) ⊎ IsSound i.watches }
    {
        let mut next = 0;
        for ended in drops {
            self.find_sound(ended.id, &mut next);
        }
    }

    /// Looks up an instance, the watches of which are sound.
    #[inline(always)]
    fn find_sound(&self, id: u32, next: &mut usize)
        ensures { (i : Instance) → instance_of self.now id ≡ Some i → IsSound i.watches }
    {
        if let Some(instance) = self.get_next(id, next) {
            let _next_wd = instance.watches.next_wd();
        }
    }

    /// Delivers what was staged: each instance receives its events, and its watches end. It takes no memory.
    pub fn deliver(&mut self, notices: &[Notice], staging: &mut Staging)
        requires { IsStaged self.old notices.now staging.old }
        ensures { self.new ≡ all_changed self.old (told notices.now) }
    {
        self.deliver_each(&mut staging.staged.events);
        self.end_each(&staging.staged.drops);
    }

    /// Delivers events, one after the other.
    fn deliver_each(&mut self, events: &mut VecDeque<StagedEvent>)
        ensures { self.new ≡ delivered_all self.old events.old.items }
    {
        let mut next = 0;
        while let Some(first) = events.pop_front() {
            self.deliver_to(first, events, &mut next);
        }
    }

    /// Ends watches, one after the other.
    fn end_each(&mut self, drops: &[StagedEnd])
        ensures { self.new ≡ ended_all self.old drops.now }
    {
        let mut next = 0;
        for ended in drops {
            self.end_watch(ended.id, ended.wd, &mut next);
        }
    }
}

/// An event's values fit their types, and its name is a name.
fn fits(event: &Event)
    ensures { IsEvent event.now }
{
    let (_wd, _mask, _cookie) = (event.wd, event.mask, event.cookie);
    if let Some(name) = &event.name {
        let _bytes = name.bytes();
    }
}

/// Offers an event to a queue. What waits in it are events before and after.
#[inline(always)]
pub(crate) fn offer_one(queue: &mut Queue, event: Event)
    ensures queue { queue.new ≡ after_offer queue.old event }
    ensures events { AreEvents queue.old.waiting → AreEvents queue.new.waiting }
{
    fits(&event);
    queue.offer(event);
}

/// Offers an event to a queue, and those behind it for the same instance.
pub(crate) fn offer_run(queue: &mut Queue, first: StagedEvent, events: &mut VecDeque<StagedEvent>)
    ensures queue { (es : List Event) × (first ∷ events.old.items ≡ map (staged_event first.id) es ++ events.new.items)
        × (queue.new ≡ fold after_offer queue.old es) }
    ensures events { AreEvents queue.old.waiting → AreEvents queue.new.waiting }
    ensures fewer { deque_len events.new ≤ deque_len events.old }
{
    let id = first.id;
    offer_one(queue, first.event);
    while let Some(heard) = events.front()
        && heard.id == id
    {
        let Some(heard) = events.pop_front() else {
            unreachable!()
        };
        offer_one(queue, heard.event);
    }
}
