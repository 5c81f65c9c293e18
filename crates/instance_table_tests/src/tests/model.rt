//! What instances hold after calls and notices, beside a model: the same instances one after the other, each notified
//! by `stage` of `event_rules`. Files are watched by one, two and more instances.

use super::*;
use event_queue::Queue;
use event_rules::{Staged, ignored, stage};
use instance_table::Instance;
use record_codec::Name;
use record_codec::bits::{IN_ATTRIB, IN_ISDIR, IN_MASK_ADD};
use watch_table::{Watch, Watches};

/// How many instances and files there are, numbered from 0 on.
const COUNT: u32 = 20;

const FILES: u32 = 6;

/// How many lists of up to nine notices are made.
const LISTS: u32 = 400;

/// Numbers that follow from a fixed seed. Calm ones end no watches but by calls.
#[derive(Drop)]
struct Numbers {
    state: u32,
    is_calm: bool,
}

impl Numbers {
    /// A number below another one.
    fn below(&mut self, end: u32) -> u32 {
        self.state = self
            .state
            .wrapping_mul(1_664_525)
            .wrapping_add(1_013_904_223);
        (self.state >> 16) % end.max(1)
    }

    /// The bits of a watch.
    fn bits(&mut self) -> u32 {
        let kinds = if self.is_calm { 4 } else { 9 };
        match self.below(kinds) {
            0 => IN_CREATE,
            1 => IN_ATTRIB,
            2 => IN_CREATE | IN_MASK_ADD,
            3 => IN_ATTRIB | IN_MASK_ADD,
            4 => IN_ALL_EVENTS,
            5 => IN_ALL_EVENTS | IN_ONESHOT,
            6 => IN_CREATE | IN_ONESHOT,
            7 => IN_DELETE_SELF | IN_ONESHOT,
            _ => IN_ATTRIB | IN_CREATE | IN_ONESHOT,
        }
    }

    /// A notice of one of the files: of an event, or that the file is gone.
    fn notice(&mut self, alloc: Global) -> Result<Notice, Refusal> {
        let number = self.below(FILES);
        let bits = match self.below(6) {
            0 if !self.is_calm => return Ok(Notice::Gone { number }),
            1 => IN_DELETE_SELF,
            2 => IN_ATTRIB | IN_ISDIR,
            3 => IN_ATTRIB,
            _ => IN_CREATE,
        };
        Ok(Notice::Told {
            number,
            bits,
            cookie: self.below(3),
            name: self.name(alloc)?,
        })
    }

    /// A name of 30 to 60 bytes, or none.
    fn name(&mut self, alloc: Global) -> Result<Option<Name>, Refusal> {
        if self.below(3) == 0 {
            return Ok(None);
        }
        let text = [b'n'; 60];
        let len = 30 + self.below(31) as usize;
        Ok(Name::new(alloc, &text[..len.min(60)])?)
    }
}

/// The instances, and the model: the same instances one after the other.
struct Both {
    alloc: Global,
    instances: Instances,
    model: Vec<Instance>,
}

impl Drop for Both {
    fn drop(self) {
        let Both {
            alloc: _,
            instances: _,
            model: _,
        } = self;
    }
}

/// An instance of the model.
fn new_instance(alloc: Global) -> Result<Instance, Refusal> {
    Ok(Instance {
        is_piped: false,
        watches: Watches::new(alloc, &Limits::full()),
        queue: Queue::with_limit(alloc, 10)?,
    })
}

impl Both {
    fn new(alloc: Global) -> Result<Both, Refusal> {
        let mut instances = Instances::new(alloc);
        let mut model = Vec::new(alloc);
        for id in 0..COUNT {
            open(&mut instances, id)?;
            model.push(new_instance(alloc)?)?;
        }
        Ok(Both {
            alloc,
            instances,
            model,
        })
    }

    /// Watches a file for an instance.
    fn watch(&mut self, id: u32, number: u32, bits: u32) -> Result<(), Refusal> {
        let mask = Mask::of(bits);
        if mask.fault().is_some() {
            return Ok(());
        }
        if let Some(instance) = self.model.get_mut(id as usize) {
            instance.watches.add(number, mask, false)?;
        }
        watch(&mut self.instances, id, number, bits)?;
        Ok(())
    }

    /// Ends the watch of a file, if there is one.
    fn unwatch(&mut self, id: u32, number: u32) -> Result<(), Refusal> {
        let Some(instance) = self.model.get_mut(id as usize) else {
            return Ok(());
        };
        if let Some(Watch { wd, .. }) = instance.watches.of(number) {
            instance.watches.remove(wd)?;
            instance.queue.offer(ignored(wd));
            self.instances.unwatch(id, 0, wd);
        }
        Ok(())
    }

    /// Closes an instance, and opens it anew.
    fn reopen(&mut self, id: u32) -> Result<(), Refusal> {
        self.instances.close(id, 0);
        open(&mut self.instances, id)?;
        if let Some(instance) = self.model.get_mut(id as usize) {
            *instance = new_instance(self.alloc)?;
        }
        Ok(())
    }

    /// Notifies both.
    fn tell(&mut self, notices: &[Notice], staging: &mut Staging) -> Result<(), Refusal> {
        self.instances.stage(notices, staging)?;
        self.instances.deliver(notices, staging);
        for instance in &mut self.model {
            let mut staged = Staged::new(self.alloc);
            stage(0, &instance.watches, notices, &mut staged)?;
            receive(instance, &staged)?;
        }
        Ok(())
    }

    /// Reads some of the oldest records of an instance.
    fn read(&mut self, id: u32, count: usize) {
        self.instances.drop_oldest(id, 0, count);
        if let Some(instance) = self.model.get_mut(id as usize) {
            instance.queue.drop_oldest(count);
        }
    }

    /// Whether the instances are as the model says.
    fn are_alike(&self) -> bool {
        let mut id: u32 = 0;
        for wanted in &self.model {
            match self.instances.get(id) {
                Some(instance) if has_same(instance, wanted) => {}
                _ => return false,
            }
            id = id.saturating_add(1);
        }
        for number in 0..FILES {
            if !are_watchers(&self.instances, &self.model, number) {
                return false;
            }
        }
        true
    }
}

/// Gives an instance the events that were staged for it, and ends its watches.
fn receive(instance: &mut Instance, staged: &Staged) -> Result<(), Refusal> {
    for heard in &staged.events {
        instance.queue.offer(heard.event.copy()?);
    }
    for ended in &staged.drops {
        instance.watches.remove(ended.wd)?;
    }
    Ok(())
}

/// Whether an instance has the same watches as another, and the same records waiting.
fn has_same(one: &Instance, other: &Instance) -> bool {
    for number in 0..FILES {
        if one.watches.of(number) != other.watches.of(number) {
            return false;
        }
    }
    for index in 0..12 {
        if one.queue.peek(index) != other.queue.peek(index) {
            return false;
        }
    }
    one.queue.len() == other.queue.len()
}

/// Whether the watchers of a file are those of the model, in the order of their numbers.
fn are_watchers(instances: &Instances, model: &[Instance], number: u32) -> bool {
    let mut ids = instances.watchers(number).iter();
    let mut id: u32 = 0;
    for instance in model {
        if instance.watches.of(number).is_some() && ids.next() != Some(&id) {
            return false;
        }
        id = id.saturating_add(1);
    }
    ids.next().is_none()
}

/// Makes some calls, notifies both, and reads some records.
fn step(both: &mut Both, numbers: &mut Numbers, staging: &mut Staging) -> Result<(), Refusal> {
    for _ in 0..numbers.below(24) {
        let (id, number) = (numbers.below(COUNT), numbers.below(FILES));
        match numbers.below(32) {
            0 => both.reopen(id)?,
            1 => both.instances = both.instances.copy()?,
            2..9 => both.unwatch(id, number)?,
            _ => both.watch(id, number, numbers.bits())?,
        }
    }
    let mut notices = Vec::new(both.alloc);
    for _ in 0..numbers.below(10) {
        notices.push(numbers.notice(both.alloc)?)?;
    }
    both.tell(&notices, staging)?;
    for _ in 0..4 {
        both.read(numbers.below(COUNT), numbers.below(12) as usize);
    }
    Ok(())
}

/// Makes lists of notices from a state, after each of which the instances are as the model says.
fn agrees(rt: &impl Abort, both: &mut Both, state: u32, is_calm: bool) {
    let mut numbers = Numbers { state, is_calm };
    let mut staging = Staging::new(both.alloc);
    for list in 0..LISTS {
        step(both, &mut numbers, &mut staging).expect(rt, "memory");
        let is_well = both.are_alike();
        assert!(rt; is_well, "list {list} from {state}, calm: {is_calm}");
    }
}

#[test]
fn instances_hold_what_the_model_says(rt: HostRuntime) {
    for (state, is_calm) in [(20_261_127, false), (7, false), (20_261_127, true)] {
        let mut both = Both::new(rt.alloc()).expect(&rt, "memory");
        agrees(&rt, &mut both, state, is_calm);
    }
}

/// Whether the file loses its watchers one by one until it is unwatched, and is then watched again.
fn is_left_by_all(alloc: Global, count: u32) -> Result<bool, Refusal> {
    let mut both = Both::new(alloc)?;
    let mut staging = Staging::new(alloc);
    let mut notices = Vec::new(alloc);
    notices.push(told(IN_CREATE))?;
    for id in 0..count {
        both.watch(id.wrapping_mul(7) % COUNT, FILE, IN_CREATE)?;
    }
    let mut is_well = true;
    for id in 0..count {
        both.tell(&notices, &mut staging)?;
        is_well = is_well && both.are_alike() && both.instances.is_watching();
        both.unwatch(id.wrapping_mul(7) % COUNT, FILE)?;
    }
    is_well = is_well && both.are_alike() && !both.instances.is_watching();
    both.watch(3, FILE, IN_CREATE)?;
    both.tell(&notices, &mut staging)?;
    Ok(is_well && both.are_alike())
}

#[test]
fn a_file_is_unwatched_where_all_have_ended(rt: HostRuntime) {
    for count in 1..=COUNT {
        let is_well = is_left_by_all(rt.alloc(), count).expect(&rt, "memory");
        assert!(rt; is_well, "{count} watchers");
    }
}
