//! The events that notices raise for the watches of an instance.

ghost use Rattle.std.specs.Prelude.{◌≡◌, ◌++◌, [], Some, fold, map, IfOk, IfErr, OnOk};
ghost use Rattle.watch_table.specs.Masks.{has_any};
ghost use Rattle.watch_table.specs.Watching.{removed, watch_of};
ghost use Rattle.event_rules.specs.Staging.{staged_end, staged_event};
ghost use Rattle.event_rules.specs.Raised.{asks_for, ended_by, ends_watch, event_told, events_of, ignored, raised_at};
ghost use Rattle.event_rules.specs.Raised.{watches_after, wds_ended};
ghost use Rattle.event_rules.specs.Recent.{AreFound};

use crate::laws::{removals_leave_the_rest, removed_watches_are_left_out};
use crate::notice::{NO_COOKIE, Notice};
use crate::recent_watch::Recent;
use record_codec::{Event, bits};
use std::alloc::{AllocError, Global};
use std::collections::VecDeque;
use tree_paths::Refusal;
use watch_table::{Watch, Watches};

/// An event that an instance gets.
#[derive(Debug, Drop, PartialEq, Eq)]
pub struct StagedEvent {
    /// The number of the instance.
    pub id: u32,
    /// The event.
    pub event: Event,
}

/// A watch of an instance that ends.
#[derive(Clone, Copy, Debug, PartialEq, Eq)]
pub struct StagedEnd {
    /// The number of the instance.
    pub id: u32,
    /// The descriptor of the watch.
    pub wd: i32,
}

/// What notices raise for instances. `clear` keeps the capacity for reuse.
#[derive(Drop)]
pub struct Staged {
    /// The events, for each instance in order.
    pub events: VecDeque<StagedEvent>,
    /// The watches that end, for each instance in order. [`Watches::remove`] of each in turn leaves the others.
    pub drops: Vec<StagedEnd>,
    // The descriptors of the watches that end of the instance that was staged last.
    wds: Vec<i32>,
}

impl Staged {
    /// Nothing. It takes no memory.
    pub fn new(alloc: Global) -> Staged
        ensures events { result.events.items ≡ [] }
        ensures drops { result.drops.items ≡ [] }
    {
        Staged {
            events: VecDeque::new(alloc),
            drops: Vec::new(alloc),
            wds: Vec::new(alloc),
        }
    }

    /// Empties it.
    pub fn clear(&mut self)
        ensures events { self.new.events.items ≡ [] }
        ensures drops { self.new.drops.items ≡ [] }
    {
        self.events.clear();
        self.drops.clear();
    }
}

/// The event that says that the watch of a descriptor has ended. It takes no memory.
pub fn ignored(wd: i32) -> Event
    ensures { result ≡ ignored wd }
{
    Event {
        wd,
        mask: bits::IN_IGNORED,
        cookie: NO_COOKIE,
        name: None,
    }
}

/// Stages for an instance the events that notices raise, and the watches that they end, behind what was staged.
///
/// # Errors
/// `ENOMEM` alone.
pub fn stage(
    id: u32,
    watches: &Watches,
    notices: &[Notice],
    staged: &mut Staged,
) -> Result<(), Refusal>
    ensures events { OnOk result (staged.new.events.items
        ≡ staged.old.events.items ++ map (staged_event id) (events_of watches.now notices.now)) }
    ensures drops { OnOk result (staged.new.drops.items
        ≡ staged.old.drops.items ++ map (staged_end id) (wds_ended watches.now notices.now)) }
    ensures left { OnOk result (fold removed watches.now (wds_ended watches.now notices.now)
        ≡ watches_after watches.now notices.now) }
    ensures memory { IfErr result (λ refusal. refusal ≡ Refusal.Enomem) }
{
    removals_leave_the_rest();
    let _next_wd = watches.next_wd();
    staged.wds.clear();
    stage_events(id, watches, notices, &mut staged.events, &mut staged.wds)?;
    stage_ends(id, &staged.wds, &mut staged.drops)?;
    Ok(())
}

/// Stages for an instance what one notice raises for the watch that the instance has for its file, behind what was
/// staged. A watch that the notice ends gets `IN_IGNORED`, and is among the watches that end.
///
/// # Errors
/// `ENOMEM` alone.
#[inline(always)]
pub fn stage_watch(
    id: u32,
    watch: Watch,
    notice: &Notice,
    staged: &mut Staged,
) -> Result<(), Refusal>
    ensures events { OnOk result (staged.new.events.items
        ≡ staged.old.events.items ++ map (staged_event id) (raised_at notice.now (Some watch))) }
    ensures drops { OnOk result (staged.new.drops.items
        ≡ staged.old.drops.items ++ map (staged_end id) (ended_by notice.now (Some watch))) }
    ensures memory { IfErr result (λ refusal. refusal ≡ Refusal.Enomem) }
{
    if push_events(id, watch, notice, &mut staged.events)? {
        staged.drops.push(StagedEnd { id, wd: watch.wd })?;
    }
    Ok(())
}

/// Stages the events that notices raise for an instance, and the descriptors of the watches that they end, behind none.
fn stage_events(
    id: u32,
    watches: &Watches,
    notices: &[Notice],
    events: &mut VecDeque<StagedEvent>,
    wds: &mut Vec<i32>,
) -> Result<(), AllocError>
    requires { wds.old.items ≡ [] }
    ensures events { OnOk result (events.new.items
        ≡ events.old.items ++ map (staged_event id) (events_of watches.now notices.now)) }
    ensures ended { OnOk result (wds.new.items ≡ wds_ended watches.now notices.now) }
{
    removals_leave_the_rest();
    let _next_wd = watches.next_wd();
    let Some(first) = notices.first() else {
        return Ok(());
    };
    let mut recent = Recent::of(watches, first.number());
    for notice in notices {
        let watch = watch_left(watches, wds, notice.number(), &mut recent);
        stage_notice(id, watch, notice, events, wds)?;
    }
    Ok(())
}

/// Stages the watches of an instance that end.
fn stage_ends(id: u32, wds: &[i32], drops: &mut Vec<StagedEnd>) -> Result<(), AllocError>
    ensures { OnOk result (drops.new.items ≡ drops.old.items ++ map (staged_end id) wds.now) }
{
    for wd in wds {
        drops.push(StagedEnd { id, wd: *wd })?;
    }
    Ok(())
}

/// Stages what a notice raises for the watch of its file, and the descriptor of the watch where it ends that.
#[inline(always)]
fn stage_notice(
    id: u32,
    watch: Option<Watch>,
    notice: &Notice,
    events: &mut VecDeque<StagedEvent>,
    wds: &mut Vec<i32>,
) -> Result<(), AllocError>
    ensures events { OnOk result (events.new.items
        ≡ events.old.items ++ map (staged_event id) (raised_at notice.now watch)) }
    ensures ended { OnOk result (wds.new.items ≡ wds.old.items ++ ended_by notice.now watch) }
{
    let Some(watch) = watch else {
        return Ok(());
    };
    if push_events(id, watch, notice, events)? {
        wds.push(watch.wd)?;
    }
    Ok(())
}

/// Adds what a notice raises for a watch of its file. The answer is whether it ends the watch.
#[inline(always)]
fn push_events(
    id: u32,
    watch: Watch,
    notice: &Notice,
    events: &mut VecDeque<StagedEvent>,
) -> Result<bool, AllocError>
    ensures events { OnOk result (events.new.items
        ≡ events.old.items ++ map (staged_event id) (raised_at notice.now (Some watch))) }
    ensures ends { IfOk result (λ ends. ends ≡ ends_watch notice.now watch) }
{
    push_told(id, notice, watch, events)?;
    let ends = ends_watch(notice, watch);
    if ends {
        let event = ignored(watch.wd);
        events.push_back(StagedEvent { id, event })?;
    }
    Ok(ends)
}

/// Adds the event of a notice, where the watch asks for it. It is made in the slot that it is kept in.
#[inline(always)]
fn push_told(
    id: u32,
    notice: &Notice,
    watch: Watch,
    events: &mut VecDeque<StagedEvent>,
) -> Result<(), AllocError>
    ensures { OnOk result (events.new.items ≡ events.old.items ++ map (staged_event id) (event_told notice.now watch)) }
{
    let Notice::Told {
        bits,
        cookie,
        name,
        ..
    } = notice
    else {
        return Ok(());
    };
    if !asks_for(watch, *bits) {
        return Ok(());
    }
    events.reserve(1)?;
    let name = match name {
        Some(name) => Some(name.copy()?),
        None => None,
    };
    events.push_back_reserved(StagedEvent {
        id,
        event: Event {
            wd: watch.wd,
            mask: *bits,
            cookie: *cookie,
            name,
        },
    });
    Ok(())
}

/// The watch of a file, where it is left without the descriptors.
#[inline(always)]
fn watch_left(watches: &Watches, wds: &[i32], number: u32, recent: &mut Recent) -> Option<Watch>
    requires { AreFound watches.now recent.old }
    ensures watch { result ≡ watch_of (fold removed watches.now wds.now) number }
    ensures found { AreFound watches.now recent.new }
{
    removed_watches_are_left_out();
    let _next_wd = watches.next_wd();
    let watch = recent.watch_of(watches, number)?;
    if wds.contains(&watch.wd) {
        return None;
    }
    Some(watch)
}

/// Whether a mask has one of these bits.
pub(crate) fn has_any(mask: u32, bits: u32) -> bool
    ensures { result ≡ has_any mask bits }
{
    mask & bits != 0
}

/// Whether a watch asks for the event of these bits.
fn asks_for(watch: Watch, bits: u32) -> bool
    ensures { result ≡ asks_for watch bits }
{
    has_any(watch.mask, bits & bits::IN_ALL_EVENTS)
}

/// Whether a notice ends the watch of its file.
fn ends_watch(notice: &Notice, watch: Watch) -> bool
    ensures { result ≡ ends_watch notice.now watch }
{
    match notice {
        Notice::Told { bits, .. } => asks_for(watch, *bits)
            && has_any(watch.mask, bits::IN_ONESHOT),
        Notice::Gone { .. } => true,
    }
}
