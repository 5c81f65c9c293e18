//! What a notice raises for the instances that watch its file.
ghost use Rattle.std.specs.Prelude.{◌≡◌, ◌++◌, ℕ, Some, [], map, IfErr, OnOk};
ghost use Rattle.std.specs.FinMap as finmap;
ghost use Rattle.std.specs.Option.{option_copied};
ghost use Rattle.tree_paths.specs.declared.refusal.Refusal.TheVariants.{Enomem};
ghost use Rattle.event_rules.specs.Raised.{ended_by, raised_at, told_number};
ghost use Rattle.event_rules.specs.Staging.{left_before, staged_end, staged_event};
ghost use Rattle.instance_table.specs.Staging.{events_to, wds_to};
ghost use Rattle.file_watchers.specs.Watchers.{AreWatchers, watchers_map};
ghost use Rattle.instance_table.specs.Watchers.{row_or_none, unless_ended};

use event_rules::{EndedWatches, Notice, Staged, stage_watch};
use file_watchers::Watchers;
use tree_paths::Refusal;
use watch_table::Watch;

/// Stages what a notice raises for the instances that watch its file, behind what was staged, by the watches that the
/// notices before it left. Where none is staged as ended, these are all.
#[inline(always)]
pub(crate) fn stage_row(
    row: Option<&Watchers>,
    before: &[Notice],
    notice: &Notice,
    staged: &mut Staged,
) -> Result<(), Refusal>
    requires { staged.old.drops.items ≡ [] → (q : ℕ)
        → left_before before.now (told_number notice.now) (finmap.get (row_or_none (option_copied row)) q)
        ≡ finmap.get (row_or_none (option_copied row)) q }
    ensures events { OnOk result ((q : ℕ) → events_to q staged.new.events.items
        ≡ events_to q staged.old.events.items ++ raised_at notice.now
        (left_before before.now (told_number notice.now) (finmap.get (row_or_none (option_copied row.entry)) q))) }
    ensures drops { OnOk result ((q : ℕ) → wds_to q staged.new.drops.items
        ≡ wds_to q staged.old.drops.items ++ ended_by notice.now
        (left_before before.now (told_number notice.now) (finmap.get (row_or_none (option_copied row.entry)) q))) }
    ensures memory { IfErr result (λ refusal. refusal ≡ Enomem) }
{
    let Some(row) = row else {
        return Ok(());
    };
    let (ids, watches) = row.as_slices();
    if staged.drops.is_empty() {
        return stage_all(ids, watches, notice, staged);
    }
    let ended = EndedWatches::of(before, notice.number());
    stage_rest(ids, watches, &ended, notice, staged)
}

/// Stages what a notice raises for each of the watches of its file.
fn stage_all(
    ids: &[u32],
    watches: &[Watch],
    notice: &Notice,
    staged: &mut Staged,
) -> Result<(), Refusal>
    requires watchers { AreWatchers ids.now watches.now }
    ensures events { OnOk result ((q : ℕ) → events_to q staged.new.events.items
        ≡ events_to q staged.old.events.items
        ++ raised_at notice.now (finmap.get (watchers_map ids.now watches.now) q)) }
    ensures drops { OnOk result ((q : ℕ) → wds_to q staged.new.drops.items
        ≡ wds_to q staged.old.drops.items
        ++ ended_by notice.now (finmap.get (watchers_map ids.now watches.now) q)) }
    ensures memory { IfErr result (λ refusal. refusal ≡ Enomem) }
{
    for index in 0..ids.len() {
        stage_watch(ids[index], watches[index], notice, staged)?;
    }
    Ok(())
}

/// Stages what a notice raises for those of the watches of its file that have not ended.
fn stage_rest(
    ids: &[u32],
    watches: &[Watch],
    ended: &EndedWatches,
    notice: &Notice,
    staged: &mut Staged,
) -> Result<(), Refusal>
    requires watchers { AreWatchers ids.now watches.now }
    ensures events { OnOk result ((q : ℕ) → events_to q staged.new.events.items
        ≡ events_to q staged.old.events.items
        ++ raised_at notice.now (unless_ended ended.now (finmap.get (watchers_map ids.now watches.now) q))) }
    ensures drops { OnOk result ((q : ℕ) → wds_to q staged.new.drops.items
        ≡ wds_to q staged.old.drops.items
        ++ ended_by notice.now (unless_ended ended.now (finmap.get (watchers_map ids.now watches.now) q))) }
    ensures memory { IfErr result (λ refusal. refusal ≡ Enomem) }
{
    for index in 0..ids.len() {
        stage_left(ids[index], watches[index], ended, notice, staged)?;
    }
    Ok(())
}

/// Stages what a notice raises for a watch of its file, unless the watch has ended.
#[inline(always)]
fn stage_left(
    id: u32,
    watch: Watch,
    ended: &EndedWatches,
    notice: &Notice,
    staged: &mut Staged,
) -> Result<(), Refusal>
    ensures events { OnOk result (staged.new.events.items ≡ staged.old.events.items
        ++ map (staged_event id) (raised_at notice.now (unless_ended ended.now (Some watch)))) }
    ensures drops { OnOk result (staged.new.drops.items ≡ staged.old.drops.items
        ++ map (staged_end id) (ended_by notice.now (unless_ended ended.now (Some watch)))) }
    ensures memory { IfErr result (λ refusal. refusal ≡ Enomem) }
{
    if ended.has_ended(watch) {
        return Ok(());
    }
    stage_watch(id, watch, notice, staged)
}
