//! Open instances as rows.

ghost use Rattle.std.specs.Prelude.{◌≡◌, IfOk, IfErr};
ghost use Rattle.instance_table.specs.Rows.{instance_row};

use crate::instance::Instance;
use event_queue::Queue;
use record_codec::Events;
use std::alloc::{AllocError, Global};
use tree_paths::Refusal;
use watch_table::WatchRows;

/// An open instance: its number, how many records may wait, whether they go through a pipe, its watches by their
/// descriptors, the next descriptor, and the records that wait, the oldest first.
#[derive(Drop)]
pub struct InstanceRow {
    pub id: u32,
    pub limit: u32,
    pub piped: bool,
    pub watches: WatchRows,
    pub next_wd: u32,
    pub waiting: Events,
}

/// The row of an instance.
pub(crate) fn instance_row(
    alloc: Global,
    id: u32,
    instance: &Instance,
) -> Result<InstanceRow, Refusal>
    ensures ok { IfOk result (λ row. row ≡ instance_row (id, instance.now)) }
    ensures err { IfErr result (λ refusal. refusal ≡ Refusal.Enomem) }
{
    Ok(InstanceRow {
        id,
        limit: instance.queue.limit(),
        piped: instance.is_piped,
        watches: instance.watches.rows()?,
        next_wd: instance.watches.next_wd(),
        waiting: waiting(alloc, &instance.queue)?,
    })
}

/// Returns a copy of the records that wait.
fn waiting(alloc: Global, queue: &Queue) -> Result<Events, AllocError>
    ensures { IfOk result (λ events. events ≡ queue.now.waiting) }
{
    let mut events = Vec::new(alloc);
    for index in 0..queue.len() {
        let Some(event) = queue.peek(index) else {
            unreachable!()
        };
        events.push(event.copy()?)?;
    }
    Ok(Events::from_vec(events))
}
