//! What is at the marks.
ghost use Rattle.std.specs.Prelude.{◌≡◌, ◌<◌, IfSome, option_map};
ghost use Rattle.machine_data.specs.Moves.{first_entry};
ghost use Rattle.machine_data.specs.Read.{next_entry};
ghost use Rattle.core_records.specs.Seen.{IsSoundCore, seen};
ghost use Rattle.core_primitives.specs.Names.{entry_in};
ghost use Rattle.core_primitives.specs.StateView.{thread_of, thread_if_any};

use crate::order_keys::{entry_id, first_queued};
use core_primitives::{EntryId, ThreadId};
use core_records::{CoreParts, thread_at};
use machine_data::Mark;

/// Returns the thread at switch.
pub fn switch(parts: &CoreParts) -> Option<ThreadId>
    requires { IsSoundCore parts.now }
    ensures is { thread_if_any (seen parts.now) result ≡ (seen parts.now).core.queues.switch }
    ensures live { IfSome result (λ id. 0 < thread_of (seen parts.now) id) }
{
    match parts.switch {
        Some(first) => Some(thread_at(parts, first.place)),
        None => None,
    }
}

/// Returns the thread of the first entry of an instance, at high, else at low.
pub fn first_entry(parts: &CoreParts, instance: u32) -> Option<ThreadId>
    requires { IsSoundCore parts.now }
    ensures is { thread_if_any (seen parts.now) result ≡ first_entry instance (seen parts.now).core }
    ensures live { IfSome result (λ id. 0 < thread_of (seen parts.now) id) }
{
    match core_records::instance(parts, instance) {
        Some(record) => match first_queued(&parts.instance_queues, Some(record.high)) {
            Some(queued) => Some(thread_at(parts, queued.place)),
            None => match first_queued(&parts.instance_queues, Some(record.low)) {
                Some(queued) => Some(thread_at(parts, queued.place)),
                None => None,
            },
        },
        None => None,
    }
}

/// Returns the entry that is taken next, with its mark.
#[inline(always)]
pub fn next_entry(parts: &CoreParts) -> Option<(Mark, EntryId)>
    requires { IsSoundCore parts.now }
    ensures { option_map (λ e. (e.0, entry_in (seen parts.now).tags e.1)) result ≡ next_entry (seen parts.now).core }
{
    match parts.switch {
        Some(first) => {
            let id = EntryId::Thread(thread_at(parts, first.place));
            Some((Mark::Switch, id))
        }
        None => match first_queued(&parts.marks, parts.high) {
            Some(queued) => Some((Mark::High, entry_id(parts, queued))),
            None => match first_queued(&parts.marks, parts.low) {
                Some(queued) => Some((Mark::Low, entry_id(parts, queued))),
                None => None,
            },
        },
    }
}
