//! Live threads and works, and the chains that their entries go to.
ghost use Rattle.std.specs.Prelude.{◌≡◌, ◌<◌, IfSome, IsSome, Ok, Some, slice_get};
ghost use Rattle.table_lists.specs.Rows.{values, with_nodes};
ghost use Rattle.table_links.specs.Links.{entries, list_of};
ghost use Rattle.core_records.specs.Image.{chained};
ghost use Rattle.core_records.specs.Kinds.{item_of};
ghost use Rattle.core_records.specs.Rows.{High, IsKeyed, Low, host_entry, row_chain, instance_queue_chain, thread_entry};
ghost use Rattle.core_records.specs.Seen.{IsSoundCore, parts_of, seen};
ghost use Rattle.core_records.specs.Sound.{bare};
ghost use Rattle.task_table.specs.TableAnswers.{item_at};
ghost use Rattle.core_primitives.specs.Names.{entry_in};
ghost use Rattle.core_primitives.specs.StateView.{thread_of, work_of};
ghost use Rattle.core_queues.specs.OrderKeys.{top};

use core_primitives::{EntryId, ThreadId, WorkId};
use core_records::{CoreParts, GuestThread, Queued, WorkRecord, thread_at_unchecked, work_at};
use machine_data::Entry;
use table_links::Links;

/// Returns the record of a thread that is there.
pub(crate) fn live_thread(parts: &CoreParts, id: ThreadId) -> GuestThread
    requires sound { IsSoundCore parts.now }
    requires live { 0 < thread_of (seen parts.now) id }
    ensures { Ok result ≡ item_at item_of parts.now.threads id.rep id.serial }
{
    *core_records::thread_there(parts, id)
}

/// Returns the record of a host work that is there.
pub(crate) fn live_work(parts: &CoreParts, id: WorkId) -> WorkRecord
    requires sound { IsSoundCore parts.now }
    requires live { 0 < work_of (seen parts.now) id }
    ensures { Ok result ≡ item_at item_of parts.now.works id.rep id.serial }
{
    *core_records::work_there(parts, id)
}

/// Returns the entry of the thread at a place.
pub(crate) fn entry_of(place: u32, thread: GuestThread) -> Queued
    ensures { result ≡ thread_entry place thread }
{
    Queued {
        entry: Entry::Thread {
            thread: thread.number,
        },
        place,
        instance: Some(thread.instance),
        mark: thread.mark,
        instance_queue: thread.instance_queue,
    }
}

/// Returns the host entry of the work at a place.
pub(crate) fn host_entry_of(place: u32, work: WorkRecord) -> Queued
    ensures { result ≡ host_entry place work }
{
    Queued {
        entry: Entry::Host { work: work.number },
        place,
        instance: None,
        mark: work.mark,
        instance_queue: work.mark,
    }
}

/// Returns the chain of high, and that of an instance's entries there.
pub(crate) fn high_chains(parts: &CoreParts, instance: u32) -> (usize, usize)
    requires sound { IsSoundCore parts.now }
    requires within { IsSome (slice_get parts.now.instances.items instance) }
    ensures mark { row_chain (bare (parts_of parts.now)) High ≡ Some result.0 }
    ensures instance_queue { instance_queue_chain (bare (parts_of parts.now)) (instance, High) ≡ Some result.1 }
{
    match parts.high {
        Some(mark) => (mark, parts.instances[instance as usize].high),
        None => unreachable!(),
    }
}

/// Returns the chain of low, and that of an instance's entries there.
pub(crate) fn low_chains(parts: &CoreParts, instance: u32) -> (usize, usize)
    requires sound { IsSoundCore parts.now }
    requires within { IsSome (slice_get parts.now.instances.items instance) }
    ensures mark { row_chain (bare (parts_of parts.now)) Low ≡ Some result.0 }
    ensures instance_queue { instance_queue_chain (bare (parts_of parts.now)) (instance, Low) ≡ Some result.1 }
{
    match parts.low {
        Some(mark) => (mark, parts.instances[instance as usize].low),
        None => unreachable!(),
    }
}

/// Returns the first entry of a chain, where it was made.
pub(crate) fn first_queued(links: &Links<Queued>, chain: Option<usize>) -> Option<Queued>
    requires { IfSome chain (λ c. IsSome (list_of links.now c)) }
    ensures { result ≡ top (chained links.now chain) }
{
    match chain {
        Some(chain) => match links.first(chain) {
            Some((_, queued)) => Some(queued),
            None => None,
        },
        None => None,
    }
}

/// Returns the first entry of a mark, where its chain was made. Its node is the one at which it was found, so that it leaves
/// without a second look.
#[inline(always)]
pub(crate) fn first_marked(links: &Links<Queued>, chain: Option<usize>) -> Option<Queued>
    requires live { IfSome chain (λ c. IsSome (list_of links.now c)) }
    requires nodes { IfSome chain (λ c. entries links.now c ≡ with_nodes (λ q. q.mark.index) (values links.now c)) }
    ensures { result ≡ top (chained links.now chain) }
{
    match chain {
        Some(chain) => match links.first(chain) {
            Some((mark, queued)) => Some(Queued { mark, ..queued }),
            None => None,
        },
        None => None,
    }
}

/// Returns the id of an entry.
pub(crate) fn entry_id(parts: &CoreParts, queued: Queued) -> EntryId
    requires sound { IsSoundCore parts.now }
    requires keyed { IsKeyed (bare (parts_of parts.now)) queued }
    ensures { entry_in (seen parts.now).tags result ≡ queued.entry }
{
    match queued.entry {
        Entry::Thread { .. } => EntryId::Thread(thread_at_unchecked(parts, queued.place)),
        Entry::Push { .. } => EntryId::Push(work_at(parts, queued.place)),
        Entry::Host { .. } => EntryId::Host(work_at(parts, queued.place)),
    }
}
