ghost use Rattle.std.specs.Prelude.{◌≡◌, ◌+◌, ◌<◌, ◌^◌, None, is_some, true};
ghost use Rattle.machine_data.specs.Read.{fits};
ghost use Rattle.machine_data.specs.declared.records.WorkCaller.TheVariants as callers;
ghost use Rattle.core_records.specs.Names.{AtPlace, work_caller_target};
ghost use Rattle.core_records.specs.Seen.{IsSoundCore, parts_of, seen};
ghost use Rattle.machine_rules.specs.Calls.{work_queued};
ghost use Rattle.core_primitives.specs.StateView.{thread_of};
ghost use Rattle.core_removals.specs.Raised.{IsHere, group_name, MayQueueWork};
ghost use Rattle.core_primitives.specs.Records.{MakesWork, sync_work};

use crate::spawned_works::push_work;
use crate::work_entries::queue_push;
use crate::work_nodes::{WorkNodes, new_work_nodes};
use crate::work_requests::{WorkRequest, record_for};
use core_fields::number;
use core_makes::group_of;
use core_primitives::{ThreadId, WorkId};
use core_records::{CoreParts, TaskGroup};
use machine_data::{HostDef, NoMemory, WorkCaller};
use task_table::TableId;
use task_wait::GroupKey;

// A work that is queued, with nodes that were made for it, and its push. If it is out of memory, all is as before.
fn queue_work(
    parts: &mut CoreParts,
    request: WorkRequest,
    group: Option<(TableId<GroupKey>, TaskGroup)>,
    nodes: WorkNodes,
) -> Result<WorkId, NoMemory>
    requires sound { IsSoundCore parts.old }
    requires few { (seen parts.old).core.made.works + 1 < 2 ^ 64 }
    requires room { is_some group ≡ true → fits 1 (seen parts.old).core ≡ true }
    requires caller { AtPlace (parts_of parts.old) request.maker (work_caller_target request.caller) }
    requires here { IsHere parts.old.groups group }
    requires nodes { MayQueueWork parts.old nodes }
    ensures sound { IsSoundCore parts.new }
    ensures new { MakesWork (work_queued request.caller request.host (group_name group)) (seen parts.old) result (seen parts.new) }
{
    let number = parts.made.works + 1;
    let work = record_for(number, request, group, nodes);
    match push_work(parts, work, group) {
        Ok(id) => {
            queue_push(parts, id);
            Ok(id)
        }
        Err(why) => Err(why),
    }
}

/// Makes a spawned work, and its push. If it is out of memory, all is as before.
pub fn queue_spawn(parts: &mut CoreParts, host: HostDef) -> Result<WorkId, NoMemory>
    requires sound { IsSoundCore parts.old }
    requires few { (seen parts.old).core.made.works + 1 < 2 ^ 64 }
    ensures sound { IsSoundCore parts.new }
    ensures new { MakesWork (work_queued callers.Spawn host None) (seen parts.old) result (seen parts.new) }
{
    let request = WorkRequest {
        caller: WorkCaller::Spawn,
        maker: 0,
        host,
        entry: 0,
    };
    match new_work_nodes(parts) {
        Ok(nodes) => match queue_work(parts, request, None, nodes) {
            Ok(id) => Ok(id),
            Err(why) => Err(why),
        },
        Err(why) => Err(why),
    }
}

// Makes the work of a thread's `call_sync`, at this place of the resource table. Out of memory leaves all as before.
fn queue_sync_call_at(
    parts: &mut CoreParts,
    thread: ThreadId,
    host: HostDef,
    entry: u32,
) -> Result<WorkId, NoMemory>
    requires sound { IsSoundCore parts.old }
    requires live { 0 < thread_of (seen parts.old) thread }
    requires few { (seen parts.old).core.made.works + 1 < 2 ^ 64 }
    requires room { fits 1 (seen parts.old).core ≡ true }
    ensures sound { IsSoundCore parts.new }
    ensures new { MakesWork (sync_work (thread_of (seen parts.old) thread) host) (seen parts.old) result (seen parts.new) }
{
    let caller = WorkCaller::Sync {
        thread: number(parts, thread),
    };
    let request = WorkRequest {
        caller,
        maker: thread.rep(),
        host,
        entry,
    };
    match new_work_nodes(parts) {
        Ok(nodes) => {
            let group = group_of(parts, thread);
            match queue_work(parts, request, Some(group), nodes) {
                Ok(id) => Ok(id),
                Err(why) => Err(why),
            }
        }
        Err(why) => Err(why),
    }
}

/// Makes the work of a thread's `call_sync`, in the thread's group, and its push. If it is out of memory, all is as before.
#[tactic(auto, unfolding(core_records::specs::Seen::seen, core_records::specs::Seen::IsSoundCore))]
pub fn queue_sync_call(
    parts: &mut CoreParts,
    thread: ThreadId,
    host: HostDef,
) -> Result<WorkId, NoMemory>
    requires sound { IsSoundCore parts.old }
    requires live { 0 < thread_of (seen parts.old) thread }
    requires few { (seen parts.old).core.made.works + 1 < 2 ^ 64 }
    requires room { fits 1 (seen parts.old).core ≡ true }
    ensures sound { IsSoundCore parts.new }
    ensures new { MakesWork (sync_work (thread_of (seen parts.old) thread) host) (seen parts.old) result (seen parts.new) }
{
    let entry = parts.table_places.take()?;
    match queue_sync_call_at(parts, thread, host, entry) {
        Ok(id) => Ok(id),
        Err(why) => {
            parts.table_places.give(entry);
            Err(why)
        }
    }
}
