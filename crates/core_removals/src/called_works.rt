ghost use Rattle.std.specs.Prelude.{◌≡◌, ◌+◌, ◌-◌, ◌<◌, ◌^◌, Ok, OnErr, OnOk, length, true};
ghost use Rattle.machine_data.specs.Read.{fits, instance_of, new_handle};
ghost use Rattle.machine_data.specs.declared.records.Subtask.TheVariants as subtasks;
ghost use Rattle.core_records.specs.Kinds.{entry_of, item_of};
ghost use Rattle.core_records.specs.Names.{AtPlace, work_caller_target};
ghost use Rattle.core_records.specs.Seen.{IsSoundCore, parts_of, seen};
ghost use Rattle.machine_rules.specs.Calls.{with_handle};
ghost use Rattle.task_table.specs.TableAnswers.{item_at};
ghost use Rattle.task_table.specs.Changes.{deleted, with_entry};
ghost use Rattle.task_table.specs.Table.{IsTable};
ghost use Rattle.core_primitives.specs.StateView.{on_core, thread_of, work_of};
ghost use Rattle.core_removals.specs.Raised.{IsWorkLess, requested_work, MayQueueWork};
ghost use Rattle.core_primitives.specs.Records.{MakesWork, async_work};

use crate::spawned_works::push_work;
use crate::work_entries::queue_push;
use crate::work_nodes::{WorkNodes, new_work_nodes};
use crate::work_requests::{WorkRequest, record_for};
use core_fields::{insert_handle, number, set_subtask_handle, work_number};
use core_makes::{group_of, one_less};
use core_primitives::{SubtaskId, ThreadId, WorkId};
use core_records::{CoreParts, TaskGroup};
use machine_data::{HostDef, NoMemory, WorkCaller};
use task_handles::{HandleKind, HeldItem, Rep, WaitableKind};
use task_table::TableId;
use task_wait::GroupKey;

// Gives a work its handle in an instance. If it is out of memory, all is as before.
fn name_work(parts: &mut CoreParts, instance: u32, work: WorkId) -> Result<u32, NoMemory>
    requires sound { IsSoundCore parts.old }
    requires there { instance < length parts.old.instances.items }
    ensures sound { IsSoundCore parts.new }
    ensures small { OnOk result (new_handle instance (seen parts.old).core < 2 ^ 28) }
    ensures new { OnOk result (seen parts.new ≡ on_core (with_handle instance (subtasks.Host (work_of (seen parts.old) work))) (seen parts.old)) }
    ensures same { OnErr result (parts_of parts.new ≡ parts_of parts.old) }
{
    let rep = Rep {
        id: work.rep,
        serial: work_number(parts, work),
    };
    let kind = HandleKind::Waitable(WaitableKind::HostSubtask);
    match insert_handle(parts, instance, HeldItem { kind, rep }) {
        Ok(handle) => {
            set_subtask_handle(parts, SubtaskId::Host(work), Some(handle));
            Ok(handle)
        }
        Err(why) => Err(why),
    }
}

// The record of a work that was just pushed is gone.
fn drop_work(parts: &mut CoreParts, id: TableId<GroupKey>, group: TaskGroup, new: WorkId)
    requires sound { IsSoundCore parts.old }
    requires work { 0 < work_of (seen parts.old) new }
    requires item { Ok (record group { calls = group.calls + 1 }) ≡ item_at item_of parts.old.groups id.rep id.serial }
    requires made { 0 < parts.old.made.works }
    requires used { 0 < parts.old.kept.used }
    ensures table { IsTable parts.new.works }
    ensures works { parts.new.works ≡ deleted new.rep parts.old.works }
    ensures groups { parts.new.groups ≡ with_entry id.rep (entry_of group) parts.old.groups }
    ensures only { IsWorkLess parts.old parts.new }
{
    match parts.works.delete(new) {
        Ok(_) => {}
        Err(_) => unreachable!(),
    }
    one_less(&mut parts.groups, id, group);
    parts.made.works -= 1;
    parts.kept.used -= 1;
}

// A work that is queued, with nodes that were made for it, its handle and its push. If it is out of memory, it isn't there.
fn call_work(
    parts: &mut CoreParts,
    request: WorkRequest,
    instance: u32,
    group: (TableId<GroupKey>, TaskGroup),
    nodes: WorkNodes,
) -> Result<WorkId, NoMemory>
    requires sound { IsSoundCore parts.old }
    requires there { instance < length parts.old.instances.items }
    requires few { (seen parts.old).core.made.works + 1 < 2 ^ 64 }
    requires room { fits 1 (seen parts.old).core ≡ true }
    requires caller { AtPlace (parts_of parts.old) request.maker (work_caller_target request.caller) }
    requires here { Ok group.1 ≡ item_at item_of parts.old.groups group.0.rep group.0.serial }
    requires nodes { MayQueueWork parts.old nodes }
    ensures sound { IsSoundCore parts.new }
    ensures new { MakesWork (requested_work instance request group) (seen parts.old) result (seen parts.new) }
    ensures small { OnOk result (new_handle instance (seen parts.old).core < 2 ^ 28) }
{
    let number = parts.made.works + 1;
    let work = record_for(number, request, Some(group), nodes);
    match push_work(parts, work, Some(group)) {
        Ok(new) => match name_work(parts, instance, new) {
            Ok(_) => {
                queue_push(parts, new);
                Ok(new)
            }
            Err(why) => {
                drop_work(parts, group.0, group.1, new);
                Err(why)
            }
        },
        Err(why) => Err(why),
    }
}

// Makes the work of a thread's `call`, at this place of the resource table. Out of memory leaves all as before.
fn queue_call_at(
    parts: &mut CoreParts,
    thread: ThreadId,
    register: u8,
    host: HostDef,
    entry: u32,
) -> Result<WorkId, NoMemory>
    requires sound { IsSoundCore parts.old }
    requires live { 0 < thread_of (seen parts.old) thread }
    requires few { (seen parts.old).core.made.works + 1 < 2 ^ 64 }
    requires room { fits 1 (seen parts.old).core ≡ true }
    ensures sound { IsSoundCore parts.new }
    ensures new { MakesWork (async_work (thread_of (seen parts.old) thread) register host) (seen parts.old) result (seen parts.new) }
    ensures small { OnOk result (new_handle (instance_of (thread_of (seen parts.old) thread) (seen parts.old).core) (seen parts.old).core < 2 ^ 28) }
{
    let caller = WorkCaller::Async {
        thread: number(parts, thread),
        register,
    };
    let request = WorkRequest {
        caller,
        maker: thread.rep(),
        host,
        entry,
    };
    match new_work_nodes(parts) {
        Ok(nodes) => {
            let instance = match core_records::thread(parts, thread) {
                Some(entry) => entry.instance,
                None => unreachable!(),
            };
            let group = group_of(parts, thread);
            match call_work(parts, request, instance, group, nodes) {
                Ok(id) => Ok(id),
                Err(why) => Err(why),
            }
        }
        Err(why) => Err(why),
    }
}

/// Makes the work of a thread's `call`, in the thread's group, with its push, and gives it a handle in the thread's instance. If it
/// is out of memory, all is as before.
#[tactic(auto, unfolding(core_records::specs::Seen::seen, core_records::specs::Seen::IsSoundCore))]
pub fn queue_call(
    parts: &mut CoreParts,
    thread: ThreadId,
    register: u8,
    host: HostDef,
) -> Result<WorkId, NoMemory>
    requires sound { IsSoundCore parts.old }
    requires live { 0 < thread_of (seen parts.old) thread }
    requires few { (seen parts.old).core.made.works + 1 < 2 ^ 64 }
    requires room { fits 1 (seen parts.old).core ≡ true }
    ensures sound { IsSoundCore parts.new }
    ensures new { MakesWork (async_work (thread_of (seen parts.old) thread) register host) (seen parts.old) result (seen parts.new) }
    ensures small { OnOk result (new_handle (instance_of (thread_of (seen parts.old) thread) (seen parts.old).core) (seen parts.old).core < 2 ^ 28) }
{
    let entry = parts.table_places.take()?;
    match queue_call_at(parts, thread, register, host, entry) {
        Ok(id) => Ok(id),
        Err(why) => {
            parts.table_places.give(entry);
            Err(why)
        }
    }
}
