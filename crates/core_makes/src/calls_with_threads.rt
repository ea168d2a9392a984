ghost use Rattle.std.specs.Prelude.{◌≡◌, ◌+◌, ◌-◌, ◌<◌, ◌≤◌, ◌^◌, IfOk, Ok, OnErr, OnOk};
ghost use Rattle.core_makes.specs.Restored.{IsRestored};
ghost use Rattle.core_makes.specs.Pushed.{PushesCallWithThread, DropsCallWithThread, MayPushCallWithThread, with_call_and_thread};
ghost use Rattle.core_records.specs.Keys.{call_key, thread_key};
ghost use Rattle.core_records.specs.Kinds.{entry_of, item_of};
ghost use Rattle.core_records.specs.Seen.{IsSoundCore, parts_of, seen};
ghost use Rattle.task_table.specs.TableAnswers.{item_at};
ghost use Rattle.task_table.specs.Changes.{deleted, with_entry};
ghost use Rattle.task_table.specs.Records.{number_of};
ghost use Rattle.task_table.specs.Table.{IsTable, children_of};
ghost use Rattle.core_primitives.specs.BecomesRecord.{BecomesRecord};
ghost use Rattle.core_primitives.specs.StateView.{call_of, thread_of};

use core_primitives::{CallId, ThreadId};
use core_records::{CoreParts, GuestTask, GuestThread, Single, TaskGroup};
use machine_data::NoMemory;
use table_records::RecordTable;
use task_table::TableId;
use task_wait::{GroupKey, GuestTaskKey, ThreadKey};

// One call more is of the group.
#[inline(always)]
pub fn one_more(
    groups: &mut RecordTable<Single<TaskGroup>>,
    id: TableId<GroupKey>,
    group: TaskGroup,
)
    requires item { Ok group ≡ item_at item_of groups.old id.rep id.serial }
    requires few { group.calls + 1 < 2 ^ 64 }
    ensures { groups.new ≡ with_entry id.rep (entry_of (record group { calls = group.calls + 1 })) groups.old }
{
    groups.get_mut_unchecked(id).calls += 1;
}

// One call less is of the group: as many as before one more was.
pub fn one_less(
    groups: &mut RecordTable<Single<TaskGroup>>,
    id: TableId<GroupKey>,
    group: TaskGroup,
)
    requires item { Ok (record group { calls = group.calls + 1 }) ≡ item_at item_of groups.old id.rep id.serial }
    ensures { groups.new ≡ with_entry id.rep (entry_of group) groups.old }
{
    *groups.get_mut_unchecked(id) = group;
}

// The record of a thread that was just pushed is gone.
pub fn drop_thread(threads: &mut RecordTable<Single<GuestThread>>, id: ThreadId)
    requires live { 0 < number_of thread_key threads.old id.rep id.serial }
    requires childless { children_of threads.old id.rep ≡ 0 }
    ensures table { IsTable threads.new }
    ensures deleted { threads.new ≡ deleted id.rep threads.old }
{
    match threads.delete(id) {
        Ok(_) => {}
        Err(_) => unreachable!(),
    }
}

// The record of a call that was just pushed is gone.
pub fn drop_call(calls: &mut RecordTable<Single<GuestTask>>, id: CallId)
    requires live { 0 < number_of call_key calls.old id.rep id.serial }
    requires childless { children_of calls.old id.rep ≡ 0 }
    ensures table { IsTable calls.new }
    ensures deleted { calls.new ≡ deleted id.rep calls.old }
{
    match calls.delete(id) {
        Ok(_) => {}
        Err(_) => unreachable!(),
    }
}

// The record of a call, in a group that is there, and that of its first thread. If it is out of memory, neither is there.
#[inline(always)]
pub fn push_call_with_thread(
    parts: &mut CoreParts,
    id: TableId<GroupKey>,
    group: TaskGroup,
    call: GuestTask,
    thread: GuestThread,
) -> Result<(ThreadId, CallId), NoMemory>
    requires sound { IsSoundCore parts.old }
    requires may { MayPushCallWithThread parts.old id group call thread }
    ensures sound { IsSoundCore parts.new }
    ensures new { OnOk result (BecomesRecord (with_call_and_thread call thread (seen parts.old).core) (seen parts.old) (seen parts.new)) }
    ensures thread { IfOk result (λ ids. thread_of (seen parts.new) ids.0 ≡ parts.old.made.threads + 1) }
    ensures call { IfOk result (λ ids. call_of (seen parts.new) ids.1 ≡ parts.old.made.threads + 1) }
    ensures pushes { IfOk result (λ ids. PushesCallWithThread parts.old parts.new id group ids.0 ids.1) }
    ensures err { OnErr result (IsRestored (parts_of parts.old) (parts_of parts.new)) }
{
    let Some(place) = parts.threads.next_place() else {
        return Err(NoMemory);
    };
    let mut call = call;
    call.first = place;
    match parts.calls.push::<GuestTaskKey>(call) {
        Ok(task) => {
            let mut thread = thread;
            thread.task = task.rep();
            match parts.threads.push::<ThreadKey>(thread) {
                Ok(first) => {
                    one_more(&mut parts.groups, id, group);
                    parts.made.threads += 1;
                    parts.kept.used += 3;
                    parts.kept.interesting += 1;
                    Ok((first, task))
                }
                Err(_) => {
                    drop_call(&mut parts.calls, task);
                    Err(NoMemory)
                }
            }
        }
        Err(_) => Err(NoMemory),
    }
}

// The records of a call and of its first thread that were just pushed are gone.
pub fn drop_call_with_thread(
    parts: &mut CoreParts,
    id: TableId<GroupKey>,
    group: TaskGroup,
    first: ThreadId,
    task: CallId,
)
    requires sound { IsSoundCore parts.old }
    requires thread { 0 < thread_of (seen parts.old) first }
    requires call { 0 < call_of (seen parts.old) task }
    requires item { Ok (record group { calls = group.calls + 1 }) ≡ item_at item_of parts.old.groups id.rep id.serial }
    requires made { 0 < parts.old.made.threads }
    requires used { 3 ≤ parts.old.kept.used }
    requires interesting { 0 < parts.old.kept.interesting }
    ensures { DropsCallWithThread parts.old parts.new id group first task }
{
    drop_thread(&mut parts.threads, first);
    drop_call(&mut parts.calls, task);
    one_less(&mut parts.groups, id, group);
    parts.made.threads -= 1;
    parts.kept.used -= 3;
    parts.kept.interesting -= 1;
}
