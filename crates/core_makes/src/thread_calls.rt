ghost use Rattle.std.specs.Prelude.{◌≡◌, ◌+◌, ◌<◌, ◌≤◌, ◌^◌, IsSome, Ok, length, true};
ghost use Rattle.machine_data.specs.Maps.{get};
ghost use Rattle.machine_data.specs.Read.{fits, thread_group};
ghost use Rattle.core_records.specs.Kinds.{item_of};
ghost use Rattle.core_records.specs.Seen.{IsSoundCore, seen};
ghost use Rattle.task_table.specs.TableAnswers.{item_at};
ghost use Rattle.core_primitives.specs.StateView.{thread_of};
ghost use Rattle.core_primitives.specs.Records.{MakesCall, call_by, direct_call_by};

use crate::call_entries::{Entries, give_call_entries, take_call_entries};
use crate::call_makes::{add_call_with_thread_outlined, add_named_call, prepare, prepare_outlined};
use crate::record_makes::Request;
use core_fields::number;
use core_primitives::{CallId, ThreadId};
use core_records::{CoreParts, TaskGroup};
use machine_data::{Callee, Caller, ExportKind, Goal, NoMemory};
use task_table::TableId;
use task_wait::{GroupKey, GuestTaskKey};

// The group of a thread's call, and how many calls are of it.
pub fn group_of(parts: &CoreParts, thread: ThreadId) -> (TableId<GroupKey>, TaskGroup)
    requires sound { IsSoundCore parts.now }
    requires live { 0 < thread_of (seen parts.now) thread }
    ensures item { Ok result.1 ≡ item_at item_of parts.now.groups result.0.rep result.0.serial }
    ensures number { result.1.number ≡ thread_group (thread_of (seen parts.now) thread) (seen parts.now).core }
{
    let found = core_records::thread_there(parts, thread);
    let call = parts.calls.there::<GuestTaskKey>(found.task);
    let place = call.group;
    let id = TableId::new(place, parts.groups.serial_unchecked(place));
    (id, *parts.groups.there::<GroupKey>(place))
}

// Makes a call by a thread, at these places of the resource table. Out of memory leaves all as before.
fn make_call_with(
    parts: &mut CoreParts,
    thread: ThreadId,
    callee: Callee,
    kind: ExportKind,
    goal: Goal,
    words: &[u64],
    entries: Entries,
) -> Result<(ThreadId, CallId), NoMemory>
    requires sound { IsSoundCore parts.old }
    requires live { 0 < thread_of (seen parts.old) thread }
    requires there { IsSome (get (seen parts.old).core.instances callee.instance) }
    requires words { length words.now ≤ 16 }
    requires few { (seen parts.old).core.made.threads + 1 < 2 ^ 64 }
    requires room { fits 3 (seen parts.old).core ≡ true }
    ensures sound { IsSoundCore parts.new }
    ensures new { MakesCall (call_by (thread_of (seen parts.old) thread) callee kind goal words.now) (seen parts.old) result (seen parts.new) }
{
    let request = Request {
        caller: Caller::Thread {
            thread: number(parts, thread),
        },
        maker: thread.rep(),
        callee,
        kind,
        goal,
        entries,
    };
    match prepare_outlined(parts, goal, kind) {
        Ok(nodes) => {
            let (id, group) = group_of(parts, thread);
            match add_call_with_thread_outlined(parts, id, group, request, words, nodes) {
                Ok(ids) => Ok(ids),
                Err(why) => Err(why),
            }
        }
        Err(why) => Err(why),
    }
}

/// Makes a call by a thread, in the thread's group, and the call's first thread. If it is out of memory, all is as before.
#[tactic(auto, unfolding(core_records::specs::Seen::seen, core_records::specs::Seen::IsSoundCore))]
pub fn make_call(
    parts: &mut CoreParts,
    thread: ThreadId,
    callee: Callee,
    kind: ExportKind,
    goal: Goal,
    words: &[u64],
) -> Result<(ThreadId, CallId), NoMemory>
    requires sound { IsSoundCore parts.old }
    requires live { 0 < thread_of (seen parts.old) thread }
    requires there { IsSome (get (seen parts.old).core.instances callee.instance) }
    requires words { length words.now ≤ 16 }
    requires few { (seen parts.old).core.made.threads + 1 < 2 ^ 64 }
    requires room { fits 3 (seen parts.old).core ≡ true }
    ensures sound { IsSoundCore parts.new }
    ensures new { MakesCall (call_by (thread_of (seen parts.old) thread) callee kind goal words.now) (seen parts.old) result (seen parts.new) }
{
    let entries = take_call_entries(&mut parts.table_places)?;
    match make_call_with(parts, thread, callee, kind, goal, words, entries) {
        Ok(ids) => Ok(ids),
        Err(why) => {
            give_call_entries(&mut parts.table_places, entries);
            Err(why)
        }
    }
}

// Makes a direct call by the thread of this number, at these places of the resource table. Out of memory leaves all as before.
fn make_direct_call_with(
    parts: &mut CoreParts,
    thread: ThreadId,
    number: u64,
    callee: Callee,
    kind: ExportKind,
    words: &[u64],
    entries: Entries,
) -> Result<(ThreadId, CallId), NoMemory>
    requires sound { IsSoundCore parts.old }
    requires live { 0 < thread_of (seen parts.old) thread }
    requires named { number ≡ thread_of (seen parts.old) thread }
    requires there { IsSome (get (seen parts.old).core.instances callee.instance) }
    requires words { length words.now ≤ 16 }
    requires few { (seen parts.old).core.made.threads + 1 < 2 ^ 64 }
    requires room { fits 3 (seen parts.old).core ≡ true }
    ensures sound { IsSoundCore parts.new }
    ensures new { MakesCall (direct_call_by (thread_of (seen parts.old) thread) callee kind words.now) (seen parts.old) result (seen parts.new) }
{
    let request = Request {
        caller: Caller::Thread { thread: number },
        maker: thread.rep(),
        callee,
        kind,
        goal: Goal::Direct,
        entries,
    };
    match prepare(parts, request.goal, kind) {
        Ok(nodes) => {
            let (id, group) = group_of(parts, thread);
            match add_named_call(parts, id, group, request, words, nodes) {
                Ok(ids) => Ok(ids),
                Err(why) => Err(why),
            }
        }
        Err(why) => Err(why),
    }
}

/// Makes a direct call by a thread, in the thread's group, and gives the call's first thread its handle. If it is out of memory,
/// all is as before.
#[tactic(auto, unfolding(core_records::specs::Seen::seen, core_records::specs::Seen::IsSoundCore))]
pub fn make_direct_call(
    parts: &mut CoreParts,
    thread: ThreadId,
    callee: Callee,
    kind: ExportKind,
    words: &[u64],
) -> Result<(ThreadId, CallId), NoMemory>
    requires sound { IsSoundCore parts.old }
    requires live { 0 < thread_of (seen parts.old) thread }
    requires there { IsSome (get (seen parts.old).core.instances callee.instance) }
    requires words { length words.now ≤ 16 }
    requires few { (seen parts.old).core.made.threads + 1 < 2 ^ 64 }
    requires room { fits 3 (seen parts.old).core ≡ true }
    ensures sound { IsSoundCore parts.new }
    ensures new { MakesCall (direct_call_by (thread_of (seen parts.old) thread) callee kind words.now) (seen parts.old) result (seen parts.new) }
{
    let number = number(parts, thread);
    let entries = take_call_entries(&mut parts.table_places)?;
    match make_direct_call_with(parts, thread, number, callee, kind, words, entries) {
        Ok(ids) => Ok(ids),
        Err(why) => {
            give_call_entries(&mut parts.table_places, entries);
            Err(why)
        }
    }
}
