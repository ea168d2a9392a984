ghost use Rattle.std.specs.Prelude.{◌≡◌, ◌+◌, ◌-◌, ◌<◌, ◌≤◌, ◌^◌, IfOk, Ok, OnErr, OnOk, is_some, length, true};
ghost use Rattle.core_makes.specs.Counted.{IsMemberLess};
ghost use Rattle.core_makes.specs.LooseCalls.{AreMemberLoose};
ghost use Rattle.core_makes.specs.Pushed.{PushesThread, MayPushThread};
ghost use Rattle.machine_data.specs.Maps.{get};
ghost use Rattle.machine_data.specs.Read.{call_instance, fits};
ghost use Rattle.machine_data.specs.Write.{add_thread};
ghost use Rattle.core_records.specs.Kinds.{entry_of, item_of};
ghost use Rattle.core_records.specs.Seen.{IsSoundCore, parts_of, seen};
ghost use Rattle.core_records.specs.Sound.{bare};
ghost use Rattle.machine_rules.specs.Calls.{new_thread, next_thread};
ghost use Rattle.task_table.specs.TableAnswers.{item_at};
ghost use Rattle.task_table.specs.Changes.{deleted, with_entry};
ghost use Rattle.task_table.specs.Table.{IsTable};
ghost use Rattle.core_primitives.specs.BecomesRecord.{BecomesRecord};
ghost use Rattle.core_primitives.specs.StateView.{call_of, thread_of};
ghost use Rattle.core_primitives.specs.Records.{MakesThread, with_member};

use crate::call_entries::{Entries, give_thread, take_thread};
use crate::calls_with_threads::drop_thread;
use crate::node_makes::{ThreadNodes, new_thread_nodes};
use crate::record_makes::{new_thread, thread_record};
use core_fields::name_thread;
use core_primitives::{CallId, ThreadId};
use core_records::{CoreParts, GuestTask, GuestThread, Single};
use machine_data::{NoMemory, Script};
use table_records::RecordTable;
use task_wait::ThreadKey;

// The call's record has another count of its threads.
#[inline(always)]
fn count_threads(
    calls: &mut RecordTable<Single<GuestTask>>,
    id: CallId,
    call: GuestTask,
    threads: u64,
)
    requires item { Ok call ≡ item_at item_of calls.old id.rep id.serial }
    ensures { calls.new ≡ with_entry id.rep (entry_of (record call { threads = threads })) calls.old }
{
    // only the contract speaks of `call`
    let _call = call;
    calls.get_mut_unchecked(id).threads = threads;
}

// The call with one thread more.
fn one_thread_more(call: GuestTask) -> GuestTask
    requires { call.threads + 1 < 2 ^ 64 }
    ensures { result ≡ record call { threads = call.threads + 1 } }
{
    let mut more = call;
    more.threads += 1;
    more
}

// The record of a thread of a call that is there. If it is out of memory, all is as before.
fn push_thread(
    parts: &mut CoreParts,
    task: CallId,
    call: GuestTask,
    thread: GuestThread,
) -> Result<ThreadId, NoMemory>
    requires sound { IsSoundCore parts.old }
    requires few { parts.old.made.threads + 1 < 2 ^ 64 }
    requires room { fits 2 (seen parts.old).core ≡ true }
    requires may { MayPushThread parts.old task call thread }
    ensures sound { IsSoundCore parts.new }
    ensures new { OnOk result (BecomesRecord (add_thread thread.thread (seen parts.old).core) (seen parts.old) (seen parts.new)) }
    ensures thread { IfOk result (λ id. thread_of (seen parts.new) id ≡ next_thread (seen parts.old).core) }
    ensures pushes { IfOk result (λ id. PushesThread parts.old parts.new task call id) }
    ensures err { OnErr result (parts.new ≡ parts.old) }
{
    let threads = call.threads + 1;
    match parts.threads.push::<ThreadKey>(thread) {
        Ok(new) => {
            count_threads(&mut parts.calls, task, call, threads);
            parts.made.threads += 1;
            parts.kept.used += 2;
            Ok(new)
        }
        Err(_) => Err(NoMemory),
    }
}

// The record of a thread that was just pushed is gone.
fn drop_member(parts: &mut CoreParts, task: CallId, call: GuestTask, new: ThreadId)
    requires sound { IsSoundCore parts.old }
    requires thread { 0 < thread_of (seen parts.old) new }
    requires call { Ok (record call { threads = call.threads + 1 }) ≡ item_at item_of parts.old.calls task.rep task.serial }
    requires few { call.threads + 1 < 2 ^ 64 }
    requires made { 0 < parts.old.made.threads }
    requires used { 2 ≤ parts.old.kept.used }
    ensures table { IsTable parts.new.threads }
    ensures threads { parts.new.threads ≡ deleted new.rep parts.old.threads }
    ensures calls { parts.new.calls ≡ with_entry task.rep (entry_of call) parts.old.calls }
    ensures only { IsMemberLess parts.old parts.new }
{
    let more = one_thread_more(call);
    drop_thread(&mut parts.threads, new);
    count_threads(&mut parts.calls, task, more, call.threads);
    parts.made.threads -= 1;
    parts.kept.used -= 2;
}

// A thread of a call, with nodes that were made for it, and its handle. If it is out of memory, it isn't there.
fn add_member(
    parts: &mut CoreParts,
    task: CallId,
    slot: u8,
    words: &[u64],
    entries: Entries,
    nodes: ThreadNodes,
) -> Result<ThreadId, NoMemory>
    requires sound { IsSoundCore parts.old }
    requires words { length words.now ≤ 16 }
    requires task { 0 < call_of (seen parts.old) task }
    requires there { is_some (get (seen parts.old).core.handles (call_instance (call_of (seen parts.old) task) (seen parts.old).core)) ≡ true }
    requires few { (seen parts.old).core.made.threads + 1 < 2 ^ 64 }
    requires room { fits 2 (seen parts.old).core ≡ true }
    requires loose { AreMemberLoose parts.old task nodes }
    ensures sound { IsSoundCore parts.new }
    ensures new { MakesThread (with_member (call_of (seen parts.old) task) slot words.now) (seen parts.old) result (seen parts.new) }
{
    let call = *core_records::call_there(parts, task);
    let number = parts.made.threads + 1;
    let thread = new_thread(call.number, true, Script::Slot { slot }, words);
    let instance = call.call.callee.instance;
    let thread = thread_record(number, thread, task.rep(), instance, false, entries, nodes);
    match push_thread(parts, task, call, thread) {
        Ok(new) => match name_thread(parts, new) {
            Ok(_) => Ok(new),
            Err(why) => {
                drop_member(parts, task, call, new);
                Err(why)
            }
        },
        Err(why) => Err(why),
    }
}

// Makes a thread of a call, with its handle, at these places of the resource table. Out of memory leaves all as before.
fn make_thread_with(
    parts: &mut CoreParts,
    task: CallId,
    slot: u8,
    words: &[u64],
    entries: Entries,
) -> Result<ThreadId, NoMemory>
    requires sound { IsSoundCore parts.old }
    requires words { length words.now ≤ 16 }
    requires task { 0 < call_of (seen parts.old) task }
    requires there { is_some (get (seen parts.old).core.handles (call_instance (call_of (seen parts.old) task) (seen parts.old).core)) ≡ true }
    requires few { (seen parts.old).core.made.threads + 1 < 2 ^ 64 }
    requires room { fits 2 (seen parts.old).core ≡ true }
    ensures sound { IsSoundCore parts.new }
    ensures new { MakesThread (with_member (call_of (seen parts.old) task) slot words.now) (seen parts.old) result (seen parts.new) }
{
    let waits = core_records::call_there(parts, task).waits.is_some();
    match new_thread_nodes(parts, waits) {
        Ok(nodes) => match add_member(parts, task, slot, words, entries, nodes) {
            Ok(new) => Ok(new),
            Err(why) => Err(why),
        },
        Err(why) => Err(why),
    }
}

/// Makes a thread of a call that runs the script of a slot of the call's instance with these values, and gives it its handle. If it
/// is out of memory, all is as before.
#[tactic(auto, unfolding(core_records::specs::Seen::seen, core_records::specs::Seen::IsSoundCore))]
pub fn make_thread(
    parts: &mut CoreParts,
    task: CallId,
    slot: u8,
    words: &[u64],
) -> Result<ThreadId, NoMemory>
    requires sound { IsSoundCore parts.old }
    requires words { length words.now ≤ 16 }
    requires task { 0 < call_of (seen parts.old) task }
    requires there { is_some (get (seen parts.old).core.handles (call_instance (call_of (seen parts.old) task) (seen parts.old).core)) ≡ true }
    requires few { (seen parts.old).core.made.threads + 1 < 2 ^ 64 }
    requires room { fits 2 (seen parts.old).core ≡ true }
    ensures sound { IsSoundCore parts.new }
    ensures new { MakesThread (with_member (call_of (seen parts.old) task) slot words.now) (seen parts.old) result (seen parts.new) }
{
    let call = core_records::call_there(parts, task).entry;
    let entries = take_thread(&mut parts.table_places, call)?;
    match make_thread_with(parts, task, slot, words, entries) {
        Ok(new) => Ok(new),
        Err(why) => {
            give_thread(&mut parts.table_places, entries);
            Err(why)
        }
    }
}
