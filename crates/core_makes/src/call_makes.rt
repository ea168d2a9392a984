ghost use Rattle.std.specs.Prelude.{◌≡◌, ◌+◌, ◌<◌, ◌≤◌, ◌^◌, IfOk, IsSome, OnErr, OnOk, length, true};
ghost use Rattle.core_makes.specs.Restored.{IsRestored};
ghost use Rattle.core_makes.specs.Fresh.{requested, requested_grouped, requested_with_handle};
ghost use Rattle.core_makes.specs.LooseCalls.{AreNextLoose};
ghost use Rattle.core_makes.specs.Pushed.{MayAdd, PushesCallWithThread, MayAddByMain};
ghost use Rattle.machine_data.specs.Maps.{get};
ghost use Rattle.machine_data.specs.Read.{fits};
ghost use Rattle.machine_data.specs.declared.records.Caller.TheVariants as callers;
ghost use Rattle.machine_data.specs.declared.records.Goal.TheVariants as goals;
ghost use Rattle.core_records.specs.Image.{HasRoom};
ghost use Rattle.core_records.specs.Names.{AtPlace, caller_target};
ghost use Rattle.core_records.specs.Seen.{IsSoundCore, parts_of, seen};
ghost use Rattle.core_records.specs.Sound.{bare};
ghost use Rattle.core_primitives.specs.Records.{MakesCall, MakesGroupedCall, grouped_call};

use crate::call_entries::{Entries, give_call_entries, take_call_entries};
use crate::calls_with_threads::{drop_call_with_thread, push_call_with_thread};
use crate::group_makes::{drop_group, push_group, reserve_end};
use crate::node_makes::{CallNodes, ThreadNodes, new_call_thread_nodes};
use crate::record_makes::{Request, bars, call_record, new_call, new_thread, thread_record};
use core_counts::make_room;
use core_fields::name_thread;
use core_primitives::{CallId, ThreadId};
use core_records::{CoreParts, TaskGroup};
use machine_data::{Callee, Caller, ExportKind, Goal, NoMemory, Script};
use task_table::TableId;
use task_wait::GroupKey;

// A call of a group that is there, and its first thread, with nodes that were made for them. If it is out of memory, neither is
// there.
#[inline(always)]
pub fn add_call_with_thread(
    parts: &mut CoreParts,
    id: TableId<GroupKey>,
    group: TaskGroup,
    request: Request,
    words: &[u64],
    nodes: (CallNodes, ThreadNodes),
) -> Result<(ThreadId, CallId), NoMemory>
    requires add { MayAdd parts.old id group request words.now nodes }
    requires caller { AtPlace (parts_of parts.old) request.maker (caller_target request.caller) }
    ensures sound { IsSoundCore parts.new }
    ensures new { MakesCall (requested request group.number words.now) (seen parts.old) result (seen parts.new) }
    ensures pushes { IfOk result (λ ids. PushesCallWithThread parts.old parts.new id group ids.0 ids.1) }
    ensures err { OnErr result (IsRestored (parts_of parts.old) (parts_of parts.new)) }
{
    let number = parts.made.threads + 1;
    let call = new_call(request, group.number);
    let call = call_record(
        number,
        call,
        request.maker,
        id.rep(),
        request.entries.task,
        nodes.0,
    );
    let thread = new_thread(number, false, Script::Start, words);
    let thread = thread_record(
        number,
        thread,
        0,
        request.callee.instance,
        bars(request.kind),
        request.entries,
        nodes.1,
    );
    match push_call_with_thread(parts, id, group, call, thread) {
        Ok(ids) => Ok(ids),
        Err(why) => Err(why),
    }
}

// The nodes of a call and of its first thread, and room for a result that goes to main. If it is out of memory, all is as before.
#[inline(always)]
pub fn prepare(
    parts: &mut CoreParts,
    goal: Goal,
    kind: ExportKind,
) -> Result<(CallNodes, ThreadNodes), NoMemory>
    requires sound { IsSoundCore parts.old }
    requires few { (seen parts.old).core.made.threads + 1 < 2 ^ 64 }
    ensures sound { IsSoundCore parts.new }
    ensures seen { seen parts.new ≡ seen parts.old }
    ensures loose { IfOk result (λ nodes. AreNextLoose parts.new kind nodes) }
    ensures result { OnOk result (goal ≡ goals.Main → HasRoom (parts.new.made.threads + 1) parts.new.results) }
{
    if let Goal::Main = goal {
        let number = parts.made.threads + 1;
        make_room(parts, number)?;
    }
    let nodes = new_call_thread_nodes(parts, kind)?;
    Ok(nodes)
}

// Calls `add_call_with_thread`, and isn't inlined.
#[inline(never)]
pub fn add_call_with_thread_outlined(
    parts: &mut CoreParts,
    id: TableId<GroupKey>,
    group: TaskGroup,
    request: Request,
    words: &[u64],
    nodes: (CallNodes, ThreadNodes),
) -> Result<(ThreadId, CallId), NoMemory>
    requires add { MayAdd parts.old id group request words.now nodes }
    requires caller { AtPlace (parts_of parts.old) request.maker (caller_target request.caller) }
    ensures sound { IsSoundCore parts.new }
    ensures new { MakesCall (requested request group.number words.now) (seen parts.old) result (seen parts.new) }
    ensures pushes { IfOk result (λ ids. PushesCallWithThread parts.old parts.new id group ids.0 ids.1) }
    ensures err { OnErr result (IsRestored (parts_of parts.old) (parts_of parts.new)) }
{
    add_call_with_thread(parts, id, group, request, words, nodes)
}

// Calls `prepare`, and isn't inlined.
#[inline(never)]
pub fn prepare_outlined(
    parts: &mut CoreParts,
    goal: Goal,
    kind: ExportKind,
) -> Result<(CallNodes, ThreadNodes), NoMemory>
    requires sound { IsSoundCore parts.old }
    requires few { (seen parts.old).core.made.threads + 1 < 2 ^ 64 }
    ensures sound { IsSoundCore parts.new }
    ensures seen { seen parts.new ≡ seen parts.old }
    ensures loose { IfOk result (λ nodes. AreNextLoose parts.new kind nodes) }
    ensures result { OnOk result (goal ≡ goals.Main → HasRoom (parts.new.made.threads + 1) parts.new.results) }
{
    prepare(parts, goal, kind)
}

// A call by main in a group that is made for it, at this place of the resource table. If it is out of memory, neither is there.
fn add_main_call(
    parts: &mut CoreParts,
    entry: u32,
    request: Request,
    words: &[u64],
    nodes: (CallNodes, ThreadNodes),
) -> Result<(ThreadId, CallId), NoMemory>
    requires sound { IsSoundCore parts.old }
    requires add { MayAddByMain parts.old request words.now nodes }
    ensures sound { IsSoundCore parts.new }
    ensures new { MakesGroupedCall (requested_grouped request words.now) (seen parts.old) result (seen parts.new) }
{
    let number = parts.made.groups + 1;
    match push_group(parts, entry) {
        Ok(id) => {
            let group = TaskGroup {
                number,
                calls: 0,
                entry,
            };
            match add_call_with_thread_outlined(parts, id, group, request, words, nodes) {
                Ok(ids) => Ok(ids),
                Err(why) => {
                    drop_group(parts, id, group);
                    Err(why)
                }
            }
        }
        Err(why) => Err(why),
    }
}

// Makes a group and a call by main in it, at these places of the resource table. Out of memory leaves all as before.
fn make_call_by_main_with(
    parts: &mut CoreParts,
    callee: Callee,
    kind: ExportKind,
    goal: Goal,
    words: &[u64],
    entry: u32,
    entries: Entries,
) -> Result<(ThreadId, CallId), NoMemory>
    requires sound { IsSoundCore parts.old }
    requires there { IsSome (get (seen parts.old).core.instances callee.instance) }
    requires words { length words.now ≤ 16 }
    requires few { (seen parts.old).core.made.threads + 1 < 2 ^ 64 }
    requires groups { (seen parts.old).core.made.groups + 1 < 2 ^ 64 }
    requires room { fits 4 (seen parts.old).core ≡ true }
    ensures sound { IsSoundCore parts.new }
    ensures new { MakesGroupedCall (grouped_call callers.Main callee kind goal words.now) (seen parts.old) result (seen parts.new) }
{
    let request = Request {
        caller: Caller::Main,
        maker: 0,
        callee,
        kind,
        goal,
        entries,
    };
    match prepare_outlined(parts, goal, kind) {
        Ok(nodes) => {
            reserve_end(parts)?;
            match add_main_call(parts, entry, request, words, nodes) {
                Ok(ids) => Ok(ids),
                Err(why) => Err(why),
            }
        }
        Err(why) => Err(why),
    }
}

/// Makes a group, a call by main in it, with room for a result that goes to main, and the call's first thread. If it is out of
/// memory, all is as before.
#[tactic(auto, unfolding(core_records::specs::Seen::seen, core_records::specs::Seen::IsSoundCore))]
pub fn make_call_by_main(
    parts: &mut CoreParts,
    callee: Callee,
    kind: ExportKind,
    goal: Goal,
    words: &[u64],
) -> Result<(ThreadId, CallId), NoMemory>
    requires sound { IsSoundCore parts.old }
    requires there { IsSome (get (seen parts.old).core.instances callee.instance) }
    requires words { length words.now ≤ 16 }
    requires few { (seen parts.old).core.made.threads + 1 < 2 ^ 64 }
    requires groups { (seen parts.old).core.made.groups + 1 < 2 ^ 64 }
    requires room { fits 4 (seen parts.old).core ≡ true }
    ensures sound { IsSoundCore parts.new }
    ensures new { MakesGroupedCall (grouped_call callers.Main callee kind goal words.now) (seen parts.old) result (seen parts.new) }
{
    let entry = parts.table_places.take()?;
    match take_call_entries(&mut parts.table_places) {
        Ok(entries) => {
            match make_call_by_main_with(parts, callee, kind, goal, words, entry, entries) {
                Ok(ids) => Ok(ids),
                Err(why) => {
                    give_call_entries(&mut parts.table_places, entries);
                    parts.table_places.give(entry);
                    Err(why)
                }
            }
        }
        Err(why) => {
            parts.table_places.give(entry);
            Err(why)
        }
    }
}

// A call of a group that is there, and its first thread with its handle. If it is out of memory, neither is there.
pub fn add_named_call(
    parts: &mut CoreParts,
    id: TableId<GroupKey>,
    group: TaskGroup,
    request: Request,
    words: &[u64],
    nodes: (CallNodes, ThreadNodes),
) -> Result<(ThreadId, CallId), NoMemory>
    requires add { MayAdd parts.old id group request words.now nodes }
    requires caller { AtPlace (parts_of parts.old) request.maker (caller_target request.caller) }
    ensures sound { IsSoundCore parts.new }
    ensures new { MakesCall (requested_with_handle request group.number words.now) (seen parts.old) result (seen parts.new) }
{
    match add_call_with_thread(parts, id, group, request, words, nodes) {
        Ok((first, task)) => match name_thread(parts, first) {
            Ok(_) => Ok((first, task)),
            Err(why) => {
                drop_call_with_thread(parts, id, group, first, task);
                Err(why)
            }
        },
        Err(why) => Err(why),
    }
}
