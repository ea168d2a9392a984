ghost use Rattle.std.specs.Prelude.{◌≡◌, ◌≤◌, None, length, not};
ghost use Rattle.core_makes.specs.Fresh.{call_record, thread_record};
ghost use Rattle.machine_data.specs.Read.{is_sync};
ghost use Rattle.machine_rules.specs.Calls.{new_call, new_thread};
ghost use Rattle.machine_rules.specs.Scripts.{registers_for};

use crate::call_entries::Entries;
use crate::node_makes::{CallNodes, ThreadNodes};
use core_records::{GuestTask, GuestThread};
use machine_data::{
    Call, Callee, Caller, ExportKind, Goal, Join, OpProgress, Place, Script, Thread,
};

/// Who calls, from which place in the table of threads, what, and where the result goes.
#[derive(Clone, Copy)]
pub struct Request {
    pub caller: Caller,
    pub maker: u32,
    pub callee: Callee,
    pub kind: ExportKind,
    pub goal: Goal,
    /// The places that are taken in the resource table.
    pub entries: Entries,
}

// The registers of a thread that begins with these values. Mostly there is one, which is written alone.
#[inline(always)]
pub fn registers_of(words: &[u64]) -> [u64; 16]
    requires { length words.now ≤ 16 }
    ensures { result ≡ registers_for words.now }
{
    let mut registers = [0; 16];
    if let [word] = words {
        registers[0] = *word;
    } else {
        registers[..words.len()].copy_from_slice(words);
    }
    registers
}

// A call of a group, as it is made.
#[inline(always)]
pub fn new_call(request: Request, group: u64) -> Call
    ensures { result ≡ new_call request.caller request.callee request.kind request.goal group }
{
    Call {
        caller: request.caller,
        callee: request.callee,
        kind: request.kind,
        goal: request.goal,
        started: false,
        starting_published: false,
        end: None,
        event: None,
        task_event: None,
        cancel_asked: false,
        cancel_delivered: false,
        exited: false,
        interesting: true,
        result: None,
        join: Join::Nowhere,
        handle: None,
        group,
        borrows: 0,
    }
}

// A thread of a call, as it is made.
#[inline(always)]
pub fn new_thread(call: u64, explicit: bool, script: Script, words: &[u64]) -> Thread
    requires { length words.now ≤ 16 }
    ensures { result ≡ new_thread call explicit script (registers_for words.now) None }
{
    Thread {
        call,
        explicit,
        script,
        position: 0,
        op_progress: OpProgress::Fresh,
        registers: registers_of(words),
        handle: None,
        saved_own: None,
        saved_callee: None,
        came: 0,
        place: Place::New,
    }
}

// The record of a call, under its number, in the group at a place.
#[inline(always)]
pub fn call_record(
    number: u64,
    call: Call,
    maker: u32,
    group: u32,
    entry: u32,
    nodes: CallNodes,
) -> GuestTask
    ensures { result ≡ call_record number call maker group entry nodes }
{
    GuestTask {
        number,
        call,
        maker,
        first: 0,
        joined: 0,
        group,
        entry,
        threads: 1,
        ready: nodes.ready,
        blocked: nodes.blocked,
        waits: nodes.waits,
    }
}

// Whether backpressure keeps out the starts of a call of an export of this kind.
#[inline(always)]
pub fn bars(kind: ExportKind) -> bool
    ensures { result ≡ not (is_sync kind) }
{
    match kind {
        ExportKind::Sync => false,
        ExportKind::Blocking | ExportKind::Stackful | ExportKind::Callback => true,
    }
}

// The record of a thread, under its number, of the call at a place; backpressure bars its start or doesn't.
#[inline(always)]
pub fn thread_record(
    number: u64,
    thread: Thread,
    task: u32,
    instance: u32,
    barred: bool,
    entries: Entries,
    nodes: ThreadNodes,
) -> GuestThread
    ensures { result ≡ thread_record number thread task instance barred entries nodes }
{
    GuestThread {
        number,
        thread,
        task,
        instance,
        task_entry: entries.task,
        entry: entries.thread,
        set_entry: entries.set,
        state_target: 0,
        op_target: 0,
        barred,
        node: nodes.node,
        wait: nodes.wait,
        mark: nodes.mark,
        instance_queue: nodes.instance_queue,
        caller: nodes.caller,
        callers: nodes.callers,
        under: nodes.under,
    }
}
