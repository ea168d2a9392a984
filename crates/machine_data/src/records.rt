//! The machine's records, as plain data. Calls are named by their first threads; threads, works,
//! sets and groups by numbers that are never given twice.

use crate::component::{Callee, ExportKind, HostDef};
use crate::statuses::{Mark, Phase, Status, TaskEvent};

/// What a thread may wait for, and what a handle of a subtask names.
#[derive(Clone, Copy)]
pub enum Subtask {
    /// A call of an export.
    Guest { call: u64 },
    /// A call of a host.
    Host { work: u64 },
}

/// What a handle of an instance's table names.
#[derive(Clone, Copy)]
pub enum Named {
    Subtask { subtask: Subtask },
    Set { set: u64 },
}

/// What a delivery is for.
#[derive(Clone, Copy)]
pub enum Delivery {
    /// An event of the set, or of the task.
    Set { set: u64 },
    /// The turn that comes again after a yield.
    Yield,
    /// A cancel.
    Cancel,
}

/// Why a thread is to be taken.
#[derive(Clone, Copy)]
pub enum Why {
    Start,
    Delivery { delivery: Delivery },
    Resumption,
}

/// Where a thread is: at exactly one place.
#[derive(Clone, Copy)]
pub enum Place {
    /// Not started, and without an entry.
    New,
    /// Its entry is queued at the mark.
    Ready { mark: Mark, why: Why },
    Running,
    /// Its direct callee runs on top of it.
    Under { callee: u64 },
    /// It goes on once the other one has stopped.
    Behind { thread: u64 },
    Waiting { set: u64, by_callback: bool },
    /// Until a status of the subtask is published, or the host call ends.
    Blocked { on: Subtask },
    /// Its entry was taken and not admitted.
    Held { why: Why },
    Suspended,
}

/// What is queued.
#[derive(Clone, Copy)]
pub enum Entry {
    Thread { thread: u64 },
    /// A host work that becomes live.
    Push { work: u64 },
    /// A host call of a subtask that has ended.
    Host { work: u64 },
}

/// How far the op at a thread's position has come.
#[derive(Clone, Copy)]
pub enum OpProgress {
    /// It hasn't begun.
    Fresh,
    /// A wait on the set, which found nothing.
    Waits { set: u64 },
    /// A call, whose subtask was made.
    Calls { subtask: Subtask },
    /// A call whose direct callee has answered this value.
    Answered { value: u64 },
    /// A cancel that has let its subtask go on.
    Cancels { subtask: Subtask },
    /// A cancel that waits for its subtask's end.
    AwaitsEnd { subtask: Subtask },
    /// A suspension: it is done when the thread is resumed.
    Suspends,
    /// A yield: it is done when the thread is resumed.
    Yields,
}

/// Which script a thread runs.
#[derive(Clone, Copy)]
pub enum Script {
    /// The start script of its call's export.
    Start,
    /// The react script of its call's export.
    React,
    /// The script of a slot of its call's instance.
    Slot { slot: u8 },
}

/// The record of a thread.
#[derive(Clone, Copy)]
pub struct Thread {
    pub place: Place,
    pub call: u64,
    /// Made by a `thread_new`, and not the first of its call.
    pub explicit: bool,
    pub script: Script,
    /// The place in the script of the next op, from 0.
    pub position: u32,
    pub op_progress: OpProgress,
    /// The thread's own handle; an implicit thread has one from its start on.
    pub handle: Option<u32>,
    /// `do_not_suspend` of its instance before its start, where it is of a sync export.
    pub saved_own: Option<bool>,
    /// `do_not_suspend` of the callee's instance before the op under way.
    pub saved_callee: Option<bool>,
    /// In version 2, when it last began to wait or to be held, as `arrivals` counts it.
    pub came: u64,
    pub registers: [u64; 16],
}

/// Who made a call.
#[derive(Clone, Copy)]
pub enum Caller {
    Main,
    Thread { thread: u64 },
}

/// Where the result of a call goes.
#[derive(Clone, Copy)]
pub enum Goal {
    /// Nowhere yet.
    Nowhere,
    /// To main, for a `finish`.
    Main,
    /// To a register of the calling thread.
    Register { register: u8 },
    /// To the answer of the calling thread's `call_sync`.
    Answer,
    /// To the thread under the callee's.
    Direct,
}

/// How a call ended.
#[derive(Clone, Copy)]
pub enum CallEnd {
    Returned,
    StartCancelled,
    ReturnCancelled,
}

/// Returns in which set a subtask is.
#[derive(Clone, Copy)]
pub enum Join {
    Nowhere,
    /// A set that a guest made.
    Set { set: u64 },
    /// The sync-call set of a thread.
    Watched { thread: u64 },
}

/// The record of a call.
#[derive(Clone, Copy)]
pub struct Call {
    pub caller: Caller,
    pub callee: Callee,
    /// The kind of that export.
    pub kind: ExportKind,
    pub goal: Goal,
    pub started: bool,
    pub starting_published: bool,
    pub end: Option<CallEnd>,
    /// The status that wasn't handed out yet.
    pub event: Option<Status>,
    pub task_event: Option<TaskEvent>,
    /// A cancel was asked of it.
    pub cancel_asked: bool,
    /// A cancel request was delivered.
    pub cancel_delivered: bool,
    /// Its first thread has ended.
    pub exited: bool,
    pub interesting: bool,
    /// The result of a `call_sync` that wasn't taken yet.
    pub result: Option<u64>,
    pub join: Join,
    pub handle: Option<u32>,
    pub group: u64,
    pub borrows: u32,
}

/// Who made a host work.
#[derive(Clone, Copy)]
pub enum WorkCaller {
    /// A spawn.
    Spawn,
    /// A `call` of this thread, whose result goes to its register.
    Async { thread: u64, register: u8 },
    /// A `call_sync` of this thread.
    Sync { thread: u64 },
}

/// What a host work results in.
#[derive(Clone, Copy)]
pub enum Course {
    /// It goes on: the polls left, and what it ends with, or nothing of that.
    Continues { host: HostDef },
    /// It ended with a value.
    Value { value: u64 },
    /// It was aborted.
    NoValue,
}

/// Where a host work is on its way.
#[derive(Clone, Copy)]
pub enum Stage {
    FirstPoll,
    /// Its push is queued.
    Queued,
    /// The loop polls it.
    Live,
    /// It has ended, and its host entry is queued.
    Finishing,
    Ended,
}

/// The record of a host work. A spawn has no group, event, join or handle.
#[derive(Clone, Copy)]
pub struct Work {
    pub caller: WorkCaller,
    pub course: Course,
    pub phase: Phase,
    pub stage: Stage,
    pub cancelled: bool,
    pub group: Option<u64>,
    pub event: Option<Status>,
    pub join: Join,
    pub handle: Option<u32>,
    pub borrows: u32,
}

/// The record of a waitable set.
#[derive(Clone, Copy)]
pub struct Set {
    pub instance: u32,
}

/// What an instance has beside its handles.
#[derive(Clone, Copy)]
pub struct Instance {
    pub backpressure: u16,
    /// While an entry of the instance holds it: no start but a sync one and no delivery may begin.
    pub do_not_enter: bool,
    /// While the instance may not block.
    pub do_not_suspend: bool,
    pub memory_cells: [u64; 16],
}

/// How many threads, works, sets and groups were made.
#[derive(Clone, Copy)]
pub struct MadeCounts {
    pub threads: u64,
    pub works: u64,
    pub sets: u64,
    pub groups: u64,
}

/// Whose turn it is in a run.
#[derive(Clone, Copy)]
pub enum Turn {
    Main,
    /// The live works are polled; those with numbers up to this one were, in this turn.
    Futures { polled: u64 },
    /// An entry is taken; `ended` says whether a work ended in this turn.
    Take { ended: bool },
    Run { thread: u64 },
    Over,
}

/// What a group does.
#[derive(Clone, Copy)]
pub enum NoticeKind {
    /// The group is made, with its first task.
    Start,
    /// Is told that a thread of the group begins to run, or goes on.
    Enter,
    /// Is told that the thread of the group that ran has stopped.
    Exit,
    /// Is told that the last task of the group has ended.
    Finish,
}

/// What the host is told of a group, which is a call by main or the host and all that came of it.
#[derive(Clone, Copy)]
pub struct Notice {
    pub kind: NoticeKind,
    pub group: u64,
}
