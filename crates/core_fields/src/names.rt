ghost use Rattle.std.specs.Prelude.{◌≡◌};
ghost use Rattle.core_records.specs.Names.{AtPlace, caller_target, op_progress_target, join_target, subtask_target, work_caller_target};
ghost use Rattle.core_records.specs.Seen.{IsSoundCore, parts_of, seen};
ghost use Rattle.core_primitives.specs.Live.{live_caller, live_op_progress, live_join, live_subtask, live_work_caller, live_caller_of, live_work_caller_of, live_op_progress_of, live_join_of};
ghost use Rattle.core_primitives.specs.Names.{caller_in, op_progress_in, join_in, subtask_in, work_caller_in};
ghost use Rattle.core_primitives.specs.StateView.{call_of, thread_of, work_of};

use core_primitives::{
    CallId, CallerId, JoinId, OpProgressId, SubtaskId, ThreadId, WorkCallerId, WorkId,
};
use core_records::{CoreParts, call_id_at, set_id_at, thread_id_at, work_id_at};
use machine_data::{Caller, Join, OpProgress, Subtask, WorkCaller};

// The subtask of a name that was kept with a place.
fn subtask_id_of(parts: &CoreParts, place: u32, subtask: Subtask) -> SubtaskId
    requires sound { IsSoundCore parts.now }
    requires at { AtPlace (parts_of parts.now) place (subtask_target subtask) }
    ensures { subtask_in (seen parts.now).tags result ≡ live_subtask subtask (seen parts.now).core }
{
    match subtask {
        Subtask::Guest { call } => SubtaskId::Guest(call_id_at(parts, place, call)),
        Subtask::Host { work } => SubtaskId::Host(work_id_at(parts, place, work)),
    }
}

#[inline(always)]
fn op_progress_id(parts: &CoreParts, place: u32, op_progress: OpProgress) -> OpProgressId
    requires sound { IsSoundCore parts.now }
    requires at { AtPlace (parts_of parts.now) place (op_progress_target op_progress) }
    ensures { op_progress_in (seen parts.now).tags result ≡ live_op_progress op_progress (seen parts.now).core }
{
    match op_progress {
        OpProgress::Fresh => OpProgressId::Fresh,
        OpProgress::Waits { set } => OpProgressId::Waits(set_id_at(parts, place, set)),
        OpProgress::Calls { subtask } => OpProgressId::Calls(subtask_id_of(parts, place, subtask)),
        OpProgress::Answered { value } => OpProgressId::Answered(value),
        OpProgress::Cancels { subtask } => OpProgressId::Cancels(subtask_id_of(
            parts, place, subtask,
        )),
        OpProgress::AwaitsEnd { subtask } => OpProgressId::AwaitsEnd(subtask_id_of(
            parts, place, subtask,
        )),
        OpProgress::Suspends => OpProgressId::Suspends,
        OpProgress::Yields => OpProgressId::Yields,
    }
}

/// Returns the op progress of a thread: how far the op at its position has come.
#[inline(always)]
pub fn op_progress(parts: &CoreParts, thread: ThreadId) -> OpProgressId
    requires { IsSoundCore parts.now }
    ensures { op_progress_in (seen parts.now).tags result ≡ live_op_progress_of (thread_of (seen parts.now) thread) (seen parts.now).core }
{
    match core_records::thread(parts, thread) {
        Some(entry) => op_progress_id(parts, entry.op_target, entry.thread.op_progress),
        None => OpProgressId::Fresh,
    }
}

fn caller_id(parts: &CoreParts, place: u32, caller: Caller) -> CallerId
    requires sound { IsSoundCore parts.now }
    requires at { AtPlace (parts_of parts.now) place (caller_target caller) }
    ensures { caller_in (seen parts.now).tags result ≡ live_caller caller (seen parts.now).core }
{
    match caller {
        Caller::Main => CallerId::Main,
        Caller::Thread { thread } => CallerId::Thread(thread_id_at(parts, place, thread)),
    }
}

/// Returns who made a call.
pub fn caller(parts: &CoreParts, call: CallId) -> CallerId
    requires { IsSoundCore parts.now }
    ensures { caller_in (seen parts.now).tags result ≡ live_caller_of (call_of (seen parts.now) call) (seen parts.now).core }
{
    match core_records::call(parts, call) {
        Some(entry) => caller_id(parts, entry.maker, entry.call.caller),
        None => CallerId::Main,
    }
}

fn work_caller_id(parts: &CoreParts, place: u32, caller: WorkCaller) -> WorkCallerId
    requires sound { IsSoundCore parts.now }
    requires at { AtPlace (parts_of parts.now) place (work_caller_target caller) }
    ensures { work_caller_in (seen parts.now).tags result ≡ live_work_caller caller (seen parts.now).core }
{
    match caller {
        WorkCaller::Spawn => WorkCallerId::Spawn,
        WorkCaller::Async { thread, register } => WorkCallerId::Async {
            thread: thread_id_at(parts, place, thread),
            register,
        },
        WorkCaller::Sync { thread } => WorkCallerId::Sync(thread_id_at(parts, place, thread)),
    }
}

/// Returns who made a host work.
pub fn work_caller(parts: &CoreParts, work: WorkId) -> WorkCallerId
    requires { IsSoundCore parts.now }
    ensures { work_caller_in (seen parts.now).tags result ≡ live_work_caller_of (work_of (seen parts.now) work) (seen parts.now).core }
{
    match core_records::work(parts, work) {
        Some(entry) => work_caller_id(parts, entry.maker, entry.work.caller),
        None => WorkCallerId::Spawn,
    }
}

fn join_id(parts: &CoreParts, place: u32, join: Join) -> JoinId
    requires sound { IsSoundCore parts.now }
    requires at { AtPlace (parts_of parts.now) place (join_target join) }
    ensures { join_in (seen parts.now).tags result ≡ live_join join (seen parts.now).core }
{
    match join {
        Join::Nowhere => JoinId::Nowhere,
        Join::Set { set } => JoinId::Set(set_id_at(parts, place, set)),
        Join::Watched { thread } => JoinId::Watched(thread_id_at(parts, place, thread)),
    }
}

fn call_join(parts: &CoreParts, call: CallId) -> JoinId
    requires { IsSoundCore parts.now }
    ensures { join_in (seen parts.now).tags result ≡ live_join_of (subtask_in (seen parts.now).tags (SubtaskId.Guest call)) (seen parts.now).core }
{
    match core_records::call(parts, call) {
        Some(entry) => join_id(parts, entry.joined, entry.call.join),
        None => JoinId::Nowhere,
    }
}

fn work_join(parts: &CoreParts, work: WorkId) -> JoinId
    requires { IsSoundCore parts.now }
    ensures { join_in (seen parts.now).tags result ≡ live_join_of (subtask_in (seen parts.now).tags (SubtaskId.Host work)) (seen parts.now).core }
{
    match core_records::work(parts, work) {
        Some(entry) => join_id(parts, entry.joined, entry.work.join),
        None => JoinId::Nowhere,
    }
}

/// Returns in which set a subtask is.
#[inline(always)]
pub fn join(parts: &CoreParts, subtask: SubtaskId) -> JoinId
    requires { IsSoundCore parts.now }
    ensures { join_in (seen parts.now).tags result ≡ live_join_of (subtask_in (seen parts.now).tags subtask) (seen parts.now).core }
{
    match subtask {
        SubtaskId::Guest(call) => call_join(parts, call),
        SubtaskId::Host(work) => work_join(parts, work),
    }
}
