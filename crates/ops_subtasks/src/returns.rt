//! Calls of exports whose start was queued, as they go on.
ghost use Rattle.std.specs.Prelude.{◌≡◌, ◌+◌, ◌*◌, ◌<◌, IfOk, OnErr, false, is_some, true};
ghost use Rattle.ops_subtasks.specs.Named.{LosesCallOf};
ghost use Rattle.ops_subtasks.specs.Rules.{call_pends, goes_on_in_sync, goes_on_with, result_taken, return_taken};
ghost use Rattle.machine_data.specs.Maps.{get};
ghost use Rattle.machine_data.specs.Moves.{passes_check};
ghost use Rattle.machine_data.specs.Read.{at_handle_limit, instance_of, new_handle, result_of};
ghost use Rattle.machine_data.specs.Statuses.{packed, status_code};
ghost use Rattle.ops_guests.specs.Does.{DoesRule, MayDoRule};
ghost use Rattle.ops_guests.specs.Running.{IsRunning};
ghost use Rattle.machine_rules.specs.Calls.{call_resumes, call_stops, call_sync_stops, status_found};
ghost use Rattle.core_primitives.specs.Names.{subtask_in};
ghost use Rattle.core_primitives.specs.StateView.{KeepsBut, call_of, lost_call, on_core, thread_of};
ghost use Rattle.core_primitives.specs.Records.{LosesCallBy};

use core_primitives::{CallId, NoMemory, OpProgressId, PlaceId, Primitives, SubtaskId, ThreadId};
use machine_data::{CallLabel, Label, Status, ThreadLabel, Trap};
use ops_guests::{OpAnswer, OpResult};
use ops_moves::{check, foot_of, passes_check, settle_call, stop};

// The number under which a status is handed out.
fn status_code(status: Status) -> u32
    ensures code { result ≡ status_code status }
    ensures small { result < 16 }
{
    match status {
        Status::Starting => 0,
        Status::Started => 1,
        Status::Returned => 2,
        Status::StartCancelled => 3,
        Status::ReturnCancelled => 4,
    }
}

// The status that the calling thread finds.
fn status_found<W: Primitives>(w: &W, call: CallId) -> Status
    ensures { result ≡ status_found (call_of (W.view w.now) call) (W.view w.now).core }
{
    w.event(SubtaskId::Guest(call)).unwrap_or(Status::Starting)
}

// The calling thread is resumed: the saved flag is written back, and the callee's event is taken.
#[tactic(auto, unfolding(machine_rules::specs::Calls::call_resumes))]
fn resume<W: Primitives>(w: &mut W, thread: ThreadId, call: CallId)
    ensures { W.view w.new ≡ on_core (call_resumes (thread_of (W.view w.old) thread) (call_of (W.view w.old) call)) (W.view w.old) }
{
    if let Some(flag) = w.saved_callee(thread) {
        let instance = w.callee(call).instance;
        w.set_do_not_suspend(instance, flag);
    }
    w.set_event(SubtaskId::Guest(call), None);
}

// The strand stops, and its top is blocked on the subtask of its call.
#[tactic(auto, unfolding(machine_rules::specs::Calls::call_stops))]
#[inline(always)]
pub(crate) fn stop_blocked<W: Primitives>(w: &mut W, thread: ThreadId, subtask: SubtaskId)
    requires live { 0 < thread_of (W.view w.old) thread }
    requires running { IsRunning (thread_of (W.view w.old) thread) (W.view w.old).core }
    ensures { W.view w.new ≡ on_core (call_stops (thread_of (W.view w.old) thread) (subtask_in (W.view w.old).tags subtask)) (W.view w.old) }
{
    let foot = foot_of(w, thread);
    stop(w, foot);
    w.stand_at(
        thread,
        PlaceId::Blocked(subtask),
        OpProgressId::Calls(subtask),
    );
}

// The callee has returned to a `call`.
#[tactic(auto, unfolding(machine_rules::specs::Calls::call_let_go))]
fn take_return<W: Primitives>(w: &mut W, thread: ThreadId, call: CallId)
    requires live { 0 < thread_of (W.view w.old) thread }
    requires call { 0 < call_of (W.view w.old) call }
    ensures { LosesCallBy (return_taken (thread_of (W.view w.old) thread)) call (W.view w.old) (W.view w.new) }
{
    resume(w, thread, call);
    settle_call(w, call);
    w.set_saved_callee(thread, None);
}

// The subtask gets a handle, and the answer is packed of it and the status. If it is out of memory, all is as before.
fn pend<W: Primitives>(
    w: &mut W,
    thread: ThreadId,
    call: CallId,
    status: Status,
) -> Result<u32, NoMemory>
    requires there { is_some (get (W.view w.old).core.handles (instance_of (thread_of (W.view w.old) thread) (W.view w.old).core)) ≡ true }
    requires limit { at_handle_limit (W.view w.old).core ≡ false }
    ensures value { IfOk result (λ v. v ≡ packed (new_handle (instance_of (thread_of (W.view w.old) thread) (W.view w.old).core) (W.view w.old).core) status) }
    ensures new { IfOk result (λ v. W.view w.new ≡ on_core (call_pends (thread_of (W.view w.old) thread) (call_of (W.view w.old) call)) (W.view w.old)) }
    ensures err { OnErr result (W.view w.new ≡ W.view w.old) }
{
    let instance = w.instance_of(thread);
    let handle = w.name_subtask(instance, SubtaskId::Guest(call))?;
    let value = 16 * handle + status_code(status);
    resume(w, thread, call);
    w.set_saved_callee(thread, None);
    Ok(value)
}

/// Does `call R Q F X*`, going on inside the call. If it is out of memory, all is as before.
pub fn go_on_calling<W: Primitives>(
    w: &mut W,
    thread: ThreadId,
    call: CallId,
) -> Result<OpResult, NoMemory>
    requires live { 0 < thread_of (W.view w.old) thread }
    requires call { 0 < call_of (W.view w.old) call }
    requires there { is_some (get (W.view w.old).core.handles (instance_of (thread_of (W.view w.old) thread) (W.view w.old).core)) ≡ true }
    ensures does { MayDoRule (LosesCallOf call) (goes_on_with (call_of (W.view w.old) call)) thread (W.view w.old) result (W.view w.new) }
    ensures thread { thread_of (W.view w.new) thread ≡ thread_of (W.view w.old) thread }
    ensures err { OnErr result (W.view w.new ≡ W.view w.old) }
{
    let number = w.number(thread);
    let status = status_found(w, call);
    if matches!(status, Status::Returned) {
        take_return(w, thread, call);
        return Ok(OpResult::Continues(
            Label::Call(CallLabel::Call(2, number)),
            number,
            OpAnswer::Number(2),
        ));
    }
    if w.at_handle_limit() {
        return Ok(OpResult::Traps(Trap::HandleLimit));
    }
    let value = pend(w, thread, call, status)?;
    Ok(OpResult::Continues(
        Label::Call(CallLabel::Call(value, number)),
        number,
        OpAnswer::Number(value),
    ))
}

// The callee has returned to a `call_sync`, whose answer is the result.
#[tactic(auto, unfolding(machine_rules::specs::Calls::call_taken))]
fn take_answer<W: Primitives>(w: &mut W, thread: ThreadId, call: CallId) -> u64
    requires live { 0 < thread_of (W.view w.old) thread }
    requires call { 0 < call_of (W.view w.old) call }
    ensures value { result ≡ result_of (call_of (W.view w.old) call) (W.view w.old).core }
    ensures core { (W.view w.new).core ≡ result_taken (thread_of (W.view w.old) thread) (call_of (W.view w.old) call) (W.view w.old).core }
    ensures current { (W.view w.new).current ≡ (W.view w.old).current }
    ensures tags { KeepsBut (lost_call (call_of (W.view w.old) call)) (W.view w.old).tags (W.view w.new).tags }
{
    let value = w.result_of(call);
    resume(w, thread, call);
    w.set_result(call, None);
    settle_call(w, call);
    w.set_saved_callee(thread, None);
    value
}

// A check of the instance passes once the calling thread is resumed.
fn passes_resumed<W: Primitives>(w: &mut W, thread: ThreadId, call: CallId, instance: u32) -> bool
    ensures passes { result ≡ passes_check instance (call_resumes (thread_of (W.view w.old) thread) (call_of (W.view w.old) call) (W.view w.old).core) }
    ensures same { W.view w.new ≡ W.view w.old }
{
    let event = w.event(SubtaskId::Guest(call));
    let callee = w.callee(call).instance;
    let flag = w.may_not_suspend(callee);
    resume(w, thread, call);
    let passes = passes_check(w, instance);
    w.set_event(SubtaskId::Guest(call), event);
    w.set_do_not_suspend(callee, flag);
    passes
}

// The strand stops after a check, and its top is blocked on the callee.
#[tactic(auto, unfolding(machine_rules::specs::Calls::call_sync_stops))]
fn stop_sync<W: Primitives>(w: &mut W, thread: ThreadId, call: CallId)
    requires live { 0 < thread_of (W.view w.old) thread }
    requires running { IsRunning (thread_of (W.view w.old) thread) (W.view w.old).core }
    ensures { W.view w.new ≡ on_core (call_sync_stops (thread_of (W.view w.old) thread) (call_of (W.view w.old) call)) (W.view w.old) }
{
    let instance = w.instance_of(thread);
    resume(w, thread, call);
    check(w, instance);
    stop_blocked(w, thread, SubtaskId::Guest(call));
}

/// Does `call_sync R F X*`, going on inside the call.
pub fn go_on_calling_sync<W: Primitives>(w: &mut W, thread: ThreadId, call: CallId) -> OpResult
    requires live { 0 < thread_of (W.view w.old) thread }
    requires call { 0 < call_of (W.view w.old) call }
    requires running { IsRunning (thread_of (W.view w.old) thread) (W.view w.old).core }
    ensures does { DoesRule (LosesCallOf call) (goes_on_in_sync (call_of (W.view w.old) call)) thread (W.view w.old) result (W.view w.new) }
    ensures thread { thread_of (W.view w.new) thread ≡ thread_of (W.view w.old) thread }
{
    let number = w.number(thread);
    if matches!(status_found(w, call), Status::Returned) {
        let value = take_answer(w, thread, call);
        return OpResult::Continues(
            Label::Call(CallLabel::CallSync(number, value)),
            number,
            OpAnswer::Value(value),
        );
    }
    let instance = w.instance_of(thread);
    if !passes_resumed(w, thread, call, instance) {
        return OpResult::Traps(Trap::CannotBlockSyncTask);
    }
    stop_sync(w, thread, call);
    OpResult::Stops(Label::Thread(ThreadLabel::Pauses(number)))
}
