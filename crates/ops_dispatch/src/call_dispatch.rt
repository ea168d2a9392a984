//! The ops on subtasks, as they begin or resumed inside them.
ghost use Rattle.ops_dispatch.specs.Fits.{HasInstances, call_op_fits, is_host_call};
ghost use Rattle.ops_dispatch.specs.Continues.{cancels_here, given, MayDoOp};
ghost use Rattle.ops_dispatch.specs.Makes.{takes_memory, HasNumbersForCall, HasNumbersFor};
ghost use Rattle.ops_dispatch.specs.Polls.{DoesPolled, DoesHostCall, polled_by, polled_if_any};
ghost use Rattle.ops_dispatch.specs.Rules.{calls_here, calls_in_sync, rule_of};
ghost use Rattle.ops_dispatch.specs.Runner.{HasHandleTable, Runner, UnderWay, called_call, called_work, given_answer, progress_of};
ghost use Rattle.std.specs.Prelude.{◌≡◌, ◌<◌, ◌≤◌, ◌^◌, IfOk, IfSome, IsOk, IsSome, None, OnErr, false, length, option_copied, option_map, true, ℕ};
ghost use Rattle.ops_subtasks.specs.Refused.{mode_of};
ghost use Rattle.machine_data.specs.Maps.{get};
ghost use Rattle.machine_data.specs.declared.op.CallOp.{CallOp};
ghost use Rattle.machine_data.specs.declared.op.Op.TheVariants as ops;
ghost use Rattle.ops_guests.specs.Works.{KeepsTold, NamesTold};
ghost use Rattle.core_primitives.specs.StateView.{call_of, thread_of, work_of};

use crate::cancels;
use crate::done::{Done, plain};
use crate::scripts::{export_kind, host_def};
use core_primitives::{CallId, OpProgressId, Primitives, SubtaskId, ThreadId, WorkId};
use machine_data::{CallOp, Callee, Component, Goal, HostDef, HostPoll, NoMemory, Op, Operand};
use ops_guests::{OpResult, value_of};
use ops_subtasks::{
    answer_call, begin_call, begin_call_sync, call_host, call_sync_host, drop_subtask,
    go_on_calling, go_on_calling_host, go_on_calling_sync, read_operands,
};

// The call that the op is inside of.
fn called<W: Primitives>(w: &W, thread: ThreadId) -> Option<CallId>
    requires { UnderWay (thread_of (W.view w.now) thread) (W.view w.now).core }
    ensures is { option_map (λ id. call_of (W.view w.now) id) result ≡ called_call (progress_of thread (W.view w.now)) }
    ensures live { IfSome result (λ id. 0 < call_of (W.view w.now) id) }
{
    w.none_is_zero();
    match w.op_progress(thread) {
        OpProgressId::Calls(SubtaskId::Guest(call)) => Some(call),
        _ => None,
    }
}

// The host work that the op is inside of.
fn served<W: Primitives>(w: &W, thread: ThreadId) -> Option<WorkId>
    requires { UnderWay (thread_of (W.view w.now) thread) (W.view w.now).core }
    ensures is { option_map (λ id. work_of (W.view w.now) id) result ≡ called_work (progress_of thread (W.view w.now)) }
    ensures live { IfSome result (λ id. 0 < work_of (W.view w.now) id) }
{
    w.none_is_zero();
    match w.op_progress(thread) {
        OpProgressId::Calls(SubtaskId::Host(work)) => Some(work),
        _ => None,
    }
}

// The answer that the op was given.
fn answered<W: Primitives>(w: &W, thread: ThreadId) -> Option<u64>
    ensures { result ≡ given_answer (progress_of thread (W.view w.now)) }
{
    match w.op_progress(thread) {
        OpProgressId::Answered(value) => Some(value),
        _ => None,
    }
}

// `call R Q F X*`
fn call<W: Primitives>(
    component: &Component,
    w: &mut W,
    thread: ThreadId,
    register: u8,
    callee: Callee,
    params: &[Operand],
) -> Result<OpResult, NoMemory>
    requires runner { Runner thread (W.view w.old) }
    requires words { length params.now ≤ 16 }
    requires there { IsSome (get (W.view w.old).core.instances callee.instance) }
    requires handles { HasHandleTable thread (W.view w.old) }
    requires few { called_call (progress_of thread (W.view w.old)) ≡ None → given (W.view w.old).core < 2 ^ 61 }
    ensures does { MayDoOp KeepsTold (calls_here component.now register callee params.now) thread (W.view w.old) result (W.view w.new) }
    ensures err { OnErr result (W.view w.new ≡ W.view w.old) }
{
    if let Some(call) = called(w, thread) {
        return go_on_calling(w, thread, call);
    }
    let mut words = [0; 16];
    read_operands(w, thread, params, &mut words);
    let kind = export_kind(component, callee);
    let goal = Goal::Register { register };
    begin_call(w, thread, callee, kind, goal, &words[..params.len()])
}

// `call_sync R F X*`, as it begins. It is a function of its own, as the values that are passed are in memory.
#[inline(always)]
fn begins_sync<W: Primitives>(
    component: &Component,
    w: &mut W,
    thread: ThreadId,
    callee: Callee,
    params: &[Operand],
) -> Result<OpResult, NoMemory>
    requires runner { Runner thread (W.view w.old) }
    requires words { length params.now ≤ 16 }
    requires there { IsSome (get (W.view w.old).core.instances callee.instance) }
    requires few { given (W.view w.old).core < 2 ^ 61 }
    requires unanswered { given_answer (progress_of thread (W.view w.old)) ≡ None }
    requires uncalled { called_call (progress_of thread (W.view w.old)) ≡ None }
    ensures does { MayDoOp KeepsTold (calls_in_sync component.now callee params.now) thread (W.view w.old) result (W.view w.new) }
    ensures err { OnErr result (W.view w.new ≡ W.view w.old) }
{
    let mut words = [0; 16];
    read_operands(w, thread, params, &mut words);
    let kind = export_kind(component, callee);
    begin_call_sync(w, thread, callee, kind, &words[..params.len()])
}

// `call_sync R F X*`
fn call_sync<W: Primitives>(
    component: &Component,
    w: &mut W,
    thread: ThreadId,
    callee: Callee,
    params: &[Operand],
) -> Result<OpResult, NoMemory>
    requires runner { Runner thread (W.view w.old) }
    requires words { length params.now ≤ 16 }
    requires there { IsSome (get (W.view w.old).core.instances callee.instance) }
    requires few { HasNumbersForCall (thread_of (W.view w.old) thread) (W.view w.old).core }
    ensures does { MayDoOp KeepsTold (calls_in_sync component.now callee params.now) thread (W.view w.old) result (W.view w.new) }
    ensures err { OnErr result (W.view w.new ≡ W.view w.old) }
{
    if let Some(value) = answered(w, thread) {
        return Ok(answer_call(w, thread, value));
    }
    if let Some(call) = called(w, thread) {
        return Ok(go_on_calling_sync(w, thread, call));
    }
    begins_sync(component, w, thread, callee, params)
}

// `call R Q H`
fn call_of_host<W: Primitives>(
    component: &Component,
    w: &mut W,
    thread: ThreadId,
    register: u8,
    host: u32,
    answer: HostPoll,
) -> Result<Done, NoMemory>
    requires runner { Runner thread (W.view w.old) }
    requires few { given (W.view w.old).core < 2 ^ 61 }
    ensures does { DoesHostCall answer component.now (λ r. CallOp.CallHost r register host) thread (W.view w.old) result (W.view w.new) }
    ensures kept { IfOk result (λ done. KeepsTold (W.view w.old) (W.view w.new)) }
    ensures err { OnErr result (W.view w.new ≡ W.view w.old) }
{
    let host = host_def(component, host);
    let (op_result, work) = call_host(w, thread, register, host, answer)?;
    Ok(Done {
        op_result,
        polled: Some(host),
        work,
    })
}

// `call_sync R H`
fn call_sync_of_host<W: Primitives>(
    component: &Component,
    w: &mut W,
    thread: ThreadId,
    host: u32,
    answer: HostPoll,
) -> Result<Done, NoMemory>
    requires runner { Runner thread (W.view w.old) }
    requires few { called_work (progress_of thread (W.view w.old)) ≡ None → given (W.view w.old).core < 2 ^ 61 }
    ensures does { DoesHostCall answer component.now (λ r. CallOp.CallSyncHost r host) thread (W.view w.old) result (W.view w.new) }
    ensures err { OnErr result (W.view w.new ≡ W.view w.old) }
{
    if let Some(work) = served(w, thread) {
        return Ok(plain(go_on_calling_host(w, thread, work)));
    }
    let host = host_def(component, host);
    let (op_result, work) = call_sync_host(w, thread, host, answer)?;
    Ok(Done {
        op_result,
        polled: Some(host),
        work,
    })
}

/// Returns whether the op is a call of a host.
#[inline(always)]
pub fn is_host_call(op: &CallOp) -> bool
    ensures { result ≡ is_host_call op.now }
{
    matches!(op, CallOp::CallHost { .. } | CallOp::CallSyncHost { .. })
}

// The host of a `call_sync`, which is polled as the call begins: none if the call is under way.
fn first_host<W: Primitives>(
    component: &Component,
    w: &W,
    thread: ThreadId,
    host: u32,
) -> Option<(u32, HostDef)>
    requires { UnderWay (thread_of (W.view w.now) thread) (W.view w.now).core }
    ensures { (r : ℕ) → option_map (λ h. h.1) result ≡ polled_by component.now thread (W.view w.now) (ops.Call (CallOp.CallSyncHost r host)) }
{
    if let Some(_work) = served(w, thread) {
        return None;
    }
    let found = host_def(component, host);
    Some((host, found))
}

/// Returns the host that an op of the running thread, none at the end of a script, polls first, with its place in the component.
/// None if the op calls no host, and where its call is under way.
pub fn called_host<W: Primitives>(
    component: &Component,
    w: &W,
    thread: ThreadId,
    op: Option<&Op>,
) -> Option<(u32, HostDef)>
    requires { UnderWay (thread_of (W.view w.now) thread) (W.view w.now).core }
    ensures { option_map (λ h. h.1) result ≡ polled_if_any component.now thread (W.view w.now) (option_copied op.entry) }
{
    match op {
        Some(Op::Call(CallOp::CallHost { host, .. })) => {
            Some((*host, host_def(component, *host)))
        }
        Some(Op::Call(CallOp::CallSyncHost { host, .. })) => {
            first_host(component, w, thread, *host)
        }
        _ => None,
    }
}

/// Does a call of a host, which was polled first and if it is open has answered so: the host and the work that the call makes are
/// named. If it is out of memory, all is as before.
pub fn do_host_call<W: Primitives>(
    component: &Component,
    w: &mut W,
    thread: ThreadId,
    op: &CallOp,
    answer: HostPoll,
) -> Result<Done, NoMemory>
    requires runner { Runner thread (W.view w.old) }
    requires host { is_host_call op.now ≡ true }
    requires few { HasNumbersFor (ops.Call op.now) thread (W.view w.old) }
    ensures does { IfOk result (λ done. DoesPolled answer component.now (ops.Call op.now) thread (W.view w.old) done (W.view w.new)) }
    ensures err { OnErr result ((takes_memory (ops.Call op.now) ≡ true) × (W.view w.new ≡ W.view w.old)) }
{
    match op {
        CallOp::CallHost {
            to: _,
            result,
            host,
        } => { call_of_host(component, w, thread, *result, *host, answer) }
        CallOp::CallSyncHost { to: _, host } => {
            call_sync_of_host(component, w, thread, *host, answer)
        }
        _ => unreachable!(),
    }
}

// `cancel R X`, or `cancel_sync R X` where it is sync. It is a function of its own, as what it results in is in memory.
#[inline(always)]
fn cancel<W: Primitives>(
    w: &mut W,
    thread: ThreadId,
    handle: u64,
    sync: bool,
) -> Result<OpResult, NoMemory>
    requires runner { Runner thread (W.view w.old) }
    ensures does { MayDoOp KeepsTold (cancels_here (mode_of sync) handle) thread (W.view w.old) result (W.view w.new) }
    ensures ok { IsOk result }
{
    Ok(cancels(w, thread, handle, sync))
}

/// Does an op on subtasks that calls no host. If it is out of memory, all is as before.
#[inline(always)]
pub(crate) fn do_plain_call<W: Primitives>(
    component: &Component,
    w: &mut W,
    thread: ThreadId,
    op: &CallOp,
) -> Result<OpResult, NoMemory>
    requires runner { Runner thread (W.view w.old) }
    requires plain { is_host_call op.now ≡ false }
    requires fits { call_op_fits component.now op.now ≡ true }
    requires handles { HasHandleTable thread (W.view w.old) }
    requires instances { HasInstances component.now (W.view w.old).core }
    requires few { HasNumbersFor (ops.Call op.now) thread (W.view w.old) }
    ensures does { MayDoOp NamesTold (rule_of component.now (ops.Call op.now)) thread (W.view w.old) result (W.view w.new) }
    ensures err { OnErr result ((takes_memory (ops.Call op.now) ≡ true) × (W.view w.new ≡ W.view w.old)) }
{
    match op {
        CallOp::Call {
            to: _,
            result,
            callee,
            params,
        } => call(component, w, thread, *result, *callee, params.as_slice()),
        CallOp::CallSync {
            to: _,
            callee,
            params,
        } => { call_sync(component, w, thread, *callee, params.as_slice()) }
        CallOp::Cancel { to: _, subtask } => {
            let handle = value_of(w, thread, *subtask);
            cancel(w, thread, handle, false)
        }
        CallOp::CancelSync { to: _, subtask } => {
            let handle = value_of(w, thread, *subtask);
            cancel(w, thread, handle, true)
        }
        CallOp::Drop { subtask } => {
            let handle = value_of(w, thread, *subtask);
            Ok(drop_subtask(w, thread, handle))
        }
        _ => unreachable!(),
    }
}
