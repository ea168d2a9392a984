//! Where the running thread's op chooses, found in the state before the step.
ghost use Rattle.core_primitives.specs.Names.{subtask_in};
ghost use Rattle.core_primitives.specs.StateView.{call_of, set_of, thread_if_any, thread_of};
ghost use Rattle.laws_choices.specs.Offer.{Offer};
ghost use Rattle.laws_choices.specs.Offers.{blocking_exit_offer, code_offer, dec_offer, exit_offer, join_offer, join_to_offer, op_offer};
ghost use Rattle.laws_choices.specs.Offers.{poll_offer, releases, ret_offer, set_offer, task_cancel_offer, task_offer, wait_offer};
ghost use Rattle.machine_data.specs.Moves.{waits_cancellable};
ghost use Rattle.machine_data.specs.Read.{backpressure_of, instance_of, is_watched, join_of, op_progress_of, task_of};
ghost use Rattle.machine_data.specs.declared.records.OpProgress.TheVariants as op_progress;
ghost use Rattle.machine_data.specs.declared.records.Subtask.TheVariants as subtasks;
ghost use Rattle.machine_rules.specs.Ends.{held_by_flag, leaves_no_result, passes_after_return, passes_after_stop};
ghost use Rattle.machine_rules.specs.Scripts.{op_of};
ghost use Rattle.machine_rules.specs.Sets.{finds_nothing};
ghost use Rattle.ops_dispatch.specs.Runner.{Runner, UnderWay};
ghost use Rattle.ops_guests.specs.OpWakes.{WaitersTogether, is_of, wakes_in};
ghost use Rattle.ops_guests.specs.PickedEvents.{AllMembersNamed};
ghost use Rattle.ops_guests.specs.Running.{SetsThere};
ghost use Rattle.ops_moves.specs.Idle.{IsJoinThere};
ghost use Rattle.std.specs.Prelude.{◌≡◌, ◌*◌, ◌+◌, ◌<◌, None, ℕ};
ghost use Rattle.choice_offers.specs.Spots.{MayWakeIn, Offers, OffersTo, opened_by};

use crate::cancel_spots::call_spot;
use crate::spots::{Opening, Spot, gives, gives_woken, no_spot, picks_task_event, tells, wakes};
use core_lists::some_held_by_flag;
use core_primitives::{
    CallId, CallPrimitives, InstancePrimitives, JoinId, OpProgressId, PlacePrimitives, SetId,
    SetPrimitives, SubtaskId, SubtaskPrimitives, ThreadId, ThreadPrimitives, View,
};
use core_state::TaskCore;
use machine_data::{Component, ExportKind, Goal, Op, SetOp, TaskOp, Version};
use ops_dispatch::{op_at, script_ops};
use ops_guests::{set_named, value_of};
use ops_moves::{foot_of, is_told, passes_check, tell_waiter};

// The held threads of the instance are released beside what the spot chooses.
fn opens(core: &TaskCore, instance: u32, opening: Opening, spot: Spot) -> Spot
    ensures { (n : ℕ) (o : Offer) → Offers core.now n spot o → Offers core.now n result
        (releases (opened_by opening instance core.now.core) o) }
{
    // only the contract speaks of `core`
    let _core = core;
    Spot {
        wakes: spot.wakes,
        takes: spot.takes,
        opens: Some((instance, opening)),
    }
}

// ---- Ops on tasks

fn ret_spot(core: &TaskCore, thread: ThreadId) -> Spot
    requires { IsJoinThere (subtasks.Guest (task_of (thread_of core.now thread) core.now.core)) core.now.core }
    ensures { Offers core.now (thread_of core.now thread) result (ret_offer (thread_of core.now thread) core.now.core) }
{
    let call = core.task_of(thread);
    if core.end_of(call).is_some() {
        return no_spot(core);
    }
    match core.kind(call) {
        ExportKind::Stackful => tells(core, call),
        ExportKind::Callback => tells(core, call),
        ExportKind::Sync => no_spot(core),
        ExportKind::Blocking => no_spot(core),
    }
}

fn task_cancel_spot(core: &TaskCore, thread: ThreadId) -> Spot
    requires { IsJoinThere (subtasks.Guest (task_of (thread_of core.now thread) core.now.core)) core.now.core }
    ensures { Offers core.now (thread_of core.now thread) result (task_cancel_offer (thread_of core.now thread) core.now.core) }
{
    let call = core.task_of(thread);
    if !core.cancel_was_delivered(call) {
        return no_spot(core);
    }
    if core.end_of(call).is_some() {
        return no_spot(core);
    }
    tells(core, call)
}

// Whether the subtask is in a thread's own set.
fn is_watched(core: &TaskCore, subtask: SubtaskId) -> bool
    ensures { result ≡ is_watched (join_of (subtask_in core.now.tags subtask) core.now.core) }
{
    matches!(core.join(subtask), JoinId::Watched(_))
}

// The thread, if there is one, is of the instance.
fn is_of(core: &TaskCore, thread: Option<ThreadId>, instance: u32) -> bool
    ensures { result ≡ is_of instance (thread_if_any core.now thread) core.now.core }
{
    match thread {
        None => false,
        Some(thread) => core.instance_of(thread) == instance,
    }
}

// Whether an end of the call that is told gives an entry to a thread of the instance, if this waiter is woken.
fn wakes_of(core: &TaskCore, call: CallId, waiter: Option<ThreadId>, instance: u32) -> bool
    requires { 0 < call_of core.now call }
    ensures { result ≡ wakes_in instance (call_of core.now call) (thread_if_any core.now waiter) core.now.core }
{
    is_told(core, call)
        && (is_of(core, core.blocked_on(SubtaskId::Guest(call)), instance)
            || is_of(core, waiter, instance))
}

// So it is whoever of the waiters is woken, as these are of one instance.
fn wakes_in_instance(core: &TaskCore, call: CallId, instance: u32) -> bool
    requires live { 0 < call_of core.now call }
    requires there { IsJoinThere (subtasks.Guest (call_of core.now call)) core.now.core }
    ensures { MayWakeIn instance (call_of core.now call) core.now.core result }
{
    wakes_of(core, call, tell_waiter(core, call), instance)
}

// A check of the instance passes once its held threads are released and the task has returned.
fn passes_after_return(core: &TaskCore, thread: ThreadId) -> bool
    requires live { 0 < thread_of core.now thread }
    requires there { IsJoinThere (subtasks.Guest (task_of (thread_of core.now thread) core.now.core)) core.now.core }
    requires together { WaitersTogether core.now.core }
    ensures { result ≡ passes_after_return (thread_of core.now thread) None core.now.core }
{
    let instance = core.instance_of(thread);
    let call = core.task_of(thread);
    let passes = passes_check(core, instance);
    let held = some_held_by_flag(core, instance);
    let told = wakes_in_instance(core, call, instance);
    passes | (held | told)
}

fn blocking_exit_spot(core: &TaskCore, thread: ThreadId) -> Spot
    requires live { 0 < thread_of core.now thread }
    requires there { IsJoinThere (subtasks.Guest (task_of (thread_of core.now thread) core.now.core)) core.now.core }
    requires together { WaitersTogether core.now.core }
    ensures { Offers core.now (thread_of core.now thread) result (blocking_exit_offer (thread_of core.now thread) core.now.core) }
{
    if !passes_after_return(core, thread) {
        return no_spot(core);
    }
    let told = tells(core, core.task_of(thread));
    opens(core, core.instance_of(thread), Opening::Flag, told)
}

// A check of the instance passes once the strand has stopped and its held threads are released.
#[tactic(auto, unfolding(machine_rules::specs::Ends::passes_after_stop))]
fn passes_after_stop(core: &TaskCore, instance: u32, foot: ThreadId) -> bool
    ensures { result ≡ passes_after_stop instance (thread_of core.now foot) (held_by_flag instance core.now.core) core.now.core }
{
    passes_check(core, instance) || core.has_callers(foot) || some_held_by_flag(core, instance)
}

// The thread is the last of a task that hasn't ended.
#[tactic(auto, unfolding(machine_rules::specs::Ends::leaves_no_result))]
fn leaves_no_result(core: &TaskCore, thread: ThreadId) -> bool
    ensures { result ≡ leaves_no_result (thread_of core.now thread) core.now.core }
{
    core.is_last_thread(thread) && core.end_of(core.task_of(thread)).is_none()
}

// Code 0: the thread ends.
fn code_exit_spot(core: &TaskCore, thread: ThreadId) -> Spot
    requires { 0 < thread_of core.now thread }
    ensures { Offers core.now (thread_of core.now thread) result (code_offer (thread_of core.now thread) core.now.core 0) }
{
    let instance = core.instance_of(thread);
    if !passes_after_stop(core, instance, foot_of(core, thread)) {
        return no_spot(core);
    }
    if leaves_no_result(core, thread) {
        return no_spot(core);
    }
    opens(core, instance, Opening::Flag, no_spot(core))
}

// An activation ends with the code.
fn code_spot(core: &TaskCore, thread: ThreadId, code: u64) -> Spot
    requires live { 0 < thread_of core.now thread }
    requires sets { SetsThere core.now.core }
    ensures { Offers core.now (thread_of core.now thread) result (code_offer (thread_of core.now thread) core.now.core code) }
{
    if code > 4294967295 {
        return no_spot(core);
    }
    let instance = core.instance_of(thread);
    match code % 16 {
        0 => code_exit_spot(core, thread),
        1 => opens(core, instance, Opening::Flag, no_spot(core)),
        2 => match set_named(core, instance, code / 16) {
            Some(_) => opens(core, instance, Opening::Flag, no_spot(core)),
            None => no_spot(core),
        },
        _ => no_spot(core),
    }
}

// `cb_wait X`: its code is 16 times X plus 2, which is no code from 268435456 on.
fn wait_code_spot(core: &TaskCore, thread: ThreadId, set: u64) -> Spot
    requires live { 0 < thread_of core.now thread }
    requires sets { SetsThere core.now.core }
    ensures { Offers core.now (thread_of core.now thread) result (code_offer (thread_of core.now thread) core.now.core (16 * set + 2)) }
{
    if set >= 268435456 {
        return no_spot(core);
    }
    code_spot(core, thread, 16 * set + 2)
}

fn exit_spot(core: &TaskCore, thread: ThreadId) -> Spot
    requires live { 0 < thread_of core.now thread }
    requires there { IsJoinThere (subtasks.Guest (task_of (thread_of core.now thread) core.now.core)) core.now.core }
    requires together { WaitersTogether core.now.core }
    requires sets { SetsThere core.now.core }
    ensures { Offers core.now (thread_of core.now thread) result (exit_offer (thread_of core.now thread) core.now.core) }
{
    if core.is_explicit(thread) {
        return no_spot(core);
    }
    let call = core.task_of(thread);
    if matches!(core.goal(call), Goal::Direct) {
        return no_spot(core);
    }
    match core.kind(call) {
        ExportKind::Sync => tells(core, call),
        ExportKind::Blocking => blocking_exit_spot(core, thread),
        ExportKind::Stackful => no_spot(core),
        ExportKind::Callback => code_spot(core, thread, 0),
    }
}

// The backpressure that falls to 0 releases the instance.
fn dec_spot(core: &TaskCore, thread: ThreadId) -> Spot
    ensures { OffersTo core.now thread result (λ n s. dec_offer n s (backpressure_of (instance_of n s) s)) }
{
    let instance = core.instance_of(thread);
    if core.backpressure(instance) == 1 {
        opens(core, instance, Opening::Counter, no_spot(core))
    } else {
        no_spot(core)
    }
}

fn task_spot(core: &TaskCore, thread: ThreadId, op: &TaskOp) -> Spot
    requires live { 0 < thread_of core.now thread }
    requires there { IsJoinThere (subtasks.Guest (task_of (thread_of core.now thread) core.now.core)) core.now.core }
    requires together { WaitersTogether core.now.core }
    requires sets { SetsThere core.now.core }
    ensures { Offers core.now (thread_of core.now thread) result (task_offer (thread_of core.now thread) core.now.core op.now) }
{
    match op {
        TaskOp::Ret { value: _ } => ret_spot(core, thread),
        TaskOp::TaskCancel => task_cancel_spot(core, thread),
        TaskOp::Exit => exit_spot(core, thread),
        TaskOp::CbYield => code_spot(core, thread, 1),
        TaskOp::CbWait { set } => wait_code_spot(core, thread, value_of(core, thread, *set)),
        TaskOp::Code { code } => code_spot(core, thread, value_of(core, thread, *code)),
        TaskOp::BpDec => dec_spot(core, thread),
        TaskOp::RetBad { value: _ } => no_spot(core),
        TaskOp::BpInc => no_spot(core),
    }
}

// ---- Ops on sets

fn poll_spot(core: &TaskCore, thread: ThreadId, handle: u64) -> Spot
    requires sets { SetsThere core.now.core }
    requires members { AllMembersNamed (instance_of (thread_of core.now thread) core.now.core) core.now.core }
    ensures { Offers core.now (thread_of core.now thread) result (poll_offer (thread_of core.now thread) handle core.now.core) }
{
    match set_named(core, core.instance_of(thread), handle) {
        Some(set) => gives(core, false, thread, set),
        None => no_spot(core),
    }
}

// Whether a `wait` of the task may take Cancelled: in version 2 that of an async-lifted one.
fn waits_cancellable(core: &TaskCore, call: CallId) -> bool
    ensures { result ≡ waits_cancellable (call_of core.now call) core.now.core }
{
    match core.version() {
        Version::One => false,
        Version::Two => matches!(core.kind(call), ExportKind::Stackful | ExportKind::Callback),
    }
}

// Neither the task event, as far as the thread may take it, nor a ready member is there.
#[tactic(auto, unfolding(machine_rules::specs::Sets::finds_nothing))]
fn finds_nothing(core: &TaskCore, thread: ThreadId, set: SetId) -> bool
    requires { 0 < set_of core.now set }
    ensures { result ≡ finds_nothing (thread_of core.now thread) (set_of core.now set) core.now.core }
{
    let call = core.task_of(thread);
    let cancellable = waits_cancellable(core, call);
    !picks_task_event(core, cancellable, call) && !core.has_ready_member(set)
}

// As it begins a wait takes only what is there.
fn begin_wait_spot(core: &TaskCore, thread: ThreadId, handle: u64) -> Spot
    requires sets { SetsThere core.now.core }
    requires members { AllMembersNamed (instance_of (thread_of core.now thread) core.now.core) core.now.core }
    ensures { Offers core.now (thread_of core.now thread) result
        (wait_offer (thread_of core.now thread) handle core.now.core op_progress.Fresh) }
{
    match set_named(core, core.instance_of(thread), handle) {
        Some(set) => {
            if finds_nothing(core, thread, set) {
                no_spot(core)
            } else {
                gives(
                    core,
                    waits_cancellable(core, core.task_of(thread)),
                    thread,
                    set,
                )
            }
        }
        None => no_spot(core),
    }
}

fn wait_spot(core: &TaskCore, thread: ThreadId, handle: u64) -> Spot
    requires sets { SetsThere core.now.core }
    requires members { AllMembersNamed (instance_of (thread_of core.now thread) core.now.core) core.now.core }
    requires under_way { UnderWay (thread_of core.now thread) core.now.core }
    ensures { OffersTo core.now thread result (λ n s. wait_offer n handle s (op_progress_of n s)) }
{
    core.none_is_zero();
    match core.op_progress(thread) {
        OpProgressId::Waits(set) => {
            let cancellable = waits_cancellable(core, core.task_of(thread));
            gives_woken(core, cancellable, thread, set)
        }
        _ => begin_wait_spot(core, thread, handle),
    }
}

// A subtask joins a set: a waiter of that is woken, if the subtask has an event.
fn join_to_spot(core: &TaskCore, thread: ThreadId, subtask: SubtaskId, set: u64) -> Spot
    requires { SetsThere core.now.core }
    ensures { OffersTo core.now thread result (λ n s. join_to_offer n set s (subtask_in core.now.tags subtask)) }
{
    if set == 0 {
        return no_spot(core);
    }
    let Some(set) = set_named(core, core.instance_of(thread), set) else {
        return no_spot(core);
    };
    if is_watched(core, subtask) {
        return no_spot(core);
    }
    if core.event(subtask).is_some() {
        wakes(core, set)
    } else {
        no_spot(core)
    }
}

fn join_spot(core: &TaskCore, thread: ThreadId, waitable: u64, set: u64) -> Spot
    requires { SetsThere core.now.core }
    ensures { Offers core.now (thread_of core.now thread) result (join_offer (thread_of core.now thread) waitable set core.now.core) }
{
    core.none_is_zero();
    match core.subtask_at(core.instance_of(thread), waitable) {
        Some(subtask) => join_to_spot(core, thread, subtask, set),
        None => no_spot(core),
    }
}

fn set_spot(core: &TaskCore, thread: ThreadId, op: &SetOp) -> Spot
    requires sets { SetsThere core.now.core }
    requires members { AllMembersNamed (instance_of (thread_of core.now thread) core.now.core) core.now.core }
    requires under_way { UnderWay (thread_of core.now thread) core.now.core }
    ensures { Offers core.now (thread_of core.now thread) result (set_offer (thread_of core.now thread) core.now.core op.now) }
{
    match op {
        SetOp::Wait { to: _, set } => wait_spot(core, thread, value_of(core, thread, *set)),
        SetOp::Poll { to: _, set } => poll_spot(core, thread, value_of(core, thread, *set)),
        SetOp::Join { waitable, set } => {
            let waitable = value_of(core, thread, *waitable);
            join_spot(core, thread, waitable, value_of(core, thread, *set))
        }
        SetOp::New { to: _ } => no_spot(core),
        SetOp::Drop { set: _ } => no_spot(core),
    }
}

// Where an op of the thread chooses.
fn spot_of(core: &TaskCore, thread: ThreadId, op: &Op) -> Spot
    requires { Runner thread core.now }
    ensures { OffersTo core.now thread result (λ n s. op_offer n s op.now) }
{
    match op {
        Op::Task(op) => task_spot(core, thread, op),
        Op::Set(op) => set_spot(core, thread, op),
        Op::Data(_) => no_spot(core),
        Op::Call(op) => call_spot(core, thread, op),
        Op::Thread(_) => no_spot(core),
    }
}

/// Returns where the op of the running thread chooses; it exits at its script's end.
pub fn op_spot(component: &Component, core: &TaskCore, thread: ThreadId) -> Spot
    requires { Runner thread core.now }
    ensures { OffersTo core.now thread result (λ n s. op_offer n s (op_of component.now n s)) }
{
    let point = core.at(thread);
    let script = script_ops(component, point.callee, point.script);
    match op_at(script, point.position) {
        Some(op) => spot_of(core, thread, op),
        None => exit_spot(core, thread),
    }
}
