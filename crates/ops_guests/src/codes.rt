//! The ends of activations, each with a code.
ghost use Rattle.ops_guests.specs.Rules.{ends_activation, ends_by_code};
ghost use Rattle.ops_guests.specs.Does.{PicksRule};
ghost use Rattle.std.specs.Prelude.{◌≡◌, ◌<◌, ◌/◌, suc, true, zero, ℕ};
ghost use Rattle.machine_data.specs.declared.label.Label.{Label};
ghost use Rattle.ops_guests.specs.Stays.{StaysAfter};
ghost use Rattle.ops_guests.specs.Running.{IsRunning, SetsThere};
ghost use Rattle.ops_guests.specs.Works.{KeepsTold};
ghost use Rattle.machine_rules.specs.Ends.{has_event_for};
ghost use Rattle.machine_rules.specs.Picks.{Silent};
ghost use Rattle.core_primitives.specs.StateView.{call_of, set_of, thread_of};

use crate::exit_ops::{leaves_no_result, passes_after_stop, stop_reopened};
use crate::names::set_named;
use crate::op_result::OpResult;
use core_primitives::{CallId, DeliveryId, PlaceId, Primitives, SetId, ThreadId, WhyId};
use machine_data::{Label, TaskEvent, Trap};
use ops_moves::{check, end_thread, foot_of, put_high, put_low};

// Code 0: the thread ends.
fn code_exits<W: Primitives>(w: &mut W, thread: ThreadId, label: Label) -> OpResult
    requires live { 0 < thread_of (W.view w.old) thread }
    requires running { IsRunning (thread_of (W.view w.old) thread) (W.view w.old).core }
    requires silent { Silent label }
    ensures picks { (rest : ℕ) → PicksRule (ends_by_code label zero rest) thread (W.view w.old) result (W.view w.new) }
    ensures stays { StaysAfter result (W.view w.old) (W.view w.new) }
    ensures current { (W.view w.new).current ≡ (W.view w.old).current }
    ensures works { KeepsTold (W.view w.old) (W.view w.new) }
{
    let instance = w.instance_of(thread);
    let foot = foot_of(w, thread);
    if !passes_after_stop(w, instance, foot) {
        return OpResult::Traps(Trap::CannotBlockSyncTask);
    }
    if leaves_no_result(w, thread) {
        return OpResult::Traps(Trap::NoAsyncResult);
    }
    stop_reopened(w, thread);
    check(w, instance);
    end_thread(w, thread);
    OpResult::Stops(label)
}

// Code 1: the thread's turn comes again.
#[inline(always)]
fn code_yields<W: Primitives>(w: &mut W, thread: ThreadId)
    requires live { 0 < thread_of (W.view w.old) thread }
    requires running { IsRunning (thread_of (W.view w.old) thread) (W.view w.old).core }
    ensures picks { (l : Label) → Silent l → (rest : ℕ) → PicksRule (ends_by_code l (suc zero) rest) thread (W.view w.old) (OpResult.Stops l) (W.view w.new) }
    ensures current { (W.view w.new).current ≡ (W.view w.old).current }
    ensures works { KeepsTold (W.view w.old) (W.view w.new) }
{
    let call = w.task_of(thread);
    let event = w.task_event(call).unwrap_or(TaskEvent::None);
    stop_reopened(w, thread);
    w.set_task_event(call, Some(event));
    put_low(w, thread, WhyId::Delivery(DeliveryId::Yield));
}

// The task event, or a ready member of the set, is there.
#[tactic(auto, unfolding(machine_rules::specs::Ends::has_event_for))]
fn has_event_for<W: Primitives>(w: &W, call: CallId, set: SetId) -> bool
    requires { 0 < set_of (W.view w.now) set }
    ensures { result ≡ has_event_for (call_of (W.view w.now) call) (set_of (W.view w.now) set) (W.view w.now).core }
{
    w.task_event(call).is_some() || w.has_ready_member(set)
}

// Code 2: the thread waits for an event of the set, or is given one that is there.
fn code_waits<W: Primitives>(w: &mut W, thread: ThreadId, label: Label, handle: u64) -> OpResult
    requires live { 0 < thread_of (W.view w.old) thread }
    requires running { IsRunning (thread_of (W.view w.old) thread) (W.view w.old).core }
    requires there { SetsThere (W.view w.old).core }
    requires silent { Silent label }
    ensures picks { PicksRule (ends_by_code label (suc (suc zero)) handle) thread (W.view w.old) result (W.view w.new) }
    ensures stays { StaysAfter result (W.view w.old) (W.view w.new) }
    ensures current { (W.view w.new).current ≡ (W.view w.old).current }
    ensures works { KeepsTold (W.view w.old) (W.view w.new) }
{
    // The thread is there, which is asked once for all that is looked up of it.
    match w.number(thread) {
        0 => unreachable!(),
        _ => {}
    }
    let instance = w.instance_of(thread);
    let Some(set) = set_named(w, instance, handle) else {
        return OpResult::Traps(Trap::BadHandle);
    };
    let finds = has_event_for(w, w.task_of(thread), set);
    stop_reopened(w, thread);
    if finds {
        put_high(w, thread, WhyId::Delivery(DeliveryId::Set(set)));
    } else {
        let by_callback = true;
        w.arrive(thread);
        w.set_place(thread, PlaceId::Waiting { set, by_callback });
    }
    OpResult::Stops(label)
}

/// Ends an activation with the code.
#[inline(always)]
pub fn end_activation<W: Primitives>(
    w: &mut W,
    thread: ThreadId,
    label: Label,
    code: u64,
) -> OpResult
    requires live { 0 < thread_of (W.view w.old) thread }
    requires running { IsRunning (thread_of (W.view w.old) thread) (W.view w.old).core }
    requires there { SetsThere (W.view w.old).core }
    requires silent { Silent label }
    ensures picks { PicksRule (ends_activation label code) thread (W.view w.old) result (W.view w.new) }
    ensures stays { StaysAfter result (W.view w.old) (W.view w.new) }
    ensures current { (W.view w.new).current ≡ (W.view w.old).current }
    ensures works { KeepsTold (W.view w.old) (W.view w.new) }
{
    if code > 4294967295 {
        return OpResult::Traps(Trap::UnsupportedCallbackCode);
    }
    match code % 16 {
        0 => code_exits(w, thread, label),
        1 => {
            code_yields(w, thread);
            OpResult::Stops(label)
        }
        2 => code_waits(w, thread, label, code / 16),
        _ => OpResult::Traps(Trap::UnsupportedCallbackCode),
    }
}
