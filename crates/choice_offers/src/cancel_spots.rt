//! Where a cancel chooses, found in the state before the step.
ghost use Rattle.core_primitives.specs.Names.{subtask_in};
ghost use Rattle.core_primitives.specs.StateView.{call_of, thread_of};
ghost use Rattle.laws_choices.specs.Offers.{call_offer, cancel_offer};
ghost use Rattle.machine_data.specs.Read.{cancel_was_asked, is_joined, is_second, join_of, op_progress_of};
ghost use Rattle.machine_data.specs.declared.records.OpProgress.TheVariants as op_progress;
ghost use Rattle.ops_dispatch.specs.Runner.{UnderWay};
ghost use Rattle.ops_subtasks.specs.Named.{NamedCallsThere};
ghost use Rattle.std.specs.Prelude.{◌&&◌, ◌<◌, ◌≡◌, ℕ};
ghost use Rattle.choice_offers.specs.Spots.{Offers, OffersTo, call_cancel_offer};

use crate::spots::{Spot, cancels, no_spot};
use core_primitives::{
    CallId, CallPrimitives, InstancePrimitives, JoinId, OpProgressId, SubtaskId, SubtaskPrimitives,
    ThreadId, ThreadPrimitives, View,
};
use core_state::TaskCore;
use machine_data::{CallOp, Version};
use ops_guests::value_of;

// Whether a cancel was asked of the call before, in version 2.
fn was_asked_before(core: &TaskCore, call: CallId) -> bool
    ensures { result ≡ is_second core.now.core.version && cancel_was_asked (call_of core.now call) core.now.core }
{
    match core.version() {
        Version::One => false,
        Version::Two => core.cancel_was_asked(call),
    }
}

// A thread of the call is taken if the call runs and no cancel was asked of it.
fn cancel_call_spot(core: &TaskCore, call: CallId) -> Spot
    requires { 0 < call_of core.now call }
    ensures { (n : ℕ) → Offers core.now n result (call_cancel_offer (call_of core.now call) core.now.core) }
{
    if core.end_of(call).is_some() {
        return no_spot(core);
    }
    if !core.was_started(call) {
        return no_spot(core);
    }
    if was_asked_before(core, call) {
        return no_spot(core);
    }
    cancels(core, call)
}

// Whether the subtask is in any set.
fn is_joined(core: &TaskCore, subtask: SubtaskId) -> bool
    ensures { result ≡ is_joined (join_of (subtask_in core.now.tags subtask) core.now.core) }
{
    !matches!(core.join(subtask), JoinId::Nowhere)
}

// As a cancel begins it finds the call, which is in no set.
fn begin_cancel_spot(core: &TaskCore, thread: ThreadId, handle: u64) -> Spot
    requires { NamedCallsThere core.now.core }
    ensures { Offers core.now (thread_of core.now thread) result
        (cancel_offer (thread_of core.now thread) handle core.now.core op_progress.Fresh) }
{
    core.none_is_zero();
    let Some(subtask) = core.subtask_at(core.instance_of(thread), handle) else {
        return no_spot(core);
    };
    if is_joined(core, subtask) {
        return no_spot(core);
    }
    match subtask {
        SubtaskId::Guest(call) => cancel_call_spot(core, call),
        SubtaskId::Host(_) => no_spot(core),
    }
}

// Where it was resumed it takes no thread.
fn cancel_spot(core: &TaskCore, thread: ThreadId, handle: u64) -> Spot
    requires calls { NamedCallsThere core.now.core }
    requires under_way { UnderWay (thread_of core.now thread) core.now.core }
    ensures { OffersTo core.now thread result (λ n s. cancel_offer n handle s (op_progress_of n s)) }
{
    match core.op_progress(thread) {
        OpProgressId::Cancels(_) => no_spot(core),
        OpProgressId::AwaitsEnd(_) => no_spot(core),
        _ => begin_cancel_spot(core, thread, handle),
    }
}

/// Returns where an op on subtasks chooses: cancels alone do.
pub(crate) fn call_spot(core: &TaskCore, thread: ThreadId, op: &CallOp) -> Spot
    requires calls { NamedCallsThere core.now.core }
    requires under_way { UnderWay (thread_of core.now thread) core.now.core }
    ensures { Offers core.now (thread_of core.now thread) result (call_offer (thread_of core.now thread) core.now.core op.now) }
{
    match op {
        CallOp::Cancel { to: _, subtask } => cancel_spot(
            core,
            thread,
            value_of(core, thread, *subtask),
        ),
        CallOp::CancelSync { to: _, subtask } => {
            cancel_spot(core, thread, value_of(core, thread, *subtask))
        }
        CallOp::Call {
            to: _,
            result: _,
            callee: _,
            params: _,
        } => no_spot(core),
        CallOp::CallSync {
            to: _,
            callee: _,
            params: _,
        } => no_spot(core),
        CallOp::CallHost {
            to: _,
            result: _,
            host: _,
        } => no_spot(core),
        CallOp::CallSyncHost { to: _, host: _ } => no_spot(core),
        CallOp::Drop { subtask: _ } => no_spot(core),
    }
}
