//! The cancel of a host call.
ghost use Rattle.std.specs.Prelude.{◌≡◌, ◌<◌};
ghost use Rattle.ops_subtasks.specs.Refused.{mode_of};
ghost use Rattle.ops_subtasks.specs.Rules.{cancels_host};
ghost use Rattle.ops_guests.specs.Does.{DoesRule, SameNames};
ghost use Rattle.ops_guests.specs.Running.{IsRunning};
ghost use Rattle.machine_rules.specs.Cancels.{aborted_phase, cancel_aborts_host};
ghost use Rattle.core_primitives.specs.StateView.{on_core, thread_of, work_of};

use crate::end_ops::{finish_cancel, refusal};
use core_primitives::{Primitives, SubtaskId, ThreadId, WorkId};
use machine_data::{Phase, Trap};
use ops_guests::OpResult;

// An abort is asked for; a work that is aborted or complete stays as it is.
fn aborted_phase(phase: Phase) -> Phase
    ensures { result ≡ aborted_phase phase }
{
    match phase {
        Phase::Running => Phase::AbortRequested,
        _ => phase,
    }
}

// The work is marked cancelled; one that runs is aborted.
#[tactic(auto, unfolding(machine_rules::specs::Cancels::cancel_aborts_host))]
fn abort<W: Primitives>(w: &mut W, work: WorkId)
    ensures { W.view w.new ≡ on_core (cancel_aborts_host (work_of (W.view w.old) work)) (W.view w.old) }
{
    let phase = aborted_phase(w.phase(work));
    w.set_phase(work, phase);
    w.set_cancelled(work);
}

// A cancel of a host call.
pub(crate) fn cancel_host<W: Primitives>(
    w: &mut W,
    thread: ThreadId,
    sync: bool,
    work: WorkId,
) -> OpResult
    requires live { 0 < thread_of (W.view w.old) thread }
    requires running { IsRunning (thread_of (W.view w.old) thread) (W.view w.old).core }
    ensures does { DoesRule SameNames (cancels_host (mode_of sync) (work_of (W.view w.old) work)) thread (W.view w.old) result (W.view w.new) }
{
    if w.was_cancelled(work) {
        return OpResult::Traps(Trap::SubtaskCancelAfterTerminal);
    }
    let subtask = SubtaskId::Host(work);
    if let Some(trap) = refusal(w, thread, sync, subtask) {
        return OpResult::Traps(trap);
    }
    abort(w, work);
    finish_cancel(w, thread, sync, subtask)
}
