//! What a cancel of a subtask does, whether it begins or was resumed inside.
ghost use Rattle.ops_dispatch.specs.Continues.{DoesOp, cancels_here};
ghost use Rattle.ops_dispatch.specs.Runner.{Runner, UnderWay, awaits_end, waits_behind, progress_of};
ghost use Rattle.std.specs.Prelude.{◌≡◌, option_map};
ghost use Rattle.ops_subtasks.specs.Refused.{mode_of};
ghost use Rattle.ops_guests.specs.Works.{KeepsTold};
ghost use Rattle.core_primitives.specs.Names.{subtask_in};
ghost use Rattle.core_primitives.specs.StateView.{thread_of};

use core_primitives::{OpProgressId, Primitives, SubtaskId, ThreadId};
use ops_guests::OpResult;
use ops_subtasks::{cancel, go_on_awaiting, go_on_cancelling};

// The subtask behind whose callee the cancel waits.
fn cancelling<W: Primitives>(w: &W, thread: ThreadId) -> Option<SubtaskId>
    requires { UnderWay (thread_of (W.view w.now) thread) (W.view w.now).core }
    ensures { option_map (subtask_in (W.view w.now).tags) result ≡ waits_behind (progress_of thread (W.view w.now)) }
{
    match w.op_progress(thread) {
        OpProgressId::Cancels(subtask) => Some(subtask),
        _ => None,
    }
}

// The subtask whose end the cancel awaits.
fn awaiting<W: Primitives>(w: &W, thread: ThreadId) -> Option<SubtaskId>
    requires { UnderWay (thread_of (W.view w.now) thread) (W.view w.now).core }
    ensures { option_map (subtask_in (W.view w.now).tags) result ≡ awaits_end (progress_of thread (W.view w.now)) }
{
    match w.op_progress(thread) {
        OpProgressId::AwaitsEnd(subtask) => Some(subtask),
        _ => None,
    }
}

/// Does the op `cancel R X`, or `cancel_sync R X` if it is sync, of the running thread, by how far it has come: it begins, or goes
/// on where it was resumed behind its callee, or once its subtask ended. It is `cancel_rule` of the machine, by whoever has it
/// done, takes no memory, and refuses nothing: where the rule traps, `Traps` says which trap.
pub fn cancels<W: Primitives>(w: &mut W, thread: ThreadId, handle: u64, sync: bool) -> OpResult
    requires runner { Runner thread (W.view w.old) }
    ensures does { DoesOp KeepsTold (cancels_here (mode_of sync) handle) thread (W.view w.old) result (W.view w.new) }
{
    if let Some(subtask) = cancelling(w, thread) {
        return go_on_cancelling(w, thread, sync, subtask);
    }
    if let Some(subtask) = awaiting(w, thread) {
        return go_on_awaiting(w, thread, sync, subtask);
    }
    cancel(w, thread, handle, sync)
}
