//! The end of a thread.
ghost use Rattle.laws_order.specs.KeptOrder.{LeavesInOrder};
ghost use Rattle.std.specs.Prelude.{◌≡◌, OnOk};
ghost use Rattle.ops_state.specs.Ends.{MayEnd, EndsThread};
ghost use Rattle.ops_state.specs.Named.{IsLive};
ghost use Rattle.machine_rules.specs.Ends.{leaves_no_result};
ghost use Rattle.core_primitives.specs.StateView.{thread_of};
ghost use Rattle.laws_order.specs.WakesKept.{MayLeave, NoWakeLost};

use crate::error::TaskError;
use crate::name_calls::QualifiedThreadId;
use core_primitives::{Primitives, ThreadId};
use machine_data::Trap;
use ops_moves::end_thread;

// The thread is the last of a task that hasn't ended.
#[tactic(auto, unfolding(machine_rules::specs::Ends::leaves_no_result))]
fn leaves_no_result<W: Primitives>(w: &W, thread: ThreadId) -> bool
    ensures { result ≡ leaves_no_result (thread_of (W.view w.now) thread) (W.view w.now).core }
{
    w.is_last_thread(thread) && w.end_of(w.task_of(thread)).is_none()
}

/// Ends a thread that has no entry, is behind nobody, and has no callers and no thread under it: it
/// gives back its handle and is gone; where it was the first of its call, the task has exited; a call
/// that nothing keeps is gone, and its group is finished, if nothing of that is left. Refused with
/// trap 4 exactly where no thread would be left of a task that hasn't ended, and then nothing is
/// changed. No wake is lost by it where the thread's item isn't in hand and it isn't inside a wait in
/// which it was resumed. Order is kept where it was the thread's turn, which is main's then.
pub fn cleanup_thread<W: Primitives>(w: &mut W, thread: QualifiedThreadId) -> Result<(), TaskError>
    requires live { IsLive (W.view w.old) thread }
    requires may { MayEnd (thread_of (W.view w.old) thread.thread) (W.view w.old).core }
    ensures ends { EndsThread thread (W.view w.old) result (W.view w.new) }
    ensures wakes { MayLeave (thread_of (W.view w.old) thread.thread) (W.view w.old).core → NoWakeLost (W.view w.old).core → NoWakeLost (W.view w.new).core }
    ensures order { OnOk result (LeavesInOrder (thread_of (W.view w.old) thread.thread) (W.view w.old).core (W.view w.new).core) }
{
    if leaves_no_result(w, thread.thread) {
        return Err(TaskError::Trap(Trap::NoAsyncResult));
    }
    end_thread(w, thread.thread);
    Ok(())
}
