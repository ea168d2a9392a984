//! Cancelling a subtask.
ghost use Rattle.std.specs.Prelude.{◌≡◌, ◌<◌};
ghost use Rattle.ops_subtasks.specs.Named.{NamedCallsThere};
ghost use Rattle.ops_subtasks.specs.Refused.{mode_of};
ghost use Rattle.ops_subtasks.specs.Rules.{cancels_from};
ghost use Rattle.laws_states.specs.Order.{StartsAwaited, StartsThere};
ghost use Rattle.machine_data.specs.Read.{is_joined, join_of};
ghost use Rattle.machine_data.specs.declared.records.OpProgress.TheVariants as op_progresses;
ghost use Rattle.ops_guests.specs.Does.{DoesRule, KeepsRest};
ghost use Rattle.ops_guests.specs.Running.{IsRunning};
ghost use Rattle.core_primitives.specs.Names.{subtask_in};
ghost use Rattle.core_primitives.specs.StateView.{thread_of};

use crate::aborts::cancel_host;
use crate::guest_ops::cancel_guest;
use core_primitives::{JoinId, Primitives, SubtaskId, ThreadId};
use machine_data::Trap;
use ops_guests::OpResult;

// Whether the subtask is in any set.
fn is_joined<W: Primitives>(w: &W, subtask: SubtaskId) -> bool
    ensures { result ≡ is_joined (join_of (subtask_in (W.view w.now).tags subtask) (W.view w.now).core) }
{
    !matches!(w.join(subtask), JoinId::Nowhere)
}

/// Does `cancel R X`, and `cancel_sync R X`, as they begin.
pub fn cancel<W: Primitives>(w: &mut W, thread: ThreadId, handle: u64, sync: bool) -> OpResult
    requires live { 0 < thread_of (W.view w.old) thread }
    requires running { IsRunning (thread_of (W.view w.old) thread) (W.view w.old).core }
    requires calls { NamedCallsThere (W.view w.old).core }
    requires starts { StartsAwaited (W.view w.old).core }
    requires waiting { StartsThere (W.view w.old).core }
    ensures does { DoesRule KeepsRest (cancels_from (mode_of sync) op_progresses.Fresh handle) thread (W.view w.old) result (W.view w.new) }
    ensures thread { thread_of (W.view w.new) thread ≡ thread_of (W.view w.old) thread }
{
    w.none_is_zero();
    let instance = w.instance_of(thread);
    let Some(subtask) = w.subtask_at(instance, handle) else {
        return OpResult::Traps(Trap::BadHandle);
    };
    if is_joined(w, subtask) {
        return OpResult::Traps(Trap::WaitableSyncAndAsync);
    }
    match subtask {
        SubtaskId::Guest(call) => cancel_guest(w, thread, sync, call),
        SubtaskId::Host(work) => cancel_host(w, thread, sync, work),
    }
}
