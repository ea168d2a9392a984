//! What a call between runs tells of groups.
ghost use Rattle.std.specs.Prelude.{Err, [], ◌≡◌, ◌∷◌};
ghost use Rattle.task_group.specs.Heard.{finish_of};
ghost use Rattle.task_group.specs.Listeners.{AnsweredErr, ToldListeners};
ghost use Rattle.task_loop.specs.Hooked.{IfHookOk};
ghost use Rattle.task_loop.specs.Told.{TellsCall, groups_before_call};

use crate::tells::{group_now, tell_all};
use core_state::TaskCore;
use machine_data::{NoticeKind, Trap};
use ops_calls::TaskError;
use store_notices::GroupsBefore;
use task_group::{Listeners, TaskGroupHook, TaskGroupId};

/// Returns what is asked before a call.
pub(crate) fn asked(core: &TaskCore) -> GroupsBefore
    ensures { result ≡ groups_before_call core.now }
{
    GroupsBefore {
        running: group_now(core),
        worked: None,
    }
}

/// Tells what a call gives, before which these were the groups, as the loop tells what a step gives. It hands on what the call
/// answers, or refusal 22 if the hook answered an error. It takes time that doesn't depend on the number of groups, but for those
/// that have ended.
pub(crate) fn tell_call<G: TaskGroupHook, A: Drop>(
    core: &mut TaskCore,
    listeners: &mut Listeners<G>,
    asked: &GroupsBefore,
    answer: Result<A, TaskError>,
) -> Result<A, TaskError>
    ensures { TellsCall G.listens asked.now answer result core.old core.new listeners.old listeners.new }
{
    // read so that the proof knows the invariant of `listeners`
    let _hooked = listeners.is_hooked();
    let Ok(_) = tell_all(core, listeners, asked) else {
        return Err(TaskError::Trap(Trap::HookFailed));
    };
    answer
}

/// Tells the groups of a call that is refused, and returns its refusal.
pub(crate) fn tell_refused<G: TaskGroupHook, A: Drop>(
    core: &mut TaskCore,
    listeners: &mut Listeners<G>,
    asked: &GroupsBefore,
    why: TaskError,
) -> Result<A, TaskError>
    ensures { TellsCall G.listens asked.now (Err why) result core.old core.new listeners.old listeners.new }
{
    tell_call(core, listeners, asked, Err(why))
}

/// Tells that a group finishes which the hook was told of, and which isn't made for this reason. It answers that reason, or
/// that the hook answered an error.
pub(crate) fn take_back<G: TaskGroupHook>(
    listeners: &mut Listeners<G>,
    group: TaskGroupId,
    why: TaskError,
) -> TaskError
    ensures told { ToldListeners (finish_of group ∷ []) listeners.old listeners.new }
    ensures answer { IfHookOk G.listens listeners.old listeners.new (result ≡ why) }
    ensures failed { AnsweredErr listeners.old listeners.new → result ≡ TaskError.Trap Trap.HookFailed }
{
    // read so that the proof knows the invariant of `listeners`
    let _hooked = listeners.is_hooked();
    if listeners.tell(NoticeKind::Finish, group).is_err() {
        return TaskError::Trap(Trap::HookFailed);
    }
    why
}
