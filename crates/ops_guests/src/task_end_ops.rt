//! The ops that end a task.
ghost use Rattle.std.specs.Prelude.{◌≡◌, ◌<◌};
ghost use Rattle.machine_data.specs.Read.{is_async_lifted, task_of};
ghost use Rattle.machine_data.specs.declared.records.Subtask.TheVariants as subtasks;
ghost use Rattle.ops_moves.specs.Idle.{IsJoinThere};
ghost use Rattle.ops_guests.specs.OpResult.{Implements};
ghost use Rattle.ops_guests.specs.Does.{DoesRule, SameNames};
ghost use Rattle.ops_guests.specs.Running.{IsRunning};
ghost use Rattle.machine_rules.specs.Task.{ret_bad_rule, ret_rule, task_cancel_rule};
ghost use Rattle.core_primitives.specs.StateView.{thread_of};

use crate::op_result::{OpAnswer, OpResult};
use core_primitives::{Primitives, ThreadId};
use machine_data::{ExportKind, Label, TaskLabel, Trap};
use ops_moves::{cancel_task, return_value, tell_waiter};

// A stackful or a callback export.
fn is_async_lifted(kind: ExportKind) -> bool
    ensures { result ≡ is_async_lifted kind }
{
    matches!(kind, ExportKind::Stackful | ExportKind::Callback)
}

/// Does `ret X`.
pub fn ret<W: Primitives>(w: &mut W, thread: ThreadId, value: u64) -> OpResult
    requires live { 0 < thread_of (W.view w.old) thread }
    requires running { IsRunning (thread_of (W.view w.old) thread) (W.view w.old).core }
    requires there { IsJoinThere (subtasks.Guest (task_of (thread_of (W.view w.old) thread) (W.view w.old).core)) (W.view w.old).core }
    ensures does { DoesRule SameNames (λ d n ch s. ret_rule d n value ch.woken s) thread (W.view w.old) result (W.view w.new) }
{
    let call = w.task_of(thread);
    if w.end_of(call).is_some() {
        return OpResult::Traps(Trap::TaskCancelOrReturnTwice);
    }
    if !is_async_lifted(w.kind(call)) {
        return OpResult::Traps(Trap::TaskReturnInvalid);
    }
    let number = w.number(thread);
    let waiter = tell_waiter(w, call);
    return_value(w, call, value, waiter);
    match waiter {
        None => OpResult::Continues(
            Label::Task(TaskLabel::Ret(number, value)),
            number,
            OpAnswer::Nothing,
        ),
        Some(woken) => OpResult::Continues(
            Label::RetWakes(number, value, w.number(woken)),
            number,
            OpAnswer::Nothing,
        ),
    }
}

/// Does `ret_bad X`.
pub fn ret_bad<W: Primitives>(w: &W, thread: ThreadId) -> OpResult
    ensures { Implements (ret_bad_rule (thread_of (W.view w.now) thread) (W.view w.now).core) (W.view w.now).core result (W.view w.now).core }
{
    if w.end_of(w.task_of(thread)).is_some() {
        return OpResult::Traps(Trap::TaskCancelOrReturnTwice);
    }
    OpResult::Traps(Trap::TaskReturnInvalid)
}

/// Does `task_cancel`.
pub fn task_cancel<W: Primitives>(w: &mut W, thread: ThreadId) -> OpResult
    requires live { 0 < thread_of (W.view w.old) thread }
    requires running { IsRunning (thread_of (W.view w.old) thread) (W.view w.old).core }
    requires there { IsJoinThere (subtasks.Guest (task_of (thread_of (W.view w.old) thread) (W.view w.old).core)) (W.view w.old).core }
    ensures does { DoesRule SameNames (λ d n ch s. task_cancel_rule d n ch.woken s) thread (W.view w.old) result (W.view w.new) }
{
    let call = w.task_of(thread);
    if !w.cancel_was_delivered(call) {
        return OpResult::Traps(Trap::TaskCancelNotCancelled);
    }
    if w.end_of(call).is_some() {
        return OpResult::Traps(Trap::TaskCancelOrReturnTwice);
    }
    let number = w.number(thread);
    let waiter = tell_waiter(w, call);
    cancel_task(w, call, waiter);
    match waiter {
        None => OpResult::Continues(
            Label::Task(TaskLabel::TaskCancel(number)),
            number,
            OpAnswer::Nothing,
        ),
        Some(woken) => {
            let woken = w.number(woken);
            OpResult::Continues(
                Label::Task(TaskLabel::TaskCancelWakes(number, woken)),
                number,
                OpAnswer::Nothing,
            )
        }
    }
}
