//! The two halves of a call by a thread whose start is queued.
ghost use Rattle.ops_dispatch.specs.Continues.{given};
ghost use Rattle.std.specs.Prelude.{◌≡◌, ◌<◌, ◌^◌, IfSome, IsSome, None, Ok, Some, length};
ghost use Rattle.ops_calls.specs.HostOps.{IsRunningIn};
ghost use Rattle.ops_calls.specs.Prepared.{CanStart, goal_for, PreparesHere, QueuesAsWhole, StartsHere};
ghost use Rattle.machine_data.specs.declared.component.Callee.{Callee};
ghost use Rattle.machine_data.specs.declared.component.Component.{Component};
ghost use Rattle.machine_data.specs.declared.records.Goal.{Goal};
ghost use Rattle.machine_rules.specs.Scripts.{export_at};
ghost use Rattle.ops_turns.specs.Turn.{running_of};

use crate::answer_calls::Step;
use core_primitives::Primitives;
use machine_data::{Callee, Component, Goal, Trap};
use ops_dispatch::export_def;
use ops_state::{QualifiedThreadId, TaskError};
use ops_subtasks::start_made;

// Where the call's result goes: to a register of an async caller, else it is what the call answers.
fn goal_for(async_caller: bool, register: u8) -> Goal
    ensures { result ≡ goal_for async_caller register }
{
    if async_caller {
        return Goal::Register { register };
    }
    Goal::Answer
}

/// Prepares a call by the running thread: it is made with these words, 0 to 16, as many as the callee takes; its first
/// thread, which is New, is answered. The result of an async caller's call goes to the register. Refused with trap 18 exactly where
/// its three entries don't fit into the table. Where it is refused, or it is out of memory, nothing is changed.
pub fn prepare_call<W: Primitives>(
    component: &Component,
    w: &mut W,
    callee: Callee,
    words: &[u64],
    register: u8,
    async_caller: bool,
) -> Result<QualifiedThreadId, TaskError>
    requires running { IsRunningIn component.now (W.view w.old) }
    requires few { given (W.view w.old).core < 2 ^ 61 }
    requires there { IsSome (export_at component.now callee) }
    requires words { IfSome (export_at component.now callee) (λ e. length words.now ≡ e.params) }
    ensures { PreparesHere component.now callee words.now (goal_for async_caller register) (W.view w.old) result (W.view w.new) }
{
    w.none_is_zero();
    let Some(from) = w.current() else {
        unreachable!()
    };
    let Some(def) = export_def(component, callee) else {
        unreachable!()
    };
    if !w.fits(3) {
        return Err(TaskError::Trap(Trap::TableFull));
    }
    let goal = goal_for(async_caller, register);
    let Ok((thread, task)) = w.make_call(from, callee, def.kind, goal, words) else {
        return Err(TaskError::NoMemory);
    };
    Ok(QualifiedThreadId { task, thread })
}

/// Starts a call that the running thread prepared: its start becomes the switch entry, the flag
/// `do_not_suspend` of an async-typed callee's instance is saved and cleared, and the calling thread goes behind the callee's, as
/// `call` does where it begins. The strand has stopped, which is answered.
pub fn start_prepared<W: Primitives>(
    w: &mut W,
    callee: QualifiedThreadId,
) -> Result<Step<u64>, TaskError>
    requires runs { IsSome (running_of (W.view w.old)) }
    requires prepared { IfSome (running_of (W.view w.old)) (λ n. CanStart n callee (W.view w.old)) }
    ensures answer { result ≡ Ok Step.Pause }
    ensures starts { StartsHere callee (W.view w.old) (W.view w.new) }
    ensures whole { QueuesAsWhole callee (W.view w.old) (W.view w.new) }
{
    w.none_is_zero();
    let Some(thread) = w.current() else {
        unreachable!()
    };
    let call = w.task_of(callee.thread);
    let instance = w.callee(call).instance;
    let kind = w.kind(call);
    start_made(w, thread, callee.thread, call, instance, kind);
    w.set_current(None);
    Ok(Step::Pause)
}
