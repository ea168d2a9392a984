//! The two halves of a direct call, of a sync or blocking export.
ghost use Rattle.ops_dispatch.specs.Continues.{given};
ghost use Rattle.std.specs.Prelude.{◌≡◌, ◌<◌, ◌^◌, IfOk, IfSome, IsSome, false, length};
ghost use Rattle.ops_state.specs.Named.{IsLive};
ghost use Rattle.ops_calls.specs.OpAnswers.{at_once, nothing_answered};
ghost use Rattle.ops_calls.specs.HostOps.{Answers, IsRunningIn};
ghost use Rattle.ops_calls.specs.Directs.{IsDirect, exits_rule, AnswersEntered};
ghost use Rattle.machine_data.specs.Read.{is_async_lifted};
ghost use Rattle.machine_rules.specs.Scripts.{export_at, export_kind};
ghost use Rattle.ops_turns.specs.Turn.{running_of};

use crate::answer_calls::at_once;
use core_primitives::Primitives;
use machine_data::{Callee, Component};
use ops_dispatch::export_def;
use ops_guests::{OpResult, exit_direct};
use ops_state::{QualifiedThreadId, TaskError};
use ops_subtasks::enter;

/// Begins a direct call: the callee is made with these words, 0 to 16, as many as it takes, and its thread,
/// which is answered, runs on top of the calling one. Refused with trap 18 where its three entries don't fit into the table, and
/// else with trap 17 if no handle may be given. Where it is refused, or it is out of memory, nothing is changed.
pub fn enter_call<W: Primitives>(
    component: &Component,
    w: &mut W,
    callee: Callee,
    words: &[u64],
) -> Result<QualifiedThreadId, TaskError>
    requires running { IsRunningIn component.now (W.view w.old) }
    requires few { given (W.view w.old).core < 2 ^ 61 }
    requires there { IsSome (export_at component.now callee) }
    requires words { IfSome (export_at component.now callee) (λ e. length words.now ≡ e.params) }
    requires direct { is_async_lifted (export_kind component.now callee) ≡ false }
    ensures answers { AnswersEntered component.now callee words.now (W.view w.old) result (W.view w.new) }
    ensures live { IfOk result (λ id. IsLive (W.view w.new) id) }
{
    w.none_is_zero();
    let Some(thread) = w.current() else {
        unreachable!()
    };
    let Some(def) = export_def(component, callee) else {
        unreachable!()
    };
    let Ok(op_result) = enter(w, thread, callee, def.kind, words) else {
        return Err(TaskError::NoMemory);
    };
    at_once(op_result)?;
    let Some(entered) = w.current() else {
        unreachable!()
    };
    Ok(QualifiedThreadId {
        task: w.task_of(entered),
        thread: entered,
    })
}

/// Does the second half of a direct call, by its first thread, which runs: its task ends as returned with the value, the thread
/// ends, and the thread under it runs and answers the value when it goes on. Refused with trap 9 if the export is blocking and a
/// check of its instance fails; nothing is changed then.
pub fn exit_call<W: Primitives>(
    component: &Component,
    w: &mut W,
    value: u64,
) -> Result<(), TaskError>
    requires running { IsRunningIn component.now (W.view w.old) }
    requires direct { IfSome (running_of (W.view w.old)) (λ n. IsDirect n (W.view w.old).core) }
    ensures answers { Answers false (exits_rule value (W.view w.old).core) nothing_answered (W.view w.old) (at_once result) (W.view w.new) }
{
    // only the contract speaks of `component`
    let _component = component;
    w.none_is_zero();
    let Some(thread) = w.current() else {
        unreachable!()
    };
    let before = w.register(thread, 0);
    w.set_register(thread, 0, value);
    let call = w.task_of(thread);
    match exit_direct(w, thread, call) {
        OpResult::Continues(_, _, _) => Ok(()),
        OpResult::Traps(trap) => {
            w.set_register(thread, 0, before);
            Err(TaskError::Trap(trap))
        }
        _ => unreachable!(),
    }
}
