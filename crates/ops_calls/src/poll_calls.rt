//! The calls of a host by the running thread, of a work that is polled first.
ghost use Rattle.ops_dispatch.specs.Continues.{given};
ghost use Rattle.std.specs.Prelude.{◌≡◌, ◌<◌, ◌^◌, IfErr, IfOk, OnErr, false, true};
ghost use Rattle.ops_calls.specs.OpAnswers.{at_once, has_stopped, number_answered, value_answered};
ghost use Rattle.ops_calls.specs.HostOps.{AnswersMade, IsRunningIn, MayDo};
ghost use Rattle.ops_subtasks.specs.First.{first_heard};
ghost use Rattle.ops_calls.specs.PolledCalls.{blocks_rule, polls_host_rule};

use crate::answer_calls::{Step, at_once, number_answered, stepped, value_answered};
use crate::host_ops::leave;
use core_primitives::Primitives;
use machine_data::{Component, HostDef, HostPoll};
use ops_guests::OpResult;
use ops_state::TaskError;
use ops_subtasks::{call_host, call_sync_host};

// The running thread calls the host, which is polled once, and goes on. If it is out of memory, nothing is changed.
fn call_polled<W: Primitives>(
    component: &Component,
    w: &mut W,
    host: HostDef,
    answer: HostPoll,
    register: u8,
) -> Result<OpResult, TaskError>
    requires running { IsRunningIn component.now (W.view w.old) }
    requires few { given (W.view w.old).core < 2 ^ 61 }
    ensures did { MayDo (polls_host_rule register host answer (W.view w.old).core) (W.view w.old) result (W.view w.new) }
    ensures goes { IfOk result (λ op_result. has_stopped op_result ≡ false) }
    ensures err { OnErr result (W.view w.new ≡ W.view w.old) }
    ensures why { IfErr result (λ e. e ≡ TaskError.NoMemory) }
{
    // only the contract speaks of `component`
    let _component = component;
    w.none_is_zero();
    let Some(thread) = w.current() else {
        unreachable!()
    };
    let Ok((op_result, _work)) = call_host(w, thread, register, host, answer) else {
        return Err(TaskError::NoMemory);
    };
    leave(w, thread, op_result);
    Ok(op_result)
}

/// Goes on with a call of a host that does what `host` says, or has answered so where that is open. The packed status is answered:
/// Returned where the value was there at once, which goes to the register, from 0 to 15; else Started with the handle of the work
/// that was made. Refused, and then nothing is changed: by the host's failure; with trap 18 if an entry more doesn't fit into the
/// table; with trap 17 if no handle may be given. If it is out of memory, nothing is changed, too.
pub fn poll_host<W: Primitives>(
    component: &Component,
    w: &mut W,
    host: HostDef,
    answer: HostPoll,
    register: u8,
) -> Result<u32, TaskError>
    requires running { IsRunningIn component.now (W.view w.old) }
    requires few { given (W.view w.old).core < 2 ^ 61 }
    ensures answers { AnswersMade (polls_host_rule register host answer) number_answered (W.view w.old) (at_once result) (W.view w.new) }
{
    let op_result = call_polled(component, w, host, answer, register)?;
    let answer = at_once(op_result)?;
    Ok(number_answered(answer))
}

// The running thread calls the host, which is polled once, and waits for the value. If it is out of memory, nothing is changed.
fn call_blocked<W: Primitives>(
    component: &Component,
    w: &mut W,
    host: HostDef,
    answer: HostPoll,
) -> Result<OpResult, TaskError>
    requires running { IsRunningIn component.now (W.view w.old) }
    requires few { given (W.view w.old).core < 2 ^ 61 }
    ensures did { MayDo (blocks_rule (first_heard host answer) (W.view w.old).core) (W.view w.old) result (W.view w.new) }
    ensures err { OnErr result (W.view w.new ≡ W.view w.old) }
    ensures why { IfErr result (λ e. e ≡ TaskError.NoMemory) }
{
    // only the contract speaks of `component`
    let _component = component;
    w.none_is_zero();
    let Some(thread) = w.current() else {
        unreachable!()
    };
    let Ok((op_result, _work)) = call_sync_host(w, thread, host, answer) else {
        return Err(TaskError::NoMemory);
    };
    leave(w, thread, op_result);
    Ok(op_result)
}

/// Does a call that waits for its value, of a host that does what `host` says, or has answered so where that is open. The value is
/// answered where it was there at once; else the work is made, and the strand stops until it has ended: then `go_on` answers the
/// value. Refused, and then nothing is changed: by the host's failure; with trap 18 if an entry more doesn't fit into the table;
/// with trap 9 if the thread may not block. If it is out of memory, nothing is changed, too.
pub fn block_on_host<W: Primitives>(
    component: &Component,
    w: &mut W,
    host: HostDef,
    answer: HostPoll,
) -> Result<Step<u64>, TaskError>
    requires running { IsRunningIn component.now (W.view w.old) }
    requires few { given (W.view w.old).core < 2 ^ 61 }
    ensures answers { AnswersMade (blocks_rule (first_heard host answer)) value_answered (W.view w.old) result (W.view w.new) }
{
    let op_result = call_blocked(component, w, host, answer)?;
    match stepped(op_result)? {
        Step::Done(answer) => Ok(Step::Done(value_answered(answer))),
        Step::Pause => Ok(Step::Pause),
    }
}
