//! An op that a host has the running thread do, in place of the one at its place.
ghost use Rattle.ops_dispatch.specs.Fits.{calls_host, is_data_op, op_fits};
ghost use Rattle.ops_dispatch.specs.Continues.{given};
ghost use Rattle.ops_dispatch.specs.Makes.{takes_memory};
ghost use Rattle.std.specs.Prelude.{◌≡◌, ◌<◌, ◌^◌, ℕ, IfErr, OnErr, false, true};
ghost use Rattle.ops_calls.specs.OpAnswers.{at_once, event_answered, nothing_answered, number_answered, whole_answer};
ghost use Rattle.ops_calls.specs.HostOps.{AnswersHere, AnswersOp, HasPaused, IsRunningIn, MayDo, is_at_once, left_by, op_rule_at, scripted_rule_of, takes_here, turn_in};
ghost use Rattle.ops_turns.specs.Turn.{CoreInOrder};
ghost use Rattle.core_primitives.specs.StateView.{thread_of};

use crate::answer_calls::{
    Answer, Step, at_once, event_answered, number_answered, stepped, whole_answer,
};
use core_primitives::{OpProgressId, Primitives, ThreadId};
use machine_data::{Component, HostPoll, Op};
use ops_dispatch::{do_other_op, do_plain_op, op_at, script_ops};
use ops_guests::{OpAnswer, OpResult};
use ops_state::TaskError;

// The op that a host had the thread do resulted in this: the host gets its answer, and none is under way any more; or the strand
// has stopped, and no thread runs.
pub(crate) fn leave<W: Primitives>(w: &mut W, thread: ThreadId, op_result: OpResult)
    ensures { W.view w.new ≡ left_by (thread_of (W.view w.old) thread) op_result (W.view w.old) }
{
    match op_result {
        OpResult::Continues(_, _, OpAnswer::Entered(_)) => {}
        OpResult::Continues(_, _, OpAnswer::NoneDue) => {}
        OpResult::Continues(_, _, _) => w.set_op_progress(thread, OpProgressId::Fresh),
        OpResult::Stops(_) => w.set_current(None),
        _ => {}
    }
}

// The running thread does the op, which isn't on registers and memory cells and calls no host, whatever the op at its place is: its
// registers and its place in its script stay. If it is out of memory, nothing is changed.
fn do_host_op<W: Primitives>(
    component: &Component,
    w: &mut W,
    op: Op,
) -> Result<OpResult, TaskError>
    requires running { IsRunningIn component.now (W.view w.old) }
    requires other { is_data_op op ≡ false }
    requires plain { calls_host op ≡ false }
    requires fits { op_fits component.now op ≡ true }
    requires few { takes_memory op ≡ true → given (W.view w.old).core < 2 ^ 61 }
    ensures did { MayDo (scripted_rule_of component.now op (W.view w.old).core) (W.view w.old) result (W.view w.new) }
    ensures err { OnErr result ((takes_memory op ≡ true) × (W.view w.new ≡ W.view w.old)) }
    ensures why { IfErr result (λ e. e ≡ TaskError.NoMemory) }
{
    w.none_is_zero();
    let Some(thread) = w.current() else {
        unreachable!()
    };
    let Ok(op_result) = do_plain_op(component, w, thread, &op) else {
        return Err(TaskError::NoMemory);
    };
    leave(w, thread, op_result);
    Ok(op_result)
}

/// Has the running thread do an op that answers nothing at once, whatever the op at its place is, or refused as its rule says; then
/// nothing is changed.
pub fn host_op_nothing<W: Primitives>(
    component: &Component,
    w: &mut W,
    op: Op,
) -> Result<(), TaskError>
    requires running { IsRunningIn component.now (W.view w.old) }
    requires at_once { is_at_once op ≡ true }
    requires fits { op_fits component.now op ≡ true }
    requires few { takes_memory op ≡ true → given (W.view w.old).core < 2 ^ 61 }
    ensures answers { AnswersOp component.now op nothing_answered (W.view w.old) (at_once result) (W.view w.new) }
{
    let op_result = do_host_op(component, w, op)?;
    let _answer = at_once(op_result)?;
    Ok(())
}

/// Has the running thread do an op that answers a handle, a packed status or an end at once, whatever the op at its place is, or
/// refused as its rule says; then nothing is changed. No register is written.
pub fn host_op_number<W: Primitives>(
    component: &Component,
    w: &mut W,
    op: Op,
) -> Result<u32, TaskError>
    requires running { IsRunningIn component.now (W.view w.old) }
    requires at_once { is_at_once op ≡ true }
    requires fits { op_fits component.now op ≡ true }
    requires few { takes_memory op ≡ true → given (W.view w.old).core < 2 ^ 61 }
    ensures answers { AnswersOp component.now op number_answered (W.view w.old) (at_once result) (W.view w.new) }
{
    let op_result = do_host_op(component, w, op)?;
    let answer = at_once(op_result)?;
    Ok(number_answered(answer))
}

/// Has the running thread do an op that answers an event at once, by its code, handle and result, whatever the op at its place
/// is, or refused as its rule says; then nothing is changed. No register is written.
pub fn host_op_event<W: Primitives>(
    component: &Component,
    w: &mut W,
    op: Op,
) -> Result<(u32, u32, u32), TaskError>
    requires running { IsRunningIn component.now (W.view w.old) }
    requires at_once { is_at_once op ≡ true }
    requires fits { op_fits component.now op ≡ true }
    requires few { takes_memory op ≡ true → given (W.view w.old).core < 2 ^ 61 }
    ensures answers { AnswersOp component.now op event_answered (W.view w.old) (at_once result) (W.view w.new) }
{
    let op_result = do_host_op(component, w, op)?;
    let answer = at_once(op_result)?;
    Ok(event_answered(answer))
}

/// Does an op that may pause: then its strand has stopped, and no thread runs.
pub fn begin_nothing<W: Primitives>(
    component: &Component,
    w: &mut W,
    op: Op,
) -> Result<Step<()>, TaskError>
    requires running { IsRunningIn component.now (W.view w.old) }
    requires other { is_data_op op ≡ false }
    requires plain { calls_host op ≡ false }
    requires fits { op_fits component.now op ≡ true }
    requires few { takes_memory op ≡ true → given (W.view w.old).core < 2 ^ 61 }
    ensures answers { AnswersOp component.now op nothing_answered (W.view w.old) result (W.view w.new) }
{
    let op_result = do_host_op(component, w, op)?;
    match stepped(op_result)? {
        Step::Done(_) => Ok(Step::Done(())),
        Step::Pause => Ok(Step::Pause),
    }
}

/// Does an op that may pause: then its strand has stopped, and no thread runs.
pub fn begin_number<W: Primitives>(
    component: &Component,
    w: &mut W,
    op: Op,
) -> Result<Step<u32>, TaskError>
    requires running { IsRunningIn component.now (W.view w.old) }
    requires other { is_data_op op ≡ false }
    requires plain { calls_host op ≡ false }
    requires fits { op_fits component.now op ≡ true }
    requires few { takes_memory op ≡ true → given (W.view w.old).core < 2 ^ 61 }
    ensures answers { AnswersOp component.now op number_answered (W.view w.old) result (W.view w.new) }
{
    let op_result = do_host_op(component, w, op)?;
    match stepped(op_result)? {
        Step::Done(answer) => Ok(Step::Done(number_answered(answer))),
        Step::Pause => Ok(Step::Pause),
    }
}

/// Does an op that may pause: then its strand has stopped, and no thread runs.
pub fn begin_event<W: Primitives>(
    component: &Component,
    w: &mut W,
    op: Op,
) -> Result<Step<(u32, u32, u32)>, TaskError>
    requires running { IsRunningIn component.now (W.view w.old) }
    requires other { is_data_op op ≡ false }
    requires plain { calls_host op ≡ false }
    requires fits { op_fits component.now op ≡ true }
    requires few { takes_memory op ≡ true → given (W.view w.old).core < 2 ^ 61 }
    ensures answers { AnswersOp component.now op event_answered (W.view w.old) result (W.view w.new) }
{
    let op_result = do_host_op(component, w, op)?;
    match stepped(op_result)? {
        Step::Done(answer) => Ok(Step::Done(event_answered(answer))),
        Step::Pause => Ok(Step::Pause),
    }
}

// The running thread takes the op at its place further, which has paused, as a host has it done: its registers and its place in its
// script stay. If it is out of memory, nothing is changed.
fn take_on<W: Primitives>(component: &Component, w: &mut W) -> Result<OpResult, TaskError>
    requires running { IsRunningIn component.now (W.view w.old) }
    requires paused { (i : ℕ) × HasPaused i (W.view w.old) }
    ensures did { MayDo (op_rule_at component.now (W.view w.old).core) (W.view w.old) result (W.view w.new) }
    ensures order { CoreInOrder component.now (turn_in (W.view w.new)) (W.view w.new).core }
    ensures err { OnErr result ((takes_here component.now (W.view w.old) ≡ true) × (W.view w.new ≡ W.view w.old)) }
    ensures why { IfErr result (λ e. e ≡ TaskError.NoMemory) }
{
    w.none_is_zero();
    let Some(thread) = w.current() else {
        unreachable!()
    };
    let point = w.at(thread);
    let script = script_ops(component, point.callee, point.script);
    let Some(op) = op_at(script, point.position) else {
        unreachable!()
    };
    // an op that has paused polls no host, so none has answered
    let answer = HostPoll::Pending;
    let Ok(done) = do_other_op(component, w, thread, op, answer) else {
        return Err(TaskError::NoMemory);
    };
    leave(w, thread, done.op_result);
    Ok(done.op_result)
}

/// Takes the op at the running thread's place further: it has paused, goes on, and may pause again. Its answer goes to the host,
/// and the thread's registers and its place in its script stay. It polls no host: one that it calls was polled when it began. If it
/// is out of memory, nothing is changed.
pub fn go_on<W: Primitives>(component: &Component, w: &mut W) -> Result<Step<Answer>, TaskError>
    requires running { IsRunningIn component.now (W.view w.old) }
    requires paused { (i : ℕ) × HasPaused i (W.view w.old) }
    ensures answers { AnswersHere component.now whole_answer (W.view w.old) result (W.view w.new) }
    ensures order { CoreInOrder component.now (turn_in (W.view w.new)) (W.view w.new).core }
{
    let op_result = take_on(component, w)?;
    match stepped(op_result)? {
        Step::Done(answer) => Ok(Step::Done(whole_answer(answer))),
        Step::Pause => Ok(Step::Pause),
    }
}
