//! The end of an op that the thread's script had it do: its answer goes to the op's register, and the thread to the next op.
ghost use Rattle.ops_dispatch.specs.InPlace.{answers_of, answers_so, call_answers, has_register, set_answers, thread_answers};
ghost use Rattle.std.specs.Prelude.{◌≡◌, ◌+◌, ◌<◌, ◌≤◌, ◌^◌, true};
ghost use Rattle.machine_data.specs.Read.{position_of};
ghost use Rattle.ops_guests.specs.Ended.{ended, ends_op, gives_event};
ghost use Rattle.machine_rules.specs.Cancels.{call_answer};
ghost use Rattle.machine_rules.specs.Sets.{given_code, given_handle, given_result, set_answer, set_given};
ghost use Rattle.machine_rules.specs.Step.{answer_register, own_script};
ghost use Rattle.machine_rules.specs.Threads.{thread_answer};
ghost use Rattle.core_primitives.specs.StateView.{on_core, thread_of};

use core_primitives::{Primitives, ThreadId};
use machine_data::{CallOp, Given, Op, SetOp, ThreadOp};
use ops_guests::{OpAnswer, OpResult};

fn words_of(given: Given) -> (u64, u64, u64)
    ensures code { result.0 ≡ given_code given }
    ensures handle { result.1 ≡ given_handle given }
    ensures status { result.2 ≡ given_result given }
{
    match given {
        Given::Nothing => (0, 0, 0),
        Given::Cancelled => (6, 0, 0),
        Given::Subtask { status, handle } => (1, u64::from(handle), u64::from(status.number())),
    }
}

// Code, handle and result go to the register and the two after it.
#[tactic(auto, unfolding(machine_rules::specs::Sets::set_given))]
fn write_given<W: Primitives>(w: &mut W, thread: ThreadId, to: u8, given: Given)
    requires { to ≤ 13 }
    ensures { W.view w.new ≡ on_core (set_given (thread_of (W.view w.old) thread) to given) (W.view w.old) }
{
    let (code, handle, status) = words_of(given);
    w.set_register(thread, to, code);
    w.set_register(thread, to + 1, handle);
    w.set_register(thread, to + 2, status);
}

#[inline(always)]
fn set_answer(op: &SetOp) -> u8
    requires { has_register (set_answers op.now) ≡ true }
    ensures { result ≡ set_answer op.now }
{
    match op {
        SetOp::New { to } => *to,
        SetOp::Wait { to, set: _ } => *to,
        SetOp::Poll { to, set: _ } => *to,
        _ => unreachable!(),
    }
}

#[inline(always)]
fn call_answer(op: &CallOp) -> u8
    requires { has_register (call_answers op.now) ≡ true }
    ensures { result ≡ call_answer op.now }
{
    match op {
        CallOp::Call { to, .. } => *to,
        CallOp::CallSync { to, .. } => *to,
        CallOp::CallHost { to, .. } => *to,
        CallOp::CallSyncHost { to, .. } => *to,
        CallOp::Cancel { to, .. } => *to,
        CallOp::CancelSync { to, .. } => *to,
        CallOp::Drop { .. } => unreachable!(),
    }
}

#[inline(always)]
fn thread_answer(op: &ThreadOp) -> u8
    requires { has_register (thread_answers op.now) ≡ true }
    ensures { result ≡ thread_answer op.now }
{
    match op {
        ThreadOp::New { to, .. } => *to,
        ThreadOp::Index { to } => *to,
        _ => unreachable!(),
    }
}

// The register of the answer of an op that has one: it is at one place in each, so that nothing is tested.
#[inline(always)]
fn answer_register(op: &Op) -> u8
    requires { has_register (answers_of op.now) ≡ true }
    ensures { result ≡ answer_register op.now }
{
    match op {
        Op::Set(op) => set_answer(op),
        Op::Call(op) => call_answer(op),
        Op::Thread(op) => thread_answer(op),
        _ => unreachable!(),
    }
}

/// Ends the op of the thread's script that resulted in this, if an answer is due: it goes to the op's register, and the thread to
/// the next op.
#[inline(always)]
pub fn finish<W: Primitives>(w: &mut W, thread: ThreadId, op: &Op, op_result: OpResult)
    requires position { ends_op op_result ≡ true → position_of (thread_of (W.view w.old) thread) (W.view w.old).core + 1 < 2 ^ 32 }
    requires answers { answers_so (answers_of op.now) op_result ≡ true }
    requires register { gives_event op_result ≡ true → answer_register op.now ≤ 13 }
    ensures { W.view w.new ≡ on_core (ended (own_script op.now) (thread_of (W.view w.old) thread) op_result) (W.view w.old) }
{
    let OpResult::Continues(_, _, answer) = op_result else {
        return;
    };
    let value = match answer {
        OpAnswer::Nothing => {
            w.advance(thread);
            return;
        }
        OpAnswer::Number(number) => u64::from(number),
        OpAnswer::Value(value) => value,
        OpAnswer::Event(given) => {
            write_given(w, thread, answer_register(op), given);
            w.advance(thread);
            return;
        }
        OpAnswer::Entered(_) => return,
        OpAnswer::NoneDue => return,
    };
    w.assign(thread, answer_register(op), value);
}
