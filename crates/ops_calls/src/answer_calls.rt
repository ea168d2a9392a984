//! What an op answers to a host that has a thread do it.
ghost use Rattle.std.specs.Prelude.{◌≡◌, Ok, false};
ghost use Rattle.ops_calls.specs.OpAnswers.{whole_answer, answered, at_once, event_answered, has_stopped, number_answered, value_answered};
ghost use Rattle.machine_rules.specs.Sets.{given_code, given_handle, given_result};

use machine_data::Given;
use ops_guests::{OpAnswer, OpResult};
use ops_state::TaskError;

/// What a call has resulted in that may stop its strand.
#[derive(Clone, Copy)]
pub enum Step<R> {
    Done(R),
    /// The strand has stopped.
    Pause,
}

/// What an op answers that was taken further.
#[derive(Clone, Copy)]
pub enum Answer {
    /// It suspended or yielded.
    Nothing,
    /// A packed status, an end, a handle or a result.
    One(u64),
    /// An event's code, handle and result.
    Three(u32, u32, u32),
}

fn given_words(given: Given) -> (u32, u32, u32)
    ensures code { result.0 ≡ given_code given }
    ensures handle { result.1 ≡ given_handle given }
    ensures status { result.2 ≡ given_result given }
{
    match given {
        Given::Nothing => (0, 0, 0),
        Given::Cancelled => (6, 0, 0),
        Given::Subtask { status, handle } => (1, handle, status.number()),
    }
}

/// Returns the event that an op answered: its code, handle and result; 0, 0, 0 if it answered none.
pub(crate) fn event_answered(answer: OpAnswer) -> (u32, u32, u32)
    ensures { result ≡ event_answered answer }
{
    match answer {
        OpAnswer::Event(given) => given_words(given),
        _ => (0, 0, 0),
    }
}

/// Returns the handle, packed status or end that an op answered; 0 if it answered none.
pub(crate) fn number_answered(answer: OpAnswer) -> u32
    ensures { result ≡ number_answered answer }
{
    match answer {
        OpAnswer::Number(number) => number,
        _ => 0,
    }
}

/// Returns what the callee of a sync call returned; 0 if the op was no such call.
pub(crate) fn value_answered(answer: OpAnswer) -> u64
    ensures { result ≡ value_answered answer }
{
    match answer {
        OpAnswer::Value(value) => value,
        _ => 0,
    }
}

/// Returns what an op that may pause has answered.
pub(crate) fn whole_answer(answer: OpAnswer) -> Answer
    ensures { result ≡ whole_answer answer }
{
    match answer {
        OpAnswer::Number(number) => Answer::One(u64::from(number)),
        OpAnswer::Value(value) => Answer::One(value),
        OpAnswer::Event(given) => {
            let (code, handle, status) = given_words(given);
            Answer::Three(code, handle, status)
        }
        _ => Answer::Nothing,
    }
}

/// Returns the answer of an op that doesn't stop its strand, or why it was refused.
pub(crate) fn at_once(op_result: OpResult) -> Result<OpAnswer, TaskError>
    requires { has_stopped op_result ≡ false }
    ensures { at_once result ≡ answered (λ a. a) op_result }
{
    match op_result {
        OpResult::Continues(_, _, answer) => Ok(answer),
        OpResult::Stops(_) => unreachable!(),
        OpResult::Traps(trap) => Err(TaskError::Trap(trap)),
        OpResult::Fails(work) => Err(TaskError::HostFailed(work)),
    }
}

/// Returns the answer of an op that is done, or a pause, or why it was refused.
pub(crate) fn stepped(op_result: OpResult) -> Result<Step<OpAnswer>, TaskError>
    ensures { result ≡ answered (λ a. a) op_result }
{
    match op_result {
        OpResult::Continues(_, _, answer) => Ok(Step::Done(answer)),
        OpResult::Stops(_) => Ok(Step::Pause),
        OpResult::Traps(trap) => Err(TaskError::Trap(trap)),
        OpResult::Fails(work) => Err(TaskError::HostFailed(work)),
    }
}
