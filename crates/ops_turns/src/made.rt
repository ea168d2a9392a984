//! What a step made.
ghost use Rattle.std.specs.Prelude.{◌≡◌, ◌<◌, ◌-◌, None, Some, is_none, is_some, true};
ghost use Rattle.ops_guests.specs.Steps.{core_after, label_of, turn_after};
ghost use Rattle.ops_guests.specs.Running.{IsTopmost};
ghost use Rattle.ops_guests.specs.Works.{KeepsTold};
ghost use Rattle.machine_rules.specs.Outcome.{last_outcome, outcome_of_label};
ghost use Rattle.machine_rules.specs.Step.{unwound};
ghost use Rattle.ops_turns.specs.StepResult.{IsInTrace, Shown, is_made, turn_of};
ghost use Rattle.ops_turns.specs.Turn.{CanUnwind, OpGoesOn, is_going, is_open, running_of, runs_in};
ghost use Rattle.core_primitives.specs.StateView.{thread_of};

use core_primitives::{Primitives, ThreadId};
use machine_data::{CallLabel, Label, LoopLabel, MainLabel, Outcome, Trap, Turn};
use ops_guests::{OpResult, unwind_thread};
use run_trace::PackedLabels;

/// A step that was made: its label, and whose turn it is then.
#[derive(Clone, Copy)]
pub struct MadeStep {
    pub label: Label,
    pub turn: Turn,
}

/// What a step of the run results in: whose turn it is then, or why none was made. The label of one that was made is the last one in
/// the trace, which gives the outcome where the run is over. It is a tag and a number, so that a function answers it in two registers.
#[derive(Clone, Copy)]
pub enum StepResult {
    /// It is main's turn.
    Main,
    /// The live works are polled that have greater numbers.
    Polls(u64),
    /// An entry is taken, after no work ended in this turn.
    Takes,
    /// An entry is taken, after a work ended.
    TakesEnded,
    /// The thread runs.
    Runs(u64),
    /// The thread runs, after an op on registers and memory cells, which another seems to follow.
    Computes(u64),
    /// The run is over.
    Over,
    /// None was made: the op calls a host, or nothing can go on. No label was added.
    Nothing,
    /// It is out of memory for what the step does, and no label was added.
    Full,
    /// The hook that is told of groups answered an error.
    HookFailed,
}

/// Returns whether a step was made, and told.
#[inline(always)]
pub fn is_made(stepped: StepResult) -> bool
    ensures { result ≡ is_made stepped }
{
    match stepped {
        StepResult::Nothing => false,
        StepResult::Full => false,
        StepResult::HookFailed => false,
        _ => true,
    }
}

/// Returns whose turn it is after a step that was made.
#[inline(always)]
pub fn turn_of(stepped: StepResult) -> Turn
    ensures { result ≡ turn_of stepped }
{
    match stepped {
        StepResult::Main => Turn::Main,
        StepResult::Polls(polled) => Turn::Futures { polled },
        StepResult::Takes => Turn::Take { ended: false },
        StepResult::TakesEnded => Turn::Take { ended: true },
        StepResult::Runs(thread) => Turn::Run { thread },
        StepResult::Computes(thread) => Turn::Run { thread },
        _ => Turn::Over,
    }
}

// What a step results in after which it is this one's turn.
#[inline(always)]
fn result_of(turn: Turn) -> StepResult
    ensures made { is_made result ≡ true }
    ensures turn { turn_of result ≡ turn }
{
    match turn {
        Turn::Main => StepResult::Main,
        Turn::Futures { polled } => StepResult::Polls(polled),
        Turn::Take { ended: false } => StepResult::Takes,
        Turn::Take { ended: true } => StepResult::TakesEnded,
        Turn::Run { thread } => StepResult::Runs(thread),
        Turn::Over => StepResult::Over,
    }
}

// The outcome that a label gives.
fn outcome_of(label: Label) -> Option<Outcome>
    ensures { result ≡ outcome_of_label label }
{
    match label {
        Label::Main(MainLabel::Answer(value)) => Some(Outcome::Done(value)),
        Label::Loop(LoopLabel::Trap(trap, _)) => Some(Outcome::Trap(trap)),
        Label::Loop(LoopLabel::Deadlock(trap)) => Some(Outcome::Deadlock(trap)),
        Label::Loop(LoopLabel::FutureFails(work)) => Some(Outcome::HostFailed(work)),
        Label::Call(CallLabel::Fails(_, work)) => Some(Outcome::HostFailed(work)),
        _ => None,
    }
}

/// Adds the label of a step that was made to the trace, which has room for it.
#[inline(always)]
pub fn put(trace: &mut PackedLabels, made: MadeStep) -> StepResult
    requires { 0 < trace.old.spare }
    ensures made { is_made result ≡ true }
    ensures in_trace { IsInTrace result trace.old.labels made trace.new.labels }
    ensures spare { trace.new.spare ≡ trace.old.spare - 1 }
{
    // The result is found first, where the turn was, so that no jump is needed.
    let stepped = result_of(made.turn);
    trace.push(made.label);
    stepped
}

/// Returns the outcome of a run that is over, which the last label gives. It is a function of its own, as few steps end a run.
#[cold]
#[inline(never)]
pub fn outcome_in(trace: &PackedLabels) -> Outcome
    requires { is_some (last_outcome trace.now.labels) ≡ true }
    ensures { last_outcome trace.now.labels ≡ Some result }
{
    match trace.last() {
        Some(label) => match outcome_of(label) {
            Some(outcome) => outcome,
            None => unreachable!(),
        },
        None => unreachable!(),
    }
}

// The strand of the thread is gone, and none runs.
fn unwound_by<W: Primitives>(w: &mut W, thread: ThreadId, label: Label) -> MadeStep
    requires live { 0 < thread_of (W.view w.old) thread }
    requires top { IsTopmost (thread_of (W.view w.old) thread) (W.view w.old).core }
    ensures core { (W.view w.new).core ≡ unwound (thread_of (W.view w.old) thread) (W.view w.old).core }
    ensures current { (W.view w.new).current ≡ None }
    ensures made { result ≡ record { label = label; turn = Turn.Over } }
    ensures works { KeepsTold (W.view w.old) (W.view w.new) }
{
    unwind_thread(w, thread);
    w.set_current(None);
    MadeStep {
        label,
        turn: Turn::Over,
    }
}

/// Returns what an op that resulted in this shows. A strand that trapped is taken away.
#[inline(always)]
pub(crate) fn made_of<W: Primitives>(w: &mut W, thread: ThreadId, op_result: OpResult) -> MadeStep
    requires unwinds { CanUnwind op_result (thread_of (W.view w.old) thread) (W.view w.old).core }
    requires goes { OpGoesOn op_result (W.view w.old) }
    ensures core { (W.view w.new).core ≡ core_after (thread_of (W.view w.old) thread) op_result (W.view w.old).core }
    ensures running { running_of (W.view w.new) ≡ runs_in result.turn }
    ensures tags { is_going op_result ≡ true → (W.view w.new).tags ≡ (W.view w.old).tags }
    ensures label { result.label ≡ label_of (thread_of (W.view w.old) thread) op_result }
    ensures turn { result.turn ≡ turn_after op_result }
    ensures over { is_none (outcome_of_label result.label) ≡ is_open result.turn }
    ensures works { KeepsTold (W.view w.old) (W.view w.new) }
{
    match op_result {
        OpResult::Continues(label, next, _) => MadeStep {
            label,
            turn: Turn::Run { thread: next },
        },
        OpResult::Stops(label) => {
            w.set_current(None);
            MadeStep {
                label,
                turn: Turn::Main,
            }
        }
        OpResult::Traps(trap) => {
            let number = w.number(thread);
            unwound_by(w, thread, Label::Loop(LoopLabel::Trap(trap, number)))
        }
        OpResult::Fails(work) => {
            let number = w.number(thread);
            unwound_by(w, thread, Label::Call(CallLabel::Fails(number, work)))
        }
    }
}

// Adds what an op that resulted in this shows to the trace, where its strand is gone with it. It is a function of its own, as traps
// are rare.
#[cold]
#[inline(never)]
fn show_unwind<W: Primitives>(
    w: &mut W,
    thread: ThreadId,
    trace: &mut PackedLabels,
    op_result: OpResult,
) -> StepResult
    requires unwinds { CanUnwind op_result (thread_of (W.view w.old) thread) (W.view w.old).core }
    requires goes { OpGoesOn op_result (W.view w.old) }
    requires falls { turn_after op_result ≡ Turn.Over }
    requires room { 0 < trace.old.spare }
    ensures made { is_made result ≡ true }
    ensures shown { Shown thread op_result (W.view w.old) trace.old.labels result (W.view w.new) trace.new.labels }
    ensures works { KeepsTold (W.view w.old) (W.view w.new) }
    ensures spare { trace.new.spare ≡ trace.old.spare - 1 }
{
    let made = made_of(w, thread, op_result);
    trace.push(made.label);
    StepResult::Over
}

// Adds what a trap shows to the trace. It is inlined, so that what a trap needs in memory is made where one comes.
#[inline(always)]
fn show_trap<W: Primitives>(
    w: &mut W,
    thread: ThreadId,
    trace: &mut PackedLabels,
    trap: Trap,
) -> StepResult
    requires unwinds { CanUnwind (OpResult.Traps trap) (thread_of (W.view w.old) thread) (W.view w.old).core }
    requires goes { OpGoesOn (OpResult.Traps trap) (W.view w.old) }
    requires room { 0 < trace.old.spare }
    ensures made { is_made result ≡ true }
    ensures shown { Shown thread (OpResult.Traps trap) (W.view w.old) trace.old.labels result (W.view w.new) trace.new.labels }
    ensures works { KeepsTold (W.view w.old) (W.view w.new) }
    ensures spare { trace.new.spare ≡ trace.old.spare - 1 }
{
    show_unwind(w, thread, trace, OpResult::Traps(trap))
}

// Ends a step whose host failed.
#[inline(always)]
fn show_failure<W: Primitives>(
    w: &mut W,
    thread: ThreadId,
    trace: &mut PackedLabels,
    work: u64,
) -> StepResult
    requires unwinds { CanUnwind (OpResult.Fails work) (thread_of (W.view w.old) thread) (W.view w.old).core }
    requires goes { OpGoesOn (OpResult.Fails work) (W.view w.old) }
    requires room { 0 < trace.old.spare }
    ensures made { is_made result ≡ true }
    ensures shown { Shown thread (OpResult.Fails work) (W.view w.old) trace.old.labels result (W.view w.new) trace.new.labels }
    ensures works { KeepsTold (W.view w.old) (W.view w.new) }
    ensures spare { trace.new.spare ≡ trace.old.spare - 1 }
{
    show_unwind(w, thread, trace, OpResult::Fails(work))
}

/// Adds what an op that resulted in this shows to the trace. A strand that trapped is taken away. `computed` says that the op was
/// on registers and memory cells, and another seems to follow. It is inlined, so that a label is packed where it is made.
#[inline(always)]
pub(crate) fn show<W: Primitives>(
    w: &mut W,
    thread: ThreadId,
    trace: &mut PackedLabels,
    op_result: OpResult,
    computed: bool,
) -> StepResult
    requires unwinds { CanUnwind op_result (thread_of (W.view w.old) thread) (W.view w.old).core }
    requires goes { OpGoesOn op_result (W.view w.old) }
    requires room { 0 < trace.old.spare }
    ensures made { is_made result ≡ true }
    ensures shown { Shown thread op_result (W.view w.old) trace.old.labels result (W.view w.new) trace.new.labels }
    ensures works { KeepsTold (W.view w.old) (W.view w.new) }
    ensures spare { trace.new.spare ≡ trace.old.spare - 1 }
{
    let (label, answer) = match op_result {
        OpResult::Continues(label, next, _) if computed => (label, StepResult::Computes(next)),
        OpResult::Continues(label, next, _) => (label, StepResult::Runs(next)),
        OpResult::Stops(label) => {
            w.set_current(None);
            (label, StepResult::Main)
        }
        OpResult::Traps(trap) => return show_trap(w, thread, trace, trap),
        OpResult::Fails(work) => return show_failure(w, thread, trace, work),
    };
    trace.push(label);
    answer
}
