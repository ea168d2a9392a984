//! The turns of a run in which main has no part.
ghost use Rattle.ops_turns.specs.Worked.{MayPoll, PollsWork, TellsOfNext, tracked_worked_group};
ghost use Rattle.std.specs.Prelude.{◌≡◌, ◌≢◌, ◌+◌, ◌<◌, ◌≤◌, IfOk, None, OnErr};
ghost use Rattle.laws_states.specs.Order.{WorksQueued};
ghost use Rattle.machine_data.specs.Read.{next_entry};
ghost use Rattle.ops_guests.specs.Works.{KeepsTold};
ghost use Rattle.machine_rules.specs.Stalled.{is_unended_take};
ghost use Rattle.ops_turns.specs.Later.{SameWorks};
ghost use Rattle.ops_turns.specs.WellFormed.{IsWellFormed};
ghost use Rattle.ops_turns.specs.Drive.{Computed, StopsShort};
ghost use Rattle.ops_turns.specs.StepResult.{TakesBeside, TakesRoom, turn_of};
ghost use Rattle.ops_turns.specs.Taken.{StartsNext};
ghost use Rattle.ops_turns.specs.Turn.{IsAtTurn, RunnerThere, CoreInOrder, Rested, TellsRest, TurnsBeside, running_of, runs_in};
ghost use Rattle.core_primitives.specs.StateView.{work_of};

use crate::futures::step_poll;
use crate::made::{MadeStep, StepResult, put};
use crate::rests::step_deadlock;
use crate::settles::queues_are_empty;
use crate::stretches::stretch;
use crate::takes::step_take;
use core_primitives::{Primitives, WorkId};
use machine_data::{Component, Label, LoopLabel, NoMemory, Turn};
use ops_guests::PollNews;
use run_trace::PackedLabels;

/// Does a poll of the next live work, past those with numbers up to `polled`, which has this number; it was polled, and told this.
#[inline(always)]
pub fn poll<W: Primitives>(
    w: &mut W,
    work: WorkId,
    number: u64,
    polled: u64,
    told: PollNews,
) -> MadeStep
    requires may { MayPoll polled (W.view w.old) }
    requires number { number ≡ work_of (W.view w.old) work }
    requires next { TellsOfNext told polled (work_of (W.view w.old) work) (W.view w.old).core }
    ensures turns { TurnsBeside (Turn.Futures polled) (W.view w.old) result (W.view w.new) }
    ensures core { PollsWork told (work_of (W.view w.old) work) (W.view w.old).core (W.view w.new).core }
    ensures works { KeepsTold (W.view w.old) (W.view w.new) }
{
    w.none_is_zero();
    step_poll(w, work, number, polled, told)
}

// Nothing is there, and no work ended in this turn.
fn rest<W: Primitives>(w: &mut W, trap_on_idle: bool) -> Option<MadeStep>
    requires works { WorksQueued (W.view w.old).core }
    requires current { (W.view w.old).current ≡ None }
    requires none { next_entry (W.view w.old).core ≡ None }
    ensures turned { Rested trap_on_idle (W.view w.old) result (W.view w.new) }
    ensures current { (W.view w.new).current ≡ None }
    ensures works { KeepsTold (W.view w.old) (W.view w.new) }
{
    if w.has_moving_work() {
        return Some(MadeStep {
            label: Label::Loop(LoopLabel::Rest),
            turn: Turn::Main,
        });
    }
    if w.has_live_work() {
        return None;
    }
    if !trap_on_idle {
        return None;
    }
    Some(step_deadlock(w))
}

/// Takes the next entry, or else finds out why there is none. What that shows is added to the trace, which has room for it. It is out
/// of memory only for a start. Then nothing is added, and of the state it is said that it has the same works and groups.
pub fn take<W: Primitives>(
    component: &Component,
    w: &mut W,
    ended: bool,
    trap_on_idle: bool,
    trace: &mut PackedLabels,
    worked: &mut Option<u64>,
) -> StepResult
    requires unworked { worked.old ≡ None }
    requires at { IsAtTurn component.now (Turn.Take ended) (W.view w.old) }
    requires room { 0 < trace.old.spare }
    ensures worked { worked.new ≡ tracked_worked_group (W.view w.old) (Turn.Take ended) }
    ensures turned { TakesBeside component.now trap_on_idle ended (W.view w.old) result (W.view w.new) trace.old.labels trace.new.labels }
    ensures there { result ≢ StepResult.Full → RunnerThere (W.view w.new) }
    ensures works { KeepsTold (W.view w.old) (W.view w.new) }
    ensures full { result ≡ StepResult.Full → StartsNext (W.view w.old).core }
    ensures spare { TakesRoom result trace.old trace.new }
{
    let taken = step_take(component, w, ended, trace, worked);
    let StepResult::Nothing = taken else {
        return taken;
    };
    if ended {
        unreachable!()
    }
    match rest(w, trap_on_idle) {
        Some(made) => put(trace, made),
        None => StepResult::Nothing,
    }
}

/// Does the ops on registers and memory cells that come next, if a thread runs. They are looked for only where such an op
/// made the last label and another seems to follow it, since ops mostly come alone. It is out of memory only if the trace had no room
/// for the next label. Then the state is that to which the labels lead that were added.
#[inline(always)]
pub fn compute<W: Primitives>(
    component: &Component,
    w: &mut W,
    stepped: StepResult,
    trace: &mut PackedLabels,
    added: u32,
    steps: u32,
) -> Result<u32, NoMemory>
    requires covered { IsWellFormed component.now }
    requires order { CoreInOrder component.now (turn_of stepped) (W.view w.old).core }
    requires runs { running_of (W.view w.old) ≡ runs_in (turn_of stepped) }
    requires few { added ≤ steps }
    ensures ok { IfOk result (λ k. Computed component.now (turn_of stepped) (W.view w.old) trace.old.labels added (W.view w.new) trace.new.labels steps k) }
    ensures spare { IfOk result (λ k. trace.old.spare + added ≤ trace.new.spare + k) }
    ensures err { OnErr result (StopsShort component.now (turn_of stepped) (W.view w.old) trace.old added (W.view w.new) trace.new steps) }
    ensures works { SameWorks (W.view w.old) (W.view w.new) }
{
    match stepped {
        StepResult::Computes(thread) => stretch(component, w, thread, trace, added, steps),
        _ => Ok(added),
    }
}

// Whether an entry is to be taken, and no work ended in this turn.
fn is_take(turn: Turn) -> bool
    ensures { result ≡ is_unended_take turn }
{
    matches!(turn, Turn::Take { ended: false })
}

/// Returns whether nothing can go on in this turn, and that is no deadlock.
pub fn is_idle<W: Primitives>(w: &W, turn: Turn, trap_on_idle: bool) -> bool
    ensures { TellsRest trap_on_idle turn (W.view w.now) result }
{
    if !is_take(turn) {
        return false;
    }
    if !queues_are_empty(w) {
        return false;
    }
    if w.has_moving_work() {
        return false;
    }
    w.has_live_work() || !trap_on_idle
}
