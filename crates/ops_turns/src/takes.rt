//! The taking of an entry of a thread.
ghost use Rattle.ops_turns.specs.Worked.{tracked_entry_group};
ghost use Rattle.std.specs.Prelude.{◌≡◌, ◌+◌, ◌-◌, ◌<◌, ◌≤◌, IfOk, None, OnErr, Some, false, true};
ghost use Rattle.machine_data.specs.Moves.{why_of};
ghost use Rattle.machine_data.specs.Read.{next_entry};
ghost use Rattle.machine_data.specs.declared.label.Label.TheVariants as labels;
ghost use Rattle.machine_data.specs.declared.label.TakeLabel.TheVariants as take_labels;
ghost use Rattle.machine_data.specs.declared.records.Subtask.TheVariants as subtasks;
ghost use Rattle.machine_data.specs.declared.records.Why.TheVariants as whys;
ghost use Rattle.ops_moves.specs.Idle.{IsJoinThere};
ghost use Rattle.ops_guests.specs.Stays.{StaysAfter};
ghost use Rattle.ops_guests.specs.Works.{KeepsTold};
ghost use Rattle.machine_rules.specs.Places.{Placed};
ghost use Rattle.machine_rules.specs.Takes.{pushed};
ghost use Rattle.ops_turns.specs.StepResult.{IsFull, Shown, TakesRoom, TakingShown, TookShown, is_made};
ghost use Rattle.ops_turns.specs.Taken.{FindsSet, StartsNext, Taken, TakesDelivery, TakesHost, TakesThread};
ghost use Rattle.ops_turns.specs.Turn.{CanUnwind, OpGoesOn, Shows, CoreInOrder, Took};
ghost use Rattle.core_primitives.specs.StateView.{on_core, thread_of, work_of};

use crate::made::{MadeStep, StepResult, put, show};
use core_primitives::{EntryId, Primitives, ThreadId, WorkId};
use machine_data::{Component, Delivery, Label, Mark, NoMemory, TakeLabel, Turn, Why};
use ops_guests::{
    OpResult, deliver_own, deliver_set, hold_delivery, resume, take_push, take_start,
};
use ops_subtasks::take_host;
use run_trace::PackedLabels;

// A delivery to the thread was taken: it is held where it isn't admitted.
fn take_delivery<W: Primitives>(
    w: &mut W,
    mark: Mark,
    thread: ThreadId,
    delivery: Delivery,
) -> OpResult
    requires taken { Taken mark (thread_of (W.view w.old) thread) (W.view w.old).core }
    requires finds { FindsSet (thread_of (W.view w.old) thread) (W.view w.old).core }
    requires why { why_of (thread_of (W.view w.old) thread) (W.view w.old).core ≡ whys.Delivery delivery }
    ensures picks { TakesDelivery mark (thread_of (W.view w.old) thread) (W.view w.old) delivery result (W.view w.new) }
    ensures shows { Shows (thread_of (W.view w.old) thread) result }
    ensures stays { StaysAfter result (W.view w.old) (W.view w.new) }
    ensures tags { (W.view w.new).tags ≡ (W.view w.old).tags }
    ensures current { (W.view w.new).current ≡ (W.view w.old).current }
    ensures works { KeepsTold (W.view w.old) (W.view w.new) }
{
    w.none_is_zero();
    if w.may_not_enter(w.instance_of(thread)) {
        return hold_delivery(w, mark, thread);
    }
    match delivery {
        Delivery::Set { set: _ } => {
            let Some(set) = w.delivered_set(thread) else {
                unreachable!()
            };
            deliver_set(w, mark, thread, set)
        }
        Delivery::Yield => deliver_own(w, mark, thread),
        Delivery::Cancel => deliver_own(w, mark, thread),
    }
}

// An entry of the thread was taken from the mark: the thread starts, is given what is there for it, or goes on.
#[inline(always)]
fn take_thread<W: Primitives>(w: &mut W, mark: Mark, thread: ThreadId) -> Result<OpResult, NoMemory>
    requires taken { Taken mark (thread_of (W.view w.old) thread) (W.view w.old).core }
    requires finds { FindsSet (thread_of (W.view w.old) thread) (W.view w.old).core }
    ensures picks { IfOk result (λ op_result. TakesThread mark (thread_of (W.view w.old) thread) (W.view w.old) op_result (W.view w.new)) }
    ensures shows { IfOk result (λ op_result. Shows (thread_of (W.view w.old) thread) op_result) }
    ensures stays { IfOk result (λ op_result. StaysAfter op_result (W.view w.old) (W.view w.new)) }
    ensures tags { (W.view w.new).tags ≡ (W.view w.old).tags }
    ensures current { (W.view w.new).current ≡ (W.view w.old).current }
    ensures works { KeepsTold (W.view w.old) (W.view w.new) }
    ensures err { OnErr result (why_of (thread_of (W.view w.old) thread) (W.view w.old).core ≡ whys.Start) }
{
    match w.why(thread) {
        Why::Start => take_start(w, mark, thread),
        Why::Resumption => Ok(resume(w, mark, thread)),
        Why::Delivery { delivery } => Ok(take_delivery(w, mark, thread, delivery)),
    }
}

// Adds a label to the trace, as `show` does. It tells the label of a taking apart from the others, as most are of those.
#[inline(always)]
fn show_taken<W: Primitives>(
    w: &mut W,
    thread: ThreadId,
    trace: &mut PackedLabels,
    op_result: OpResult,
) -> StepResult
    requires unwinds { CanUnwind op_result (thread_of (W.view w.old) thread) (W.view w.old).core }
    requires goes { OpGoesOn op_result (W.view w.old) }
    requires room { 0 < trace.old.spare }
    ensures made { is_made result ≡ true }
    ensures shown { Shown thread op_result (W.view w.old) trace.old.labels result (W.view w.new) trace.new.labels }
    ensures works { KeepsTold (W.view w.old) (W.view w.new) }
    ensures spare { trace.new.spare ≡ trace.old.spare - 1 }
{
    if let OpResult::Continues(Label::Take(label), next, answer) = op_result {
        return show(
            w,
            thread,
            trace,
            OpResult::Continues(Label::Take(label), next, answer),
            false,
        );
    }
    show(w, thread, trace, op_result, false)
}

// The entry of the thread has left this mark: the thread runs, and what came of that is shown.
#[inline(always)]
fn step_thread<W: Primitives>(
    w: &mut W,
    mark: Mark,
    thread: ThreadId,
    trace: &mut PackedLabels,
) -> StepResult
    requires taken { Taken mark (thread_of (W.view w.old) thread) (W.view w.old).core }
    requires finds { FindsSet (thread_of (W.view w.old) thread) (W.view w.old).core }
    requires room { 0 < trace.old.spare }
    ensures shown { is_made result ≡ true → TakingShown mark thread (W.view w.old) trace.old.labels result (W.view w.new) trace.new.labels }
    ensures works { KeepsTold (W.view w.old) (W.view w.new) }
    ensures full { is_made result ≡ false → IsFull result trace.old.labels trace.new.labels }
    ensures wants { is_made result ≡ false → why_of (thread_of (W.view w.old) thread) (W.view w.old).core ≡ whys.Start }
    ensures spare { TakesRoom result trace.old trace.new }
{
    w.set_current(Some(thread));
    let Ok(op_result) = take_thread(w, mark, thread) else {
        return StepResult::Full;
    };
    show_taken(w, thread, trace, op_result)
}

// The push of the work has left this mark: the work is live.
fn step_push<W: Primitives>(w: &mut W, mark: Mark, work: WorkId) -> MadeStep
    ensures made { result ≡ record { label = labels.Take (take_labels.Push mark (work_of (W.view w.old) work)); turn = Turn.Main } }
    ensures new { W.view w.new ≡ on_core (pushed (work_of (W.view w.old) work)) (W.view w.old) }
    ensures works { KeepsTold (W.view w.old) (W.view w.new) }
{
    let number = w.work_number(work);
    let _ = take_push(w, mark, work);
    MadeStep {
        label: Label::Take(TakeLabel::Push(mark, number)),
        turn: Turn::Main,
    }
}

// The entry of the ended host work has left this mark: the subtask is done.
fn step_host<W: Primitives>(w: &mut W, mark: Mark, work: WorkId) -> MadeStep
    requires live { 0 < work_of (W.view w.old) work }
    requires placed { Placed (W.view w.old).core }
    requires there { IsJoinThere (subtasks.Host (work_of (W.view w.old) work)) (W.view w.old).core }
    ensures picks { TakesHost mark (work_of (W.view w.old) work) (W.view w.old) result.label (W.view w.new) }
    ensures current { (W.view w.new).current ≡ (W.view w.old).current }
    ensures turn { result.turn ≡ Turn.Main }
    ensures works { KeepsTold (W.view w.old) (W.view w.new) }
{
    let OpResult::Stops(label) = take_host(w, mark, work) else {
        unreachable!()
    };
    MadeStep {
        label,
        turn: Turn::Main,
    }
}

/// Takes the next entry, and adds what that shows to the trace, which has room for it; none where nothing is there. It is out of
/// memory only for a start. Then nothing is added, and of the state it is said that it has the same works and groups. It is asked
/// whose work it is, where the entry is that of one.
#[inline(never)]
pub(crate) fn step_take<W: Primitives>(
    component: &Component,
    w: &mut W,
    ended: bool,
    trace: &mut PackedLabels,
    worked: &mut Option<u64>,
) -> StepResult
    requires unworked { worked.old ≡ None }
    requires order { CoreInOrder component.now (Turn.Take ended) (W.view w.old).core }
    requires current { (W.view w.old).current ≡ None }
    requires room { 0 < trace.old.spare }
    ensures worked { worked.new ≡ tracked_entry_group (next_entry (W.view w.old).core) (W.view w.old) }
    ensures took { TookShown component.now ended (W.view w.old) trace.old.labels result (W.view w.new) trace.new.labels }
    ensures works { KeepsTold (W.view w.old) (W.view w.new) }
    ensures full { result ≡ StepResult.Full → StartsNext (W.view w.old).core }
    ensures spare { TakesRoom result trace.old trace.new }
{
    // only the contract speaks of `component`
    let _component = component;
    w.none_is_zero();
    match w.take_next() {
        None => StepResult::Nothing,
        Some((mark, EntryId::Thread(thread))) => step_thread(w, mark, thread, trace),
        Some((mark, EntryId::Push(work))) => {
            let made = step_push(w, mark, work);
            put(trace, made)
        }
        Some((mark, EntryId::Host(work))) => {
            *worked = w.work_group(work);
            let made = step_host(w, mark, work);
            put(trace, made)
        }
    }
}
