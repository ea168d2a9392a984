//! The polls of live host works by the loop, and the taking of their pushes.
ghost use Rattle.std.specs.Prelude.{◌≡◌, ◌<◌, true};
ghost use Rattle.machine_data.specs.declared.label.Label.TheVariants as labels;
ghost use Rattle.machine_data.specs.declared.label.TakeLabel.TheVariants as take_labels;
ghost use Rattle.machine_data.specs.declared.records.Subtask.TheVariants as subtasks;
ghost use Rattle.machine_data.specs.Read.{is_stage_live, stage_of};
ghost use Rattle.ops_guests.specs.PolledWorks.{TellsPoll, PollsWork, PollsWorkTo};
ghost use Rattle.machine_rules.specs.Takes.{pushed};
ghost use Rattle.machine_rules.specs.Works.{followed, poll_ends, poll_of};
ghost use Rattle.core_primitives.specs.Apart.{IsBlockedUnqueued, work_entries};
ghost use Rattle.core_primitives.specs.Names.{work_caller_in};
ghost use Rattle.core_primitives.specs.StateView.{on_core, work_of};

use crate::op_result::OpResult;
use core_primitives::{Primitives, SubtaskId, WorkCallerId, WorkId};
use machine_data::{Course, Label, Mark, Phase, Stage, TakeLabel};
use ops_moves::unblock;

/// What a live work told when its poll was due.
#[derive(Clone, Copy)]
pub enum PollNews {
    /// It is still pending.
    Pends,
    /// It has ended with this value, or without one, as it was aborted.
    Ends(Option<u64>),
    /// It has failed.
    Fails,
}

/// What a poll by the loop resulted in.
#[derive(Clone, Copy)]
pub enum Polled {
    /// The work is still pending; whether a live work comes after it.
    Pends { more: bool },
    Ends,
    Fails,
}

/// Takes the push entry of a work: it is live.
#[tactic(auto, unfolding(machine_rules::specs::Takes::pushed))]
pub fn take_push<W: Primitives>(w: &mut W, mark: Mark, work: WorkId) -> OpResult
    ensures label { result ≡ OpResult.Stops (labels.Take (take_labels.Push mark (work_of (W.view w.old) work))) }
    ensures new { W.view w.new ≡ on_core (pushed (work_of (W.view w.old) work)) (W.view w.old) }
{
    let number = w.work_number(work);
    w.set_stage(work, Stage::Live);
    OpResult::Stops(Label::Take(TakeLabel::Push(mark, number)))
}

// An async host call becomes a high entry, who is blocked on a sync one goes to high, and a spawn is done.
fn follow<W: Primitives>(w: &mut W, caller: WorkCallerId, work: WorkId)
    requires live { 0 < work_of (W.view w.old) work }
    requires blocked { IsBlockedUnqueued (subtasks.Host (work_of (W.view w.old) work)) (W.view w.old).core }
    requires unqueued { work_entries (work_of (W.view w.old) work) (W.view w.old).core.queues.high ≡ 0 }
    ensures { W.view w.new ≡ on_core (followed (work_caller_in (W.view w.old).tags caller) (work_of (W.view w.old) work)) (W.view w.old) }
{
    match caller {
        WorkCallerId::Spawn => w.set_stage(work, Stage::Ended),
        WorkCallerId::Async {
            thread: _,
            register: _,
        } => {
            w.set_stage(work, Stage::Finishing);
            w.push_host(work);
        }
        WorkCallerId::Sync(_) => {
            w.set_stage(work, Stage::Ended);
            unblock(w, SubtaskId::Host(work));
        }
    }
}

// The work ends with this value, or without one.
#[tactic(auto, unfolding(machine_rules::specs::Works::poll_ends))]
fn end_work<W: Primitives>(w: &mut W, work: WorkId, value: Option<u64>)
    requires live { 0 < work_of (W.view w.old) work }
    requires blocked { IsBlockedUnqueued (subtasks.Host (work_of (W.view w.old) work)) (W.view w.old).core }
    requires unqueued { work_entries (work_of (W.view w.old) work) (W.view w.old).core.queues.high ≡ 0 }
    ensures { W.view w.new ≡ on_core (poll_ends (work_of (W.view w.old) work) value) (W.view w.old) }
{
    let caller = w.work_caller(work);
    let course = match value {
        Some(value) => Course::Value { value },
        None => Course::NoValue,
    };
    w.set_course(work, course);
    w.set_phase(work, Phase::Complete);
    follow(w, caller, work);
}

/// Does what the answer of a live work's poll asks. Where it fails the store is trapped.
#[tactic(auto, unfolding(machine_rules::specs::Works::poll_pends))]
pub fn poll_work<W: Primitives>(w: &mut W, work: WorkId, told: PollNews) -> Polled
    requires live { 0 < work_of (W.view w.old) work }
    requires moves { is_stage_live (stage_of (work_of (W.view w.old) work) (W.view w.old).core) ≡ true }
    requires told { TellsPoll told (poll_of (work_of (W.view w.old) work) (W.view w.old).core) }
    requires blocked { IsBlockedUnqueued (subtasks.Host (work_of (W.view w.old) work)) (W.view w.old).core }
    requires unqueued { work_entries (work_of (W.view w.old) work) (W.view w.old).core.queues.high ≡ 0 }
    ensures implements { PollsWork work (W.view w.old) result (W.view w.new) }
    ensures core { PollsWorkTo told work (W.view w.old) (W.view w.new) }
    ensures tags { (W.view w.new).tags ≡ (W.view w.old).tags }
    ensures current { (W.view w.new).current ≡ (W.view w.old).current }
{
    match told {
        PollNews::Pends => {
            let more = w.count_poll(work);
            Polled::Pends { more }
        }
        PollNews::Ends(value) => {
            end_work(w, work, value);
            Polled::Ends
        }
        PollNews::Fails => {
            w.set_trapped();
            Polled::Fails
        }
    }
}
