//! The poll of a live work.
ghost use Rattle.std.specs.Prelude.{◌≡◌, ◌<◌, None, true};
ghost use Rattle.machine_data.specs.Core.{Main};
ghost use Rattle.machine_data.specs.declared.component.Component.{Component};
ghost use Rattle.machine_data.specs.declared.records.Subtask.TheVariants as subtasks;
ghost use Rattle.ops_guests.specs.Works.{KeepsTold};
ghost use Rattle.machine_rules.specs.Stalled.{Setting, main_pends};
ghost use Rattle.ops_turns.specs.Turn.{MakesStep, PendsIn};
ghost use Rattle.ops_turns.specs.Worked.{PollsWork, TellsOfNext};
ghost use Rattle.core_primitives.specs.Apart.{IsBlockedUnqueued, work_entries};
ghost use Rattle.core_primitives.specs.StateView.{work_of};

use crate::made::MadeStep;
use crate::settles::{turn_after_end, turn_where};
use core_primitives::{Primitives, WorkId};
use machine_data::{Label, LoopLabel, Turn};
use ops_guests::{PollNews, Polled, poll_work};

/// Does what the poll of the next live work asks: it is past those with numbers up to `polled`, has this number, and told this.
#[inline(always)]
pub(crate) fn step_poll<W: Primitives>(
    w: &mut W,
    work: WorkId,
    number: u64,
    polled: u64,
    told: PollNews,
) -> MadeStep
    requires live { 0 < number }
    requires number { number ≡ work_of (W.view w.old) work }
    requires next { TellsOfNext told polled (work_of (W.view w.old) work) (W.view w.old).core }
    requires current { (W.view w.old).current ≡ None }
    requires blocked { IsBlockedUnqueued (subtasks.Host (work_of (W.view w.old) work)) (W.view w.old).core }
    requires unqueued { work_entries (work_of (W.view w.old) work) (W.view w.old).core.queues.high ≡ 0 }
    ensures makes { (c : Component) → MakesStep c (Turn.Futures polled) (W.view w.old) result (W.view w.new) }
    ensures pends { (x : Setting) → (m : Main) → main_pends x (W.view w.old).core m ≡ true → PendsIn x (W.view w.new).core m result.turn }
    ensures core { PollsWork told (work_of (W.view w.old) work) (W.view w.old).core (W.view w.new).core }
    ensures works { KeepsTold (W.view w.old) (W.view w.new) }
{
    match poll_work(w, work, told) {
        Polled::Pends { more } => MadeStep {
            label: Label::Loop(LoopLabel::FuturePends(number)),
            turn: turn_where(number, more),
        },
        Polled::Ends => MadeStep {
            label: Label::Loop(LoopLabel::FutureEnds(number)),
            turn: turn_after_end(w),
        },
        Polled::Fails => MadeStep {
            label: Label::Loop(LoopLabel::FutureFails(number)),
            turn: Turn::Over,
        },
    }
}
