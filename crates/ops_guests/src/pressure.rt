//! Backpressure.
ghost use Rattle.laws_states.specs.WakeLaw.{NoneAdmitted};
ghost use Rattle.ops_guests.specs.Does.{DoesRule, SameNames};
ghost use Rattle.ops_guests.specs.Running.{IsRunning};
ghost use Rattle.machine_rules.specs.Task.{dec_rule, inc_rule};
ghost use Rattle.core_primitives.specs.StateView.{thread_of};

use crate::op_result::{OpAnswer, OpResult};
use core_primitives::{Primitives, ThreadId};
use machine_data::{Label, TaskLabel, Trap};

/// Does `bp_inc`.
#[tactic(auto, unfolding(machine_rules::specs::Task::pressure_raised))]
pub fn raise<W: Primitives>(w: &mut W, thread: ThreadId) -> OpResult
    ensures does { DoesRule SameNames (λ d n ch s. inc_rule d n s) thread (W.view w.old) result (W.view w.new) }
{
    let instance = w.instance_of(thread);
    let count = w.backpressure(instance);
    if count == 65535 {
        return OpResult::Traps(Trap::BackpressureOverflow);
    }
    w.set_backpressure(instance, count + 1);
    let number = w.number(thread);
    OpResult::Continues(
        Label::Task(TaskLabel::BpInc(number)),
        number,
        OpAnswer::Nothing,
    )
}

/// Does `bp_dec`. Where the instance keeps entries out, none of its held threads is admitted, and these aren't looked at.
pub fn lower<W: Primitives>(w: &mut W, thread: ThreadId) -> OpResult
    requires running { IsRunning (thread_of (W.view w.old) thread) (W.view w.old).core }
    requires held { NoneAdmitted (W.view w.old).core }
    ensures does { DoesRule SameNames (λ d n ch s. dec_rule d n s) thread (W.view w.old) result (W.view w.new) }
{
    let instance = w.instance_of(thread);
    let count = w.backpressure(instance);
    if count == 0 {
        return OpResult::Traps(Trap::BackpressureOverflow);
    }
    let number = w.number(thread);
    let label = Label::Task(TaskLabel::BpDec(number));
    w.set_backpressure(instance, count - 1);
    if count == 1 {
        if w.may_not_enter(instance) {
            return OpResult::Continues(label, number, OpAnswer::Nothing);
        }
        w.release(instance);
        return OpResult::Continues(label, number, OpAnswer::Nothing);
    }
    OpResult::Continues(label, number, OpAnswer::Nothing)
}
