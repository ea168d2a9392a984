//! The ops that end a task or an activation, or change backpressure.
ghost use Rattle.ops_dispatch.specs.Continues.{DoesOp};
ghost use Rattle.ops_dispatch.specs.Rules.{ends_with, exits};
ghost use Rattle.ops_dispatch.specs.Runner.{Runner};
ghost use Rattle.std.specs.Prelude.{◌≡◌, ◌*◌, ◌+◌, None};
ghost use Rattle.ops_guests.specs.Works.{KeepsTold};
ghost use Rattle.machine_rules.specs.Picks.{Silent};
ghost use Rattle.machine_rules.specs.Outcome.{outcome_of_label};
ghost use Rattle.machine_rules.specs.Task.{task_rule};

use crate::exit_dispatch::exit;
use core_primitives::{Primitives, ThreadId};
use machine_data::{Label, TaskLabel, TaskOp, Trap};
use ops_guests::{OpResult, end_activation, lower, raise, ret, ret_bad, task_cancel, value_of};

// An activation ends with the code, and no thread goes on.
#[inline(always)]
fn ends<W: Primitives>(w: &mut W, thread: ThreadId, label: Label, code: u64) -> OpResult
    requires quiet { outcome_of_label label ≡ None }
    requires silent { Silent label }
    requires runner { Runner thread (W.view w.old) }
    ensures does { DoesOp KeepsTold (ends_with label code) thread (W.view w.old) result (W.view w.new) }
{
    end_activation(w, thread, label, code)
}

// `cb_wait X`: trap 12 if the code has more than 32 bits.
fn ends_waiting<W: Primitives>(w: &mut W, thread: ThreadId, label: Label, set: u64) -> OpResult
    requires quiet { outcome_of_label label ≡ None }
    requires silent { Silent label }
    requires runner { Runner thread (W.view w.old) }
    ensures does { DoesOp KeepsTold (ends_with label (16 * set + 2)) thread (W.view w.old) result (W.view w.new) }
{
    if set > 268435455 {
        return OpResult::Traps(Trap::UnsupportedCallbackCode);
    }
    ends(w, thread, label, 16 * set + 2)
}

// `exit`. It is a function of its own, as what it results in is in memory.
#[inline(always)]
fn exits<W: Primitives>(w: &mut W, thread: ThreadId) -> OpResult
    requires runner { Runner thread (W.view w.old) }
    ensures does { DoesOp KeepsTold exits thread (W.view w.old) result (W.view w.new) }
{
    exit(w, thread)
}

/// Does an op that ends the task or the activation, or changes backpressure.
pub(crate) fn do_task_op<W: Primitives>(w: &mut W, thread: ThreadId, op: TaskOp) -> OpResult
    requires runner { Runner thread (W.view w.old) }
    ensures does { DoesOp KeepsTold (λ d n ch s. task_rule d n s ch op) thread (W.view w.old) result (W.view w.new) }
{
    let number = w.number(thread);
    match op {
        TaskOp::Ret { value } => {
            let value = value_of(w, thread, value);
            ret(w, thread, value)
        }
        TaskOp::RetBad { value: _ } => ret_bad(w, thread),
        TaskOp::TaskCancel => task_cancel(w, thread),
        TaskOp::Exit => exits(w, thread),
        TaskOp::CbYield => ends(w, thread, Label::Task(TaskLabel::CbYield(number)), 1),
        TaskOp::CbWait { set } => {
            let set = value_of(w, thread, set);
            ends_waiting(w, thread, Label::Task(TaskLabel::CbWait(number)), set)
        }
        TaskOp::Code { code } => {
            let code = value_of(w, thread, code);
            ends(w, thread, Label::Task(TaskLabel::Code(number)), code)
        }
        TaskOp::BpInc => raise(w, thread),
        TaskOp::BpDec => lower(w, thread),
    }
}
