//! The ops for which there are calls of an instance, if there is more than one.
ghost use Rattle.ops_dispatch.specs.Fits.{calls_host, is_data_op, op_fits};
ghost use Rattle.ops_dispatch.specs.Makes.{takes_memory};
ghost use Rattle.std.specs.Prelude.{◌≡◌, false, true};
ghost use Rattle.ops_calls.specs.HostOps.{is_at_once};
ghost use Rattle.ops_calls.specs.Intrinsics.{cancel_op, pressure_op, suspension_op};
ghost use Rattle.machine_data.specs.declared.component.Component.{Component};

use machine_data::{CallOp, Op, Operand, TaskOp, ThreadOp};

/// Which thread goes on once another one has stopped, by its handle.
#[derive(Clone, Copy, PartialEq, Eq)]
pub enum SuspensionTarget {
    /// A thread that is suspended or wasn't started: it goes on next.
    Resume(u32),
    /// A thread that has yielded: it goes on next.
    Promote(u32),
    None,
}

/// How a thread that isn't running is to go on, by its handle.
#[derive(Clone, Copy, PartialEq, Eq)]
pub enum ResumeThread {
    /// One that has yielded goes on next.
    Promote,
    /// One that is suspended or wasn't started goes on next.
    Resume,
    /// One that is suspended or wasn't started goes on once the entries before it are taken.
    ResumeLater,
}

/// Makes the op `cancel` or `cancel_sync` of the subtask with this handle.
pub fn cancel_op(async_: bool, subtask: u32) -> Op
    ensures is { result ≡ cancel_op async_ subtask }
    ensures other { is_data_op result ≡ false }
    ensures plain { calls_host result ≡ false }
    ensures fits { (c : Component) → op_fits c result ≡ true }
    ensures takes { takes_memory result ≡ false }
{
    let subtask = Operand::Number(u64::from(subtask));
    if async_ {
        return Op::Call(CallOp::Cancel { to: 0, subtask });
    }
    Op::Call(CallOp::CancelSync { to: 0, subtask })
}

/// Makes the op `bp_inc` or `bp_dec`.
pub fn pressure_op(up: bool) -> Op
    ensures is { result ≡ pressure_op up }
    ensures at_once { is_at_once result ≡ true }
    ensures fits { (c : Component) → op_fits c result ≡ true }
    ensures takes { takes_memory result ≡ false }
{
    if up {
        return Op::Task(TaskOp::BpInc);
    }
    Op::Task(TaskOp::BpDec)
}

fn suspends(target: SuspensionTarget) -> ThreadOp
    ensures { Op.Thread result ≡ suspension_op false target }
{
    match target {
        SuspensionTarget::Resume(thread) => ThreadOp::SuspendThenResume {
            thread: Operand::Number(u64::from(thread)),
        },
        SuspensionTarget::Promote(thread) => ThreadOp::SuspendThenPromote {
            thread: Operand::Number(u64::from(thread)),
        },
        SuspensionTarget::None => ThreadOp::Suspend,
    }
}

fn yields(target: SuspensionTarget) -> ThreadOp
    ensures { Op.Thread result ≡ suspension_op true target }
{
    match target {
        SuspensionTarget::Resume(thread) => ThreadOp::YieldThenResume {
            thread: Operand::Number(u64::from(thread)),
        },
        SuspensionTarget::Promote(thread) => ThreadOp::YieldThenPromote {
            thread: Operand::Number(u64::from(thread)),
        },
        SuspensionTarget::None => ThreadOp::Yield,
    }
}

/// Returns the op that suspends its thread or yields, with a thread that goes on next or none.
pub fn suspension_op(yielding: bool, target: SuspensionTarget) -> Op
    ensures is { result ≡ suspension_op yielding target }
    ensures other { is_data_op result ≡ false }
    ensures plain { calls_host result ≡ false }
    ensures fits { (c : Component) → op_fits c result ≡ true }
    ensures takes { takes_memory result ≡ false }
{
    if yielding {
        return Op::Thread(yields(target));
    }
    Op::Thread(suspends(target))
}
