//! An op of the running thread, by its group.
ghost use Rattle.ops_dispatch.specs.Did.{DidOp, IsBeforeEnd};
ghost use Rattle.ops_dispatch.specs.Fits.{HasInstances, is_data_op, is_plain, op_fits};
ghost use Rattle.ops_dispatch.specs.Continues.{MayDoOp};
ghost use Rattle.ops_dispatch.specs.Makes.{takes_memory, HasNumbersFor};
ghost use Rattle.ops_dispatch.specs.Polls.{DoesPolled};
ghost use Rattle.ops_dispatch.specs.Rules.{rule_of};
ghost use Rattle.ops_dispatch.specs.Runner.{HasHandleTable, Runner};
ghost use Rattle.std.specs.Prelude.{◌≡◌, ◌<◌, ◌^◌, IfOk, OnErr, false, true};
ghost use Rattle.ops_guests.specs.Works.{NamesTold};
ghost use Rattle.core_primitives.specs.StateView.{thread_of};

use crate::call_dispatch::{do_host_call, do_plain_call, is_host_call};
use crate::done::{Done, plain};
use crate::finishes::finish;
use crate::set_dispatch::do_set_op;
use crate::task_dispatch::do_task_op;
use crate::thread_dispatch::do_thread_op;
use core_primitives::{Primitives, ThreadId};
use machine_data::{Component, HostPoll, NoMemory, Op};
use ops_guests::{OpResult, compute};

/// Has the running thread do an op that isn't on registers and memory cells, and calls no host, whether or not it is the one at its
/// place and whoever has it done: whoever that is ends it with what it answers. If it is out of memory, all is as before.
#[inline(always)]
pub fn do_plain_op<W: Primitives>(
    component: &Component,
    w: &mut W,
    thread: ThreadId,
    op: &Op,
) -> Result<OpResult, NoMemory>
    requires runner { Runner thread (W.view w.old) }
    requires plain { is_plain op.now ≡ true }
    requires fits { op_fits component.now op.now ≡ true }
    requires instances { HasInstances component.now (W.view w.old).core }
    requires handles { HasHandleTable thread (W.view w.old) }
    requires few { HasNumbersFor op.now thread (W.view w.old) }
    ensures does { MayDoOp NamesTold (rule_of component.now op.now) thread (W.view w.old) result (W.view w.new) }
    ensures err { OnErr result ((takes_memory op.now ≡ true) × (W.view w.new ≡ W.view w.old)) }
{
    match op {
        Op::Data(_) => unreachable!(),
        Op::Task(op) => Ok(do_task_op(w, thread, *op)),
        Op::Set(op) => do_set_op(w, thread, *op),
        Op::Call(op) => do_plain_call(component, w, thread, op),
        Op::Thread(op) => do_thread_op(component, w, thread, *op),
    }
}

/// Has the running thread do an op that isn't on registers and memory cells, whether or not it is the one at its place and whoever
/// has it done: whoever that is ends it with what it answers. An open host that it polls first has answered so. If it is out of
/// memory, all is as before.
pub fn do_other_op<W: Primitives>(
    component: &Component,
    w: &mut W,
    thread: ThreadId,
    op: &Op,
    answer: HostPoll,
) -> Result<Done, NoMemory>
    requires runner { Runner thread (W.view w.old) }
    requires other { is_data_op op.now ≡ false }
    requires fits { op_fits component.now op.now ≡ true }
    requires instances { HasInstances component.now (W.view w.old).core }
    requires handles { HasHandleTable thread (W.view w.old) }
    requires few { HasNumbersFor op.now thread (W.view w.old) }
    ensures does { IfOk result (λ done. DoesPolled answer component.now op.now thread (W.view w.old) done (W.view w.new)) }
    ensures err { OnErr result ((takes_memory op.now ≡ true) × (W.view w.new ≡ W.view w.old)) }
{
    match op {
        Op::Call(call) if is_host_call(call) => do_host_call(component, w, thread, call, answer),
        _ => {
            let op_result = do_plain_op(component, w, thread, op)?;
            Ok(plain(op_result))
        }
    }
}

/// Does the op of the thread's script, which ends at `end`, and ends it. An open host that it polls first has answered so. If it is
/// out of memory, all is as before.
pub fn do_op<W: Primitives>(
    component: &Component,
    w: &mut W,
    thread: ThreadId,
    op: &Op,
    end: u32,
    answer: HostPoll,
) -> Result<Done, NoMemory>
    requires runner { Runner thread (W.view w.old) }
    requires fits { op_fits component.now op.now ≡ true }
    requires instances { HasInstances component.now (W.view w.old).core }
    requires within { IsBeforeEnd end component.now (thread_of (W.view w.old) thread) (W.view w.old).core }
    requires handles { HasHandleTable thread (W.view w.old) }
    requires few { HasNumbersFor op.now thread (W.view w.old) }
    ensures did { IfOk result (λ done. DidOp answer component.now op.now thread (W.view w.old) done (W.view w.new)) }
    ensures err { OnErr result ((takes_memory op.now ≡ true) × (W.view w.new ≡ W.view w.old)) }
{
    if let Op::Data(op) = op {
        return Ok(Done {
            op_result: compute(w, thread, *op, end),
            polled: None,
            work: None,
        });
    }
    let done = do_other_op(component, w, thread, op, answer)?;
    finish(w, thread, op, done.op_result);
    Ok(done)
}
