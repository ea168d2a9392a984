//! The ops on the task's own threads.
ghost use Rattle.ops_dispatch.specs.Continues.{given, MayDoOp};
ghost use Rattle.ops_dispatch.specs.Makes.{takes_memory};
ghost use Rattle.ops_dispatch.specs.Rules.{halts_here, promotes_here, resumes_here};
ghost use Rattle.ops_dispatch.specs.Runner.{HasHandleTable, Runner, is_halting, is_resumed, progress_of};
ghost use Rattle.std.specs.Prelude.{◌≡◌, ◌<◌, ◌^◌, OnErr, true};
ghost use Rattle.machine_data.specs.Read.{instance_of};
ghost use Rattle.machine_data.specs.declared.component.Component.{Component};
ghost use Rattle.machine_data.specs.declared.op.Op.TheVariants as ops;
ghost use Rattle.ops_guests.specs.Does.{DoesRule, SameNames};
ghost use Rattle.ops_guests.specs.Shown.{goes_as, shown_thread};
ghost use Rattle.ops_guests.specs.Works.{KeepsTold};
ghost use Rattle.machine_rules.specs.Threads.{thread_rule};
ghost use Rattle.core_primitives.specs.StateView.{thread_of};

use crate::scripts::slot_line;
use core_primitives::{OpProgressId, Primitives, ThreadId};
use machine_data::{Component, Label, NoMemory, Operand, ThreadLabel, ThreadOp, Trap};
use ops_guests::{
    OpAnswer, OpResult, halt, halt_then_promote, halt_then_resume, resume_later, thread_index,
    thread_new, value_of,
};

// The thread was resumed inside an op that suspends or yields.
fn is_resumed<W: Primitives>(w: &W, thread: ThreadId) -> bool
    ensures { result ≡ is_resumed (progress_of thread (W.view w.now)) }
{
    matches!(
        w.op_progress(thread),
        OpProgressId::Suspends | OpProgressId::Yields
    )
}

// Moves the thread past its op, which is done.
fn ends<W: Primitives>(w: &W, thread: ThreadId, label: ThreadLabel) -> OpResult
    requires { shown_thread label ≡ OpAnswer.Nothing }
    ensures { result ≡ goes_as (Label.Thread label) (thread_of (W.view w.now) thread) }
{
    let number = w.number(thread);
    OpResult::Continues(Label::Thread(label), number, OpAnswer::Nothing)
}

// `suspend` and `yield`
#[inline(always)]
fn halts<W: Primitives>(w: &mut W, thread: ThreadId, yielding: bool, label: ThreadLabel) -> OpResult
    requires shown { shown_thread label ≡ OpAnswer.Nothing }
    requires runner { Runner thread (W.view w.old) }
    ensures does { DoesRule SameNames (halts_here yielding label) thread (W.view w.old) result (W.view w.new) }
{
    if is_resumed(w, thread) {
        return ends(w, thread, label);
    }
    halt(w, thread, yielding, Label::Thread(label))
}

// `suspend_then_resume X` and `yield_then_resume X`
#[inline(always)]
fn resumes<W: Primitives>(
    w: &mut W,
    thread: ThreadId,
    other: Operand,
    yielding: bool,
    label: ThreadLabel,
) -> OpResult
    requires shown { shown_thread label ≡ OpAnswer.Nothing }
    requires runner { Runner thread (W.view w.old) }
    ensures does { DoesRule SameNames (resumes_here yielding other label) thread (W.view w.old) result (W.view w.new) }
{
    if is_resumed(w, thread) {
        return ends(w, thread, label);
    }
    let other = value_of(w, thread, other);
    halt_then_resume(w, thread, other, yielding)
}

// `suspend_then_promote X` and `yield_then_promote X`
#[inline(always)]
fn promotes<W: Primitives>(
    w: &mut W,
    thread: ThreadId,
    other: Operand,
    yielding: bool,
    label: ThreadLabel,
) -> OpResult
    requires shown { shown_thread label ≡ OpAnswer.Nothing }
    requires runner { Runner thread (W.view w.old) }
    ensures does { DoesRule SameNames (promotes_here yielding other label) thread (W.view w.old) result (W.view w.new) }
{
    if is_resumed(w, thread) {
        return ends(w, thread, label);
    }
    let other = value_of(w, thread, other);
    halt_then_promote(w, thread, other, yielding, Label::Thread(label))
}

// An op inside which the thread may be resumed.
fn do_halting_op<W: Primitives>(w: &mut W, thread: ThreadId, op: ThreadOp) -> OpResult
    requires runner { Runner thread (W.view w.old) }
    requires halts { is_halting op ≡ true }
    ensures does { (c : Component) → DoesRule SameNames (λ d n ch s. thread_rule d c n s op) thread (W.view w.old) result (W.view w.new) }
{
    let number = w.number(thread);
    match op {
        ThreadOp::Suspend => halts(w, thread, false, ThreadLabel::Suspend(number)),
        ThreadOp::Yield => halts(w, thread, true, ThreadLabel::Yield(number)),
        ThreadOp::SuspendThenResume { thread: other } => resumes(
            w,
            thread,
            other,
            false,
            ThreadLabel::SuspendThenResume(number),
        ),
        ThreadOp::YieldThenResume { thread: other } => resumes(
            w,
            thread,
            other,
            true,
            ThreadLabel::YieldThenResume(number),
        ),
        ThreadOp::SuspendThenPromote { thread: other } => promotes(
            w,
            thread,
            other,
            false,
            ThreadLabel::SuspendThenPromote(number),
        ),
        ThreadOp::YieldThenPromote { thread: other } => promotes(
            w,
            thread,
            other,
            true,
            ThreadLabel::YieldThenPromote(number),
        ),
        _ => unreachable!(),
    }
}

/// Does an op on the task's own threads. If it is out of memory, all is as before.
pub(crate) fn do_thread_op<W: Primitives>(
    component: &Component,
    w: &mut W,
    thread: ThreadId,
    op: ThreadOp,
) -> Result<OpResult, NoMemory>
    requires runner { Runner thread (W.view w.old) }
    requires handles { HasHandleTable thread (W.view w.old) }
    requires few { takes_memory (ops.Thread op) ≡ true → given (W.view w.old).core < 2 ^ 61 }
    ensures does { MayDoOp KeepsTold (λ d n ch s. thread_rule d component.now n s op) thread (W.view w.old) result (W.view w.new) }
    ensures err { OnErr result ((takes_memory (ops.Thread op) ≡ true) × (W.view w.new ≡ W.view w.old)) }
{
    match op {
        ThreadOp::New {
            to: _,
            slot,
            context,
        } => {
            let value = value_of(w, thread, context);
            match slot_line(component, w.instance_of(thread), slot) {
                Some(line) => thread_new(w, thread, slot, value, line),
                None => Ok(OpResult::Traps(Trap::ThreadNewIndirectUninitialized)),
            }
        }
        ThreadOp::Index { to } => Ok(thread_index(w, thread)),
        ThreadOp::ResumeLater { thread: other } => {
            let other = value_of(w, thread, other);
            Ok(resume_later(w, thread, other))
        }
        _ => Ok(do_halting_op(w, thread, op)),
    }
}
