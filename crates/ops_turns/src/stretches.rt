//! A stretch of ops on registers and memory cells, which the running thread does one after another. It works with the thread's
//! context, which is written back in the end, so that no op looks the thread up.
ghost use Rattle.std.specs.Prelude.{◌≡◌, ◌+◌, ◌≤◌, IfOk, OnErr, Some, true};
ghost use Rattle.machine_data.specs.Read.{op_progress_of};
ghost use Rattle.machine_data.specs.declared.records.OpProgress.TheVariants as op_progress;
ghost use Rattle.ops_turns.specs.Later.{SameWorks};
ghost use Rattle.ops_turns.specs.WellFormed.{IsWellFormed};
ghost use Rattle.ops_turns.specs.Drive.{Computes, KeepsOn, StopsShort};
ghost use Rattle.ops_turns.specs.Turn.{CoreInOrder, running_of};
ghost use Rattle.core_primitives.specs.StateView.{thread_of};

use crate::context::{computes_in, context_of};
use core_primitives::{OpProgressId, Primitives, ThreadId};
use machine_data::{Component, Label, NoMemory, Op, Turn};
use ops_dispatch::{op_at, script_ops};
use run_trace::PackedLabels;

// The op at the thread's position is on registers and memory cells, and hasn't begun.
fn is_plain<W: Primitives>(w: &W, thread: ThreadId, script: &[Op], position: u32) -> bool
    ensures fresh { result ≡ true → op_progress_of (thread_of (W.view w.now) thread) (W.view w.now).core ≡ op_progress.Fresh }
{
    let Some(Op::Data(_)) = op_at(script, position) else {
        return false;
    };
    matches!(w.op_progress(thread), OpProgressId::Fresh)
}

/// Does the ops on registers and memory cells of the running thread, which has this number, one after another, up to another op, to
/// its script's end or to so many labels, of which some were added before. Answers how many labels were added then. If the trace has
/// no room for the next label and can't get it, the op is not done. It is a function of its own, so that a turn without such ops saves
/// no registers.
#[inline(never)]
pub(crate) fn stretch<W: Primitives>(
    component: &Component,
    w: &mut W,
    number: u64,
    trace: &mut PackedLabels,
    added: u32,
    steps: u32,
) -> Result<u32, NoMemory>
    requires covered { IsWellFormed component.now }
    requires order { CoreInOrder component.now (Turn.Run number) (W.view w.old).core }
    requires runs { running_of (W.view w.old) ≡ Some number }
    requires few { added ≤ steps }
    ensures few { IfOk result (λ k. (added ≤ k) × (k ≤ steps)) }
    ensures on { IfOk result (λ k. KeepsOn component.now (Turn.Run number) (W.view w.old) trace.old.labels added (W.view w.new) trace.new.labels k) }
    ensures computes { IfOk result (λ k. Computes component.now (Turn.Run number) (W.view w.old) trace.old.labels added (W.view w.new) trace.new.labels k) }
    ensures spare { IfOk result (λ k. trace.old.spare + added ≤ trace.new.spare + k) }
    ensures err { OnErr result (StopsShort component.now (Turn.Run number) (W.view w.old) trace.old added (W.view w.new) trace.new steps) }
    ensures works { SameWorks (W.view w.old) (W.view w.new) }
{
    w.none_is_zero();
    let Some(thread) = w.current() else {
        unreachable!()
    };
    let point = w.at(thread);
    let script = script_ops(component, point.callee, point.script);
    if !is_plain(w, thread, script, point.position) {
        return Ok(added);
    }
    let instance = w.instance_of(thread);
    let end = script.len() as u32;
    let mut context = context_of(w, thread);
    'ops: for count in added..steps {
        let Some(Op::Data(op)) = op_at(script, context.position) else {
            w.set_context(thread, context.position, &context.registers);
            return Ok(count);
        };
        let Ok(()) = trace.make_room() else {
            w.set_context(thread, context.position, &context.registers);
            return Err(NoMemory);
        };
        let label = computes_in(w, &mut context, number, instance, end, op);
        trace.push(Label::Data(label));
    }
    w.set_context(thread, context.position, &context.registers);
    Ok(steps)
}
