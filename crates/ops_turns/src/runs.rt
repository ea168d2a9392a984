//! The step of the running thread: its op is done by its rule.
ghost use Rattle.ops_dispatch.specs.Fits.{HasHandles, HasInstances, calls_host, is_plain, op_fits};
ghost use Rattle.ops_dispatch.specs.Polls.{polled_host};
ghost use Rattle.ops_dispatch.specs.Runner.{Runner};
ghost use Rattle.std.specs.Prelude.{◌≡◌, ◌≢◌, ◌+◌, ◌-◌, ◌<◌, ◌≤◌, ◌^◌, IfOk, OnErr, OnOk, Some, false, is_some, true};
ghost use Rattle.machine_data.specs.Maps.{get};
ghost use Rattle.machine_data.specs.Read.{op_progress_of, instance_of, position_of};
ghost use Rattle.ops_guests.specs.Works.{KeepsTold, NamesTold};
ghost use Rattle.machine_rules.specs.Scripts.{op_of};
ghost use Rattle.ops_turns.specs.Ran.{DidHere, MakesFew, OpMade, IsBeforeEnd, WantsFor, WantsMemory, scripted_rule_of};
ghost use Rattle.ops_turns.specs.StepResult.{CallStepped, DataShown, ExitShown, IsFull, OpPolls, OpShown, OpStep, RuleRan, RunStepped, Shown, TakesRoom, is_made};
ghost use Rattle.ops_turns.specs.Turn.{CanUnwind, OpGoesOn, CoreInOrder, given, running_of};
ghost use Rattle.ops_turns.specs.WellFormed.{IsWellFormed};
ghost use Rattle.core_primitives.specs.StateView.{thread_of};

use crate::made::{MadeStep, StepResult, made_of, show};
use core_primitives::{Primitives, ThreadId, WorkId};
use machine_data::{Component, DataOp, HostPoll, Label, NoMemory, Op, TaskLabel, Turn};
use ops_dispatch::{
    Done, do_host_call, do_op, do_plain_op, exit, finish, is_host_call, op_at, script_ops,
};
use ops_guests::{OpResult, compute};
use run_trace::PackedLabels;

/// Does the op at the running thread's position; it exits at its script's end. An open host that it polls first has answered so. It
/// is out of memory only for an op that may take some, and then all is as before.
pub fn run_op<W: Primitives>(
    component: &Component,
    w: &mut W,
    thread: ThreadId,
    answer: HostPoll,
) -> Result<Done, NoMemory>
    requires covered { IsWellFormed component.now }
    requires runner { Runner thread (W.view w.old) }
    requires instances { HasInstances component.now (W.view w.old).core }
    requires handles { HasHandles component.now (W.view w.old).core }
    requires few { MakesFew component.now (thread_of (W.view w.old) thread) (W.view w.old).core }
    ensures did { IfOk result (λ done. DidHere answer component.now thread (W.view w.old) done (W.view w.new)) }
    ensures err { OnErr result (WantsMemory component.now (thread_of (W.view w.old) thread) (W.view w.old) (W.view w.new)) }
{
    let point = w.at(thread);
    let body = script_ops(component, point.callee, point.script);
    match op_at(body, point.position) {
        Some(op) => do_op(component, w, thread, op, body.len() as u32, answer),
        None => Ok(Done {
            op_result: exit(w, thread),
            polled: None,
            work: None,
        }),
    }
}

// An op of the thread's script on registers and memory cells is done. `more` says that another seems to follow.
#[inline(never)]
fn run_data<W: Primitives>(
    component: &Component,
    w: &mut W,
    thread: ThreadId,
    op: &DataOp,
    end: u32,
    trace: &mut PackedLabels,
    more: bool,
) -> StepResult
    requires runner { Runner thread (W.view w.old) }
    requires within { IsBeforeEnd end component.now (thread_of (W.view w.old) thread) (W.view w.old).core }
    requires room { 0 < trace.old.spare }
    ensures made { is_made result ≡ true }
    ensures shown { DataShown component.now op.now thread (W.view w.old) trace.old.labels result (W.view w.new) trace.new.labels }
    ensures works { KeepsTold (W.view w.old) (W.view w.new) }
    ensures spare { trace.new.spare ≡ trace.old.spare - 1 }
{
    // only the contract speaks of `component`
    let _component = component;
    // The thread is there, which is asked once for all that its op looks up.
    match w.number(thread) {
        0 => unreachable!(),
        _ => {}
    }
    let op_result = compute(w, thread, *op, end);
    show(w, thread, trace, op_result, more)
}

// Another op of the thread's script that calls no host is done and ended. It is a function of its own, so that its ops are there
// once.
#[inline(never)]
fn run_plain<W: Primitives>(
    component: &Component,
    w: &mut W,
    thread: ThreadId,
    op: &Op,
    trace: &mut PackedLabels,
) -> StepResult
    requires runner { Runner thread (W.view w.old) }
    requires plain { is_plain op.now ≡ true }
    requires fits { op_fits component.now op.now ≡ true }
    requires instances { HasInstances component.now (W.view w.old).core }
    requires position { position_of (thread_of (W.view w.old) thread) (W.view w.old).core + 1 < 2 ^ 32 }
    requires handles { is_some (get (W.view w.old).core.handles (instance_of (thread_of (W.view w.old) thread) (W.view w.old).core)) ≡ true }
    requires few { given (W.view w.old).core < 2 ^ 61 }
    requires room { 0 < trace.old.spare }
    ensures shown { is_made result ≡ true → OpShown component.now op.now thread (W.view w.old) trace.old.labels result (W.view w.new) trace.new.labels }
    ensures works { result ≢ StepResult.Full → NamesTold (W.view w.old) (W.view w.new) }
    ensures full { is_made result ≡ false → IsFull result trace.old.labels trace.new.labels × WantsFor op.now (W.view w.old) (W.view w.new) }
    ensures spare { TakesRoom result trace.old trace.new }
{
    // The thread is there, which is asked once for all that its op looks up.
    match w.number(thread) {
        0 => unreachable!(),
        _ => {}
    }
    let Ok(op_result) = do_plain_op(component, w, thread, op) else {
        return StepResult::Full;
    };
    finish(w, thread, op, op_result);
    show(w, thread, trace, op_result, false)
}

// Adds a label to the trace, as `show` does. It tells the exit of a thread that wakes none apart from the other labels, as most
// exits are so.
#[inline(always)]
fn show_exit<W: Primitives>(
    w: &mut W,
    thread: ThreadId,
    trace: &mut PackedLabels,
    op_result: OpResult,
) -> StepResult
    requires unwinds { CanUnwind op_result (thread_of (W.view w.old) thread) (W.view w.old).core }
    requires goes { OpGoesOn op_result (W.view w.old) }
    requires room { 0 < trace.old.spare }
    ensures made { is_made result ≡ true }
    ensures shown { Shown thread op_result (W.view w.old) trace.old.labels result (W.view w.new) trace.new.labels }
    ensures works { KeepsTold (W.view w.old) (W.view w.new) }
    ensures spare { trace.new.spare ≡ trace.old.spare - 1 }
{
    if let OpResult::Continues(Label::Task(TaskLabel::Exit(number)), next, answer) = op_result {
        let op_result = OpResult::Continues(Label::Task(TaskLabel::Exit(number)), next, answer);
        return show(w, thread, trace, op_result, false);
    }
    show(w, thread, trace, op_result, false)
}

// The thread exits at its script's end.
#[inline(never)]
fn run_exit<W: Primitives>(w: &mut W, thread: ThreadId, trace: &mut PackedLabels) -> StepResult
    requires runner { Runner thread (W.view w.old) }
    requires room { 0 < trace.old.spare }
    ensures made { is_made result ≡ true }
    ensures shown { ExitShown thread (W.view w.old) trace.old.labels result (W.view w.new) trace.new.labels }
    ensures works { KeepsTold (W.view w.old) (W.view w.new) }
    ensures spare { trace.new.spare ≡ trace.old.spare - 1 }
{
    let op_result = exit(w, thread);
    show_exit(w, thread, trace, op_result)
}

// The op of the thread's script, which ends at `end`, is a call of a host. It is done and ended.
#[inline(never)]
fn run_host<W: Primitives>(
    component: &Component,
    w: &mut W,
    thread: ThreadId,
    op: &Op,
    end: u32,
    answer: HostPoll,
) -> Result<(MadeStep, Option<WorkId>), NoMemory>
    requires runner { Runner thread (W.view w.old) }
    requires calls { calls_host op.now ≡ true }
    requires within { position_of (thread_of (W.view w.old) thread) (W.view w.old).core < end }
    requires few { given (W.view w.old).core < 2 ^ 61 }
    ensures ran { IfOk result (λ q. RuleRan (scripted_rule_of component.now op.now thread (W.view w.old)) thread (W.view w.old) q.0 (W.view w.new)) }
    ensures work { IfOk result (λ q. OpMade answer component.now op.now thread (W.view w.old) q.1 (W.view w.new)) }
    ensures works { OnOk result (NamesTold (W.view w.old) (W.view w.new)) }
    ensures err { OnErr result (WantsFor op.now (W.view w.old) (W.view w.new)) }
{
    // only the contract speaks of `end`
    let _end = end;
    let Op::Call(call) = op else { unreachable!() };
    let done = do_host_call(component, w, thread, call, answer)?;
    finish(w, thread, op, done.op_result);
    Ok((made_of(w, thread, done.op_result), done.work))
}

// The op at this position of the thread's script is done, unless it calls a host. It is inlined, so that a step isn't copied. After
// an op on registers and memory cells it is seen whether the next one is such an op too, so that others aren't looked for in vain.
#[inline(always)]
fn run_by<W: Primitives>(
    component: &Component,
    w: &mut W,
    thread: ThreadId,
    op: &Op,
    end: u32,
    script: &[Op],
    position: u32,
    trace: &mut PackedLabels,
) -> StepResult
    requires runner { Runner thread (W.view w.old) }
    requires fits { op_fits component.now op.now ≡ true }
    requires instances { HasInstances component.now (W.view w.old).core }
    requires within { IsBeforeEnd end component.now (thread_of (W.view w.old) thread) (W.view w.old).core }
    requires handles { is_some (get (W.view w.old).core.handles (instance_of (thread_of (W.view w.old) thread) (W.view w.old).core)) ≡ true }
    requires few { given (W.view w.old).core < 2 ^ 61 }
    requires room { 0 < trace.old.spare }
    ensures step { OpStep component.now op.now thread (W.view w.old) trace.old.labels result (W.view w.new) trace.new.labels }
    ensures polls { OpPolls component.now op.now thread (W.view w.old) result }
    ensures works { result ≢ StepResult.Full → NamesTold (W.view w.old) (W.view w.new) }
    ensures spare { TakesRoom result trace.old trace.new }
{
    match op {
        Op::Call(call) if is_host_call(call) => StepResult::Nothing,
        Op::Data(data) => {
            let more = matches!(op_at(script, position.saturating_add(1)), Some(Op::Data(_)));
            run_data(component, w, thread, data, end, trace, more)
        }
        _ => run_plain(component, w, thread, op, trace),
    }
}

/// Does the op of the running thread, which has this number, and adds what that shows to the trace, which has room for it. Where the
/// op calls a host nothing is done, since that is asked for by `step_call`. It is out of memory only for an op that may take some, and
/// then all is as before.
#[inline(always)]
pub fn step_run<W: Primitives>(
    component: &Component,
    w: &mut W,
    number: u64,
    trace: &mut PackedLabels,
) -> StepResult
    requires covered { IsWellFormed component.now }
    requires order { CoreInOrder component.now (Turn.Run number) (W.view w.old).core }
    requires runs { running_of (W.view w.old) ≡ Some number }
    requires few { given (W.view w.old).core < 2 ^ 61 }
    requires room { 0 < trace.old.spare }
    ensures ran { RunStepped component.now number (W.view w.old) result (W.view w.new) trace.old.labels trace.new.labels }
    ensures works { result ≢ StepResult.Full → NamesTold (W.view w.old) (W.view w.new) }
    ensures full { result ≡ StepResult.Full → WantsMemory component.now number (W.view w.old) (W.view w.new) }
    ensures spare { TakesRoom result trace.old trace.new }
{
    w.none_is_zero();
    let Some(thread) = w.current() else {
        unreachable!()
    };
    let point = w.at(thread);
    let script = script_ops(component, point.callee, point.script);
    match op_at(script, point.position) {
        Some(op) => run_by(
            component,
            w,
            thread,
            op,
            script.len() as u32,
            script,
            point.position,
            trace,
        ),
        None => run_exit(w, thread, trace),
    }
}

/// Has the running thread, which has this number, do its op, which calls a host: the step, whose label is still to be
/// added, and the work that was made are answered. The host is polled first, and has answered so if it is open. It is out of memory
/// only for an op that may take some, and then all is as before. It is a function of its own, so that what it answers is there only
/// where a host is called.
#[inline(never)]
pub fn step_call<W: Primitives>(
    component: &Component,
    w: &mut W,
    number: u64,
    answer: HostPoll,
) -> Result<(MadeStep, Option<WorkId>), NoMemory>
    requires covered { IsWellFormed component.now }
    requires order { CoreInOrder component.now (Turn.Run number) (W.view w.old).core }
    requires runs { running_of (W.view w.old) ≡ Some number }
    requires calls { calls_host (op_of component.now number (W.view w.old).core) ≡ true }
    requires few { given (W.view w.old).core < 2 ^ 61 }
    ensures ran { IfOk result (λ q. CallStepped answer component.now number (W.view w.old) q (W.view w.new)) }
    ensures works { OnOk result (NamesTold (W.view w.old) (W.view w.new)) }
    ensures err { OnErr result (WantsMemory component.now number (W.view w.old) (W.view w.new)) }
{
    // only the contract speaks of `number`
    let _number = number;
    w.none_is_zero();
    let Some(thread) = w.current() else {
        unreachable!()
    };
    let point = w.at(thread);
    let body = script_ops(component, point.callee, point.script);
    match op_at(body, point.position) {
        Some(op) => run_host(component, w, thread, op, body.len() as u32, answer),
        None => unreachable!(),
    }
}
