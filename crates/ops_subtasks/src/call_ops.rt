//! Calls of exports whose start is queued, as they begin.
ghost use Rattle.std.specs.Prelude.{◌≡◌, ◌+◌, ◌<◌, ◌≤◌, ◌^◌, IfOk, IsSome, OnErr, Some, length, true};
ghost use Rattle.machine_data.specs.Maps.{get};
ghost use Rattle.machine_data.specs.Read.{fits, place_of};
ghost use Rattle.ops_subtasks.specs.Rules.{queues_call};
ghost use Rattle.ops_subtasks.specs.Starts.{call_started};
ghost use Rattle.machine_data.specs.declared.records.Place.TheVariants as places;
ghost use Rattle.ops_guests.specs.OpResult.{IsCurrent};
ghost use Rattle.ops_guests.specs.Does.{DoesRule, KeepsNames};
ghost use Rattle.ops_guests.specs.Running.{IsRunning};
ghost use Rattle.machine_rules.specs.Calls.{call_clears_flag, call_queues};
ghost use Rattle.core_primitives.specs.StateView.{on_core, thread_of};
ghost use Rattle.core_primitives.specs.Records.{MakesThread};

use core_primitives::{CallId, NoMemory, OpProgressId, Primitives, SubtaskId, ThreadId, WhyId};
use machine_data::{CallLabel, Callee, ExportKind, Goal, Label, Trap};
use ops_guests::OpResult;
use ops_moves::{put_behind, put_switch};

// The flag of the callee's instance is saved and cleared.
fn clear_flag<W: Primitives>(w: &mut W, thread: ThreadId, instance: u32, kind: ExportKind)
    ensures { W.view w.new ≡ on_core (call_clears_flag (thread_of (W.view w.old) thread) instance kind) (W.view w.old) }
{
    if matches!(kind, ExportKind::Sync) {
        return;
    }
    let flag = w.may_not_suspend(instance);
    w.set_saved_callee(thread, Some(flag));
    w.set_do_not_suspend(instance, false);
}

/// Makes the start of a new call the switch entry, and puts the calling thread behind it.
pub fn start_made<W: Primitives>(
    w: &mut W,
    thread: ThreadId,
    other: ThreadId,
    call: CallId,
    instance: u32,
    kind: ExportKind,
)
    requires live { 0 < thread_of (W.view w.old) thread }
    requires running { IsRunning (thread_of (W.view w.old) thread) (W.view w.old).core }
    requires other { 0 < thread_of (W.view w.old) other }
    requires new { place_of (thread_of (W.view w.old) other) (W.view w.old).core ≡ Some places.New }
    ensures { W.view w.new ≡ call_started thread other call instance kind (W.view w.old) }
{
    put_switch(w, other, WhyId::Start);
    clear_flag(w, thread, instance, kind);
    put_behind(w, other, thread);
    w.set_op_progress(thread, OpProgressId::Calls(SubtaskId::Guest(call)));
}

// The call is made, its start becomes the switch entry, and the calling thread goes behind it.
fn queue_start<W: Primitives>(
    w: &mut W,
    thread: ThreadId,
    callee: Callee,
    kind: ExportKind,
    goal: Goal,
    words: &[u64],
) -> Result<ThreadId, NoMemory>
    requires live { 0 < thread_of (W.view w.old) thread }
    requires running { IsRunning (thread_of (W.view w.old) thread) (W.view w.old).core }
    requires there { IsSome (get (W.view w.old).core.instances callee.instance) }
    requires words { length words.now ≤ 16 }
    requires few { (W.view w.old).core.made.threads + 1 < 2 ^ 64 }
    requires room { fits 3 (W.view w.old).core ≡ true }
    ensures { MakesThread (call_queues (thread_of (W.view w.old) thread) callee kind goal words.now) (W.view w.old) result (W.view w.new) }
{
    let (other, call) = w.make_call(thread, callee, kind, goal, words)?;
    start_made(w, thread, other, call, callee.instance, kind);
    Ok(other)
}

/// Begins a call that queues its callee's start: `call R Q F X*`, or `call_sync R F X*` of a stackful or callback
/// export. If it is out of memory, all is as before.
pub fn begin_call<W: Primitives>(
    w: &mut W,
    thread: ThreadId,
    callee: Callee,
    kind: ExportKind,
    goal: Goal,
    words: &[u64],
) -> Result<OpResult, NoMemory>
    requires live { 0 < thread_of (W.view w.old) thread }
    requires running { IsRunning (thread_of (W.view w.old) thread) (W.view w.old).core }
    requires there { IsSome (get (W.view w.old).core.instances callee.instance) }
    requires words { length words.now ≤ 16 }
    requires few { (W.view w.old).core.made.threads + 1 < 2 ^ 64 }
    ensures does { IfOk result (λ op_result. DoesRule KeepsNames (queues_call kind goal callee words.now) thread (W.view w.old) op_result (W.view w.new)) }
    ensures goes { IfOk result (λ op_result. IsCurrent op_result (W.view w.new)) }
    ensures err { OnErr result (W.view w.new ≡ W.view w.old) }
{
    let number = w.number(thread);
    if !w.fits(3) {
        return Ok(OpResult::Traps(Trap::TableFull));
    }
    let other = queue_start(w, thread, callee, kind, goal, words)?;
    let other = w.number(other);
    Ok(OpResult::Stops(Label::Call(CallLabel::Calls(number, other))))
}
