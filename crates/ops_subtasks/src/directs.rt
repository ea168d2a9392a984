//! Direct calls, of sync and blocking exports.
ghost use Rattle.ops_subtasks.specs.Starts.{IsMadeNext};
ghost use Rattle.std.specs.Prelude.{◌≡◌, ◌+◌, ◌<◌, ◌≤◌, ◌^◌, IfOk, IsSome, OnErr, OnOk, false, length, true};
ghost use Rattle.ops_subtasks.specs.Rules.{answers_value, begins_call, enters_call, queues_call};
ghost use Rattle.machine_data.specs.Maps.{get};
ghost use Rattle.machine_data.specs.Read.{at_handle_limit, fits, is_async_lifted};
ghost use Rattle.machine_data.specs.declared.records.Goal.TheVariants as goals;
ghost use Rattle.ops_guests.specs.OpResult.{IsCurrent};
ghost use Rattle.ops_guests.specs.Does.{DoesRule, KeepsTags, SameNames, MayDoRule};
ghost use Rattle.ops_guests.specs.Running.{IsRunning};
ghost use Rattle.machine_rules.specs.Calls.{enter_runs, sync_sets_flag};
ghost use Rattle.core_primitives.specs.StateView.{Keeps, on_core, thread_of};

use crate::call_ops::begin_call;
use core_primitives::{NoMemory, Primitives, ThreadId};
use machine_data::{CallLabel, Callee, ExportKind, Goal, Label, Trap};
use ops_guests::{OpAnswer, OpResult};

// The flag of the callee's instance is saved and set.
fn set_flag<W: Primitives>(w: &mut W, thread: ThreadId, instance: u32, kind: ExportKind)
    ensures { W.view w.new ≡ on_core (sync_sets_flag (thread_of (W.view w.old) thread) instance kind) (W.view w.old) }
{
    if matches!(kind, ExportKind::Sync) {
        let flag = w.may_not_suspend(instance);
        w.set_saved_own(thread, Some(flag));
        w.set_do_not_suspend(instance, true);
    }
}

// The call is made, and its thread, which is answered with its number, runs on top of the calling one.
fn run_on_top<W: Primitives>(
    w: &mut W,
    thread: ThreadId,
    callee: Callee,
    kind: ExportKind,
    words: &[u64],
) -> Result<(ThreadId, u64), NoMemory>
    requires live { 0 < thread_of (W.view w.old) thread }
    requires there { IsSome (get (W.view w.old).core.instances callee.instance) }
    requires words { length words.now ≤ 16 }
    requires few { (W.view w.old).core.made.threads + 1 < 2 ^ 64 }
    requires room { fits 3 (W.view w.old).core ≡ true }
    requires limit { at_handle_limit (W.view w.old).core ≡ false }
    ensures found { IfOk result (λ found. IsMadeNext found (W.view w.old) (W.view w.new)) }
    ensures core { OnOk result ((W.view w.new).core ≡ enter_runs (thread_of (W.view w.old) thread) callee kind words.now (W.view w.old).core) }
    ensures tags { Keeps (W.view w.old).tags (W.view w.new).tags }
    ensures err { OnErr result (W.view w.new ≡ W.view w.old) }
{
    let (other, call) = w.make_direct_call(thread, callee, kind, words)?;
    w.set_started_unchecked(call);
    set_flag(w, other, callee.instance, kind);
    let to = w.number_unchecked(other);
    w.run_first(other);
    w.stand_under(thread, other, call);
    Ok((other, to))
}

/// Does `call_sync R F X*` of a sync or blocking export, as it begins: the callee's thread is current from then on. If it is out of
/// memory, all is as before.
pub fn enter<W: Primitives>(
    w: &mut W,
    thread: ThreadId,
    callee: Callee,
    kind: ExportKind,
    words: &[u64],
) -> Result<OpResult, NoMemory>
    requires live { 0 < thread_of (W.view w.old) thread }
    requires there { IsSome (get (W.view w.old).core.instances callee.instance) }
    requires words { length words.now ≤ 16 }
    requires few { (W.view w.old).core.made.threads + 1 < 2 ^ 64 }
    ensures does { MayDoRule KeepsTags (enters_call kind callee words.now) thread (W.view w.old) result (W.view w.new) }
    ensures current { IfOk result (λ op_result. IsCurrent op_result (W.view w.new)) }
    ensures err { OnErr result (W.view w.new ≡ W.view w.old) }
{
    if !w.fits(3) {
        return Ok(OpResult::Traps(Trap::TableFull));
    }
    if w.at_handle_limit() {
        return Ok(OpResult::Traps(Trap::HandleLimit));
    }
    let number = w.number(thread);
    let (other, to) = run_on_top(w, thread, callee, kind, words)?;
    w.set_current(Some(other));
    Ok(OpResult::Continues(
        Label::Call(CallLabel::Enters(number, to)),
        to,
        OpAnswer::Entered(to),
    ))
}

// `call_sync R F X*` of a stackful or callback export, as it begins. It is a function of its own, as what `begin_call` answers is
// in memory.
#[inline(always)]
fn begin_queued<W: Primitives>(
    w: &mut W,
    thread: ThreadId,
    callee: Callee,
    kind: ExportKind,
    words: &[u64],
) -> Result<OpResult, NoMemory>
    requires live { 0 < thread_of (W.view w.old) thread }
    requires running { IsRunning (thread_of (W.view w.old) thread) (W.view w.old).core }
    requires there { IsSome (get (W.view w.old).core.instances callee.instance) }
    requires words { length words.now ≤ 16 }
    requires few { (W.view w.old).core.made.threads + 1 < 2 ^ 64 }
    ensures does { MayDoRule KeepsTags (queues_call kind goals.Answer callee words.now) thread (W.view w.old) result (W.view w.new) }
    ensures current { IfOk result (λ op_result. IsCurrent op_result (W.view w.new)) }
    ensures err { OnErr result (W.view w.new ≡ W.view w.old) }
{
    match begin_call(w, thread, callee, kind, Goal::Answer, words) {
        Ok(op_result) => Ok(op_result),
        Err(why) => Err(why),
    }
}

/// Does `call_sync R F X*`, as it begins. If it is out of memory, all is as before.
pub fn begin_call_sync<W: Primitives>(
    w: &mut W,
    thread: ThreadId,
    callee: Callee,
    kind: ExportKind,
    words: &[u64],
) -> Result<OpResult, NoMemory>
    requires live { 0 < thread_of (W.view w.old) thread }
    requires running { IsRunning (thread_of (W.view w.old) thread) (W.view w.old).core }
    requires there { IsSome (get (W.view w.old).core.instances callee.instance) }
    requires words { length words.now ≤ 16 }
    requires few { (W.view w.old).core.made.threads + 1 < 2 ^ 64 }
    ensures does { MayDoRule KeepsTags (begins_call (is_async_lifted kind) kind callee words.now) thread (W.view w.old) result (W.view w.new) }
    ensures current { IfOk result (λ op_result. IsCurrent op_result (W.view w.new)) }
    ensures err { OnErr result (W.view w.new ≡ W.view w.old) }
{
    match kind {
        ExportKind::Stackful | ExportKind::Callback => {
            begin_queued(w, thread, callee, kind, words)
        }
        _ => enter(w, thread, callee, kind, words),
    }
}

/// Does `call_sync R F X*`, once its direct callee has answered.
pub fn answer_call<W: Primitives>(w: &W, thread: ThreadId, value: u64) -> OpResult
    ensures does { DoesRule SameNames (answers_value value) thread (W.view w.now) result (W.view w.now) }
{
    let number = w.number(thread);
    OpResult::Continues(
        Label::Call(CallLabel::CallSync(number, value)),
        number,
        OpAnswer::Value(value),
    )
}
