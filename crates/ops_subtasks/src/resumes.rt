//! Cancels that go on.
ghost use Rattle.std.specs.Prelude.{◌≡◌, ◌<◌};
ghost use Rattle.ops_subtasks.specs.Refused.{mode_of, refused_after};
ghost use Rattle.ops_subtasks.specs.Rules.{goes_on_awaiting, goes_on_cancelling};
ghost use Rattle.ops_guests.specs.Does.{DoesRule, SameNames};
ghost use Rattle.ops_guests.specs.Running.{IsRunning};
ghost use Rattle.machine_rules.specs.Calls.{put_back};
ghost use Rattle.machine_rules.specs.Cancels.{cancel_resumed, subtask_instance};
ghost use Rattle.core_primitives.specs.Names.{subtask_in};
ghost use Rattle.core_primitives.specs.StateView.{on_core, thread_of};

use crate::end_ops::{answer_end, finish_cancel, refusal, undelivered_end};
use core_primitives::{JoinId, Primitives, SubtaskId, ThreadId};
use machine_data::Trap;
use ops_guests::OpResult;

// The instance of the callee; that of a host call is of no account.
fn subtask_instance<W: Primitives>(w: &W, subtask: SubtaskId) -> u32
    ensures { result ≡ subtask_instance (subtask_in (W.view w.now).tags subtask) (W.view w.now).core }
{
    match subtask {
        SubtaskId::Guest(call) => w.callee(call).instance,
        SubtaskId::Host(_) => 0,
    }
}

// A saved flag is written back.
pub(crate) fn put_back<W: Primitives>(w: &mut W, saved: Option<bool>, instance: u32)
    ensures { W.view w.new ≡ on_core (put_back saved instance) (W.view w.old) }
{
    if let Some(flag) = saved {
        w.set_do_not_suspend(instance, flag);
    }
}

// Why what follows would trap, once the saved flag is written back.
fn refusal_after<W: Primitives>(
    w: &mut W,
    thread: ThreadId,
    sync: bool,
    subtask: SubtaskId,
) -> Option<Trap>
    ensures is { result ≡ refused_after (mode_of sync) (thread_of (W.view w.old) thread) (subtask_in (W.view w.old).tags subtask) (W.view w.old).core }
    ensures same { W.view w.new ≡ W.view w.old }
{
    let instance = subtask_instance(w, subtask);
    let flag = w.may_not_suspend(instance);
    let saved = w.saved_callee(thread);
    put_back(w, saved, instance);
    let refusal = refusal(w, thread, sync, subtask);
    w.set_do_not_suspend(instance, flag);
    refusal
}

// The saved flag is written back, and the subtask leaves its set.
#[tactic(auto, unfolding(machine_rules::specs::Cancels::cancel_resumed))]
fn resume_canceller<W: Primitives>(w: &mut W, thread: ThreadId, subtask: SubtaskId)
    ensures { W.view w.new ≡ on_core (cancel_resumed (thread_of (W.view w.old) thread) (subtask_in (W.view w.old).tags subtask)) (W.view w.old) }
{
    let saved = w.saved_callee(thread);
    let instance = subtask_instance(w, subtask);
    put_back(w, saved, instance);
    w.set_saved_callee(thread, None);
    w.set_join(subtask, JoinId::Nowhere);
}

/// Does `cancel R X`, and `cancel_sync R X`, resumed behind the callee.
pub fn go_on_cancelling<W: Primitives>(
    w: &mut W,
    thread: ThreadId,
    sync: bool,
    subtask: SubtaskId,
) -> OpResult
    requires live { 0 < thread_of (W.view w.old) thread }
    requires running { IsRunning (thread_of (W.view w.old) thread) (W.view w.old).core }
    ensures does { DoesRule SameNames (goes_on_cancelling sync subtask (W.view w.old)) thread (W.view w.old) result (W.view w.new) }
{
    if let Some(trap) = refusal_after(w, thread, sync, subtask) {
        return OpResult::Traps(trap);
    }
    resume_canceller(w, thread, subtask);
    finish_cancel(w, thread, sync, subtask)
}

/// Does `cancel_sync R X`, resumed once the end was told.
pub fn go_on_awaiting<W: Primitives>(
    w: &mut W,
    thread: ThreadId,
    sync: bool,
    subtask: SubtaskId,
) -> OpResult
    ensures does { DoesRule SameNames (goes_on_awaiting sync subtask (W.view w.old)) thread (W.view w.old) result (W.view w.new) }
{
    let Some(status) = undelivered_end(w, subtask) else {
        return OpResult::Traps(Trap::SubtaskCancelAfterTerminal);
    };
    w.set_join(subtask, JoinId::Nowhere);
    answer_end(w, thread, sync, subtask, status)
}
