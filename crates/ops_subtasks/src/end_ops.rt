//! What follows a cancel: the end is answered, or it is waited for.
ghost use Rattle.std.specs.Prelude.{◌≡◌, ◌<◌, None};
ghost use Rattle.ops_subtasks.specs.Refused.{mode_of, refused};
ghost use Rattle.ops_subtasks.specs.Rules.{after_cancels, cancels_ended, end_answered};
ghost use Rattle.machine_data.specs.Read.{event_of, undelivered_end};
ghost use Rattle.machine_data.specs.Statuses.{status_code};
ghost use Rattle.ops_guests.specs.Does.{DoesRule, SameNames};
ghost use Rattle.ops_guests.specs.Running.{IsRunning};
ghost use Rattle.ops_guests.specs.Shown.{goes_as};
ghost use Rattle.ops_guests.specs.Stays.{StaysAfter};
ghost use Rattle.machine_rules.specs.Cancels.{cancel_label, cancel_stops};
ghost use Rattle.core_primitives.specs.Names.{subtask_in};
ghost use Rattle.core_primitives.specs.StateView.{StateView, on_core, thread_of};

use core_primitives::{JoinId, OpProgressId, PlaceId, Primitives, SubtaskId, ThreadId};
use machine_data::{CallLabel, Label, Status, ThreadLabel, Trap};
use ops_guests::{OpAnswer, OpResult};
use ops_moves::{check, foot_of, passes_check, stop};

// `cancel`, or `cancel_sync`, is done, and answers this.
pub(crate) fn cancelled(sync: bool, thread: u64, answer: u32) -> OpResult
    ensures { result ≡ goes_as (cancel_label (mode_of sync) thread answer) thread }
{
    if sync {
        let label = Label::Call(CallLabel::CancelSync(answer, thread));
        OpResult::Continues(label, thread, OpAnswer::Number(answer))
    } else {
        let label = Label::Call(CallLabel::Cancel(answer, thread));
        OpResult::Continues(label, thread, OpAnswer::Number(answer))
    }
}

// The end that wasn't handed out.
pub(crate) fn undelivered_end<W: Primitives>(w: &W, subtask: SubtaskId) -> Option<Status>
    ensures { result ≡ undelivered_end (event_of (subtask_in (W.view w.now).tags subtask) (W.view w.now).core) }
{
    match w.event(subtask) {
        Some(Status::Starting | Status::Started) => None,
        event => event,
    }
}

// The undelivered end is taken and answered.
#[inline(always)]
pub(crate) fn answer_end<W: Primitives>(
    w: &mut W,
    thread: ThreadId,
    sync: bool,
    subtask: SubtaskId,
    status: Status,
) -> OpResult
    ensures is { result ≡ goes_as (cancel_label (mode_of sync) (thread_of (W.view w.old) thread) (status_code status)) (thread_of (W.view w.old) thread) }
    ensures new { W.view w.new ≡ on_core (end_answered (thread_of (W.view w.old) thread) (subtask_in (W.view w.old).tags subtask)) (W.view w.old) }
{
    let number = w.number(thread);
    w.set_event(subtask, None);
    w.set_saved_callee(thread, None);
    cancelled(sync, number, status.number())
}

// A cancel of an ended subtask.
pub(crate) fn cancel_ended<W: Primitives>(
    w: &mut W,
    thread: ThreadId,
    sync: bool,
    subtask: SubtaskId,
) -> OpResult
    ensures does { DoesRule SameNames (cancels_ended (mode_of sync) (subtask_in (W.view w.old).tags subtask)) thread (W.view w.old) result (W.view w.new) }
{
    match undelivered_end(w, subtask) {
        None => OpResult::Traps(Trap::SubtaskCancelAfterTerminal),
        Some(status) => answer_end(w, thread, sync, subtask, status),
    }
}

// The subtask joins the thread's own set, and the thread waits for its end.
#[tactic(auto, unfolding(machine_rules::specs::Cancels::cancel_stops))]
fn await_end<W: Primitives>(w: &mut W, thread: ThreadId, subtask: SubtaskId)
    requires live { 0 < thread_of (W.view w.old) thread }
    requires running { IsRunning (thread_of (W.view w.old) thread) (W.view w.old).core }
    ensures { W.view w.new ≡ on_core (cancel_stops (thread_of (W.view w.old) thread) (subtask_in (W.view w.old).tags subtask)) (W.view w.old) }
{
    let instance = w.instance_of(thread);
    w.set_saved_callee(thread, None);
    w.set_join(subtask, JoinId::Watched(thread));
    check(w, instance);
    let foot = foot_of(w, thread);
    stop(w, foot);
    w.stand_at(
        thread,
        PlaceId::Blocked(subtask),
        OpProgressId::AwaitsEnd(subtask),
    );
}

// Why what follows a cancel traps, if it does.
#[tactic(auto, unfolding(crate::specs::Refused::refused))]
pub(crate) fn refusal<W: Primitives>(
    w: &W,
    thread: ThreadId,
    sync: bool,
    subtask: SubtaskId,
) -> Option<Trap>
    ensures { result ≡ refused (mode_of sync) (thread_of (W.view w.now) thread) (subtask_in (W.view w.now).tags subtask) (W.view w.now).core }
{
    if w.has_ended(subtask) {
        match undelivered_end(w, subtask) {
            Some(_) => None,
            None => Some(Trap::SubtaskCancelAfterTerminal),
        }
    } else if !sync || passes_check(w, w.instance_of(thread)) {
        None
    } else {
        Some(Trap::CannotBlockSyncTask)
    }
}

// What follows a cancel that doesn't trap.
#[tactic(auto, unfolding(crate::specs::Refused::refused))]
pub(crate) fn finish_cancel<W: Primitives>(
    w: &mut W,
    thread: ThreadId,
    sync: bool,
    subtask: SubtaskId,
) -> OpResult
    requires live { 0 < thread_of (W.view w.old) thread }
    requires running { IsRunning (thread_of (W.view w.old) thread) (W.view w.old).core }
    requires may { refused (mode_of sync) (thread_of (W.view w.old) thread) (subtask_in (W.view w.old).tags subtask) (W.view w.old).core ≡ None }
    ensures does { DoesRule SameNames (after_cancels (mode_of sync) (subtask_in (W.view w.old).tags subtask)) thread (W.view w.old) result (W.view w.new) }
    ensures goes { (s : StateView) → StaysAfter result s (W.view w.new) }
{
    let number = w.number(thread);
    if w.has_ended(subtask) {
        let Some(status) = undelivered_end(w, subtask) else {
            unreachable!()
        };
        return answer_end(w, thread, sync, subtask, status);
    }
    if sync {
        await_end(w, thread, subtask);
        return OpResult::Stops(Label::Thread(ThreadLabel::Pauses(number)));
    }
    w.set_saved_callee(thread, None);
    cancelled(sync, number, 4_294_967_295)
}
