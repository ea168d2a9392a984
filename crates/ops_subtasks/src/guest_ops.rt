//! The cancel of a guest call.
ghost use Rattle.std.specs.Prelude.{◌≡◌, ◌<◌, ◌&&◌, None, false, is_some, true};
ghost use Rattle.ops_subtasks.specs.Refused.{mode_of};
ghost use Rattle.ops_subtasks.specs.Rules.{asks_to_end, cancels_guest, wakes_cancelled};
ghost use Rattle.laws_states.specs.Order.{StartsAwaited, StartsThere};
ghost use Rattle.machine_data.specs.Maps.{get};
ghost use Rattle.machine_data.specs.Read.{cancel_was_asked, has_ended, is_at, is_callback_yield, is_second, place_of, was_started};
ghost use Rattle.ops_guests.specs.Does.{DoesRule, KeepsRest, SameNames};
ghost use Rattle.ops_guests.specs.Running.{IsRunning};
ghost use Rattle.machine_rules.specs.Cancels.{behind_switch, cancel_asks, cancel_goes_behind, cancel_promotes_yield, cancel_why, is_waiting};
ghost use Rattle.machine_data.specs.Moves.{is_callback_waiter, withdrawn};
ghost use Rattle.core_primitives.specs.Names.{why_in};
ghost use Rattle.machine_data.specs.Write.{set_saved_callee};
ghost use Rattle.machine_rules.specs.Places.{is_fresh, is_there};
ghost use Rattle.core_primitives.specs.Apart.{IsBehindNobody};
ghost use Rattle.core_primitives.specs.StateView.{Tags, call_of, on_core, thread_of, KeepsBut, lost_thread};

use crate::end_ops::{cancel_ended, cancelled, finish_cancel, refusal};
use crate::withdrawals::withdraw;
use core_primitives::{
    CallId, DeliveryId, JoinId, OpProgressId, Primitives, SubtaskId, ThreadId, WhyId,
};
use machine_data::{Delivery, Label, Place, TaskEvent, ThreadLabel, Trap, Version, Why};
use ops_guests::OpResult;
use ops_moves::{foot_of, promote_unless, put_behind, put_switch};

// The thread waits on a set by its callback.
fn is_callback_wait<W: Primitives>(w: &W, thread: ThreadId) -> bool
    ensures { result ≡ is_callback_waiter (thread_of (W.view w.now) thread) (W.view w.now).core }
{
    match w.place(thread) {
        Some(
            Place::Waiting {
                set: _,
                by_callback,
            },
        ) => by_callback,
        _ => false,
    }
}

// The thread's callback has yielded, and the entry is queued.
fn is_callback_yield<W: Primitives>(w: &W, thread: ThreadId) -> bool
    ensures { result ≡ is_at (thread_of (W.view w.now) thread) (W.view w.now).core is_callback_yield }
{
    match w.place(thread) {
        Some(Place::Ready { mark: _, why }) => matches!(
            why,
            Why::Delivery {
                delivery: Delivery::Yield
            }
        ),
        _ => false,
    }
}

// A cancel was asked, and the task finds Cancelled as its task event.
#[tactic(auto, unfolding(machine_rules::specs::Cancels::cancel_asks))]
fn ask<W: Primitives>(w: &mut W, call: CallId)
    ensures { W.view w.new ≡ on_core (cancel_asks (call_of (W.view w.old) call)) (W.view w.old) }
{
    w.set_task_event(call, Some(TaskEvent::Cancelled));
    w.set_cancel_asked(call);
}

// A thread goes behind the entry at switch, if one is there.
fn put_behind_switch<W: Primitives>(w: &mut W, thread: ThreadId)
    requires live { 0 < thread_of (W.view w.old) thread }
    requires apart { IsBehindNobody (thread_of (W.view w.old) thread) (W.view w.old).core }
    ensures { W.view w.new ≡ on_core (behind_switch (thread_of (W.view w.old) thread) (W.view w.old).core.queues.switch) (W.view w.old) }
{
    if let Some(entry) = w.switch() {
        let foot = foot_of(w, entry);
        put_behind(w, foot, thread);
    }
}

// The callee's flag is saved and cleared, the subtask joins the canceller's set, and the canceller goes
// behind the entry at switch.
#[tactic(auto, unfolding(machine_rules::specs::Cancels::cancel_goes_behind))]
fn go_behind<W: Primitives>(w: &mut W, thread: ThreadId, call: CallId)
    requires live { 0 < thread_of (W.view w.old) thread }
    requires running { IsRunning (thread_of (W.view w.old) thread) (W.view w.old).core }
    ensures { W.view w.new ≡ on_core (cancel_goes_behind (thread_of (W.view w.old) thread) (call_of (W.view w.old) call)) (W.view w.old) }
{
    let subtask = SubtaskId::Guest(call);
    let instance = w.callee(call).instance;
    let flag = w.may_not_suspend(instance);
    w.set_saved_callee(thread, Some(flag));
    w.set_do_not_suspend(instance, false);
    w.set_join(subtask, JoinId::Watched(thread));
    put_behind_switch(w, thread);
    w.set_op_progress(thread, OpProgressId::Cancels(subtask));
}

// Whether a cancel was asked of the call before, in version 2.
fn was_asked_before<W: Primitives>(w: &W, call: CallId) -> bool
    ensures { result ≡ is_second (W.view w.now).core.version && cancel_was_asked (call_of (W.view w.now) call) (W.view w.now).core }
{
    match w.version() {
        Version::One => false,
        Version::Two => w.cancel_was_asked(call),
    }
}

// Why a thread that waits is woken by a cancel: a callback is given it, and a `wait` is resumed.
fn cancel_why(by_callback: bool) -> WhyId
    ensures { (tags : Tags) → why_in tags result ≡ cancel_why by_callback }
{
    if by_callback {
        WhyId::Delivery(DeliveryId::Cancel)
    } else {
        WhyId::Resumption
    }
}

// The thread of the call, which waits, becomes the switch entry.
#[tactic(auto, unfolding(machine_rules::specs::Cancels::cancel_wakes))]
fn wake_waiting<W: Primitives>(w: &mut W, thread: ThreadId, call: CallId, waiting: ThreadId)
    requires live { 0 < thread_of (W.view w.old) thread }
    requires running { IsRunning (thread_of (W.view w.old) thread) (W.view w.old).core }
    requires named { 0 < call_of (W.view w.old) call }
    requires waiting { 0 < thread_of (W.view w.old) waiting }
    requires waits { is_at (thread_of (W.view w.old) waiting) (W.view w.old).core is_waiting ≡ true }
    ensures { W.view w.new ≡ wakes_cancelled thread call waiting (W.view w.old) }
{
    let why = cancel_why(is_callback_wait(w, waiting));
    ask(w, call);
    put_switch(w, waiting, why);
    go_behind(w, thread, call);
}

// The callback's yield moves to switch, unless an entry is there.
#[tactic(auto, unfolding(machine_rules::specs::Cancels::cancel_promotes_yield))]
fn promote_yield<W: Primitives>(w: &mut W, thread: ThreadId, call: CallId, first: ThreadId)
    requires live { 0 < thread_of (W.view w.old) thread }
    requires running { IsRunning (thread_of (W.view w.old) thread) (W.view w.old).core }
    requires named { 0 < call_of (W.view w.old) call }
    requires first { thread_of (W.view w.old) first ≡ call_of (W.view w.old) call }
    requires yields { is_at (call_of (W.view w.old) call) (W.view w.old).core is_callback_yield ≡ true }
    ensures { W.view w.new ≡ on_core (cancel_promotes_yield (thread_of (W.view w.old) thread) (call_of (W.view w.old) call)) (W.view w.old) }
{
    ask(w, call);
    promote_unless(w, first);
    go_behind(w, thread, call);
}

// The task is asked to end, wherever it is.
fn ask_running<W: Primitives>(w: &mut W, thread: ThreadId, sync: bool, call: CallId) -> OpResult
    requires live { 0 < thread_of (W.view w.old) thread }
    requires running { IsRunning (thread_of (W.view w.old) thread) (W.view w.old).core }
    ensures does { DoesRule SameNames (asks_to_end (mode_of sync) (call_of (W.view w.old) call)) thread (W.view w.old) result (W.view w.new) }
{
    let subtask = SubtaskId::Guest(call);
    if let Some(trap) = refusal(w, thread, sync, subtask) {
        return OpResult::Traps(trap);
    }
    ask(w, call);
    finish_cancel(w, thread, sync, subtask)
}

// A cancel of a call that runs.
fn cancel_started<W: Primitives>(w: &mut W, thread: ThreadId, sync: bool, call: CallId) -> OpResult
    requires live { 0 < thread_of (W.view w.old) thread }
    requires running { IsRunning (thread_of (W.view w.old) thread) (W.view w.old).core }
    requires named { 0 < call_of (W.view w.old) call }
    requires unended { has_ended (call_of (W.view w.old) call) (W.view w.old).core ≡ false }
    requires started { was_started (call_of (W.view w.old) call) (W.view w.old).core ≡ true }
    ensures does { DoesRule SameNames (cancels_guest (mode_of sync) (call_of (W.view w.old) call)) thread (W.view w.old) result (W.view w.new) }
{
    w.none_is_zero();
    let number = w.number(thread);
    if was_asked_before(w, call) {
        return OpResult::Traps(Trap::SubtaskCancelAfterTerminal);
    }
    if let Some(waiting) = w.first_cancellable(call) {
        wake_waiting(w, thread, call, waiting);
        return OpResult::Stops(Label::Thread(ThreadLabel::Pauses(number)));
    }
    let first = w.first_thread(call);
    if is_callback_yield(w, first) {
        promote_yield(w, thread, call, first);
        return OpResult::Stops(Label::Thread(ThreadLabel::Pauses(number)));
    }
    ask_running(w, thread, sync, call)
}

// The start of the call is withdrawn, and nothing is saved any more.
fn withdraw_start<W: Primitives>(w: &mut W, thread: ThreadId, call: CallId)
    requires live { 0 < thread_of (W.view w.old) thread }
    requires running { IsRunning (thread_of (W.view w.old) thread) (W.view w.old).core }
    requires named { 0 < call_of (W.view w.old) call }
    requires there { is_there (call_of (W.view w.old) call) (W.view w.old).core ≡ true }
    requires fresh { is_fresh (place_of (call_of (W.view w.old) call) (W.view w.old).core) ≡ true }
    ensures tags { KeepsBut (lost_thread (call_of (W.view w.old) call)) (W.view w.old).tags (W.view w.new).tags }
    ensures core { (W.view w.new).core ≡ set_saved_callee (thread_of (W.view w.old) thread) None (withdrawn (call_of (W.view w.old) call) (W.view w.old).core) }
    ensures thread { thread_of (W.view w.new) thread ≡ thread_of (W.view w.old) thread }
    ensures current { (W.view w.new).current ≡ (W.view w.old).current }
{
    let first = w.first_thread(call);
    withdraw(w, call, first);
    w.set_saved_callee(thread, None);
}

// A cancel of a guest call.
pub(crate) fn cancel_guest<W: Primitives>(
    w: &mut W,
    thread: ThreadId,
    sync: bool,
    call: CallId,
) -> OpResult
    requires live { 0 < thread_of (W.view w.old) thread }
    requires running { IsRunning (thread_of (W.view w.old) thread) (W.view w.old).core }
    requires named { 0 < call_of (W.view w.old) call }
    requires there { is_some (get (W.view w.old).core.calls (call_of (W.view w.old) call)) ≡ true }
    requires starts { StartsAwaited (W.view w.old).core }
    requires waiting { StartsThere (W.view w.old).core }
    ensures does { DoesRule KeepsRest (cancels_guest (mode_of sync) (call_of (W.view w.old) call)) thread (W.view w.old) result (W.view w.new) }
    ensures thread { thread_of (W.view w.new) thread ≡ thread_of (W.view w.old) thread }
{
    if w.end_of(call).is_some() {
        return cancel_ended(w, thread, sync, SubtaskId::Guest(call));
    }
    if w.was_started(call) {
        return cancel_started(w, thread, sync, call);
    }
    let number = w.number(thread);
    withdraw_start(w, thread, call);
    cancelled(sync, number, 3)
}
