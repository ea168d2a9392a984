//! The event that a task is given.
ghost use Rattle.laws_order.specs.KeptOrder.{StaysInOrder};
ghost use Rattle.std.specs.Prelude.{◌≡◌, ◌<◌, IfNone, IfSome, None, false, true};
ghost use Rattle.ops_state.specs.Gives.{Gives, has_ready_in, is_ready_in, member_told, own_told, IsAsyncIfCancellable};
ghost use Rattle.machine_data.specs.Moves.{picked_task_event_of, taken_own};
ghost use Rattle.machine_data.specs.Write.{set_event};
ghost use Rattle.core_primitives.specs.Names.{subtask_in};
ghost use Rattle.core_primitives.specs.StateView.{call_of, on_core, set_of, set_if_any};
ghost use Rattle.laws_order.specs.WakesKept.{NoWakeLost};

use core_primitives::{CallId, Primitives, SetId, SubtaskId};
use machine_data::{Status, TaskEvent};
use task_wait::Event;

// The task event, Cancelled only where it may be told.
fn task_event<W: Primitives>(w: &W, task: CallId, cancellable: bool) -> Option<TaskEvent>
    ensures { result ≡ picked_task_event_of cancellable (call_of (W.view w.now) task) (W.view w.now).core }
{
    match w.task_event(task) {
        Some(TaskEvent::None) => Some(TaskEvent::None),
        Some(TaskEvent::Cancelled) if cancellable => Some(TaskEvent::Cancelled),
        _ => None,
    }
}

// The task event is taken.
fn take_own<W: Primitives>(w: &mut W, task: CallId, event: TaskEvent)
    ensures { W.view w.new ≡ on_core (taken_own event (call_of (W.view w.old) task)) (W.view w.old) }
{
    w.set_task_event(task, None);
    if let TaskEvent::Cancelled = event {
        w.set_cancel_delivered(task);
    }
}

// The task event as an event.
fn told(event: TaskEvent) -> Event
    ensures { result ≡ own_told event }
{
    match event {
        TaskEvent::None => Event::None,
        TaskEvent::Cancelled => Event::Cancelled,
    }
}

// The first ready member of the set, if one is given.
fn ready_member<W: Primitives>(w: &W, set: Option<SetId>) -> Option<SubtaskId>
    requires { IfSome set (λ id. 0 < set_of (W.view w.now) id) }
    ensures none { IfNone result (has_ready_in (set_if_any (W.view w.now) set) (W.view w.now).core ≡ false) }
    ensures some { IfSome result (λ member. is_ready_in (set_if_any (W.view w.now) set) (subtask_in (W.view w.now).tags member) (W.view w.now).core ≡ true) }
{
    match set {
        Some(set) => w.first_ready(set),
        None => None,
    }
}

// The event of a ready member and its handle; the event is gone then.
fn take_member<W: Primitives>(w: &mut W, member: SubtaskId) -> (Event, u32)
    ensures told { result ≡ member_told (subtask_in (W.view w.old).tags member) (W.view w.old).core }
    ensures gone { W.view w.new ≡ on_core (set_event (subtask_in (W.view w.old).tags member) None) (W.view w.old) }
{
    let status = w.event(member).unwrap_or(Status::Starting);
    let handle = w.subtask_handle(member).unwrap_or(0);
    w.set_event(member, None);
    (Event::Subtask(status), handle)
}

/// Gives a task its task event, and else that of the first ready member of the set, with the member's handle. Its task event is
/// that it was cancelled only where it may be told so, and comes with 0. The event is gone then. None exactly where neither is
/// there. The set is one that a guest made. It is the machine's Give, and no wake is lost by it. Order is kept where a task of
/// another export than an async-lifted one isn't told that it was cancelled.
pub fn get_event<W: Primitives>(
    w: &mut W,
    task: CallId,
    set: Option<SetId>,
    cancellable: bool,
) -> Option<(Event, u32)>
    requires task { 0 < call_of (W.view w.old) task }
    requires set { IfSome set (λ id. 0 < set_of (W.view w.old) id) }
    ensures given { Gives cancellable (call_of (W.view w.old) task) (set_if_any (W.view w.old) set) (W.view w.old) result (W.view w.new) }
    ensures wakes { NoWakeLost (W.view w.old).core → NoWakeLost (W.view w.new).core }
    ensures order { IsAsyncIfCancellable cancellable (call_of (W.view w.old) task) (W.view w.old).core → StaysInOrder (W.view w.old).core (W.view w.new).core }
{
    if let Some(event) = task_event(w, task, cancellable) {
        take_own(w, task, event);
        return Some((told(event), 0));
    }
    match ready_member(w, set) {
        Some(member) => Some(take_member(w, member)),
        None => None,
    }
}
