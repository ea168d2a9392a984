//! What a task is given: its task event, that of a ready member of a set, or nothing.
ghost use Rattle.std.specs.Prelude.{◌≡◌, ◌<◌, None, unwrap_or};
ghost use Rattle.machine_data.specs.Labels.{handle_given};
ghost use Rattle.machine_data.specs.Moves.{picked_event, given_for, picked_task_event_of, picked_task_event_only, taken};
ghost use Rattle.ops_guests.specs.PickedEvents.{IsFirstPicked, IsNamedIn, MembersNamed, picked_event_in, handle_in, IsPickedFor};
ghost use Rattle.core_primitives.specs.StateView.{call_of, on_core, set_of};

use core_primitives::{CallId, Primitives, SetId, SubtaskId};
use machine_data::{Given, Status, TaskEvent};

/// What a task is given: its task event, that of a member with its handle, or nothing.
#[derive(Clone, Copy)]
pub enum PickedEvent {
    Own(TaskEvent),
    Member(SubtaskId, u32),
    Nothing,
}

// The task event, Cancelled only for what may take it.
pub(crate) fn picked_task_event<W: Primitives>(
    w: &W,
    cancellable: bool,
    call: CallId,
) -> Option<TaskEvent>
    ensures { result ≡ picked_task_event_of cancellable (call_of (W.view w.now) call) (W.view w.now).core }
{
    match w.task_event(call) {
        Some(TaskEvent::None) => Some(TaskEvent::None),
        Some(TaskEvent::Cancelled) if cancellable => Some(TaskEvent::Cancelled),
        _ => None,
    }
}

/// Returns the task event, else that of the first ready member of the set, which the handle names in the instance, else nothing.
#[tactic(auto, unfolding(machine_data::specs::Moves::picked_event))]
#[inline(always)]
pub(crate) fn picked_event_for<W: Primitives>(
    w: &W,
    cancellable: bool,
    call: CallId,
    set: SetId,
    instance: u32,
) -> PickedEvent
    requires live { 0 < set_of (W.view w.now) set }
    requires named { MembersNamed instance (set_of (W.view w.now) set) (W.view w.now).core }
    ensures is { IsPickedFor cancellable call set result (W.view w.now) }
    ensures named { IsNamedIn instance (W.view w.now).tags result (W.view w.now).core }
    ensures first { IsFirstPicked instance (W.view w.now) result }
{
    // only the contract speaks of `instance`
    let _instance = instance;
    if let Some(event) = picked_task_event(w, cancellable, call) {
        return PickedEvent::Own(event);
    }
    match w.first_ready(set) {
        Some(member) => PickedEvent::Member(member, w.subtask_handle(member).unwrap_or(0)),
        None => PickedEvent::Nothing,
    }
}

/// Returns the task event alone, by callback.
#[tactic(auto, unfolding(machine_data::specs::Moves::picked_task_event_only))]
pub(crate) fn picked_task_event_only<W: Primitives>(w: &W, call: CallId) -> PickedEvent
    ensures is { picked_event_in (W.view w.now).tags result ≡ picked_task_event_only (call_of (W.view w.now) call) (W.view w.now).core }
    ensures handle { handle_in result ≡ None }
{
    match picked_task_event(w, true, call) {
        Some(event) => PickedEvent::Own(event),
        None => PickedEvent::Nothing,
    }
}

/// Returns what is handed out for the picked event.
#[tactic(auto, unfolding(machine_data::specs::Moves::given_for))]
pub(crate) fn given<W: Primitives>(w: &W, picked_event: PickedEvent) -> Given
    ensures is { result ≡ given_for (picked_event_in (W.view w.now).tags picked_event) (unwrap_or (handle_in picked_event) 0) (W.view w.now).core }
    ensures handle { handle_given result ≡ handle_in picked_event }
{
    match picked_event {
        PickedEvent::Own(TaskEvent::None) => Given::Nothing,
        PickedEvent::Own(TaskEvent::Cancelled) => Given::Cancelled,
        PickedEvent::Member(member, handle) => {
            let status = w.event(member).unwrap_or(Status::Starting);
            Given::Subtask { status, handle }
        }
        PickedEvent::Nothing => Given::Nothing,
    }
}

/// Takes the event that was picked.
#[tactic(auto, unfolding(machine_data::specs::Moves::taken))]
pub(crate) fn take<W: Primitives>(w: &mut W, picked_event: PickedEvent, call: CallId)
    ensures { W.view w.new ≡ on_core (taken (picked_event_in (W.view w.old).tags picked_event) (call_of (W.view w.old) call)) (W.view w.old) }
{
    match picked_event {
        PickedEvent::Own(TaskEvent::None) => w.set_task_event(call, None),
        PickedEvent::Own(TaskEvent::Cancelled) => {
            w.set_task_event(call, None);
            w.set_cancel_delivered(call);
        }
        PickedEvent::Member(member, _) => w.set_event(member, None),
        PickedEvent::Nothing => {}
    }
}
