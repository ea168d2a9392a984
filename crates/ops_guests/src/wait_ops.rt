//! Waiting on a set.
ghost use Rattle.ops_moves.specs.Wakes.{MayHandOn, handed_to};
ghost use Rattle.std.specs.Prelude.{◌≡◌, ◌<◌, IfSome};
ghost use Rattle.machine_data.specs.Labels.{given_task_event, wait_label};
ghost use Rattle.machine_data.specs.Moves.{handed_on, may_hand_on, waits_cancellable};
ghost use Rattle.machine_data.specs.Read.{instance_of};
ghost use Rattle.machine_data.specs.declared.records.OpProgress.TheVariants as op_progresses;
ghost use Rattle.ops_guests.specs.Does.{DoesRule, SameNames};
ghost use Rattle.ops_guests.specs.PickedEvents.{AllMembersNamed, MembersNamed, picked_event_in};
ghost use Rattle.ops_guests.specs.Rules.{waits_from};
ghost use Rattle.ops_guests.specs.Running.{IsRunning, SetsThere};
ghost use Rattle.ops_guests.specs.Shown.{goes_as};
ghost use Rattle.machine_rules.specs.Sets.{finds_nothing, wait_stops};
ghost use Rattle.core_primitives.specs.Changes.{IsFirstToWake};
ghost use Rattle.core_primitives.specs.Apart.{AreWaitersUnqueued};
ghost use Rattle.core_primitives.specs.StateView.{call_of, on_core, set_of, thread_of};

use crate::names::set_named;
use crate::op_result::{OpAnswer, OpResult};
use crate::picked_events::{PickedEvent, given, picked_event_for, picked_task_event, take};
use core_primitives::{CallId, OpProgressId, PlaceId, Primitives, SetId, ThreadId};
use machine_data::{ExportKind, Given, Label, SetLabel, TaskEvent, ThreadLabel, Trap, Version};
use ops_moves::{check, foot_of, hand_wake_on, passes_check, stop};

// A thread that takes the task event while a member is ready wakes another waiter.
#[tactic(auto, unfolding(machine_data::specs::Moves::may_hand_on, machine_data::specs::Moves::handed_on))]
#[inline(always)]
pub(crate) fn hand_on<W: Primitives>(
    w: &mut W,
    set: SetId,
    picked_event: PickedEvent,
) -> Option<ThreadId>
    requires live { 0 < set_of (W.view w.old) set }
    requires unqueued { AreWaitersUnqueued (set_of (W.view w.old) set) (W.view w.old).core }
    ensures choice { MayHandOn set (picked_event_in (W.view w.old).tags picked_event) result (W.view w.old) }
    ensures first { IfSome result (λ id. IsFirstToWake id (W.view w.old)) }
    ensures new { W.view w.new ≡ handed_to set (picked_event_in (W.view w.old).tags picked_event) result (W.view w.old) }
{
    match picked_event {
        PickedEvent::Own(_) => hand_wake_on(w, set),
        _ => None,
    }
}

// Whether a `wait` of the task may take Cancelled: in version 2 that of an async-lifted one.
#[inline(always)]
fn waits_cancellable<W: Primitives>(w: &W, call: CallId) -> bool
    ensures { result ≡ waits_cancellable (call_of (W.view w.now) call) (W.view w.now).core }
{
    match w.version() {
        Version::One => false,
        Version::Two => matches!(w.kind(call), ExportKind::Stackful | ExportKind::Callback),
    }
}

// Neither the task event, as far as the thread may take it, nor a ready member is there.
#[tactic(auto, unfolding(machine_rules::specs::Sets::finds_nothing))]
fn finds_nothing<W: Primitives>(w: &W, thread: ThreadId, set: SetId) -> bool
    requires { 0 < set_of (W.view w.now) set }
    ensures { result ≡ finds_nothing (thread_of (W.view w.now) thread) (set_of (W.view w.now) set) (W.view w.now).core }
{
    let call = w.task_of(thread);
    let cancellable = waits_cancellable(w, call);
    picked_task_event(w, cancellable, call).is_none() && !w.has_ready_member(set)
}

// The strand stops, and its top waits on the set.
#[tactic(auto, unfolding(machine_rules::specs::Sets::wait_stops))]
fn stop_waiting<W: Primitives>(w: &mut W, thread: ThreadId, set: SetId)
    requires live { 0 < thread_of (W.view w.old) thread }
    requires running { IsRunning (thread_of (W.view w.old) thread) (W.view w.old).core }
    ensures { W.view w.new ≡ on_core (wait_stops (thread_of (W.view w.old) thread) (set_of (W.view w.old) set)) (W.view w.old) }
{
    let foot = foot_of(w, thread);
    stop(w, foot);
    let by_callback = false;
    w.arrive(thread);
    w.stand_at(
        thread,
        PlaceId::Waiting { set, by_callback },
        OpProgressId::Waits(set),
    );
}

/// Does `wait R X`, as it begins.
#[tactic(auto, using(crate::proofs::PickedEventLemmas::given_shows), unfolding(machine_rules::specs::Sets::wait_stops_checked))]
pub fn begin_wait<W: Primitives>(w: &mut W, thread: ThreadId, handle: u64) -> OpResult
    requires live { 0 < thread_of (W.view w.old) thread }
    requires running { IsRunning (thread_of (W.view w.old) thread) (W.view w.old).core }
    requires sets { SetsThere (W.view w.old).core }
    requires members { AllMembersNamed (instance_of (thread_of (W.view w.old) thread) (W.view w.old).core) (W.view w.old).core }
    ensures does { DoesRule SameNames (waits_from op_progresses.Fresh handle) thread (W.view w.old) result (W.view w.new) }
{
    let number = w.number(thread);
    let instance = w.instance_of(thread);
    let Some(set) = set_named(w, instance, handle) else {
        return OpResult::Traps(Trap::BadHandle);
    };
    if finds_nothing(w, thread, set) {
        if !passes_check(w, instance) {
            return OpResult::Traps(Trap::CannotBlockSyncTask);
        }
        check(w, instance);
        stop_waiting(w, thread, set);
        return OpResult::Stops(Label::Thread(ThreadLabel::Pauses(number)));
    }
    let call = w.task_of(thread);
    let cancellable = waits_cancellable(w, call);
    let picked_event = picked_event_for(w, cancellable, call, set, instance);
    let given = given(w, picked_event);
    take(w, picked_event, call);
    OpResult::Continues(
        Label::Set(SetLabel::Wait(given, number)),
        number,
        OpAnswer::Event(given),
    )
}

// The task event that was given.
pub(crate) fn given_task_event(given: Given) -> TaskEvent
    ensures { result ≡ given_task_event given }
{
    match given {
        Given::Cancelled => TaskEvent::Cancelled,
        _ => TaskEvent::None,
    }
}

// A wait that is done: it was given this, and only one that was given the task event has woken another waiter.
fn waited(thread: u64, given: Given, woken: Option<u64>) -> OpResult
    ensures { result ≡ goes_as (wait_label thread given woken) thread }
{
    match woken {
        None => OpResult::Continues(
            Label::Set(SetLabel::Wait(given, thread)),
            thread,
            OpAnswer::Event(given),
        ),
        Some(woken) => match given {
            Given::Cancelled => OpResult::Continues(
                Label::Set(SetLabel::WaitWakes(TaskEvent::Cancelled, thread, woken)),
                thread,
                OpAnswer::Event(Given::Cancelled),
            ),
            Given::Nothing => OpResult::Continues(
                Label::Set(SetLabel::WaitWakes(TaskEvent::None, thread, woken)),
                thread,
                OpAnswer::Event(Given::Nothing),
            ),
            Given::Subtask {
                status: _,
                handle: _,
            } => OpResult::Continues(
                Label::Set(SetLabel::WaitWakes(TaskEvent::None, thread, woken)),
                thread,
                OpAnswer::Event(Given::Nothing),
            ),
        },
    }
}

/// Does `wait R X`, resumed inside it, whatever its handle names by then.
pub fn go_on_waiting<W: Primitives>(w: &mut W, thread: ThreadId, set: SetId) -> OpResult
    requires live { 0 < thread_of (W.view w.old) thread }
    requires set { 0 < set_of (W.view w.old) set }
    requires running { IsRunning (thread_of (W.view w.old) thread) (W.view w.old).core }
    requires members { MembersNamed (instance_of (thread_of (W.view w.old) thread) (W.view w.old).core) (set_of (W.view w.old) set) (W.view w.old).core }
    ensures does { DoesRule SameNames (waits_from (op_progresses.Waits (set_of (W.view w.old) set)) 0) thread (W.view w.old) result (W.view w.new) }
{
    let number = w.number(thread);
    let instance = w.instance_of(thread);
    let call = w.task_of(thread);
    let cancellable = waits_cancellable(w, call);
    let picked_event = picked_event_for(w, cancellable, call, set, instance);
    if matches!(picked_event, PickedEvent::Nothing) {
        stop_waiting(w, thread, set);
        return OpResult::Stops(Label::Thread(ThreadLabel::Pauses(number)));
    }
    let given = given(w, picked_event);
    let waiter = hand_on(w, set, picked_event);
    take(w, picked_event, call);
    match waiter {
        None => waited(number, given, None),
        Some(woken) => waited(number, given, Some(w.number(woken))),
    }
}
