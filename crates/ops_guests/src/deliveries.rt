//! The taking of deliveries and of resumptions.
ghost use Rattle.ops_guests.specs.Rules.{delivers_own, delivers_set, delivery_held};
ghost use Rattle.ops_guests.specs.Does.{PicksRule};
ghost use Rattle.std.specs.Prelude.{◌≡◌, ◌<◌, None};
ghost use Rattle.machine_data.specs.Labels.{event_label, held_label, take_label};
ghost use Rattle.machine_data.specs.Moves.{picked_task_event_only, why_of};
ghost use Rattle.machine_data.specs.Read.{instance_of, task_of};
ghost use Rattle.ops_guests.specs.PickedEvents.{MembersNamed, picked_event_in};
ghost use Rattle.ops_guests.specs.Running.{IsTaken};
ghost use Rattle.ops_guests.specs.Shown.{goes_as};
ghost use Rattle.machine_rules.specs.Takes.{activated, running, wait_again};
ghost use Rattle.core_primitives.specs.Apart.{AreWaitersUnqueued};
ghost use Rattle.core_primitives.specs.StateView.{call_of, on_core, set_of, thread_of};

use crate::op_result::{OpAnswer, OpResult};
use crate::picked_events::{PickedEvent, given, picked_event_for, picked_task_event_only, take};
use crate::wait_ops::{given_task_event, hand_on};
use core_primitives::{CallId, PlaceId, Primitives, SetId, ThreadId};
use machine_data::{Given, Label, Mark, TakeLabel};
use ops_moves::{foot_of, stop};

// What the picked event hands out is in r0, r1 and r2, and the react script runs.
#[tactic(auto, unfolding(machine_rules::specs::Takes::activated, core_primitives::specs::Context::activating))]
#[inline(always)]
fn activate<W: Primitives>(
    w: &mut W,
    thread: ThreadId,
    call: CallId,
    picked_event: PickedEvent,
    given: Given,
)
    requires { call_of (W.view w.old) call ≡ task_of (thread_of (W.view w.old) thread) (W.view w.old).core }
    ensures { W.view w.new ≡ on_core (activated (thread_of (W.view w.old) thread) (picked_event_in (W.view w.old).tags picked_event) given) (W.view w.old) }
{
    let instance = w.instance_of(thread);
    take(w, picked_event, call);
    w.activate(thread, instance, given);
}

// The thread is activated with what it is given, and this one was woken.
fn activated(mark: Mark, thread: u64, given: Given, woken: Option<u64>) -> OpResult
    ensures { result ≡ goes_as (event_label mark thread given woken) thread }
{
    match woken {
        None => OpResult::Continues(
            Label::Take(TakeLabel::Event(mark, given, thread)),
            thread,
            OpAnswer::NoneDue,
        ),
        Some(woken) => OpResult::Continues(
            Label::Take(TakeLabel::EventWakes(mark, given_task_event(given), thread, woken)),
            thread,
            OpAnswer::NoneDue,
        ),
    }
}

/// Makes a delivery of a yield or of a cancel, which is admitted.
#[inline(always)]
pub fn deliver_own<W: Primitives>(w: &mut W, mark: Mark, thread: ThreadId) -> OpResult
    ensures picks { PicksRule (delivers_own mark) thread (W.view w.old) result (W.view w.new) }
    ensures tags { (W.view w.new).tags ≡ (W.view w.old).tags }
    ensures current { (W.view w.new).current ≡ (W.view w.old).current }
{
    let number = w.number(thread);
    let call = w.task_of(thread);
    let picked_event = picked_task_event_only(w, call);
    let given = given(w, picked_event);
    activate(w, thread, call, picked_event, given);
    activated(mark, number, given, None)
}

/// Resumes a thread, or starts an explicit one: the thread goes on.
#[tactic(auto, unfolding(machine_rules::specs::Takes::running))]
pub fn resume<W: Primitives>(w: &mut W, mark: Mark, thread: ThreadId) -> OpResult
    ensures label { result ≡ goes_as (take_label mark (thread_of (W.view w.old) thread) None) (thread_of (W.view w.old) thread) }
    ensures new { W.view w.new ≡ on_core (running (thread_of (W.view w.old) thread)) (W.view w.old) }
{
    let number = w.number(thread);
    w.set_place(thread, PlaceId::Running);
    OpResult::Continues(
        Label::Take(TakeLabel::Thread(mark, number)),
        number,
        OpAnswer::NoneDue,
    )
}

/// Holds a delivery that is not admitted: the thread is held with its entry, and its strand stops.
pub fn hold_delivery<W: Primitives>(w: &mut W, mark: Mark, thread: ThreadId) -> OpResult
    requires live { 0 < thread_of (W.view w.old) thread }
    requires taken { IsTaken (thread_of (W.view w.old) thread) (why_of (thread_of (W.view w.old) thread) (W.view w.old).core) (W.view w.old).core }
    ensures label { result ≡ OpResult.Stops (held_label mark (thread_of (W.view w.old) thread) None) }
    ensures new { W.view w.new ≡ delivery_held thread (W.view w.old) }
{
    let number = w.number(thread);
    let foot = foot_of(w, thread);
    stop(w, foot);
    w.arrive(thread);
    w.hold(thread);
    OpResult::Stops(Label::Take(TakeLabel::Held(mark, number)))
}

// The callback waits again.
#[tactic(auto, unfolding(machine_rules::specs::Takes::wait_again))]
fn wait_again<W: Primitives>(w: &mut W, thread: ThreadId, set: SetId)
    requires live { 0 < thread_of (W.view w.old) thread }
    requires taken { IsTaken (thread_of (W.view w.old) thread) (why_of (thread_of (W.view w.old) thread) (W.view w.old).core) (W.view w.old).core }
    ensures { W.view w.new ≡ on_core (wait_again (thread_of (W.view w.old) thread) (set_of (W.view w.old) set)) (W.view w.old) }
{
    let foot = foot_of(w, thread);
    stop(w, foot);
    let by_callback = true;
    w.arrive(thread);
    w.set_place(thread, PlaceId::Waiting { set, by_callback });
}

/// Makes a delivery for the set, which is admitted.
#[tactic(auto, using(crate::proofs::PickedEventLemmas::given_shows), unfolding(machine_rules::specs::Takes::activated_woken))]
pub fn deliver_set<W: Primitives>(w: &mut W, mark: Mark, thread: ThreadId, set: SetId) -> OpResult
    requires live { 0 < thread_of (W.view w.old) thread }
    requires set { 0 < set_of (W.view w.old) set }
    requires taken { IsTaken (thread_of (W.view w.old) thread) (why_of (thread_of (W.view w.old) thread) (W.view w.old).core) (W.view w.old).core }
    requires unqueued { AreWaitersUnqueued (set_of (W.view w.old) set) (W.view w.old).core }
    requires members { MembersNamed (instance_of (thread_of (W.view w.old) thread) (W.view w.old).core) (set_of (W.view w.old) set) (W.view w.old).core }
    ensures picks { PicksRule (delivers_set mark (set_of (W.view w.old) set)) thread (W.view w.old) result (W.view w.new) }
    ensures tags { (W.view w.new).tags ≡ (W.view w.old).tags }
    ensures current { (W.view w.new).current ≡ (W.view w.old).current }
{
    let number = w.number(thread);
    let instance = w.instance_of(thread);
    let call = w.task_of(thread);
    let picked_event = picked_event_for(w, true, call, set, instance);
    if matches!(picked_event, PickedEvent::Nothing) {
        wait_again(w, thread, set);
        return OpResult::Stops(Label::Take(TakeLabel::Again(mark, number)));
    }
    let given = given(w, picked_event);
    let waiter = hand_on(w, set, picked_event);
    activate(w, thread, call, picked_event, given);
    match waiter {
        None => activated(mark, number, given, None),
        Some(woken) => activated(mark, number, given, Some(w.number(woken))),
    }
}
