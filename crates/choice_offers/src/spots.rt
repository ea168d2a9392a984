//! Where a step chooses.
ghost use Rattle.core_primitives.specs.Names.{subtask_in};
ghost use Rattle.core_primitives.specs.StateView.{call_of, set_of, thread_of};
ghost use Rattle.laws_choices.specs.Offers.{cancel_offer_by, gives, gives_woken, nothing, takes_of, tells, wakes, wakes_in};
ghost use Rattle.machine_data.specs.Moves.{picked_task_event_of};
ghost use Rattle.machine_data.specs.Read.{instance_of, join_of};
ghost use Rattle.machine_data.specs.declared.records.Subtask.TheVariants as subtasks;
ghost use Rattle.machine_rules.specs.Cancels.{ThreadWaits};
ghost use Rattle.ops_guests.specs.PickedEvents.{MembersNamed};
ghost use Rattle.ops_moves.specs.Idle.{IsJoinThere};
ghost use Rattle.std.specs.Prelude.{◌≡◌, ◌<◌, is_some, ℕ};
ghost use Rattle.choice_offers.specs.Spots.{Offers};

use core_primitives::{
    CallId, CallPrimitives, JoinId, SetId, SetPrimitives, SubtaskId, SubtaskPrimitives, ThreadId,
    ThreadPrimitives, View,
};
use core_state::TaskCore;
use machine_data::TaskEvent;
use ops_moves::is_told;

/// How an instance lets held threads in.
#[derive(Clone, Copy)]
pub enum Opening {
    /// Its flag is cleared.
    Flag,
    /// Its backpressure is gone.
    Counter,
}

/// Among which threads a step chooses the one that it wakes.
#[derive(Clone, Copy)]
pub enum Woken {
    /// The waiters of a set.
    Set(SetId),
    /// The threads of a call that wait so that a cancel may take them.
    Call(CallId),
}

/// Where a step chooses.
#[derive(Clone, Copy)]
pub struct Spot {
    /// One of these threads is woken.
    pub wakes: Option<Woken>,
    /// The event of a ready member of this set is taken.
    pub takes: Option<SetId>,
    /// The held threads of this instance are released.
    pub opens: Option<(u32, Opening)>,
}

/// Returns the spot of a step that chooses nothing.
pub fn no_spot(core: &TaskCore) -> Spot
    ensures { (n : ℕ) → Offers core.now n result nothing }
{
    // only the contract speaks of `core`
    let _core = core;
    Spot {
        wakes: None,
        takes: None,
        opens: None,
    }
}

/// Returns the spot of a wake of a set's waiter.
pub fn wakes(core: &TaskCore, set: SetId) -> Spot
    requires { 0 < set_of core.now set }
    ensures { (n : ℕ) → Offers core.now n result (wakes (set_of core.now set) core.now.core) }
{
    // only the contract speaks of `core`
    let _core = core;
    Spot {
        wakes: Some(Woken::Set(set)),
        takes: None,
        opens: None,
    }
}

/// Returns the spot of a cancel of a call: one of its threads that wait is taken.
pub fn cancels(core: &TaskCore, call: CallId) -> Spot
    requires { 0 < call_of core.now call }
    ensures { (n : ℕ) → Offers core.now n result (cancel_offer_by (call_of core.now call) core.now.core ThreadWaits) }
{
    // only the contract speaks of `core`
    let _core = core;
    Spot {
        wakes: Some(Woken::Call(call)),
        takes: None,
        opens: None,
    }
}

/// Returns the spot of a thread that takes the event of a ready member of a set.
pub fn takes(core: &TaskCore, thread: ThreadId, set: SetId) -> Spot
    requires live { 0 < set_of core.now set }
    requires named { MembersNamed (instance_of (thread_of core.now thread) core.now.core) (set_of core.now set) core.now.core }
    ensures { Offers core.now (thread_of core.now thread) result
        (takes_of (thread_of core.now thread) (set_of core.now set) core.now.core) }
{
    // only the contract speaks of `core` and `thread`
    let _core = core;
    let _thread = thread;
    Spot {
        wakes: None,
        takes: Some(set),
        opens: None,
    }
}

/// Returns the spot of a status that is published of a subtask: a waiter of the guest-made set that it is joined to is woken.
pub fn wakes_in(core: &TaskCore, subtask: SubtaskId) -> Spot
    requires { IsJoinThere (subtask_in core.now.tags subtask) core.now.core }
    ensures { (n : ℕ) → Offers core.now n result (wakes_in (join_of (subtask_in core.now.tags subtask) core.now.core) core.now.core) }
{
    core.none_is_zero();
    match core.join(subtask) {
        JoinId::Set(set) => wakes(core, set),
        _ => no_spot(core),
    }
}

/// Returns the spot of a status that is told of a call.
pub fn tells(core: &TaskCore, call: CallId) -> Spot
    requires { IsJoinThere (subtasks.Guest (call_of core.now call)) core.now.core }
    ensures { (n : ℕ) → Offers core.now n result (tells (call_of core.now call) core.now.core) }
{
    if is_told(core, call) {
        wakes_in(core, SubtaskId::Guest(call))
    } else {
        no_spot(core)
    }
}

/// Returns whether the task event is given, Cancelled only by callback.
pub fn picks_task_event(core: &TaskCore, by_callback: bool, call: CallId) -> bool
    ensures { result ≡ is_some (picked_task_event_of by_callback (call_of core.now call) core.now.core) }
{
    match core.task_event(call) {
        Some(TaskEvent::None) => true,
        Some(TaskEvent::Cancelled) => by_callback,
        None => false,
    }
}

/// Returns the spot of a thread that is given of the set what is there for it.
pub fn gives(core: &TaskCore, by_callback: bool, thread: ThreadId, set: SetId) -> Spot
    requires live { 0 < set_of core.now set }
    requires named { MembersNamed (instance_of (thread_of core.now thread) core.now.core) (set_of core.now set) core.now.core }
    ensures { Offers core.now (thread_of core.now thread) result
        (gives by_callback (thread_of core.now thread) (set_of core.now set) core.now.core) }
{
    if picks_task_event(core, by_callback, core.task_of(thread)) {
        no_spot(core)
    } else {
        takes(core, thread, set)
    }
}

/// Returns the spot of a woken thread that is given of the set what is there for it: its wake is handed on if that is the task event
/// while a member is ready.
pub fn gives_woken(core: &TaskCore, by_callback: bool, thread: ThreadId, set: SetId) -> Spot
    requires live { 0 < set_of core.now set }
    requires named { MembersNamed (instance_of (thread_of core.now thread) core.now.core) (set_of core.now set) core.now.core }
    ensures { Offers core.now (thread_of core.now thread) result
        (gives_woken by_callback (thread_of core.now thread) (set_of core.now set) core.now.core) }
{
    if !picks_task_event(core, by_callback, core.task_of(thread)) {
        return takes(core, thread, set);
    }
    if core.has_ready_member(set) {
        wakes(core, set)
    } else {
        no_spot(core)
    }
}
