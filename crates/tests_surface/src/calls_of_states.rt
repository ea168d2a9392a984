ghost use Rattle.std.specs.Prelude.{◌≡◌, ◌<◌, IsSome, ℕ};
ghost use Rattle.ops_state.specs.Named.{IsLive};
ghost use Rattle.machine_data.specs.Maps.{get};
ghost use Rattle.machine_data.specs.declared.records.Subtask.TheVariants as subtasks;
ghost use Rattle.ops_moves.specs.Idle.{IsJoinThere};
ghost use Rattle.machine_rules.specs.Places.{Placed};
ghost use Rattle.ops_turns.specs.Turn.{given};
ghost use Rattle.core_primitives.specs.StateView.{call_of};

use crate::drive::{called, component, store};
use core_primitives::{
    CallId, PlacePrimitives, QueuePrimitives, SubtaskId, SubtaskPrimitives, ThreadPrimitives, View,
};
use machine_data::{ExportKind, Mark, Place, Status};
use ops_calls::new_guest_task;
use ops_state::{
    ConcurrentInstanceState, CurrentThread, Item, QualifiedThreadId, get_event, instance, is_live,
    join, mark_ready, promote_instance_local_thread_work_item, promote_thread_work_item, set_event,
    set_thread, stop, take_event, take_item,
};
use std::alloc::Global;
use std::process::Abort;
use task_store::{ScriptedHost, Store};
use task_wait::{Event, Waitable};

// A store with one instance, in which a call of it is queued.
fn queued(rt: &impl Abort, alloc: Global) -> Store<(), ScriptedHost>
    ensures placed { Placed result.state.core }
    ensures joins { (k : ℕ) → IsJoinThere (subtasks.Guest k) result.state.core }
    ensures there { IsSome (get result.state.core.instances 0) }
    ensures given { given result.state.core ≡ 2 }
{
    let component = component(rt, alloc);
    let mut store = store(rt, alloc, &component);
    called(rt, &component, &mut store);
    store
}

// The first thread of that call.
fn first_thread(rt: &impl Abort, store: &Store<(), ScriptedHost>) -> QualifiedThreadId
    ensures live { IsLive store.now.state result }
    ensures task { 0 < call_of store.now.state result.task }
{
    let Some(thread) = store.state.first_entry(0) else {
        panic!(rt; "an entry")
    };
    QualifiedThreadId {
        task: store.state.task_of(thread),
        thread,
    }
}

type Queued = Store<(), ScriptedHost>;

// What is asked of that store. The calls are in functions that are lent it: what a function owns is proved anew at each of its
// calls.
#[derive(Clone, Copy)]
enum Ask {
    SetsAndTakes,
    IsReadyOnceSet,
    LeavesItsSet,
    IsGivenNone,
    TakesAStart,
    MovesToSwitch,
    FirstMovesToSwitch,
    Stops,
    HasOneInstance,
    BeginsAndRuns(bool),
}

fn sets_and_takes(store: &mut Queued, task: CallId) -> bool
    requires live { 0 < call_of store.old.state task }
    requires placed { Placed store.old.state.core }
    requires joins { (k : ℕ) → IsJoinThere (subtasks.Guest k) store.old.state.core }
{
    let started = Event::Subtask(Status::Started);
    let woken = set_event(&mut store.state, Waitable::Guest(task), started);
    let event = take_event(&mut store.state, Waitable::Guest(task));
    matches!(woken, Ok(None)) && matches!(event, Some(Event::Subtask(Status::Started)))
}

fn is_ready_once_set(store: &mut Queued, task: CallId) -> bool
    requires live { 0 < call_of store.old.state task }
    requires placed { Placed store.old.state.core }
    requires joins { (k : ℕ) → IsJoinThere (subtasks.Guest k) store.old.state.core }
{
    store
        .state
        .set_event(SubtaskId::Guest(task), Some(Status::Started));
    if store.state.event(SubtaskId::Guest(task)).is_none() {
        return false;
    }
    matches!(
        mark_ready(&mut store.state, Waitable::Guest(task)),
        Ok(None)
    )
}

fn leaves_its_set(store: &mut Queued, task: CallId) -> bool
    requires live { 0 < call_of store.old.state task }
    requires placed { Placed store.old.state.core }
{
    if store.state.blocked_on(SubtaskId::Guest(task)).is_some() {
        return false;
    }
    matches!(
        join(&mut store.state, Waitable::Guest(task), None),
        Ok(None)
    )
}

fn is_given_none(store: &mut Queued, task: CallId) -> bool
    requires { 0 < call_of store.old.state task }
{
    get_event(&mut store.state, task, None, true).is_none()
}

fn takes_a_start(store: &mut Queued) -> bool
    requires { Placed store.old.state.core }
{
    matches!(
        take_item(&mut store.state),
        Some((Mark::High, Item::StartImplicit(_)))
    )
}

fn moves_to_switch(store: &mut Queued, id: QualifiedThreadId) -> bool
    requires live { IsLive store.old.state id }
    requires placed { Placed store.old.state.core }
{
    promote_thread_work_item(&mut store.state, id)
}

fn first_moves_to_switch(store: &mut Queued) -> bool
    requires { IsSome (get store.old.state.core.instances 0) }
{
    promote_instance_local_thread_work_item(&mut store.state, 0)
}

fn stops(store: &mut Queued, id: QualifiedThreadId) -> bool
    requires live { IsLive store.old.state id }
    requires placed { Placed store.old.state.core }
{
    let None = store.state.switch() else {
        return false;
    };
    stop(&mut store.state, id).is_ok() && store.state.switch().is_none()
}

fn is_open(read: Option<ConcurrentInstanceState>) -> bool {
    match read {
        Some(read) => {
            let is_free = !read.do_not_enter() && !read.do_not_suspend();
            is_free && read.pending_is_empty() && read.backpressure() == 0
        }
        None => false,
    }
}

fn has_one_instance(store: &Queued) -> bool {
    is_open(instance(&store.state, 0)) && instance(&store.state, 1).is_none()
}

// A task is made while no thread runs, and then its thread runs, by the call of the store or by that of its state.
fn begins_and_runs(store: &mut Queued, of_store: bool) -> bool
    requires there { IsSome (get store.old.state.core.instances 0) }
    requires given { given store.old.state.core ≡ 2 }
{
    let Ok(id) = new_guest_task(&mut store.state, ExportKind::Callback, 0, None) else {
        return false;
    };
    let Some(Place::New) = store.state.place(id.thread) else {
        return false;
    };
    let None = store.state.current() else {
        return false;
    };
    let before = if of_store {
        task_loop::set_thread(store, CurrentThread::Guest(id))
    } else {
        set_thread(&mut store.state, CurrentThread::Guest(id))
    };
    matches!(before, Ok(CurrentThread::None)) && store.state.current().is_some()
}

fn answers(store: &mut Queued, id: QualifiedThreadId, ask: Ask) -> bool
    requires live { IsLive store.old.state id }
    requires task { 0 < call_of store.old.state id.task }
    requires placed { Placed store.old.state.core }
    requires joins { (k : ℕ) → IsJoinThere (subtasks.Guest k) store.old.state.core }
    requires there { IsSome (get store.old.state.core.instances 0) }
    requires given { given store.old.state.core ≡ 2 }
{
    match ask {
        Ask::SetsAndTakes => sets_and_takes(store, id.task),
        Ask::IsReadyOnceSet => is_ready_once_set(store, id.task),
        Ask::LeavesItsSet => leaves_its_set(store, id.task),
        Ask::IsGivenNone => is_given_none(store, id.task),
        Ask::TakesAStart => takes_a_start(store),
        Ask::MovesToSwitch => moves_to_switch(store, id),
        Ask::FirstMovesToSwitch => first_moves_to_switch(store),
        Ask::Stops => stops(store, id),
        Ask::HasOneInstance => has_one_instance(store),
        Ask::BeginsAndRuns(of_store) => begins_and_runs(store, of_store),
    }
}

fn holds(rt: &impl Abort, alloc: Global, ask: Ask) -> bool {
    let mut store = queued(rt, alloc);
    let id = first_thread(rt, &store);
    is_live(&store.state, id) && answers(&mut store, id, ask)
}

#[test]
fn a_waitable_tells_its_event(rt: HostRuntime) {
    assert!(rt; holds(&rt, rt.alloc(), Ask::SetsAndTakes));
    assert!(rt; holds(&rt, rt.alloc(), Ask::IsGivenNone));
    assert!(rt; holds(&rt, rt.alloc(), Ask::IsReadyOnceSet));
    assert!(rt; holds(&rt, rt.alloc(), Ask::LeavesItsSet));
}

#[test]
fn entries_are_taken_and_move_to_switch(rt: HostRuntime) {
    assert!(rt; holds(&rt, rt.alloc(), Ask::TakesAStart));
    assert!(rt; holds(&rt, rt.alloc(), Ask::MovesToSwitch));
    assert!(rt; holds(&rt, rt.alloc(), Ask::FirstMovesToSwitch));
}

#[test]
fn a_strand_stops_and_an_instance_is_read(rt: HostRuntime) {
    assert!(rt; holds(&rt, rt.alloc(), Ask::Stops));
    assert!(rt; holds(&rt, rt.alloc(), Ask::HasOneInstance));
}

#[test]
fn a_task_begins_and_runs(rt: HostRuntime) {
    assert!(rt; holds(&rt, rt.alloc(), Ask::BeginsAndRuns(false)));
    assert!(rt; holds(&rt, rt.alloc(), Ask::BeginsAndRuns(true)));
}

#[test]
fn a_task_begins_a_group(rt: HostRuntime) {
    let mut store = queued(&rt, rt.alloc());
    let Ok(id) = task_loop::new_guest_task(&mut store, ExportKind::Callback, 0, None) else {
        panic!(rt; "a task")
    };
    assert!(rt; is_live(&store.state, id) && store.state.groups() == 2);
}
