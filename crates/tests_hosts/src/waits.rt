//! A waiter is woken from outside, between two drives.
ghost use Rattle.machine_data.specs.declared.scenario.Version.TheVariants as versions;
ghost use Rattle.std.specs.Prelude.{◌≡◌, ◌≤◌, ◌<◌, None, false, length, true, ℕ};
ghost use Rattle.store_works.specs.KeptWorks.{HoldsNone};
ghost use Rattle.core_makes.specs.Instances.{with_instance};
ghost use Rattle.task_loop.specs.Says.{unscripted};
ghost use Rattle.machine_data.specs.Core.{fresh};
ghost use Rattle.machine_data.specs.Maps.{size};
ghost use Rattle.machine_data.specs.Read.{end_of};
ghost use Rattle.machine_data.specs.declared.component.Component.{Component as Exports};
ghost use Rattle.machine_data.specs.declared.records.Subtask.TheVariants as subtasks;
ghost use Rattle.machine_data.specs.declared.records.Turn.{Turn};
ghost use Rattle.machine_data.specs.declared.records.Turn.TheVariants as turns;
ghost use Rattle.ops_moves.specs.Idle.{IsJoinThere};
ghost use Rattle.core_records.specs.Seen.{nothing};
ghost use Rattle.machine_rules.specs.Places.{Placed};
ghost use Rattle.task_run.specs.Runnable.{IsRunnable};
ghost use Rattle.core_primitives.specs.Groups.{IsAsked};
ghost use Rattle.task_store.specs.Hosts.{HoldsHosts};
ghost use Rattle.ops_turns.specs.StepResult.{turn_of};
ghost use Rattle.ops_turns.specs.Turn.{CoreInOrder, given, is_open, running_of};
ghost use Rattle.core_primitives.specs.StateView.{call_of, on_core, with_core};

use core_primitives::{CallId, CallPrimitives, InstancePrimitives, SubtaskId, View};
use machine_data::Status;
use ops_state::{QualifiedThreadId, set_event};
use std::alloc::Global;
use std::process::Abort;
use task_group::TaskGroupHook;
use task_loop::{
    Component, MainStep, MainTask, Outcome, RunConcurrent, TaskError, Trace, run_concurrent,
};
use task_run::{Scenario, ScriptMain, read_scenario};
use task_store::{Access, HostWork, ScriptedHost, Store, Whole};
use task_wait::{Event, Waitable};

// A thread waits on a set whose one member, a call that has begun, never tells anything.
const WAITS: &[u8] =
    b"scenario 1\nhandles 100000\ntable 1000000\nidle wait\ninstance a\nexport g stackful 0\nsuspend\ninstance b\nexport f stackful 0\ncall r0 r1 a.g\nhandle r2 r0\nset_new r3\njoin r2 r3\nwait r4 r3\nret r6\nmain\nstart b.f\nfinish 1 r0\nanswer r0\nend\n";

// A main that waits.
#[derive(Drop)]
struct Waiting;

impl<T, H: HostWork, G: TaskGroupHook> MainTask<T, H, G> for Waiting {
    ghost says = { unscripted (λ m c. Unit {0}) (λ m s. Unit {0}) (λ m s step n t. n ≡ m) };

    ghost stays = { λ main before after last known. tt };

    fn step(
        &mut self,
        _access: &mut Access<'_, T, Whole, H, G>,
        _component: &Component,
    ) -> Result<MainStep, TaskError> {
        Ok(MainStep::Pends)
    }
}

// An instance more.
fn add_instance(rt: &impl Abort, store: &mut Store<(), ScriptedHost>)
    requires { size store.old.state.core.instances ≤ 1 }
    ensures { store.new ≡ record store.old { state = on_core with_instance store.old.state } }
{
    let Ok(_) = store.add_instance() else {
        panic!(rt; "no memory")
    };
}

// A new store with two instances.
fn store_of_two(rt: &impl Abort, alloc: Global) -> Store<(), ScriptedHost>
    ensures state { result.state ≡ with_core (fresh versions.One 2 100000 1000000) nothing }
    ensures works { HoldsNone result.works }
    ensures groups { IsAsked result.state }
{
    let mut store: Store<(), ScriptedHost> = Store::new(alloc, (), true, 1);
    add_instance(rt, &mut store);
    add_instance(rt, &mut store);
    store
}

// The scenario's run in a new store, as far as it comes.
fn idles(
    rt: &impl Abort,
    alloc: Global,
    scenario: &Scenario,
    store: &mut Store<(), ScriptedHost>,
    trace: &mut Trace,
) -> RunConcurrent
    requires runnable { IsRunnable scenario.now }
    requires two { length scenario.now.component.instances ≡ 2 }
    requires fresh { store.old.state ≡ with_core (fresh versions.One 2 100000 1000000) nothing }
    requires works { HoldsNone store.old.works }
    requires groups { IsAsked store.old.state }
    ensures turn { turn_of result.last ≡ turns.Take false }
    ensures order { CoreInOrder scenario.now.component (turns.Take false) store.new.state.core }
    ensures current { running_of store.new.state ≡ None }
    ensures hosts { HoldsHosts ⟦<ScriptedHost as HostWork>⟧.course store.new }
    ensures groups { IsAsked store.new.state }
    ensures given { given store.new.state.core ≤ 200 }
{
    let Ok(mut run) = run_concurrent(store, false) else {
        panic!(rt; "a run")
    };
    let mut main = ScriptMain::new(alloc, scenario.main.as_slice());
    let Ok(Outcome::Idle) = run.drive(&scenario.component, store, &mut main, 100, trace) else {
        panic!(rt; "a run that is idle")
    };
    run
}

// The call tells anew that it has begun, and so a thread goes on that waits for it.
fn wakes(
    store: &mut Store<(), ScriptedHost>,
    call: CallId,
) -> Result<Option<QualifiedThreadId>, TaskError>
    requires live { 0 < call_of store.old.state call }
    requires unended { end_of (call_of store.old.state call) store.old.state.core ≡ None }
    requires placed { Placed store.old.state.core }
    requires joins { (k : ℕ) → IsJoinThere (subtasks.Guest k) store.old.state.core }
    ensures order { (c : Exports) (p : Turn) → is_open p ≡ true → CoreInOrder c p store.old.state.core →
        CoreInOrder c p store.new.state.core }
    ensures current { running_of store.new.state ≡ running_of store.old.state }
    ensures hosts { HoldsHosts ⟦<ScriptedHost as HostWork>⟧.course store.old → HoldsHosts ⟦<ScriptedHost as HostWork>⟧.course store.new }
    ensures groups { IsAsked store.old.state → IsAsked store.new.state }
    ensures given { given store.new.state.core ≡ given store.old.state.core }
{
    let begun = Event::Subtask(Status::Started);
    set_event(&mut store.state, Waitable::Guest(call), begun)
}

// Whether the thread that waited goes on once it was woken: how many labels that adds.
fn goes_on(
    rt: &impl Abort,
    alloc: Global,
    scenario: &Scenario,
    store: &mut Store<(), ScriptedHost>,
    trace: &mut Trace,
) -> usize
    requires runnable { IsRunnable scenario.now }
    requires two { length scenario.now.component.instances ≡ 2 }
    requires fresh { store.old.state ≡ with_core (fresh versions.One 2 100000 1000000) nothing }
    requires works { HoldsNone store.old.works }
    requires groups { IsAsked store.old.state }
{
    let mut run = idles(rt, alloc, scenario, store, trace);
    let before = trace.labels().len();
    let Some(SubtaskId::Guest(call)) = store.state.subtask_at(1, 1) else {
        panic!(rt; "a subtask")
    };
    if store.state.call_number(call) == 0 {
        panic!(rt; "a call");
    }
    let None = store.state.end_of(call) else {
        panic!(rt; "a call that hasn't ended")
    };
    let woken = wakes(store, call);
    let mut main = Waiting;
    let outcome = run.drive(&scenario.component, store, &mut main, 100, trace);
    let after = trace.labels().len();
    assert!(rt; matches!(woken, Ok(Some(_))) && matches!(outcome, Ok(Outcome::Idle)));
    assert!(rt; after >= before);
    after - before
}

#[test]
fn a_waiter_is_woken_from_outside_between_two_drives(rt: HostRuntime) {
    let Ok(scenario) = read_scenario(rt.alloc(), WAITS) else {
        panic!(rt; "a scenario")
    };
    assert!(rt; scenario.component.instances.len() == 2);
    let mut store = store_of_two(&rt, rt.alloc());
    let mut trace = Trace::new(rt.alloc());
    assert!(rt; goes_on(&rt, rt.alloc(), &scenario, &mut store, &mut trace) == 5);
}
