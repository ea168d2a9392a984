//! Calls on a store midway in a run, which a failing hook refuses: what they answer, and what is left of the store.
ghost use Rattle.machine_data.specs.declared.scenario.Version.TheVariants as versions;
ghost use Rattle.store_works.specs.KeptWorks.{HoldsNone};
ghost use Rattle.std.specs.Prelude.{◌≡◌, [], IfSome, IsSome, None, Some, false, length, true};
ghost use Rattle.ops_state.specs.Ends.{MayEnd};
ghost use Rattle.ops_state.specs.Named.{IsLive};
ghost use Rattle.ops_calls.specs.HostOps.{MayDoHostOp, IsRunningIn};
ghost use Rattle.machine_data.specs.Core.{fresh};
ghost use Rattle.machine_data.specs.Read.{callers_of, place_of, under_of};
ghost use Rattle.machine_data.specs.declared.records.Place.TheVariants as places;
ghost use Rattle.core_records.specs.Seen.{nothing};
ghost use Rattle.machine_rules.specs.Places.{Placed};
ghost use Rattle.task_run.specs.Runnable.{IsRunnable};
ghost use Rattle.core_primitives.specs.Groups.{IsAsked};
ghost use Rattle.ops_turns.specs.Turn.{CoreInOrder, running_of};
ghost use Rattle.core_primitives.specs.StateView.{thread_of, with_core};

use crate::driven::{EXIT, FINISH, Watched, watched};
use core_primitives::{OpProgressId, PlacePrimitives, ThreadPrimitives, View};
use machine_data::{Place, Trap, Turn};
use ops_state::{QualifiedThreadId, is_live};
use std::alloc::Global;
use std::cell::Cell;
use std::process::Abort;
use task_loop::{
    Instance, Outcome, SuspensionTarget, TaskError, Trace, cleanup_thread, run_concurrent,
};
use task_run::{Scenario, ScriptMain, read_scenario};

// A thread returns and ends.
const RETURNS: &[u8] =
    b"scenario 1\nhandles 100000\ntable 1000000\nidle wait\ninstance a\nexport f stackful 0\nret 5\nexit\nmain\nstart a.f\nfinish 1 r0\nanswer r0\nend\n";

const A: Instance = Instance { index: 0 };

struct Midway<'a> {
    scenario: Scenario,
    store: Watched<'a>,
}

// Stated, so that it is proved once and not at each place where a value is let go.
impl Drop for Midway<'_> {
    fn drop(self) {
        let Midway {
            scenario: _,
            store: _,
        } = self;
    }
}

// The scenario is run in the store for so many labels.
fn drive(rt: &impl Abort, alloc: Global, scenario: &Scenario, store: &mut Watched<'_>, steps: u32)
    requires runnable { IsRunnable scenario.now }
    requires one { length scenario.now.component.instances ≡ 1 }
    requires fresh { store.old.state ≡ with_core (fresh versions.One 1 100000 1000000) nothing }
    requires free { store.old.running ≡ false }
    requires works { HoldsNone store.old.works }
    requires groups { IsAsked store.old.state }
    ensures order { IfSome (running_of store.new.state) (λ n. CoreInOrder scenario.now.component (Turn.Run n) store.new.state.core) }
    ensures one { length scenario.now.component.instances ≡ 1 }
{
    let Ok(mut run) = run_concurrent(store, false) else {
        panic!(rt; "a run")
    };
    let mut trace = Trace::new(alloc);
    let mut main = ScriptMain::new(alloc, scenario.main.as_slice());
    let driven = run.drive(&scenario.component, store, &mut main, steps, &mut trace);
    let Ok(Outcome::OutOfSteps) = driven else {
        panic!(rt; "a thread that runs")
    };
    run.end(store);
}

// A thread of the instance runs, and no op of it is under way.
fn is_asking(store: &Watched<'_>, instance: Instance) -> bool
    ensures runs { result ≡ true → IsSome (running_of store.now.state) }
    ensures fresh { result ≡ true → MayDoHostOp instance.index store.now.state }
{
    let Some(thread) = store.state.current() else {
        return false;
    };
    if store.state.instance_of(thread) != instance.index {
        return false;
    }
    matches!(store.state.op_progress(thread), OpProgressId::Fresh)
}

// What the scenario leaves after so many labels, with its thread running, in a store whose hook fails at this notice.
fn running<'a>(
    rt: &impl Abort,
    alloc: Global,
    told: &'a Cell<u64>,
    fails: u64,
    steps: u32,
) -> Midway<'a>
    ensures running { IsRunningIn result.scenario.component result.store.state }
    ensures fresh { MayDoHostOp A.index result.store.state }
{
    let Ok(scenario) = read_scenario(alloc, RETURNS) else {
        panic!(rt; "a scenario")
    };
    assert!(rt; scenario.component.instances.len() == 1);
    let mut store = watched(rt, alloc, told, 1_000_000, fails);
    drive(rt, alloc, &scenario, &mut store, steps);
    if !is_asking(&store, A) {
        panic!(rt; "a thread of the instance")
    }
    Midway { scenario, store }
}

fn is_refused<X: Drop>(answer: Result<X, TaskError>) -> bool {
    matches!(answer, Err(TaskError::Trap(Trap::HookFailed)))
}

// The hook refuses a suspension of the thread, which has stopped then; its group has its task still.
fn stops(at: &mut Midway<'_>) -> bool
    requires running { IsRunningIn at.old.scenario.component at.old.store.state }
    requires fresh { MayDoHostOp A.index at.old.store.state }
{
    let store = &mut at.store;
    let answer = A.suspension_intrinsic(
        &at.scenario.component,
        store,
        0,
        false,
        SuspensionTarget::None,
    );
    is_refused(answer) && store.state.current().is_none() && store.state.groups() == 1
}

// The thread that runs, where nobody is under it or behind it.
fn runner_of(store: &Watched<'_>) -> Option<QualifiedThreadId>
    ensures live { IfSome result (λ id. IsLive store.now.state id) }
    ensures runs { IfSome result (λ id. place_of (thread_of store.now.state id.thread) store.now.state.core ≡ Some places.Running) }
    ensures callers { IfSome result (λ id. callers_of (thread_of store.now.state id.thread) store.now.state.core ≡ []) }
    ensures under { IfSome result (λ id. under_of (thread_of store.now.state id.thread) store.now.state.core ≡ None) }
{
    let thread = store.state.current()?;
    let id = QualifiedThreadId {
        task: store.state.task_of(thread),
        thread,
    };
    if !is_live(&store.state, id) {
        return None;
    }
    if store.state.has_callers(thread) {
        return None;
    }
    let None = store.state.under(thread) else {
        return None;
    };
    let Some(Place::Running) = store.state.place(thread) else {
        return None;
    };
    Some(id)
}

// The hook refuses the end of the thread that runs.
fn refuses(store: &mut Watched<'_>, id: QualifiedThreadId) -> bool
    requires live { IsLive store.old.state id }
    requires may { MayEnd (thread_of store.old.state id.thread) store.old.state.core }
{
    is_refused(cleanup_thread(store, id))
}

// At its exit from its group: it runs on, and its group has its task still.
fn leaves_none(store: &mut Watched<'_>) -> bool
    requires { Placed store.old.state.core }
{
    let Some(id) = runner_of(store) else {
        return false;
    };
    refuses(store, id) && is_live(&store.state, id) && store.state.groups() == 1
}

// At the finish of its group: it has ended, as its group has.
fn ends_thread(store: &mut Watched<'_>) -> bool
    requires { Placed store.old.state.core }
{
    let Some(id) = runner_of(store) else {
        return false;
    };
    refuses(store, id) && !is_live(&store.state, id) && store.state.groups() == 0
}

fn stays(at: &mut Midway<'_>) -> bool
    requires running { IsRunningIn at.old.scenario.component at.old.store.state }
{
    leaves_none(&mut at.store)
}

fn ends(at: &mut Midway<'_>) -> bool
    requires running { IsRunningIn at.old.scenario.component at.old.store.state }
{
    ends_thread(&mut at.store)
}

#[test]
fn a_hook_may_refuse_a_suspension(rt: HostRuntime) {
    let told = Cell::new(0);
    let mut at = running(&rt, rt.alloc(), &told, EXIT + 1, 3);
    assert!(rt; stops(&mut at) && told.get() == 11_21_31);
}

#[test]
fn a_hook_may_refuse_the_finish_of_an_end(rt: HostRuntime) {
    let told = Cell::new(0);
    let mut at = running(&rt, rt.alloc(), &told, FINISH + 1, 4);
    assert!(rt; ends(&mut at) && told.get() == 11_21_31_41);
}

#[test]
fn a_hook_may_refuse_the_exit_of_an_end(rt: HostRuntime) {
    let told = Cell::new(0);
    let mut at = running(&rt, rt.alloc(), &told, EXIT + 1, 4);
    assert!(rt; stays(&mut at) && told.get() == 11_21_31);
}
