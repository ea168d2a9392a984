//! The calls of an instance, each by a thread of a scenario that was run so far.
ghost use Rattle.machine_data.specs.declared.scenario.Version.TheVariants as versions;
ghost use Rattle.store_works.specs.KeptWorks.{HoldsNone};
ghost use Rattle.std.specs.Prelude.{◌≡◌, ◌<◌, ◌≤◌, IfSome, IsSome, None, Some, [], false, length, true, ◌^◌};
ghost use Rattle.ops_state.specs.Named.{IsLive};
ghost use Rattle.ops_calls.specs.HostOps.{MayDoHostOp, HasPaused, IsRunningIn};
ghost use Rattle.ops_calls.specs.Directs.{IsDirect};
ghost use Rattle.task_loop.specs.LoopCalls.{callee_of};
ghost use Rattle.machine_data.specs.Read.{callers_of, is_async_lifted, place_of, under_of};
ghost use Rattle.machine_data.specs.declared.records.Place.TheVariants as places;
ghost use Rattle.machine_rules.specs.Places.{Placed};
ghost use Rattle.machine_data.specs.declared.component.Component.{Component};
ghost use Rattle.machine_rules.specs.Scripts.{export_at, export_kind};
ghost use Rattle.machine_data.specs.Core.{fresh};
ghost use Rattle.core_records.specs.Seen.{nothing};
ghost use Rattle.task_run.specs.Runnable.{IsRunnable};
ghost use Rattle.core_primitives.specs.Groups.{IsAsked};
ghost use Rattle.task_store.specs.Hosts.{HoldsHosts};
ghost use Rattle.ops_turns.specs.Turn.{CoreInOrder, given, running_of};
ghost use Rattle.core_primitives.specs.StateView.{thread_of, with_core};

use core_primitives::{
    CallPrimitives, InstancePrimitives, OpProgressId, PlacePrimitives, ThreadPrimitives, View,
};
use core_state::{CallContext, Scope};
use machine_data::{Callee, ExportKind, Goal, HostDef, Mark, Place, Trap, Turn};
use ops_dispatch::export_def;
use ops_state::{Item, QualifiedThreadId, cleanup_thread, is_live, push_work_item};
use std::alloc::Global;
use std::process::Abort;
use task_loop::{
    Answer, Component, Func, Instance, Outcome, ResumeThread, Step, SuspensionTarget, TaskError,
    Trace, run_concurrent,
};
use task_run::{Scenario, ScriptMain, read_scenario};
use task_store::{FromHost, HostWork, ScriptedHost, Store};

// A thread of b makes a set, calls a host that never answers, makes a thread, cancels the call, waits for its end, drops it,
// and then calls and cancels a callback of a, which is told so.
const CALLER: &[u8] =
    b"scenario 1\nhandles 100000\ntable 1000000\nidle wait\nhost dead never\ninstance a\nexport f callback 0\nset_new r3\ncb_wait r3\nreact\nexit\nexport g sync 1\nexit\ninstance b\nthread 0\nsuspend\nexport h stackful 0\nset_new r1\ncall r4 r5 dead\nthread_new r2 0 5\ncancel r6 2\njoin 2 1\nwait r7 1\ndrop 2\ncall r4 r5 a.f\ncancel r6 2\ncall_sync r8 a.g 7\nmain\nstart b.h\nfinish 1 r0\nanswer r0\nend\n";

// A thread of b calls a sync export of a.
const DIRECT: &[u8] =
    b"scenario 1\nhandles 100000\ntable 1000000\nidle wait\ninstance a\nexport g sync 1\ninstance b\nexport h stackful 0\ncall_sync r8 a.g 7\nmain\nstart b.h\nfinish 1 r0\nanswer r0\nend\n";

// A thread of b calls two hosts, of which it cancels the second one. Both end while it yields; then it cancels the first one.
const HOSTS: &[u8] =
    b"scenario 1\nhandles 100000\ntable 1000000\nidle wait\nhost dead never\nhost soon polls 1 value 9\ninstance a\nexport f callback 0\nret 0\nexit\ninstance b\nexport h stackful 0\ncall r4 r5 soon\ncall r4 r5 dead\ncancel r6 2\nyield\nyield\nyield\ncancel r6 1\nyield\nmain\nstart b.h\nfinish 1 r0\nanswer r0\nend\n";

// The first thread of b calls a host and ends; the second one takes the end of that subtask, and drops it.
const LEFT: &[u8] =
    b"scenario 1\nhandles 100000\ntable 1000000\nidle wait\nhost soon polls 1 value 9\ninstance a\nexport f callback 0\nret 0\nexit\ninstance b\nexport h stackful 0\ncall r4 r5 soon\nret 0\nexport g stackful 0\nyield\nyield\nyield\ncancel r6 1\ndrop 1\nret 0\nmain\nstart b.h\nfinish 1 r0\nstart b.g\nfinish 2 r1\nanswer r0\nend\n";

const A: Instance = Instance { index: 0 };

const B: Instance = Instance { index: 1 };

// The first export of a.
const F: Func = Func {
    instance: Instance { index: 0 },
    export: 0,
};

struct Midway {
    scenario: Scenario,
    store: Store<(), ScriptedHost>,
}

// Stated, so that it is proved once and not at each place where a value is let go.
impl Drop for Midway {
    fn drop(self) {
        let Midway {
            scenario: _,
            store: _,
        } = self;
    }
}

// A store with two instances.
fn new_store(rt: &impl Abort, alloc: Global) -> Store<(), ScriptedHost>
    ensures state { result.state ≡ with_core (fresh versions.One 2 100000 1000000) nothing }
    ensures free { result.running ≡ false }
    ensures works { HoldsNone result.works }
    ensures groups { IsAsked result.state }
{
    let mut store = Store::new(alloc, (), true, 1);
    let Ok(_) = store.add_instance() else {
        panic!(rt; "no memory")
    };
    let Ok(_) = store.add_instance() else {
        panic!(rt; "no memory")
    };
    store
}

// The scenario is run in the store for so many labels.
fn drive(
    rt: &impl Abort,
    alloc: Global,
    scenario: &Scenario,
    store: &mut Store<(), ScriptedHost>,
    steps: u32,
)
    requires runnable { IsRunnable scenario.now }
    requires two { length scenario.now.component.instances ≡ 2 }
    requires fresh { store.old.state ≡ with_core (fresh versions.One 2 100000 1000000) nothing }
    requires free { store.old.running ≡ false }
    requires works { HoldsNone store.old.works }
    requires groups { IsAsked store.old.state }
    requires few { steps ≤ 100 }
    ensures order { IfSome (running_of store.new.state) (λ n. CoreInOrder scenario.now.component (Turn.Run n) store.new.state.core) }
    ensures given { given store.new.state.core ≤ 200 }
    ensures hosts { HoldsHosts ⟦<ScriptedHost as HostWork>⟧.course store.new }
    ensures two { length scenario.now.component.instances ≡ 2 }
{
    let Ok(mut run) = run_concurrent(store, false) else {
        panic!(rt; "a run")
    };
    let mut trace = Trace::new(alloc);
    let mut main = ScriptMain::new(alloc, scenario.main.as_slice());
    let driven = run.drive(&scenario.component, store, &mut main, steps, &mut trace);
    let Ok(Outcome::OutOfSteps) = driven else {
        panic!(rt; "a thread that runs")
    };
    run.end(store);
}

// The thread that runs is of the instance, and an op of it is under way or none is.
fn is_asking(store: &Store<(), ScriptedHost>, instance: Instance, paused: bool) -> bool
    ensures runs { result ≡ true → IsSome (running_of store.now.state) }
    ensures fresh { result ≡ true → paused ≡ false → MayDoHostOp instance.index store.now.state }
    ensures paused { result ≡ true → paused ≡ true → HasPaused instance.index store.now.state }
{
    let Some(thread) = store.state.current() else {
        return false;
    };
    if store.state.instance_of(thread) != instance.index {
        return false;
    }
    matches!(store.state.op_progress(thread), OpProgressId::Fresh) != paused
}

// What the text's scenario leaves after so many labels, with a thread of the instance running.
fn running(
    rt: &impl Abort,
    alloc: Global,
    text: &[u8],
    steps: u32,
    instance: Instance,
    paused: bool,
) -> Midway
    requires text { length text.now ≤ 1048576 }
    requires few { steps ≤ 100 }
    requires instance { instance.index < 2 }
    ensures running { IsRunningIn result.scenario.component result.store.state }
    ensures few { given result.store.state.core < 2 ^ 61 }
    ensures hosts { HoldsHosts ⟦<ScriptedHost as HostWork>⟧.course result.store }
    ensures fresh { paused ≡ false → MayDoHostOp instance.index result.store.state }
    ensures paused { paused ≡ true → HasPaused instance.index result.store.state }
{
    let Ok(scenario) = read_scenario(alloc, text) else {
        panic!(rt; "a scenario")
    };
    assert!(rt; scenario.component.instances.len() == 2);
    let mut store = new_store(rt, alloc);
    drive(rt, alloc, &scenario, &mut store, steps);
    if !is_asking(&store, instance, paused) {
        panic!(rt; "a thread of the instance")
    }
    Midway { scenario, store }
}

// What the running thread asks of its instance; it tells whether the answer is the one that is due. It is lent the store: what a function
// owns is proved anew at each of its calls.
trait Asks {
    fn asks(&self, at: &mut Midway, instance: Instance) -> bool
        requires running { IsRunningIn at.old.scenario.component at.old.store.state }
        requires few { given at.old.store.state.core < 2 ^ 61 }
        requires fresh { MayDoHostOp instance.index at.old.store.state };
}

// Sets the stage after so many labels of the text's scenario.
fn holds(
    rt: &impl Abort,
    alloc: Global,
    ask: &impl Asks,
    text: &[u8],
    steps: u32,
    instance: Instance,
) -> bool
    requires text { length text.now ≤ 1048576 }
    requires few { steps ≤ 100 }
    requires instance { instance.index < 2 }
{
    let mut at = running(rt, alloc, text, steps, instance, false);
    ask.asks(&mut at, instance)
}

#[derive(Clone, Copy)]
enum OfSets {
    Makes,
    Drops,
    Polls,
    Waits,
    Joins,
}

impl Asks for OfSets {
    fn asks(&self, at: &mut Midway, instance: Instance) -> bool {
        let component = &at.scenario.component;
        let store = &mut at.store;
        match self {
            OfSets::Makes => matches!(
                instance.waitable_set_new(component, store, instance.index),
                Ok(1)
            ),
            OfSets::Drops => instance
                .waitable_set_drop(component, store, instance.index, 1)
                .is_ok(),
            OfSets::Polls => {
                let event = instance.waitable_set_poll(component, store, instance.index, 1);
                matches!(event, Ok((0, 0, 0)))
            }
            OfSets::Waits => {
                let event = instance.waitable_set_wait(component, store, instance.index, 1);
                matches!(event, Ok(Step::Pause))
            }
            OfSets::Joins => instance
                .waitable_join(component, store, instance.index, 2, 1)
                .is_ok(),
        }
    }
}

#[test]
fn a_thread_makes_and_uses_a_set(rt: HostRuntime) {
    assert!(rt; holds(&rt, rt.alloc(), &OfSets::Makes, CALLER, 3, B));
    assert!(rt; holds(&rt, rt.alloc(), &OfSets::Drops, CALLER, 4, B));
    assert!(rt; holds(&rt, rt.alloc(), &OfSets::Polls, CALLER, 4, B));
    assert!(rt; holds(&rt, rt.alloc(), &OfSets::Waits, CALLER, 4, B));
    assert!(rt; holds(&rt, rt.alloc(), &OfSets::Joins, CALLER, 6, B));
}

// The thread of the instance with handle 2, where it is new and nobody is under it or behind it.
fn made_thread(store: &Store<(), ScriptedHost>, instance: Instance) -> Option<QualifiedThreadId>
    ensures live { IfSome result (λ id. IsLive store.now.state id) }
    ensures new { IfSome result (λ id. place_of (thread_of store.now.state id.thread) store.now.state.core ≡ Some places.New) }
    ensures callers { IfSome result (λ id. callers_of (thread_of store.now.state id.thread) store.now.state.core ≡ []) }
    ensures under { IfSome result (λ id. under_of (thread_of store.now.state id.thread) store.now.state.core ≡ None) }
{
    let thread = store.state.thread_at(instance.index, 2)?;
    let id = QualifiedThreadId {
        task: store.state.task_of(thread),
        thread,
    };
    if !is_live(&store.state, id) {
        return None;
    }
    if store.state.has_callers(thread) {
        return None;
    }
    let None = store.state.under(thread) else {
        return None;
    };
    let Some(Place::New) = store.state.place(thread) else {
        return None;
    };
    Some(id)
}

// The start of the thread that was made is queued.
fn is_queued(store: &mut Store<(), ScriptedHost>, instance: Instance) -> bool
    requires { Placed store.old.state.core }
{
    let Some(id) = made_thread(store, instance) else {
        return false;
    };
    let queued = push_work_item(&mut store.state, Item::StartExplicit(id), Mark::High);
    queued.is_ok() && matches!(store.state.place(id.thread), Some(Place::Ready { .. }))
}

// The thread that was made is gone, by the call of the store or by that of its state.
fn ends(store: &mut Store<(), ScriptedHost>, instance: Instance, of_store: bool) -> bool
    requires { Placed store.old.state.core }
{
    let Some(id) = made_thread(store, instance) else {
        return false;
    };
    let ended = if of_store {
        task_loop::cleanup_thread(store, id)
    } else {
        cleanup_thread(&mut store.state, id)
    };
    ended.is_ok() && !is_live(&store.state, id)
}

#[derive(Clone, Copy)]
enum OfThreads {
    HasAnIndex,
    IsQueued,
    Ends(bool),
    Makes,
    Yields,
    // In this way, and whether it answers so.
    Resumes(ResumeThread, bool),
}

impl Asks for OfThreads {
    fn asks(&self, at: &mut Midway, instance: Instance) -> bool {
        let component = &at.scenario.component;
        let store = &mut at.store;
        match self {
            OfThreads::HasAnIndex => matches!(instance.thread_index(component, store), Ok(1)),
            OfThreads::IsQueued => is_queued(store, instance),
            OfThreads::Ends(of_store) => ends(store, instance, *of_store),
            OfThreads::Makes => {
                let thread = instance.thread_new_indirect(component, store, instance.index, 0, 5);
                matches!(thread, Ok(2))
            }
            OfThreads::Yields => {
                let target = SuspensionTarget::Resume(2);
                let step = instance.suspension_intrinsic(
                    component,
                    store,
                    instance.index,
                    true,
                    target,
                );
                matches!(step, Ok(Step::Pause))
            }
            OfThreads::Resumes(how, found) => {
                let resumed = instance.resume_thread(component, store, instance.index, 2, *how);
                matches!(resumed, Ok(x) if x == *found)
            }
        }
    }
}

// The host gets the event of the wait, and the thread keeps its place, and r7, to which its script would have it written.
fn goes_on(rt: &impl Abort, alloc: Global) -> bool {
    let mut at = running(rt, alloc, CALLER, 16, B, true);
    let Some(thread) = at.store.state.current() else {
        return false;
    };
    let place = at.store.state.position(thread);
    let held = at.store.state.register(thread, 7);
    let event = B.go_on(&at.scenario.component, &mut at.store);
    at.store.state.position(thread) == place
        && at.store.state.register(thread, 7) == held
        && matches!(event, Ok(Step::Done(Answer::Three(1, 2, 4))))
}

#[test]
fn a_thread_resumes_another(rt: HostRuntime) {
    let resumes = OfThreads::Resumes(ResumeThread::Resume, true);
    assert!(rt; holds(&rt, rt.alloc(), &resumes, CALLER, 6, B));
    let promotes = OfThreads::Resumes(ResumeThread::Promote, false);
    assert!(rt; holds(&rt, rt.alloc(), &promotes, CALLER, 6, B));
    let later = OfThreads::Resumes(ResumeThread::ResumeLater, true);
    assert!(rt; holds(&rt, rt.alloc(), &later, CALLER, 6, B));
}

#[test]
fn a_thread_makes_another_and_pauses(rt: HostRuntime) {
    assert!(rt; holds(&rt, rt.alloc(), &OfThreads::HasAnIndex, CALLER, 3, B));
    assert!(rt; holds(&rt, rt.alloc(), &OfThreads::Makes, CALLER, 3, B));
    assert!(rt; holds(&rt, rt.alloc(), &OfThreads::Yields, CALLER, 6, B));
    assert!(rt; goes_on(&rt, rt.alloc()));
}

#[test]
fn a_thread_s_state_queues_and_ends_another(rt: HostRuntime) {
    assert!(rt; holds(&rt, rt.alloc(), &OfThreads::IsQueued, CALLER, 6, B));
    assert!(rt; holds(&rt, rt.alloc(), &OfThreads::Ends(false), CALLER, 6, B));
    assert!(rt; holds(&rt, rt.alloc(), &OfThreads::Ends(true), CALLER, 6, B));
}

// The export is there, takes so many words and is sync or isn't.
fn is_export(component: &Component, func: Func, words: u32, sync: bool) -> bool
    ensures there { result ≡ true → IsSome (export_at component.now (callee_of func)) }
    ensures words { result ≡ true → IfSome (export_at component.now (callee_of func)) (λ e. words ≡ e.params) }
    ensures sync { result ≡ true → sync ≡ true → is_async_lifted (export_kind component.now (callee_of func)) ≡ false }
{
    let callee = Callee {
        instance: func.instance.index,
        export: func.export,
    };
    match export_def(component, callee) {
        Some(def) => def.params == words && matches!(def.kind, ExportKind::Sync) == sync,
        None => false,
    }
}

fn starts(rt: &impl Abort, alloc: Global) -> bool {
    let mut at = running(rt, alloc, CALLER, 3, B, false);
    assert!(rt; is_export(&at.scenario.component, F, 0, false));
    let prepared = B.prepare_call(&at.scenario.component, &mut at.store, F, &[], 3, true);
    let Ok(id) = prepared else {
        return false;
    };
    at.store.state.none_is_zero();
    assert!(rt; is_asking(&at.store, B, false));
    let step = B.start_call(&at.scenario.component, &mut at.store, id);
    matches!(step, Ok(Step::Pause))
}

fn enters(rt: &impl Abort, alloc: Global) -> bool {
    let mut at = running(rt, alloc, DIRECT, 3, B, false);
    assert!(rt; is_export(&at.scenario.component, F, 1, true));
    B.enter_guest_sync_call(&at.scenario.component, &mut at.store, F, &[7])
        .is_ok()
}

// The thread that runs is the first one of a direct call.
fn is_direct(store: &Store<(), ScriptedHost>) -> bool
    ensures { result ≡ true → IfSome (running_of store.now.state) (λ n. IsDirect n store.now.state.core) }
{
    let Some(thread) = store.state.current() else {
        return false;
    };
    let call = store.state.task_of(thread);
    !store.state.is_explicit(thread) && matches!(store.state.goal(call), Goal::Direct)
}

fn leaves(rt: &impl Abort, alloc: Global) -> bool {
    let mut at = running(rt, alloc, DIRECT, 4, A, false);
    assert!(rt; is_direct(&at.store));
    A.exit_guest_sync_call(&at.scenario.component, &mut at.store, 9)
        .is_ok()
}

#[test]
fn a_thread_calls_an_export(rt: HostRuntime) {
    assert!(rt; starts(&rt, rt.alloc()));
    assert!(rt; enters(&rt, rt.alloc()) && leaves(&rt, rt.alloc()));
}

// What is left of a call's group is dropped by a thread of another one.
fn finishes_a_group(rt: &impl Abort, alloc: Global) -> bool {
    let mut at = running(rt, alloc, LEFT, 28, B, false);
    let live = at.store.state.groups();
    let dropped = B.subtask_drop(&at.scenario.component, &mut at.store, 1, 1);
    dropped.is_ok() && live > 0 && at.store.state.groups() == live - 1
}

// The running thread's task holds so many borrows.
fn lend(store: &mut Store<(), ScriptedHost>, borrows: u32) -> bool
    ensures running { (c : Component) → IsRunningIn c store.old.state → IsRunningIn c store.new.state }
{
    let Some(thread) = store.state.current() else {
        return false;
    };
    let scope = Scope::Id(store.state.task_of(thread));
    store.state.set_call_context(scope, CallContext { borrows })
}

#[test]
fn a_task_that_lends_is_not_ended(rt: HostRuntime) {
    let mut at = running(&rt, rt.alloc(), DIRECT, 4, A, false);
    assert!(rt; lend(&mut at.store, 2));
    assert!(rt; is_direct(&at.store));
    assert!(rt; is_asking(&at.store, A, false));
    let left = A.exit_guest_sync_call(&at.scenario.component, &mut at.store, 9);
    assert!(rt; matches!(left, Err(TaskError::Trap(Trap::ScopeExit))));
    let mut at = running(&rt, rt.alloc(), CALLER, 29, A, false);
    assert!(rt; lend(&mut at.store, 1));
    assert!(rt; is_asking(&at.store, A, false));
    let cancelled = A.task_cancel(&at.scenario.component, &mut at.store);
    assert!(rt; matches!(cancelled, Err(TaskError::Trap(Trap::ScopeExit))));
}

// What the return of a task results in that holds so many borrows.
fn returns_lending(rt: &impl Abort, alloc: Global, borrows: u32) -> Result<(), TaskError> {
    let mut at = running(rt, alloc, CALLER, 29, A, false);
    assert!(rt; lend(&mut at.store, borrows));
    assert!(rt; is_asking(&at.store, A, false));
    A.task_return(&at.scenario.component, &mut at.store, 0, 0, 0, 7)
}

#[test]
fn a_task_that_lends_does_not_return(rt: HostRuntime) {
    let lending = returns_lending(&rt, rt.alloc(), 1);
    assert!(rt; matches!(lending, Err(TaskError::Trap(Trap::ScopeExit))));
    assert!(rt; returns_lending(&rt, rt.alloc(), 0).is_ok());
}

#[derive(Clone, Copy)]
enum OfCalls {
    Cancels,
    Drops,
    EndsAsCancelled,
    RaisesBackpressure,
}

impl Asks for OfCalls {
    fn asks(&self, at: &mut Midway, instance: Instance) -> bool {
        let component = &at.scenario.component;
        let store = &mut at.store;
        match self {
            OfCalls::Cancels => {
                let end = instance.subtask_cancel(component, store, instance.index, true, 2);
                matches!(end, Ok(Step::Done(4_294_967_295)))
            }
            OfCalls::Drops => instance
                .subtask_drop(component, store, instance.index, 2)
                .is_ok(),
            OfCalls::EndsAsCancelled => instance.task_cancel(component, store).is_ok(),
            OfCalls::RaisesBackpressure => instance
                .backpressure_modify(component, store, instance.index, true)
                .is_ok(),
        }
    }
}

#[test]
fn a_thread_cancels_and_is_cancelled(rt: HostRuntime) {
    assert!(rt; holds(&rt, rt.alloc(), &OfCalls::Cancels, CALLER, 5, B));
    assert!(rt; holds(&rt, rt.alloc(), &OfCalls::Drops, CALLER, 17, B));
    assert!(rt; holds(&rt, rt.alloc(), &OfCalls::EndsAsCancelled, CALLER, 29, A));
    assert!(rt; holds(&rt, rt.alloc(), &OfCalls::RaisesBackpressure, CALLER, 3, B));
    assert!(rt; finishes_a_group(&rt, rt.alloc()));
}

fn first_poll(rt: &impl Abort, alloc: Global, polls: Option<u32>) -> Option<u32> {
    let mut at = running(rt, alloc, CALLER, 4, B, false);
    let work = ScriptedHost::from_host(
        0,
        HostDef::Settled {
            polls,
            value: Some(9),
        },
    );
    B.first_poll(&at.scenario.component, &mut at.store, work, 5)
        .ok()
}

fn poll_and_block(rt: &impl Abort, alloc: Global, polls: Option<u32>) -> Option<Step<u64>> {
    let mut at = running(rt, alloc, CALLER, 4, B, false);
    let work = ScriptedHost::from_host(
        0,
        HostDef::Settled {
            polls,
            value: Some(9),
        },
    );
    B.poll_and_block(&at.scenario.component, &mut at.store, work)
        .ok()
}

#[test]
fn a_thread_calls_hosts_of_the_embedder(rt: HostRuntime) {
    let pending = first_poll(&rt, rt.alloc(), None);
    assert!(rt; matches!(pending, Some(33)));
    let ready = first_poll(&rt, rt.alloc(), Some(0));
    assert!(rt; matches!(ready, Some(2)));
    let pause = poll_and_block(&rt, rt.alloc(), Some(1));
    assert!(rt; matches!(pause, Some(Step::Pause)));
    let value = poll_and_block(&rt, rt.alloc(), Some(0));
    assert!(rt; matches!(value, Some(Step::Done(9))));
}

fn cancels_a_host(
    rt: &impl Abort,
    alloc: Global,
    steps: u32,
    async_: bool,
    subtask: u32,
) -> Result<Step<u32>, TaskError>
    requires few { steps ≤ 100 }
{
    let mut at = running(rt, alloc, HOSTS, steps, B, false);
    B.subtask_cancel(&at.scenario.component, &mut at.store, 1, async_, subtask)
}

fn drops_a_host(rt: &impl Abort, alloc: Global, steps: u32, subtask: u32) -> Result<(), TaskError>
    requires few { steps ≤ 100 }
{
    let mut at = running(rt, alloc, HOSTS, steps, B, false);
    B.subtask_drop(&at.scenario.component, &mut at.store, 1, subtask)
}

#[test]
fn a_host_subtask_that_runs_is_cancelled_once(rt: HostRuntime) {
    let cancelled = cancels_a_host(&rt, rt.alloc(), 5, true, 2);
    assert!(rt; matches!(cancelled, Ok(Step::Done(4_294_967_295))));
    let again = cancels_a_host(&rt, rt.alloc(), 6, true, 2);
    assert!(rt;
        matches!(
            again,
            Err(TaskError::Trap(Trap::SubtaskCancelAfterTerminal))
        )
    );
    let again = cancels_a_host(&rt, rt.alloc(), 6, false, 2);
    assert!(rt;
        matches!(
            again,
            Err(TaskError::Trap(Trap::SubtaskCancelAfterTerminal))
        )
    );
    let dropped = drops_a_host(&rt, rt.alloc(), 5, 2);
    assert!(rt; matches!(dropped, Err(TaskError::Trap(Trap::SubtaskDropNotResolved))));
}

#[test]
fn a_host_subtask_that_has_ended_tells_its_end(rt: HostRuntime) {
    let cancelled = cancels_a_host(&rt, rt.alloc(), 20, true, 1);
    assert!(rt; matches!(cancelled, Ok(Step::Done(2))));
    let again = cancels_a_host(&rt, rt.alloc(), 29, true, 1);
    assert!(rt;
        matches!(
            again,
            Err(TaskError::Trap(Trap::SubtaskCancelAfterTerminal))
        )
    );
    let returned = drops_a_host(&rt, rt.alloc(), 29, 1);
    assert!(rt; returned.is_ok());
    let undelivered = drops_a_host(&rt, rt.alloc(), 20, 2);
    assert!(rt;
        matches!(
            undelivered,
            Err(TaskError::Trap(Trap::SubtaskDropNotResolved))
        )
    );
}
