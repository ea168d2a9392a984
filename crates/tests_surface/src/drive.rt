ghost use Rattle.machine_data.specs.declared.scenario.Version.TheVariants as versions;
ghost use Rattle.std.specs.Prelude.{◌≡◌, ◌≤◌, true, IfOk, None, length, IsSome, IfSome};
ghost use Rattle.std.specs.List.{list_all};
ghost use Rattle.store_works.specs.KeptWorks.{HoldsNone};
ghost use Rattle.task_loop.specs.Says.{unscripted};
ghost use Rattle.machine_data.specs.Core.{fresh};
ghost use Rattle.core_primitives.specs.Groups.{IsAsked};
ghost use Rattle.task_store.specs.Hosts.{HoldsHosts};
ghost use Rattle.core_records.specs.Seen.{nothing};
ghost use Rattle.machine_rules.specs.Scripts.{export_at};
ghost use Rattle.task_loop.specs.LoopCalls.{callee_of};
ghost use Rattle.ops_turns.specs.Covered.{HasPlainExports, is_covered_op};
ghost use Rattle.ops_turns.specs.Turn.{CoreInOrder, given, running_of};
ghost use Rattle.ops_turns.specs.WellFormed.{IsWellFormed};
ghost use Rattle.core_primitives.specs.StateView.{with_core};

use core_primitives::{ThreadPrimitives, View};
use futures::task::Poll;
use host_watch::{WatchedMain, start_watched};
use machine_data::{DataOp, ExportKind, LoopLabel, MainLabel, NoMemory, Seq, TaskOp, Trap, Turn};
use std::alloc::{AllocError, Global};
use std::process::Abort;
use task_group::TaskGroupHook;
use task_loop::{
    Component, ExportDef, Func, FuncCallConcurrent, Instance, InstanceDef, Label, MainStep,
    MainTask, Op, Operand, Outcome, TaskError, Trace, run_concurrent,
};
use task_store::{Access, HostWork, ScriptedHost, Store, Whole};

pub(crate) const CALLEE: Func = Func {
    instance: Instance { index: 0 },
    export: 0,
};

// Adds 2 to the first parameter, by way of the instance's words, and returns it.
fn script(alloc: Global) -> Result<Seq<Op>, AllocError>
    ensures plain { IfOk result (λ ops. list_all is_covered_op ops ≡ true) }
    ensures short { IfOk result (λ ops. length ops ≤ 4096) }
{
    let left = Operand::Register(0);
    let right = Operand::Register(1);
    let value = Operand::Register(2);
    let ops = [
        Op::Data(DataOp::Set {
            to: 2,
            value: Operand::Number(33),
        }),
        Op::Data(DataOp::Handle { to: 2, value }),
        Op::Data(DataOp::Add { to: 0, value }),
        Op::Data(DataOp::Store {
            cell: 3,
            value: left,
        }),
        Op::Data(DataOp::Load { to: 1, cell: 3 }),
        Op::Data(DataOp::SkipEq {
            left,
            right,
            ops: 1,
        }),
        Op::Task(TaskOp::RetBad { value }),
        Op::Task(TaskOp::Ret { value: right }),
    ];
    Ok(Seq::from_vec(Vec::from_array(alloc, ops)?))
}

// A component with one callback export, which has that script.
fn made_component(alloc: Global) -> Result<Component, AllocError>
    ensures exports { IfOk result HasPlainExports }
    ensures there { IfOk result (λ c. IsSome (export_at c (callee_of CALLEE))) }
    ensures params { IfOk result (λ c. IfSome (export_at c (callee_of CALLEE)) (λ e. 1 ≡ e.params)) }
    ensures one { IfOk result (λ c. length c.instances ≡ 1) }
{
    let start = script(alloc)?;
    let mut exports = Seq::new(alloc);
    exports.push(ExportDef {
        kind: ExportKind::Callback,
        params: 1,
        start,
        react: Seq::new(alloc),
    })?;
    let mut instances = Seq::new(alloc);
    instances.push(InstanceDef {
        exports,
        slots: Seq::new(alloc),
    })?;
    Ok(Component {
        instances,
        hosts: Seq::new(alloc),
    })
}

pub(crate) fn component(rt: &impl Abort, alloc: Global) -> Component
    ensures exports { HasPlainExports result }
    ensures covered { IsWellFormed result }
    ensures there { IsSome (export_at result (callee_of CALLEE)) }
    ensures params { IfSome (export_at result (callee_of CALLEE)) (λ e. 1 ≡ e.params) }
    ensures one { length result.instances ≡ 1 }
{
    match made_component(alloc) {
        Ok(component) => component,
        Err(_) => panic!(rt; "no memory"),
    }
}

// A new store with one instance.
pub(crate) fn new_store(rt: &impl Abort, alloc: Global) -> Store<(), ScriptedHost>
    ensures state { result.state ≡ with_core (fresh versions.One 1 100000 1000000) nothing }
    ensures works { HoldsNone result.works }
    ensures groups { IsAsked result.state }
{
    let mut store: Store<(), ScriptedHost> = Store::new(alloc, (), true, 1);
    match store.add_instance() {
        Ok(_) => store,
        Err(_) => panic!(rt; "no memory"),
    }
}

// A store with that component's one instance.
pub(crate) fn store(
    rt: &impl Abort,
    alloc: Global,
    component: &Component,
) -> Store<(), ScriptedHost>
    requires exports { HasPlainExports component.now }
    requires one { length component.now.instances ≡ 1 }
    ensures order { CoreInOrder component.now Turn.Main result.state.core }
    ensures given { given result.state.core ≡ 0 }
    ensures current { running_of result.state ≡ None }
    ensures hosts { HoldsHosts ⟦<ScriptedHost as HostWork>⟧.course result }
    ensures groups { IsAsked result.state }
{
    let _component = component;
    new_store(rt, alloc)
}

// A call of that export with 7, in a store in which nothing was made but the instance.
pub(crate) fn called(
    rt: &impl Abort,
    component: &Component,
    store: &mut Store<(), ScriptedHost>,
) -> FuncCallConcurrent
    requires covered { IsWellFormed component.now }
    requires there { IsSome (export_at component.now (callee_of CALLEE)) }
    requires params { IfSome (export_at component.now (callee_of CALLEE)) (λ e. 1 ≡ e.params) }
    requires order { CoreInOrder component.now Turn.Main store.old.state.core }
    requires given { given store.old.state.core ≡ 0 }
    requires current { running_of store.old.state ≡ None }
    requires hosts { HoldsHosts ⟦<ScriptedHost as HostWork>⟧.course store.old }
    requires groups { IsAsked store.old.state }
    ensures order { CoreInOrder component.now Turn.Main store.new.state.core }
    ensures given { given store.new.state.core ≡ 2 }
    ensures current { running_of store.new.state ≡ None }
    ensures hosts { HoldsHosts ⟦<ScriptedHost as HostWork>⟧.course store.new }
    ensures groups { IsAsked store.new.state }
{
    match start_watched(CALLEE, component, store, &[7]) {
        Ok(call) => call,
        Err(_) => panic!(rt; "a call"),
    }
}

// A main that answers this, or else waits.
#[derive(Drop)]
pub(crate) struct Host {
    pub(crate) answer: Option<u64>,
}

impl<T, H: HostWork, G: TaskGroupHook> MainTask<T, H, G> for Host {
    ghost says = { unscripted (λ m c. Unit {0}) (λ m s. Unit {0}) (λ m s step n t. n ≡ m) };

    ghost stays = { λ main before after last known. tt };

    fn step(
        &mut self,
        _access: &mut Access<'_, T, Whole, H, G>,
        _component: &Component,
    ) -> Result<MainStep, TaskError> {
        match self.answer {
            Some(value) => Ok(MainStep::Answer(value)),
            None => Ok(MainStep::Pends),
        }
    }
}

fn is_recursive(store: &mut Store<(), ScriptedHost>) -> bool
    requires { store.old.running ≡ true }
    ensures { store.new ≡ store.old }
{
    matches!(run_concurrent(store, false), Err(Trap::RecursiveRun))
}

#[test]
fn a_call_runs_while_main_waits(rt: HostRuntime) {
    let component = component(&rt, rt.alloc());
    assert!(rt; CALLEE.param_count(&component) == 1);
    let mut store = store(&rt, rt.alloc(), &component);
    let mut call = called(&rt, &component, &mut store);
    assert!(rt; call.thread() == 1);
    let Ok(mut run) = run_concurrent(&mut store, false) else {
        panic!(rt; "a run")
    };
    assert!(rt; is_recursive(&mut store));
    let mut main = WatchedMain::new(Host { answer: None });
    let mut trace = Trace::new(rt.alloc());
    let outcome = run.drive(&component, &mut store, &mut main, 16, &mut trace);
    assert!(rt; matches!(outcome, Ok(Outcome::Idle)));
    assert!(rt; trace.labels().len() == 11);
    let result = CALLEE.finish_call_concurrent(&mut store, &mut call);
    assert!(rt; matches!(result, Poll::Ready(9)));
    run.end(&mut store);
    assert!(rt; main.into_main().answer.is_none());
    assert!(rt; run_concurrent(&mut store, true).is_ok());
}

// The first label and the outcome of a run without calls.
fn ran(
    rt: &impl Abort,
    alloc: Global,
    answer: Option<u64>,
) -> (Option<Label>, Result<Outcome, NoMemory>) {
    let component = component(rt, alloc);
    let mut store = store(rt, alloc, &component);
    let Ok(mut run) = run_concurrent(&mut store, true) else {
        panic!(rt; "a run")
    };
    let mut main = Host { answer };
    let mut trace = Trace::new(alloc);
    let outcome = run.drive(&component, &mut store, &mut main, 9, &mut trace);
    assert!(rt; store.trapped() == answer.is_none());
    (trace.labels().next(), outcome)
}

#[test]
fn a_run_ends_where_main_answers_or_nothing_goes_on(rt: HostRuntime) {
    let (first, outcome) = ran(&rt, rt.alloc(), Some(5));
    assert!(rt; matches!(outcome, Ok(Outcome::Done(5))));
    assert!(rt; matches!(first, Some(Label::Main(MainLabel::Answer(5)))));
    let (first, outcome) = ran(&rt, rt.alloc(), None);
    assert!(rt; matches!(outcome, Ok(Outcome::Deadlock(Trap::AsyncDeadlock))));
    assert!(rt; matches!(first, Some(Label::Loop(LoopLabel::MainPends))));
}

// What the return of a thread that has just begun results in, with this type.
fn returned(rt: &impl Abort, alloc: Global, ty: u32) -> Result<(), TaskError> {
    let component = component(rt, alloc);
    let mut store = store(rt, alloc, &component);
    called(rt, &component, &mut store);
    let Ok(mut run) = run_concurrent(&mut store, true) else {
        panic!(rt; "a run")
    };
    let mut main = Host { answer: None };
    let mut trace = Trace::new(alloc);
    let outcome = run.drive(&component, &mut store, &mut main, 2, &mut trace);
    let Ok(Outcome::OutOfSteps) = outcome else {
        panic!(rt; "a thread that runs")
    };
    let Some(thread) = store.state.current() else {
        panic!(rt; "a thread")
    };
    let instance = Instance {
        index: store.state.instance_of(thread),
    };
    instance.task_return(&component, &mut store, ty, 0, 0, 7)
}

#[test]
fn a_return_needs_the_task_s_own_type(rt: HostRuntime) {
    assert!(rt; returned(&rt, rt.alloc(), 0).is_ok());
    let bad = returned(&rt, rt.alloc(), 1);
    assert!(rt; matches!(bad, Err(TaskError::Trap(Trap::TaskReturnInvalid))));
}
