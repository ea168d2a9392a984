//! Polls of a run.
ghost use Rattle.machine_data.specs.declared.scenario.Version.TheVariants as versions;
ghost use Rattle.std.specs.Prelude.{◌≡◌, ◌*◌, ◌+◌, ◌≤◌, IfSome, IsSome, None, length};
ghost use Rattle.store_works.specs.KeptWorks.{HoldsNone};
ghost use Rattle.task_loop.specs.LoopCalls.{callee_of};
ghost use Rattle.task_loop.specs.HasRun.{MayRun, at};
ghost use Rattle.machine_data.specs.Core.{fresh};
ghost use Rattle.core_records.specs.Seen.{nothing};
ghost use Rattle.machine_rules.specs.Scripts.{export_at};
ghost use Rattle.task_run.specs.Runnable.{IsRunnable};
ghost use Rattle.core_primitives.specs.Groups.{IsAsked};
ghost use Rattle.task_store.specs.Hosts.{HoldsHosts};
ghost use Rattle.ops_turns.specs.Turn.{CoreInOrder, given, running_of};
ghost use Rattle.ops_turns.specs.WellFormed.{IsWellFormed};
ghost use Rattle.core_primitives.specs.StateView.{with_core};

use crate::drive::{CALLEE, Host, component, new_store, store};
use machine_data::{LoopLabel, MainLabel, Mark, TakeLabel, TaskLabel, Trap, Turn};
use std::alloc::Global;
use std::process::Abort;
use task_group::NoHook;
use task_loop::{
    Component, Label, MainTask, Outcome, RunConcurrent, RunPoll, TaskError, Trace, run_concurrent,
};
use task_run::{Scenario, ScriptMain, read_scenario};
use task_store::{AccessorTask, FromHost, HostWork, ScriptedHost, Store};

// Main calls an export with 7, and answers what it returns.
const ONE_CALL: &[u8] =
    b"scenario 1\nhandles 100000\ntable 1000000\nidle trap\ninstance a\nexport f callback 1\nret r0\nexit\nmain\nstart a.f 7\nfinish 1 r0\nanswer r0\nend\n";

// What a poll of at most so many steps answers in a run without calls.
fn polled(
    rt: &impl Abort,
    alloc: Global,
    answer: Option<u64>,
    steps: u32,
) -> Result<RunPoll, TaskError> {
    let component = component(rt, alloc);
    let mut store = store(rt, alloc, &component);
    let Ok(mut run) = run_concurrent(&mut store, true) else {
        panic!(rt; "a run")
    };
    let mut main = Host { answer };
    let mut trace = Trace::new(alloc);
    run.poll(&component, &mut store, &mut main, steps, &mut trace)
}

#[test]
fn a_poll_answers_what_the_run_resulted_in(rt: HostRuntime) {
    let done = polled(&rt, rt.alloc(), Some(5), 9);
    assert!(rt; matches!(done, Ok(RunPoll::Done(5))));
    let yielded = polled(&rt, rt.alloc(), None, 1);
    assert!(rt; matches!(yielded, Ok(RunPoll::Yielded)));
    let trapped = polled(&rt, rt.alloc(), None, 2);
    assert!(rt; matches!(trapped, Err(TaskError::Trap(Trap::AsyncDeadlock))));
}

// Polls the run a step at a time until main has answered: how often it yielded, and the answer.
fn polled_by_steps<H: AccessorTask<()> + FromHost, M: MainTask<(), H, NoHook>>(
    rt: &impl Abort,
    component: &Component,
    store: &mut Store<(), H>,
    run: &mut RunConcurrent,
    main: &mut M,
    trace: &mut Trace,
) -> (u32, u64)
    requires may { MayRun M.says H.course component.now (at run.old main.old store.old trace.old) }
    requires given { given store.old.state.core ≡ 0 }
{
    let mut yields = 0;
    'polls: while yields < 9 {
        match run.poll(component, store, main, 1, trace) {
            Ok(RunPoll::Yielded) => yields += 1,
            Ok(RunPoll::Done(value)) => return (yields, value),
            _ => panic!(rt; "a run that goes on"),
        }
    }
    panic!(rt; "an answer")
}

// Polls a run of a scenario in a new store.
fn ran_by_steps(
    rt: &impl Abort,
    alloc: Global,
    scenario: &Scenario,
    store: &mut Store<(), ScriptedHost>,
    trace: &mut Trace,
) -> (u32, u64)
    requires runnable { IsRunnable scenario.now }
    requires one { length scenario.now.component.instances ≡ 1 }
    requires fresh { store.old.state ≡ with_core (fresh versions.One 1 100000 1000000) nothing }
    requires works { HoldsNone store.old.works }
    requires groups { IsAsked store.old.state }
{
    let Ok(mut run) = run_concurrent(store, true) else {
        panic!(rt; "a run")
    };
    let mut main = ScriptMain::new(alloc, scenario.main.as_slice());
    polled_by_steps(rt, &scenario.component, store, &mut run, &mut main, trace)
}

#[test]
fn a_run_is_polled_a_step_at_a_time(rt: HostRuntime) {
    let Ok(scenario) = read_scenario(rt.alloc(), ONE_CALL) else {
        panic!(rt; "a scenario")
    };
    assert!(rt; scenario.component.instances.len() == 1);
    let mut store = new_store(&rt, rt.alloc());
    let mut trace = Trace::new(rt.alloc());
    let (yields, answer) = ran_by_steps(&rt, rt.alloc(), &scenario, &mut store, &mut trace);
    assert!(rt; yields == 6 && answer == 7);
    assert!(rt; trace.labels().len() == 7);
    let mut labels = trace.labels();
    assert!(rt; matches!(labels.next(), Some(Label::Main(MainLabel::Start(1, 1)))));
    assert!(rt; matches!(labels.next(), Some(Label::Loop(LoopLabel::MainPends))));
    assert!(rt;
        matches!(
            labels.next(),
            Some(Label::Take(TakeLabel::Thread(Mark::High, 1)))
        )
    );
    assert!(rt; matches!(labels.next(), Some(Label::Task(TaskLabel::Ret(1, 7)))));
    assert!(rt; matches!(labels.next(), Some(Label::Task(TaskLabel::Exit(1)))));
    assert!(rt; matches!(labels.next(), Some(Label::Main(MainLabel::Finish(1, 7)))));
    assert!(rt; matches!(labels.next(), Some(Label::Main(MainLabel::Answer(7)))));
}

// Starts so many calls of the export.
fn call_often<H: HostWork>(
    rt: &impl Abort,
    component: &Component,
    store: &mut Store<(), H>,
    count: u32,
)
    requires covered { IsWellFormed component.now }
    requires there { IsSome (export_at component.now (callee_of CALLEE)) }
    requires params { IfSome (export_at component.now (callee_of CALLEE)) (λ e. 1 ≡ e.params) }
    requires order { (p : Turn) × CoreInOrder component.now p store.old.state.core }
    requires given { given store.old.state.core ≤ 10000 }
    requires few { count ≤ 1000 }
    requires current { running_of store.old.state ≡ None }
    requires hosts { HoldsHosts H.course store.old }
    requires groups { IsAsked store.old.state }
    ensures order { (p : Turn) → CoreInOrder component.now p store.old.state.core → CoreInOrder component.now p store.new.state.core }
    ensures given { given store.new.state.core ≤ given store.old.state.core + 2 * count }
    ensures current { running_of store.new.state ≡ None }
    ensures hosts { HoldsHosts H.course store.new }
    ensures groups { IsAsked store.new.state }
{
    let mut calls = 0;
    'calls: while calls < count {
        match CALLEE.start_call_concurrent(component, store, &[7]) {
            Ok(_) => calls += 1,
            Err(_) => panic!(rt; "a call"),
        }
    }
}

// A call's run has 10 labels: one of its entry's taking, 8 of its ops, and that main waits.
#[test]
fn entries_that_a_drive_took_until_it_was_idle_count(rt: HostRuntime) {
    let component = component(&rt, rt.alloc());
    let mut store = store(&rt, rt.alloc(), &component);
    call_often(&rt, &component, &mut store, 100);
    let Ok(mut run) = run_concurrent(&mut store, false) else {
        panic!(rt; "a run")
    };
    let mut main = Host { answer: None };
    let mut trace = Trace::new(rt.alloc());
    let Ok(Outcome::Idle) = run.drive(&component, &mut store, &mut main, 2000, &mut trace) else {
        panic!(rt; "a run that is idle")
    };
    assert!(rt; trace.labels().len() == 1001);
    call_often(&rt, &component, &mut store, 100);
    let polled = run.poll(&component, &mut store, &mut main, 2000, &mut trace);
    let Ok(RunPoll::Yielded) = polled else {
        panic!(rt; "a run that yields")
    };
    assert!(rt; trace.labels().len() == 1281);
    let polled = run.poll(&component, &mut store, &mut main, 2000, &mut trace);
    assert!(rt; matches!(polled, Ok(RunPoll::Idle)));
    assert!(rt; trace.labels().len() == 2001);
}
