//! Runs that an error of the hook ends: the labels that they added, and what the hook was told.
ghost use Rattle.machine_data.specs.declared.scenario.Version.TheVariants as versions;
ghost use Rattle.std.specs.Prelude.{◌≡◌, false, length};
ghost use Rattle.store_works.specs.KeptWorks.{HoldsNone};
ghost use Rattle.machine_data.specs.Core.{fresh};
ghost use Rattle.core_records.specs.Seen.{nothing};
ghost use Rattle.task_run.specs.Runnable.{IsRunnable};
ghost use Rattle.core_primitives.specs.Groups.{IsAsked};
ghost use Rattle.core_primitives.specs.StateView.{with_core};

use crate::driven::{ENTER, EXIT, FINISH, START, TWO_CALLS, Watched, watched};
use machine_data::{LoopLabel, MainLabel, NoMemory, TaskLabel, Trap};
use std::alloc::Global;
use std::cell::Cell;
use std::process::Abort;
use task_loop::{Label, Outcome, RunPoll, TaskError, Trace, run_concurrent};
use task_run::{Scenario, ScriptMain, read_scenario};

// A trace is written down as a digit for each label.
fn written(label: Label) -> u64 {
    match label {
        Label::Main(MainLabel::Start(_, _)) => 1,
        Label::Loop(LoopLabel::MainPends) => 2,
        Label::Take(_) => 3,
        Label::Task(TaskLabel::Ret(_, _)) => 4,
        Label::Task(TaskLabel::Exit(_)) => 5,
        _ => 9,
    }
}

fn digits(trace: &Trace) -> u64 {
    let mut all: u64 = 0;
    for label in trace.labels() {
        all = all.wrapping_mul(10).wrapping_add(written(label));
    }
    all
}

// What a drive of the scenario results in in the store.
fn driven(
    rt: &impl Abort,
    alloc: Global,
    scenario: &Scenario,
    store: &mut Watched<'_>,
    trace: &mut Trace,
) -> Result<Outcome, NoMemory>
    requires runnable { IsRunnable scenario.now }
    requires one { length scenario.now.component.instances ≡ 1 }
    requires fresh { store.old.state ≡ with_core (fresh versions.One 1 100000 scenario.now.table) nothing }
    requires works { HoldsNone store.old.works }
    requires groups { IsAsked store.old.state }
    requires free { store.old.running ≡ false }
{
    let Ok(mut run) = run_concurrent(store, true) else {
        panic!(rt; "a run")
    };
    let mut main = ScriptMain::new(alloc, scenario.main.as_slice());
    let driven = run.drive(&scenario.component, store, &mut main, 40, trace);
    driven
}

// What a poll of it answers.
fn polled(
    rt: &impl Abort,
    alloc: Global,
    scenario: &Scenario,
    store: &mut Watched<'_>,
    trace: &mut Trace,
) -> Result<RunPoll, TaskError>
    requires runnable { IsRunnable scenario.now }
    requires one { length scenario.now.component.instances ≡ 1 }
    requires fresh { store.old.state ≡ with_core (fresh versions.One 1 100000 scenario.now.table) nothing }
    requires works { HoldsNone store.old.works }
    requires groups { IsAsked store.old.state }
    requires free { store.old.running ≡ false }
{
    let Ok(mut run) = run_concurrent(store, true) else {
        panic!(rt; "a run")
    };
    let mut main = ScriptMain::new(alloc, scenario.main.as_slice());
    let polled = run.poll(&scenario.component, store, &mut main, 40, trace);
    polled
}

// A hook that fails at this notice ends the run, driven or polled, after these labels, and is told just that.
fn stops(rt: &impl Abort, alloc: Global, polls: bool, notice: u64, labels: u64, want: u64) {
    let Ok(scenario) = read_scenario(alloc, TWO_CALLS) else {
        panic!(rt; "a scenario")
    };
    assert!(rt; scenario.component.instances.len() == 1);
    let told = Cell::new(0);
    let mut store = watched(rt, alloc, &told, scenario.table, notice);
    let mut trace = Trace::new(alloc);
    if polls {
        let polled = polled(rt, alloc, &scenario, &mut store, &mut trace);
        assert!(rt; matches!(polled, Err(TaskError::Trap(Trap::HookFailed))));
    } else {
        let driven = driven(rt, alloc, &scenario, &mut store, &mut trace);
        assert!(rt; matches!(driven, Ok(Outcome::Trap(Trap::HookFailed))));
    }
    assert!(rt; store.trapped());
    assert!(rt; digits(&trace) == labels);
    assert!(rt; told.get() == want);
}

// Main's own start adds no label. A step of a guest that exits is made, and told up to its exit; one that finishes a group is
// told whole.
#[test]
fn a_drive_stops_at_the_notice(rt: HostRuntime) {
    stops(&rt, rt.alloc(), false, START + 2, 1, 11_12_41);
    stops(&rt, rt.alloc(), false, ENTER + 1, 1123, 11_12_21_41_42);
    stops(&rt, rt.alloc(), false, EXIT + 1, 112_345, 11_12_21_31_41_42);
    stops(
        &rt,
        rt.alloc(),
        false,
        FINISH + 1,
        112_345,
        11_12_21_31_41_42,
    );
}

#[test]
fn a_poll_stops_at_the_notice(rt: HostRuntime) {
    stops(&rt, rt.alloc(), true, START + 2, 1, 11_12_41);
    stops(&rt, rt.alloc(), true, ENTER + 1, 1123, 11_12_21_41_42);
    stops(&rt, rt.alloc(), true, EXIT + 1, 112_345, 11_12_21_31_41_42);
    stops(
        &rt,
        rt.alloc(),
        true,
        FINISH + 1,
        112_345,
        11_12_21_31_41_42,
    );
}
