//! Runs under choices of a scenario that was read.
ghost use Rattle.machine_rules.specs.Scripts.{HasOpen};
ghost use Rattle.task_run.specs.Runnable.{IsRunnable};

use crate::texts::TWO_WAITERS;
use choice_run::{RunEnd, read_choices, run_chosen, run_on};
use std::alloc::Global;
use std::process::Abort;
use task_run::{Scenario, read_scenario};

/// Reads the scenario with two waiters.
pub(crate) fn scenario(rt: &impl Abort, alloc: Global) -> Scenario
    ensures runnable { IsRunnable result }
    ensures hosts { HasOpen result.component → ⊥ }
{
    match read_scenario(alloc, TWO_WAITERS) {
        Ok(scenario) => scenario,
        Err(_) => panic!(rt; "no scenario"),
    }
}

#[test]
fn a_run_stops_where_no_choice_is_left(rt: HostRuntime) {
    let alloc = rt.alloc();
    let scenario = scenario(&rt, alloc);
    let Ok(RunEnd::Short(labels, offer)) = run_on(alloc, &scenario, 1000, &[]) else {
        panic!(&rt; "no open step")
    };
    assert!(rt; labels == 24);
    assert!(rt; offer.waiters.as_slice() == [2, 3].as_slice());
}

#[test]
fn a_run_takes_the_choice(rt: HostRuntime) {
    let alloc = rt.alloc();
    let scenario = scenario(&rt, alloc);
    let Ok(choices) = read_choices(alloc, b"choose wake 3\n", 1) else {
        panic!(&rt; "no choices")
    };
    let Ok(report) = run_chosen(alloc, &scenario, 1000, choices.as_slice()) else {
        panic!(&rt; "no report")
    };
    assert!(rt; report.used == 1);
}
