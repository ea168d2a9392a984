//! One step of a run in a store with a hook.
ghost use Rattle.core_primitives.specs.Groups.{IsAsked};
ghost use Rattle.core_primitives.specs.StateView.{with_core};
ghost use Rattle.core_records.specs.Seen.{nothing};
ghost use Rattle.machine_data.specs.Core.{fresh};
ghost use Rattle.machine_data.specs.declared.scenario.Version.TheVariants as versions;
ghost use Rattle.std.specs.Prelude.{◌≡◌, false, length};
ghost use Rattle.store_works.specs.KeptWorks.{HoldsNone};
ghost use Rattle.task_run.specs.Runnable.{IsRunnable};

use crate::driven::{START, TWO_CALLS, Watched, watched};
use machine_data::{Trap, Turn};
use std::alloc::Global;
use std::cell::Cell;
use std::process::Abort;
use task_loop::{TaskError, Trace, run_concurrent};
use task_run::{Scenario, ScriptMain, read_scenario};

// What the first step of the scenario answers in the store.
fn first_step(
    rt: &impl Abort,
    alloc: Global,
    scenario: &Scenario,
    store: &mut Watched<'_>,
) -> Result<Option<Turn>, TaskError>
    requires runnable { IsRunnable scenario.now }
    requires one { length scenario.now.component.instances ≡ 1 }
    requires fresh { store.old.state ≡ with_core (fresh versions.One 1 100000 scenario.now.table) nothing }
    requires works { HoldsNone store.old.works }
    requires groups { IsAsked store.old.state }
    requires free { store.old.running ≡ false }
{
    let Ok(mut run) = run_concurrent(store, true) else {
        panic!(rt; "a run")
    };
    let mut trace = Trace::new(alloc);
    let mut main = ScriptMain::new(alloc, scenario.main.as_slice());
    let answer = run.step(&scenario.component, store, &mut main, &mut trace);
    run.end(store);
    answer
}

// The same with a hook that fails at this notice.
fn stepped(rt: &impl Abort, alloc: Global, fails: u64) -> Result<Option<Turn>, TaskError> {
    let Ok(scenario) = read_scenario(alloc, TWO_CALLS) else {
        panic!(rt; "a scenario")
    };
    assert!(rt; scenario.component.instances.len() == 1);
    let told = Cell::new(0);
    let mut store = watched(rt, alloc, &told, scenario.table, fails);
    first_step(rt, alloc, &scenario, &mut store)
}

#[test]
fn a_step_says_whose_turn_it_is(rt: HostRuntime) {
    let alloc = rt.alloc();
    assert!(rt; matches!(stepped(&rt, alloc, 0), Ok(Some(Turn::Main))));
    assert!(rt;
        matches!(
            stepped(&rt, alloc, START + 1),
            Err(TaskError::Trap(Trap::HookFailed))
        )
    );
}
