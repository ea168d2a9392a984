//! A work that a host spawns before a run: it is polled in the run, or aborted.
ghost use Rattle.machine_data.specs.declared.scenario.Version.TheVariants as versions;
ghost use Rattle.std.specs.Prelude.{◌≡◌, false, length};
ghost use Rattle.store_works.specs.KeptWorks.{HoldsNone};
ghost use Rattle.machine_data.specs.Core.{fresh};
ghost use Rattle.machine_data.specs.declared.component.Component.{Component};
ghost use Rattle.machine_data.specs.declared.records.Turn.{Turn};
ghost use Rattle.core_records.specs.Seen.{nothing};
ghost use Rattle.task_run.specs.Runnable.{IsRunnable};
ghost use Rattle.core_primitives.specs.Groups.{IsAsked};
ghost use Rattle.task_store.specs.Hosts.{HoldsHosts};
ghost use Rattle.ops_turns.specs.Turn.{CoreInOrder, given};
ghost use Rattle.core_primitives.specs.StateView.{with_core};

use crate::driven::{TWO_CALLS, Watched, watched};
use machine_data::{HostDef, LoopLabel, Phase};
use std::alloc::Global;
use std::cell::Cell;
use std::process::Abort;
use store_works::FromHost;
use task_loop::{Label, Outcome, Trace, run_concurrent};
use task_run::{Scenario, ScriptMain, read_scenario};
use task_store::ScriptedHost;

// Spawns a work in a new store, and asks that it end where `aborts` says so.
fn spawns(rt: &impl Abort, store: &mut Watched<'_>, table: u32, aborts: bool)
    requires fresh { store.old.state ≡ with_core (fresh versions.One 1 100000 table) nothing }
    requires works { HoldsNone store.old.works }
    ensures order { (c : Component) (p : Turn) → CoreInOrder c p store.old.state.core → CoreInOrder c p store.new.state.core }
    ensures given { given store.new.state.core ≡ 1 }
    ensures current { store.new.state.current ≡ store.old.state.current }
    ensures hosts { HoldsHosts (λ (w : ScriptedHost). w.left) store.new }
    ensures groups { IsAsked store.old.state → IsAsked store.new.state }
    ensures running { store.new.running ≡ store.old.running }
{
    let work = ScriptedHost::from_host(
        0,
        HostDef::Settled {
            polls: Some(1),
            value: Some(3),
        },
    );
    let Ok(spawn) = store.spawn(work) else {
        panic!(rt; "no memory")
    };
    if aborts {
        assert!(rt; matches!(spawn.abort(store), Phase::Running));
    }
}

// What a drive of the scenario results in in the store.
fn driven(
    rt: &impl Abort,
    alloc: Global,
    scenario: &Scenario,
    store: &mut Watched<'_>,
    aborts: bool,
    trace: &mut Trace,
) -> Outcome
    requires runnable { IsRunnable scenario.now }
    requires one { length scenario.now.component.instances ≡ 1 }
    requires fresh { store.old.state ≡ with_core (fresh versions.One 1 100000 scenario.now.table) nothing }
    requires works { HoldsNone store.old.works }
    requires groups { IsAsked store.old.state }
    requires free { store.old.running ≡ false }
{
    spawns(rt, store, scenario.table, aborts);
    let Ok(mut run) = run_concurrent(store, true) else {
        panic!(rt; "a run")
    };
    let mut main = ScriptMain::new(alloc, scenario.main.as_slice());
    let Ok(outcome) = run.drive(&scenario.component, store, &mut main, 40, trace) else {
        panic!(rt; "no memory")
    };
    run.end(store);
    outcome
}

// The labels of the work's polls, a digit for each.
fn polls(trace: &Trace) -> u64 {
    let mut all: u64 = 0;
    for label in trace.labels() {
        let digit = match label {
            Label::Loop(LoopLabel::FuturePends(1)) => 1,
            Label::Loop(LoopLabel::FutureEnds(1)) => 2,
            _ => continue,
        };
        all = all.wrapping_mul(10).wrapping_add(digit);
    }
    all
}

// A run after the spawn shows these polls of the work.
fn shows(rt: &impl Abort, alloc: Global, aborts: bool, want: u64) {
    let Ok(scenario) = read_scenario(alloc, TWO_CALLS) else {
        panic!(rt; "a scenario")
    };
    assert!(rt; scenario.component.instances.len() == 1);
    let told = Cell::new(0);
    let mut store = watched(rt, alloc, &told, scenario.table, 0);
    let mut trace = Trace::new(alloc);
    let outcome = driven(rt, alloc, &scenario, &mut store, aborts, &mut trace);
    assert!(rt; matches!(outcome, Outcome::Done(7)));
    assert!(rt; polls(&trace) == want);
}

#[test]
fn a_work_spawned_before_a_run_is_polled_in_it(rt: HostRuntime) {
    shows(&rt, rt.alloc(), false, 12);
    shows(&rt, rt.alloc(), true, 2);
}
