//! A host's own type of works.
ghost use Rattle.machine_data.specs.declared.scenario.Version.TheVariants as versions;
ghost use Rattle.std.specs.Prelude.{◌≡◌, ◌≤◌, false, length};
ghost use Rattle.store_works.specs.KeptWorks.{HoldsNone};
ghost use Rattle.machine_data.specs.Core.{fresh};
ghost use Rattle.core_records.specs.Seen.{nothing};
ghost use Rattle.task_run.specs.Runnable.{IsRunnable};
ghost use Rattle.core_primitives.specs.Groups.{IsAsked};
ghost use Rattle.core_primitives.specs.StateView.{with_core};

use host_watch::WatchedWork;
use machine_data::HostDef;
use std::alloc::Global;
use std::process::Abort;
use task_loop::{Outcome, Trace, run_concurrent};
use task_run::{Scenario, ScriptMain, read_scenario};
use task_store::{AccessorTask, FromHost, HostPoll, HostWork, Store};

// Main spawns a work and awaits it; an export calls the host and waits for it.
const SPAWNED: &[u8] =
    b"scenario 1\nhandles 100000\ntable 1000000\nidle trap\nhost h polls 2 value 7\ninstance a\nexport f stackful 0\ncall_sync r0 h\nret r0\nmain\nspawn h\nawait 1\nanswer 0\nend\n";

// Main calls that export.
const CALLED: &[u8] =
    b"scenario 1\nhandles 100000\ntable 1000000\nidle trap\nhost h polls 2 value 7\ninstance a\nexport f stackful 0\ncall_sync r0 h\nret r0\nmain\nstart a.f\nfinish 1 r1\nanswer r1\nend\n";

// The work fails.
const FAILING: &[u8] =
    b"scenario 1\nhandles 100000\ntable 1000000\nidle trap\nhost h polls 1 fail\ninstance a\nexport f callback 0\nexit\nmain\nspawn h\nawait 1\nanswer 0\nend\n";

// It never ends, and main aborts it.
const ABORTED: &[u8] =
    b"scenario 1\nhandles 100000\ntable 1000000\nidle trap\nhost h never\ninstance a\nexport f callback 0\nexit\nmain\nspawn h\nabort 1\nawait 1\nanswer 0\nend\n";

// A work that counts its polls in the host's value.
#[derive(Drop)]
struct Counting {
    left: HostDef,
}

impl HostWork for Counting {
    ghost course = { λ work. work.left };

    fn left(&self) -> HostDef {
        self.left
    }
}

impl AccessorTask<u64> for Counting {
    fn poll(&mut self, host: &mut u64) -> HostPoll {
        *host = host.saturating_add(1);
        let HostDef::Settled { polls, value } = self.left else {
            return HostPoll::Pending;
        };
        match polls {
            None => HostPoll::Pending,
            Some(0) => match value {
                Some(value) => HostPoll::Value(value),
                None => HostPoll::Failed,
            },
            Some(polls) => {
                let polls = Some(polls - 1);
                self.left = HostDef::Settled { polls, value };
                HostPoll::Pending
            }
        }
    }
}

impl FromHost for Counting {
    fn from_host(_place: u32, def: HostDef) -> Self {
        Counting { left: def }
    }
}

// A new store with one instance, whose value counts.
fn new_store(rt: &impl Abort, alloc: Global) -> Store<u64, WatchedWork<Counting>>
    ensures state { result.state ≡ with_core (fresh versions.One 1 100000 1000000) nothing }
    ensures works { HoldsNone result.works }
    ensures groups { IsAsked result.state }
    ensures running { result.running ≡ false }
{
    let mut store: Store<u64, WatchedWork<Counting>> = Store::new(alloc, 0, true, 1);
    match store.add_instance() {
        Ok(_) => store,
        Err(_) => panic!(rt; "no memory"),
    }
}

// What the scenario results in in the store.
fn drive(
    rt: &impl Abort,
    alloc: Global,
    scenario: &Scenario,
    store: &mut Store<u64, WatchedWork<Counting>>,
) -> Outcome
    requires runnable { IsRunnable scenario.now }
    requires one { length scenario.now.component.instances ≡ 1 }
    requires fresh { store.old.state ≡ with_core (fresh versions.One 1 100000 1000000) nothing }
    requires works { HoldsNone store.old.works }
    requires groups { IsAsked store.old.state }
    requires free { store.old.running ≡ false }
{
    let Ok(mut run) = run_concurrent(store, true) else {
        panic!(rt; "a run")
    };
    let mut trace = Trace::new(alloc);
    let mut main = ScriptMain::new(alloc, scenario.main.as_slice());
    let driven = run.drive(&scenario.component, store, &mut main, 40, &mut trace);
    let Ok(outcome) = driven else {
        panic!(rt; "no memory")
    };
    run.end(store);
    outcome
}

// What the text's scenario results in, and how often its works were polled.
fn ran(rt: &impl Abort, alloc: Global, text: &[u8]) -> (Outcome, u64)
    requires { length text.now ≤ 1048576 }
{
    let Ok(scenario) = read_scenario(alloc, text) else {
        panic!(rt; "a scenario")
    };
    assert!(rt; scenario.component.instances.len() == 1);
    let mut store = new_store(rt, alloc);
    let outcome = drive(rt, alloc, &scenario, &mut store);
    (outcome, *store.data())
}

#[test]
fn a_work_is_polled_once_a_turn_until_it_ends(rt: HostRuntime) {
    let (outcome, polls) = ran(&rt, rt.alloc(), SPAWNED);
    assert!(rt; matches!(outcome, Outcome::Done(0)) && polls == 3);
    let (outcome, polls) = ran(&rt, rt.alloc(), CALLED);
    assert!(rt; matches!(outcome, Outcome::Done(7)) && polls == 3);
}

#[test]
fn a_work_that_fails_ends_the_run(rt: HostRuntime) {
    let (outcome, polls) = ran(&rt, rt.alloc(), FAILING);
    assert!(rt; matches!(outcome, Outcome::HostFailed(1)) && polls == 2);
}

#[test]
fn a_work_that_is_aborted_is_not_polled(rt: HostRuntime) {
    let (outcome, polls) = ran(&rt, rt.alloc(), ABORTED);
    assert!(rt; matches!(outcome, Outcome::Done(0)) && polls == 0);
}
