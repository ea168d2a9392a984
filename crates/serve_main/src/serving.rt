//! Requests are served by the component of a scenario.
ghost use Rattle.serve_main.specs.Knows.{AllTaken};
ghost use Rattle.serve_main.specs.Serves.{IsServedBy, IsServedOf};
ghost use Rattle.text_scenario.specs.Grammar.{IsBadLine};
ghost use Rattle.std.specs.Prelude.{◌≡◌, ◌<◌, ◌≤◌, ℕ, IfOk, IsErrOf, IsOkUnless, length};
ghost use Rattle.task_run.specs.Lower.{Reads};
ghost use Rattle.task_run.specs.Runnable.{IsRunnable};
ghost use Rattle.task_run.specs.declared.scenario.Scenario.{Scenario};

use crate::server::ServerMain;
use machine_data::NoMemory;
use serve_requests::{Reply, Request};
use std::alloc::Global;
use task_loop::{Outcome, Trace, run_concurrent};
use task_run::{RunError, Scenario, new_store, read_scenario, traps_on_idle};
use task_store::{ScriptedHost, Store};

/// What came of requests: a reply for each, in their order, and the run's steps and its end.
#[derive(Drop)]
pub struct Served {
    pub replies: Vec<Reply>,
    pub trace: Trace,
    pub outcome: Outcome,
}

// Serves requests by the component of a scenario that was read.
pub(crate) fn serve_scenario(
    alloc: Global,
    scenario: &Scenario,
    requests: &[Request],
    limit: u32,
    steps: u32,
) -> Result<Served, NoMemory>
    requires runnable { IsRunnable scenario.now }
    requires taken { AllTaken scenario.now.component requests.now }
    requires few { length requests.now ≤ 10000 }
    requires some { 1 ≤ limit }
    requires most { limit ≤ 1024 }
    requires one { 0 < steps }
    requires last { steps ≤ 1000000 }
    ensures { IfOk result (λ served. IsServedBy scenario.now requests.now limit steps served) }
{
    let mut store: Store<(), ScriptedHost> = new_store(
        alloc,
        (),
        scenario.rules,
        scenario.component.instances.len(),
        scenario.handles,
        scenario.table,
    )?;
    let Ok(mut run) = run_concurrent(&mut store, traps_on_idle(scenario.idle)) else {
        unreachable!()
    };
    let mut main = ServerMain::new(alloc, requests, limit)?;
    let mut trace = Trace::new(alloc);
    let driven = run.drive(
        &scenario.component,
        &mut store,
        &mut main,
        steps,
        &mut trace,
    );
    let Ok(outcome) = driven else {
        return Err(NoMemory);
    };
    run.end(&mut store);
    let replies = main.replies(alloc)?;
    Ok(Served {
        replies,
        trace,
        outcome,
    })
}

/// Serves requests, of which there are at most 10,000, by the component of the scenario of a text of at most 1,048,576 bytes, whose main
/// isn't run, in at most `steps` steps, 1 to 1,000,000. At most `limit` calls, 1 to 1,024, are open at once, and the requests are
/// started in their order. Each request names an export of the text, and has a word for each of its parameters. A text that is no
/// scenario is refused at its first bad line.
pub fn serve(
    alloc: Global,
    text: &[u8],
    requests: &[Request],
    limit: u32,
    steps: u32,
) -> Result<Served, RunError>
    requires text { length text.now ≤ 1048576 }
    requires taken { (x : Scenario) → Reads text.now x → AllTaken x.component requests.now }
    requires few { length requests.now ≤ 10000 }
    requires limit { (1 ≤ limit) × (limit ≤ 1024) }
    requires steps { (0 < steps) × (steps ≤ 1000000) }
    ensures served { IfOk result (λ served. IsServedOf text.now requests.now limit steps served) }
    ensures refused { (n : ℕ) → IsErrOf result (RunError.BadScenario n) → IsBadLine text.now n }
    ensures only { (x : Scenario) → Reads text.now x → IsOkUnless result RunError.NoMemory }
{
    let scenario = read_scenario(alloc, text)?;
    match serve_scenario(alloc, &scenario, requests, limit, steps) {
        Ok(served) => Ok(served),
        Err(_) => Err(RunError::NoMemory),
    }
}
