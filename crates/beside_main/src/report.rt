//! A report of a run beside aborters.
ghost use Rattle.std.specs.Prelude.{◌≡◌, ◌≤◌, ◌<◌, IfOk, IsErrOf, IsOkUnless, false, length, true, ℕ};
ghost use Rattle.std.specs.Thread.{IsSync};
ghost use Rattle.beside_works.specs.Aborters.{HaveRun};
ghost use Rattle.beside_main.specs.Cells.{AreEarly, AreMet, AreNew};
ghost use Rattle.beside_main.specs.Course.{Able, place};
ghost use Rattle.beside_main.specs.Report.{GoesPast, HasTaken, IsReportOf, IsReportOn, PairsWith, Reports};
ghost use Rattle.text_scenario.specs.Grammar.{IsBadLine};
ghost use Rattle.machine_data.specs.Read.{is_nil};
ghost use Rattle.machine_data.specs.declared.outcome.Outcome.TheVariants.{Idle};
ghost use Rattle.machine_data.specs.declared.records.Turn.TheVariants as turn;
ghost use Rattle.task_run.specs.Lower.{Reads};
ghost use Rattle.task_run.specs.Runnable.{IsRunnable};
ghost use Rattle.task_run.specs.declared.scenario.Scenario.{Scenario as Text};

use crate::begin::{begin, cells_of};
use crate::logs::{counts_of, logs_of};
use crate::run::BesideRun;
use beside_works::{Aborter, Gate, SharedSpawn, aborters_of, meet_all, run_aborters};
use machine_data::{Component, NoMemory, Seq};
use std::alloc::Global;
use std::sync::Wait;
use std::thread::{Threads, join};
use task_abort::LogEntry;
use task_loop::Outcome;
use task_run::{Report, Scenario, read_scenario, traps_on_idle};
use text_reader::RunError;

/// What a run beside aborters resulted in, and the log of each future that it spawned, in the order of the spawns.
#[derive(Drop)]
pub struct BesideReport {
    pub report: Report,
    pub logs: Vec<Vec<LogEntry<u32>>>,
}

// Whether nothing can go on.
fn is_idle(outcome: Outcome) -> bool
    ensures idle { result ≡ true → outcome ≡ Idle }
    ensures other { result ≡ false → outcome ≡ Idle → ⊥ }
{
    match outcome {
        Outcome::Idle => true,
        Outcome::Done(_) => false,
        Outcome::Trap(_) => false,
        Outcome::HostFailed(_) => false,
        Outcome::Deadlock(_) => false,
        Outcome::OutOfSteps => false,
    }
}

// Makes the last round of a run that can't go on, and goes on to the end. `trap` says whether it is a deadlock if nothing can go on
// past the round.
fn go_past<G: Gate>(
    beside: &mut BesideRun<'_, G>,
    component: &Component,
    trap: bool,
) -> Result<Outcome, NoMemory>
    requires able { Able component.now beside.old }
    requires turn { (place beside.old).turn ≡ turn.Take false }
    ensures { IfOk result (λ o. GoesPast component.now trap o beside.old beside.new) }
{
    beside.run.set_trap_on_idle(trap);
    let done = beside.last_round(component)?;
    if !done {
        return Ok(Outcome::OutOfSteps);
    }
    beside.go_on(component)
}

// The report of a run that has ended so, where so many of its own calls on each spawn were made before its last round.
fn report_of<G: Gate>(
    alloc: Global,
    beside: BesideRun<'_, G>,
    outcome: Outcome,
    early: Vec<usize>,
) -> Result<BesideReport, NoMemory>
    requires concurrent { beside.store.concurrent ≡ true }
    requires met { AreMet beside.cells.list.items }
    requires early { AreEarly beside.cells.list.items early.items }
    ensures { IfOk result (λ r. Reports beside.entry outcome early.items r) }
{
    let logs = logs_of(
        alloc,
        &beside.main.script,
        beside.cells.list.as_slice(),
        early.as_slice(),
    )?;
    let BesideRun {
        run,
        store,
        main: _,
        trace,
        cells: _,
        left: _,
    } = beside;
    let mut store = store;
    run.end(&mut store);
    let groups = store.share_notices(alloc)?;
    Ok(BesideReport {
        report: Report {
            trace,
            outcome,
            groups,
            store,
        },
        logs,
    })
}

// Runs a scenario without an aborter line.
fn run_alone<'a, G: Gate>(
    alloc: Global,
    scenario: &'a Scenario,
    gate: &'a G,
    cells: Vec<SharedSpawn>,
    steps: u32,
) -> Result<BesideReport, NoMemory>
    requires runnable { IsRunnable scenario.now }
    requires few { steps ≤ 1000000 }
    requires new { AreNew cells.items }
    requires alone { is_nil scenario.now.aborters ≡ true }
    ensures { IfOk result (λ r. IsReportOf scenario.now steps r) }
{
    let trap = traps_on_idle(scenario.idle);
    let mut beside = begin(alloc, scenario, gate, cells, steps, trap)?;
    let outcome = beside.go_on(&scenario.component)?;
    let early = counts_of(alloc, beside.cells.list.as_slice())?;
    report_of(alloc, beside, outcome, early)
}

// Runs the aborters of these lines beside one another, and gives them back.
fn run_all<R: Threads + Sync, G: Gate + Sync>(
    rt: &R,
    gate: &G,
    lines: &[Seq<u32>],
    aborters: Vec<Aborter>,
) -> Vec<Aborter>
    ensures { HaveRun lines.now aborters.items result.items }
{
    let mut aborters = aborters;
    run_aborters(rt, gate, lines, aborters.as_mut_slice());
    aborters
}

// Takes a run's steps until it is over or nothing can go on, and gives it back with what it has resulted in.
fn take_steps<'a, G: Gate>(
    component: &Component,
    beside: BesideRun<'a, G>,
) -> Result<(BesideRun<'a, G>, Outcome), NoMemory>
    requires { Able component.now beside }
    ensures { IfOk result (λ r. HasTaken component.now beside.entry r.0 r.1) }
{
    let mut beside = beside;
    let outcome = beside.go_on(component)?;
    Ok((beside, outcome))
}

// What both halves gave, if the second one wasn't refused.
fn paired<'a, G>(
    aborters: Vec<Aborter>,
    ran: Result<(BesideRun<'a, G>, Outcome), NoMemory>,
) -> Result<(Vec<Aborter>, (BesideRun<'a, G>, Outcome)), NoMemory>
    ensures { PairsWith aborters ran.entry result }
{
    match ran {
        Ok(run) => Ok((aborters, run)),
        Err(error) => Err(error),
    }
}

// The run and its aborters, beside one another, until nothing can go on.
fn run_both<'a, R: Threads + Wait + Sync, G: Gate + Sync>(
    rt: &R,
    gate: &'a G,
    component: &Component,
    lines: &[Seq<u32>],
    aborters: Vec<Aborter>,
    beside: BesideRun<'a, G>,
) -> Result<(Vec<Aborter>, (BesideRun<'a, G>, Outcome)), NoMemory>
    requires { Able component.now beside }
    ensures { IfOk result (λ r. HaveRun lines.now aborters.items r.0.items × HasTaken component.now beside.entry r.1.0 r.1.1) }
{
    let both = join(
        rt,
        move ||
            requires { IsSync R.row }
            ensures { HaveRun lines.entry.now aborters.items result.items }
        { run_all(rt, gate, lines, aborters) },
        move ||
            requires { Able component.now beside }
            ensures { IfOk result (λ r. HasTaken component.entry.now beside.entry r.0 r.1) }
        { take_steps(component, beside) },
    );
    let (aborters, ran) = both;
    paired(aborters, ran)
}

// Runs a scenario beside its aborters.
fn run_with<'a, R: Threads + Wait + Sync, G: Gate + Sync>(
    rt: &R,
    alloc: Global,
    scenario: &'a Scenario,
    gate: &'a G,
    cells: Vec<SharedSpawn>,
    steps: u32,
) -> Result<BesideReport, NoMemory>
    requires runnable { IsRunnable scenario.now }
    requires few { steps ≤ 1000000 }
    requires new { AreNew cells.items }
    requires some { is_nil scenario.now.aborters ≡ false }
    ensures { IfOk result (λ r. IsReportOf scenario.now steps r) }
{
    let mut cells = cells;
    let lines = scenario.aborters.as_slice();
    let component = &scenario.component;
    let aborters = aborters_of(alloc, &mut cells, lines)?;
    let beside = begin(alloc, scenario, gate, cells, steps, false)?;
    let ran = run_both(rt, gate, component, lines, aborters, beside)?;
    let (aborters, (beside, outcome)) = ran;
    let mut beside = beside;
    meet_all(&mut beside.cells.list, aborters)?;
    let early = counts_of(alloc, beside.cells.list.as_slice())?;
    if !is_idle(outcome) {
        return report_of(alloc, beside, outcome, early);
    }
    let trap = traps_on_idle(scenario.idle);
    let outcome = go_past(&mut beside, component, trap)?;
    report_of(alloc, beside, outcome, early)
}

// Whether there is no line.
fn has_none(lines: &[Seq<u32>]) -> bool
    ensures { result ≡ is_nil lines.now }
{
    if lines.len() < 1 {
        return true;
    }
    false
}

// Runs a scenario in a new store, its aborters beside it.
fn run<'a, R: Threads + Wait + Sync, G: Gate + Sync>(
    rt: &R,
    alloc: Global,
    scenario: &'a Scenario,
    steps: u32,
    gate: &'a G,
) -> Result<BesideReport, NoMemory>
    requires runnable { IsRunnable scenario.now }
    requires few { steps ≤ 1000000 }
    ensures { IfOk result (λ r. IsReportOf scenario.now steps r) }
{
    let cells = cells_of(alloc, scenario.main.as_slice())?;
    if has_none(scenario.aborters.as_slice()) {
        return run_alone(alloc, scenario, gate, cells, steps);
    }
    run_with(rt, alloc, scenario, gate, cells, steps)
}

/// Runs the scenario of a text of at most 1,048,576 bytes for at most `steps` steps, 1 to 1,000,000, with a thread for each of its
/// aborters. The report's labels are those of a run of the component machine beside aborters, from the scenario's opening state,
/// its outcome is what that run has resulted in, and its store has the run's last state as its image. There is a log for each work
/// that main has spawned. It is legal, and has the calls of the run that the labels show, and the aborts of its aborters, each once. A
/// text that is no scenario is refused at its first bad line, before a thread starts.
pub fn run_beside<R: Threads + Wait + Sync, G: Gate + Sync>(
    rt: &R,
    alloc: Global,
    text: &[u8],
    steps: u32,
    gate: &G,
) -> Result<BesideReport, RunError>
    requires text { length text.now ≤ 1048576 }
    requires some { 0 < steps }
    requires few { steps ≤ 1000000 }
    ensures ran { IfOk result (λ r. IsReportOn text.now steps r) }
    ensures refused { (n : ℕ) → IsErrOf result (RunError.BadScenario n) → IsBadLine text.now n }
    // A scenario's text is refused for lack of memory alone.
    ensures only { (x : Text) → Reads text.now x → IsOkUnless result RunError.NoMemory }
{
    let scenario = read_scenario(alloc, text)?;
    match run(rt, alloc, &scenario, steps, gate) {
        Ok(report) => Ok(report),
        Err(_) => Err(RunError::NoMemory),
    }
}
