ghost use Rattle.std.specs.Prelude.{◌≡◌, ◌<◌, ◌≤◌, ℕ, false, length, true, IfOk, IsOk, IsErrOf, IsOkUnless};
ghost use Rattle.store_works.specs.KeptWorks.{HoldsNone};
ghost use Rattle.text_scenario.specs.Grammar.{IsBadLine};
ghost use Rattle.task_group.specs.Listeners.{nobody};
ghost use Rattle.machine_data.specs.Core.{fresh};
ghost use Rattle.core_records.specs.Seen.{nothing};
ghost use Rattle.ops_turns.specs.Turn.{idle_line_of};
ghost use Rattle.core_primitives.specs.StateView.{with_core};
ghost use Rattle.task_run.specs.Runnable.{IsRunnable};
ghost use Rattle.task_run.specs.Headline.{IsReportOf, IsRunOf, machine_scenario};
ghost use Rattle.task_run.specs.Lower.{Reads};
ghost use Rattle.task_run.specs.declared.scenario.Scenario.{Scenario};
ghost use Rattle.machine_rules.specs.Texts.{text};

use crate::lower::read_scenario;
use crate::scenario::Scenario;
use crate::script::ScriptMain;
use machine_data::{IdleLine, NoMemory, Version};
use std::alloc::{AllocError, Global};
use task_loop::{NoticeList, Outcome, Trace, run_concurrent};
use task_store::{ScriptedHost, Store};
use text_reader::RunError;
use text_report::Page;

/// What a run resulted in: its steps, its end, and the store that it left.
#[derive(Drop)]
pub struct Report {
    pub trace: Trace,
    pub outcome: Outcome,
    /// What the groups were told, in order.
    pub groups: NoticeList,
    pub store: Store<(), ScriptedHost>,
}

/// Makes a store for a run of a scenario: with this host's value, these rules, this many instances, so many handles that may be live
/// at once (at most 268,435,455), and room for so many entries. It is concurrent, nothing runs on it, and nobody is told of its groups.
pub fn new_store<T: Drop, H: Drop>(
    alloc: Global,
    value: T,
    rules: Version,
    instances: usize,
    handles: u32,
    table: u32,
) -> Result<Store<T, H>, NoMemory>
    requires instances { instances ≤ 4294967295 }
    requires handles { handles ≤ 268435455 }
    ensures state { IfOk result (λ s. s.state ≡ with_core (fresh rules instances handles table) nothing) }
    ensures free { IfOk result (λ s. s.running ≡ false) }
    ensures concurrent { IfOk result (λ s. s.concurrent ≡ true) }
    ensures works { IfOk result (λ s. HoldsNone s.works) }
    ensures listeners { IfOk result (λ s. s.listeners ≡ nobody) }
{
    let mut store = Store::new(alloc, value, true, 1);
    store.set_table_capacity(table as usize);
    store.set_max_component_handles(handles as usize);
    for _made in 0..instances {
        let Ok(_) = store.add_instance() else {
            return Err(NoMemory);
        };
    }
    store.set_rules(rules);
    Ok(store)
}

/// Returns whether a run with this idle line ends as a deadlock where nothing can go on.
pub fn traps_on_idle(idle: IdleLine) -> bool
    ensures { idle_line_of result ≡ idle }
{
    match idle {
        IdleLine::Trap => true,
        IdleLine::Wait => false,
    }
}

// Runs a scenario in a new store.
fn run(alloc: Global, scenario: &Scenario, steps: u32) -> Result<Report, NoMemory>
    requires { IsRunnable scenario.now }
    ensures ran { IfOk result (λ r. IsRunOf (machine_scenario scenario.now) steps r.trace r.outcome r.store.state.core r.groups) }
    ensures free { IfOk result (λ r. r.store.running ≡ false) }
    ensures concurrent { IfOk result (λ r. r.store.concurrent ≡ true) }
{
    let mut store = new_store(
        alloc,
        (),
        scenario.rules,
        scenario.component.instances.len(),
        scenario.handles,
        scenario.table,
    )?;
    store.keep_notices(2 * (steps as usize) + 512)?;
    let Ok(mut run) = run_concurrent(&mut store, traps_on_idle(scenario.idle)) else {
        unreachable!()
    };
    let mut trace = Trace::new(alloc);
    let mut main = ScriptMain::new(alloc, scenario.main.as_slice());
    let driven = run.drive(
        &scenario.component,
        &mut store,
        &mut main,
        steps,
        &mut trace,
    );
    let Ok(outcome) = driven else {
        return Err(NoMemory);
    };
    run.end(&mut store);
    let groups = store.share_notices(alloc)?;
    Ok(Report {
        trace,
        outcome,
        groups,
        store,
    })
}

/// Runs the scenario of a text of at most 1,048,576 bytes for at most `steps` steps, 1 to 1,000,000. The report's labels are those
/// of a run of the component machine from the scenario's opening state, its outcome is what that run has resulted in, its groups
/// are the notices of that run, and its store, which is concurrent and on which no run is, has the run's last state as its image. A
/// text that is no scenario is refused at its first bad line.
pub fn run_scenario(alloc: Global, text: &[u8], steps: u32) -> Result<Report, RunError>
    requires text { length text.now ≤ 1048576 }
    requires some { 0 < steps }
    requires few { steps ≤ 1000000 }
    ensures ran { IfOk result (λ r. IsReportOf text.now steps r) }
    ensures taken { IsOk result → (x : Scenario) × Reads text.now x }
    ensures refused { (n : ℕ) → IsErrOf result (RunError.BadScenario n) → IsBadLine text.now n }
    // A scenario's text is refused for lack of memory alone.
    ensures only { (x : Scenario) → Reads text.now x → IsOkUnless result RunError.NoMemory }
{
    let scenario = read_scenario(alloc, text)?;
    match run(alloc, &scenario, steps) {
        Ok(report) => Ok(report),
        Err(_) => Err(RunError::NoMemory),
    }
}

fn text_of(alloc: Global, trace: &Trace, outcome: Outcome) -> Result<Vec<u8>, AllocError>
    ensures { IfOk result (λ out. out.items ≡ text trace.now outcome) }
{
    let mut out = Vec::new(alloc);
    let mut page = Page::new(alloc)?;
    let mut labels = trace.labels();
    'pages: while page.fill(&mut labels) {
        out.extend_from_slice(page.as_slice())?;
        page.clear();
    }
    page.add_outcome(outcome);
    out.extend_from_slice(page.as_slice())?;
    Ok(out)
}

/// Prints what a run was: its labels, one a line, and the line of its outcome.
pub fn print_run(alloc: Global, trace: &Trace, outcome: Outcome) -> Result<Vec<u8>, NoMemory>
    ensures { IfOk result (λ out. out.items ≡ text trace.now outcome) }
{
    Ok(text_of(alloc, trace, outcome)?)
}

/// Returns the text of a report: its labels, one a line, and the line of its outcome.
pub fn print_report(alloc: Global, report: &Report) -> Result<Vec<u8>, NoMemory>
    ensures { IfOk result (λ out. out.items ≡ text report.now.trace report.now.outcome) }
{
    print_run(alloc, &report.trace, report.outcome)
}
