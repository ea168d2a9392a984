//! A component with the limits of its store, and the run of a host over it.
ghost use Rattle.std.specs.Prelude.{◌≡◌, ◌++◌, ◌<◌, ◌≤◌, Err, IfErr, IfOk, None, OnErr, OnOk, Some, length, ℕ};
ghost use Rattle.text_scenario.specs.Grammar.{IsBadLine};
ghost use Rattle.laws_states.specs.Settings.{CodesInCallbacks};
ghost use Rattle.machine_rules.specs.Texts.{text};
ghost use Rattle.task_run.specs.Lower.{Reads};
ghost use Rattle.ops_turns.specs.WellFormed.{IsWellFormed};
ghost use Rattle.vatbramble_host.specs.HostRuns.{IsHostRunOf, empty_main, opened_at, with_open_host};
ghost use Rattle.vatbramble_host.specs.Named.{func_named};

use crate::error::HostError;
use crate::{AskingMain, FunctionCall, HostFunctions, HostMain, names};
use machine_data::{Component, HostDef, Seq};
use std::alloc::{AllocError, Global};
use store_works::{AccessorTask, CalledTask, FromHost, OpenTask, OpenWork, ScriptedHost};
use task_loop::{Func, NoMemory, Outcome, Trace, run_concurrent};
use task_run::{RunError, Scenario, new_store, print_run, read_scenario, traps_on_idle};
use task_store::Store;

// A text has at most so many bytes.
const MOST_BYTES: usize = 1_048_576;

/// A component of scripts and host functions, with the limits of the store in which it is run. Its text's main isn't run.
#[derive(Drop)]
pub struct Hosted {
    scenario: Scenario,
    ghost handles: { scenario.handles ≤ 268435455 },
    ghost few: { length scenario.component.instances ≤ 64 },
    ghost formed: { IsWellFormed scenario.component },
    ghost codes: { CodesInCallbacks scenario.component },
}

/// What a run of a host has resulted in.
#[derive(Drop)]
pub struct HostRun<D: Drop> {
    /// The labels of the run, in order.
    pub trace: Trace,
    pub outcome: Outcome,
    /// The host, as its last ask has left it.
    pub host: D,
}

// The lines, and a main that answers 0.
fn with_empty_main(alloc: Global, lines: &[u8]) -> Result<Vec<u8>, AllocError>
    ensures { IfOk result (λ text. text.items ≡ lines.now ++ empty_main) }
{
    let mut text = Vec::new(alloc);
    text.extend_from_slice(lines)?;
    text.extend_from_slice(b"main\nanswer 0\nend\n")?;
    Ok(text)
}

impl Hosted {
    /// Reads the component of a scenario's text, and the limits of its store. A text that is no scenario is refused with its first bad
    /// line, and one of more than 1,048,576 bytes isn't looked at.
    pub fn read(alloc: Global, text: &[u8]) -> Result<Self, HostError>
        ensures read { IfOk result (λ h. Reads text.now h.scenario) }
        ensures bad { (n : ℕ) → result ≡ Err (HostError.BadLine n) → IsBadLine text.now n }
        ensures long { result ≡ Err HostError.TooLong → 1048576 < length text.now }
        ensures there { result ≡ Err HostError.NoExport → ⊥ }
    {
        if text.len() > MOST_BYTES {
            return Err(HostError::TooLong);
        }
        match read_scenario(alloc, text) {
            Ok(scenario) => Ok(Hosted { scenario }),
            Err(RunError::BadScenario(line)) => Err(HostError::BadLine(line)),
            Err(RunError::NoMemory) => Err(HostError::NoMemory),
        }
    }

    /// Reads a component alone: the lines of a scenario's text that come before its `main`, with a line feed after each. They are
    /// read as the text that goes on with a main which answers 0 at once, and refused as that is.
    pub fn read_component(alloc: Global, lines: &[u8]) -> Result<Self, HostError>
        ensures read { IfOk result (λ h. Reads (lines.now ++ empty_main) h.scenario) }
        ensures bad { (n : ℕ) → result ≡ Err (HostError.BadLine n) → IsBadLine (lines.now ++ empty_main) n }
        ensures long { result ≡ Err HostError.TooLong → 1048576 < length (lines.now ++ empty_main) }
        ensures there { result ≡ Err HostError.NoExport → ⊥ }
    {
        match with_empty_main(alloc, lines) {
            Ok(text) => Hosted::read(alloc, text.as_slice()),
            Err(_) => Err(HostError::NoMemory),
        }
    }

    /// Returns the export that the text gives these names to, of an instance and in it. It is refused exactly if there is none.
    pub fn func(&self, instance: &str, export: &str) -> Result<Func, HostError>
        ensures named { IfOk result (λ f. func_named self.now.scenario.names instance.now export.now ≡ Some f) }
        ensures none { IfErr result (λ e. func_named self.now.scenario.names instance.now export.now ≡ None) }
        ensures error { IfErr result (λ e. e ≡ HostError.NoExport) }
    {
        let names = self.scenario.names.as_slice();
        match names::func_named(names, instance.as_bytes(), export.as_bytes()) {
            Some(func) => Ok(func),
            None => Err(HostError::NoExport),
        }
    }

    /// Opens the text's host of this name: a call of it results in what a work of the host's own answers, and nothing that its line
    /// says is so any more. It is refused exactly if the text has no such host.
    #[tactic(auto, unfolding(crate::specs::HostRuns::with_open_host))]
    pub fn with_open_host(self, host: &str) -> Result<Self, HostError>
        ensures opened { IfOk result (λ h. with_open_host host.now self.scenario ≡ Some h.scenario) }
        ensures none { IfErr result (λ e. with_open_host host.now self.scenario ≡ None) }
        ensures error { IfErr result (λ e. e ≡ HostError.NoHost) }
    {
        let names = self.scenario.host_names.as_slice();
        match names::name_place(names, host.as_bytes()) {
            Some(place) => self.opened_at(place),
            None => Err(HostError::NoHost),
        }
    }

    // Opens the host at this place.
    fn opened_at(self, place: u32) -> Result<Self, HostError>
        ensures opened { IfOk result (λ h. opened_at place self.scenario ≡ Some h.scenario) }
        ensures none { IfErr result (λ e. opened_at place self.scenario ≡ None) }
        ensures error { IfErr result (λ e. e ≡ HostError.NoHost) }
    {
        let Hosted { scenario } = self;
        let Scenario {
            rules,
            handles,
            table,
            idle,
            component,
            names,
            host_names,
            main,
            aborters,
        } = scenario;
        let Component { instances, hosts } = component;
        let mut hosts = hosts.into_vec();
        match hosts.get_mut(place as usize) {
            Some(host) => *host = HostDef::Open,
            None => return Err(HostError::NoHost),
        }
        let component = Component {
            instances,
            hosts: Seq::from_vec(hosts),
        };
        Ok(Hosted {
            scenario: Scenario {
                rules,
                handles,
                table,
                idle,
                component,
                names,
                host_names,
                main,
                aborters,
            },
        })
    }

    /// Runs the host over the component, in a new store, for at most so many steps. The trace is a run of the component machine
    /// from that store, with a main that is no script, and the outcome is what that run has resulted in. An idle run ends as the
    /// text's idle line says. A call of an open host never ends. If it is refused, it is out of memory.
    pub fn run<D: HostMain + Drop>(
        &self,
        alloc: Global,
        host: D,
        steps: u32,
    ) -> Result<HostRun<D>, HostError>
        ensures run { IfOk result (λ r. IsHostRunOf self.now.scenario steps r.trace r.outcome) }
        ensures error { IfErr result (λ e. e ≡ HostError.NoMemory) }
    {
        match self.driven::<(), ScriptedHost, D>(alloc, (), host, steps) {
            Ok(run) => Ok(run),
            Err(_) => Err(HostError::NoMemory),
        }
    }

    /// Runs the component with a value of the host and works of its own: a call of an open host is a work `W`, whose polls may
    /// change that value.
    pub fn run_open<T: Drop, W: OpenTask<T> + CalledTask, D: HostMain + Drop>(
        &self,
        alloc: Global,
        value: T,
        host: D,
        steps: u32,
    ) -> Result<HostRun<D>, HostError>
        ensures run { IfOk result (λ r. IsHostRunOf self.now.scenario steps r.trace r.outcome) }
        ensures error { IfErr result (λ e. e ≡ HostError.NoMemory) }
    {
        match self.driven::<T, OpenWork<W>, D>(alloc, value, host, steps) {
            Ok(run) => Ok(run),
            Err(_) => Err(HostError::NoMemory),
        }
    }

    /// Runs the component with a value of the host that answers all calls of open hosts.
    pub fn run_with<T: HostFunctions, D: HostMain + Drop>(
        &self,
        alloc: Global,
        value: T,
        host: D,
        steps: u32,
    ) -> Result<HostRun<D>, HostError>
        ensures run { IfOk result (λ r. IsHostRunOf self.now.scenario steps r.trace r.outcome) }
        ensures error { IfErr result (λ e. e ≡ HostError.NoMemory) }
    {
        self.run_open::<T, FunctionCall, D>(alloc, value, host, steps)
    }

    // The run in a store with this value, for works of this kind.
    fn driven<T: Drop, H: AccessorTask<T> + FromHost, D: HostMain + Drop>(
        &self,
        alloc: Global,
        value: T,
        host: D,
        steps: u32,
    ) -> Result<HostRun<D>, NoMemory>
        ensures { IfOk result (λ r. IsHostRunOf self.now.scenario steps r.trace r.outcome) }
    {
        let scenario = &self.scenario;
        let mut store: Store<T, H> = new_store(
            alloc,
            value,
            scenario.rules,
            scenario.component.instances.len(),
            scenario.handles,
            scenario.table,
        )?;
        let Ok(mut run) = run_concurrent(&mut store, traps_on_idle(scenario.idle)) else {
            unreachable!()
        };
        let mut trace = Trace::new(alloc);
        let mut main = AskingMain::new(alloc, host);
        let outcome = run.drive(
            &scenario.component,
            &mut store,
            &mut main,
            steps,
            &mut trace,
        )?;
        run.end(&mut store);
        Ok(HostRun {
            trace,
            outcome,
            host: main.into_host(),
        })
    }
}

impl<D: Drop> HostRun<D> {
    /// Returns the report of the run: its labels, one a line, and the line of its outcome.
    pub fn print(&self, alloc: Global) -> Result<Vec<u8>, HostError>
        ensures report { IfOk result (λ out. out.items ≡ text self.now.trace self.now.outcome) }
        ensures error { IfErr result (λ e. e ≡ HostError.NoMemory) }
    {
        match print_run(alloc, &self.trace, self.outcome) {
            Ok(report) => Ok(report),
            Err(_) => Err(HostError::NoMemory),
        }
    }
}
