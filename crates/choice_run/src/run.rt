//! The run under a list of choices.
ghost use Rattle.choice_offers.specs.Choices.{chosen_of};
ghost use Rattle.choice_run.specs.Chosen.{Answers, EndsAs, HasEach, RunsTo};
ghost use Rattle.choice_run.specs.Stepping.{IsUnended, Makes, StepsChosen, with_one};
ghost use Rattle.machine_rules.specs.Scripts.{HasOpen};
ghost use Rattle.std.specs.Prelude.{◌≡◌, ◌<◌, ◌≤◌, IfOk, length, map, option_map};
ghost use Rattle.task_run.specs.Headline.{machine_scenario};
ghost use Rattle.task_run.specs.Runnable.{IsRunnable};
ghost use Rattle.trace_machine.specs.Machines.{HasNumbers, IsKept};

use machine_data::{NoMemory, Outcome};
use run_trace::PackedLabels;
use std::alloc::Global;
use task_run::{RunError, Scenario, read_scenario};
use trace_machine::{Choice, Machine, Offer, Went};

/// The run that choices made: its labels, what it came to, and how many choices were taken.
#[derive(Drop)]
pub struct ChosenReport {
    pub trace: PackedLabels,
    pub outcome: Outcome,
    pub used: u32,
}

/// Why there is no such run.
#[derive(Clone, Copy)]
pub enum ChoiceError {
    NoMemory,
    /// The text is no scenario, and this is its first bad line.
    BadScenario(u32),
    /// The choice with this number, counted from 1, doesn't fit at its step.
    Wrong(u32),
    /// After so many labels the next step is open, and no choice is left.
    Short(u32),
}

/// Where a run under choices ends.
#[derive(Drop)]
pub enum RunEnd {
    /// It has come to something.
    Reports(ChosenReport),
    /// The choice with this number, counted from 1, doesn't fit at its step.
    Wrong(u32),
    /// After so many labels the next step is open, and no choice is left; this is offered there.
    Short(u32, Offer),
}

// What came of a step.
#[derive(Clone, Copy)]
enum Stepped {
    /// It was made, and has taken a choice of the list if this is true.
    Went(bool),
    /// Its choice doesn't fit.
    Wrong,
    /// It is open, and no choice is left.
    Short,
}

// Makes the step of a choice, if that fits, and adds its label; returns whether it was made.
fn make_step(
    machine: &mut Machine<'_>,
    choice: &Choice,
    trace: &mut PackedLabels,
) -> Result<bool, NoMemory>
    requires kept { IsKept machine.old }
    requires few { HasNumbers machine.old }
    requires unended { IsUnended machine.old }
    ensures { IfOk result (λ made. Makes machine.old (chosen_of choice.now) made machine.new trace.old.labels trace.new.labels) }
{
    trace.make_room()?;
    let went = machine.go(choice)?;
    match went {
        Went::Did(label) => {
            trace.push(label);
            Ok(true)
        }
        Went::Refused => Ok(false),
        Went::Over => unreachable!(),
    }
}

// Takes a step by the choice that is next, if its offer is open, and else by the only one that fits.
fn step(
    alloc: Global,
    machine: &mut Machine<'_>,
    next: Option<&Choice>,
    trace: &mut PackedLabels,
) -> Result<Stepped, NoMemory>
    requires kept { IsKept machine.old }
    requires few { HasNumbers machine.old }
    requires unended { IsUnended machine.old }
    ensures { IfOk result (λ s. StepsChosen machine.old (option_map (λ c. chosen_of c.now) next.entry) s machine.new trace.old.labels
        trace.new.labels) }
{
    let offer = machine.offer()?;
    if offer.is_open() {
        let Some(choice) = next else {
            return Ok(Stepped::Short);
        };
        let took = make_step(machine, choice, trace)?;
        if took {
            return Ok(Stepped::Went(true));
        }
        return Ok(Stepped::Wrong);
    }
    let only = offer.first_choice(alloc)?;
    let made = make_step(machine, &only, trace)?;
    if made {
        Ok(Stepped::Went(false))
    } else {
        unreachable!()
    }
}

// How many choices were taken, after one more step.
fn used_after(used: u32, took: bool) -> u32
    requires { used < 4294967295 }
    ensures { result ≡ with_one took used }
{
    if took { used + 1 } else { used }
}

/// Makes the run of a scenario of at most so many steps whose k-th step with an open offer takes the k-th choice, and whose other
/// steps take the only choice that fits, up to where it ends: it has come to something, or the next choice doesn't fit, or no choice is
/// left for an open step.
pub fn run_on(
    alloc: Global,
    scenario: &Scenario,
    steps: u32,
    choices: &[Choice],
) -> Result<RunEnd, NoMemory>
    requires scenario { IsRunnable scenario.now }
    requires hosts { HasOpen scenario.now.component → ⊥ }
    requires few { steps ≤ 1000000 }
    ensures { IfOk result (λ e. EndsAs (machine_scenario scenario.now) steps (map chosen_of choices.now) e) }
{
    let mut machine = Machine::open(alloc, scenario)?;
    let mut trace = PackedLabels::new(alloc);
    let mut used: u32 = 0;
    let mut labels: u32 = 0;
    'steps: while labels < steps {
        if let Some(outcome) = machine.outcome(false) {
            return Ok(RunEnd::Reports(ChosenReport {
                trace,
                outcome,
                used,
            }));
        }
        let next = choices.get(used as usize);
        let stepped = step(alloc, &mut machine, next, &mut trace)?;
        match stepped {
            Stepped::Went(took) => {
                used = used_after(used, took);
            }
            Stepped::Wrong => return Ok(RunEnd::Wrong(used + 1)),
            Stepped::Short => {
                let offer = machine.offer()?;
                return Ok(RunEnd::Short(labels, offer));
            }
        }
        labels += 1;
    }
    let Some(outcome) = machine.outcome(true) else {
        unreachable!()
    };
    Ok(RunEnd::Reports(ChosenReport {
        trace,
        outcome,
        used,
    }))
}

/// Makes the run of a scenario as `run_on` does; a choice that doesn't fit, and one that is wanting, are refused.
pub fn run_chosen(
    alloc: Global,
    scenario: &Scenario,
    steps: u32,
    choices: &[Choice],
) -> Result<ChosenReport, ChoiceError>
    requires scenario { IsRunnable scenario.now }
    requires hosts { HasOpen scenario.now.component → ⊥ }
    requires few { steps ≤ 1000000 }
    ensures { RunsTo (machine_scenario scenario.now) steps (map chosen_of choices.now) result }
{
    match run_on(alloc, scenario, steps, choices) {
        Ok(RunEnd::Reports(report)) => Ok(report),
        Ok(RunEnd::Wrong(choice)) => Err(ChoiceError::Wrong(choice)),
        Ok(RunEnd::Short(labels, _offer)) => Err(ChoiceError::Short(labels)),
        Err(_) => Err(ChoiceError::NoMemory),
    }
}

/// Makes the run of the scenario of a text of at most 1,048,576 bytes, of at most `steps` steps, 1 to 1,000,000, whose k-th step with
/// an open offer takes the k-th choice, and whose other steps take the only choice that fits. Choices beyond those that were taken
/// aren't looked at. Each run of the scenario is made by some choices. If the k-th choice doesn't fit, the answer is `Wrong(k)`; if no
/// choice is left for an open step after n labels, it is `Short(n)`; a text that is no scenario is refused at its first bad line.
pub fn run_choices(
    alloc: Global,
    text: &[u8],
    steps: u32,
    choices: &[Choice],
) -> Result<ChosenReport, ChoiceError>
    requires text { length text.now ≤ 1048576 }
    requires some { 0 < steps }
    requires few { steps ≤ 1000000 }
    // The run that these choices make.
    ensures answers { Answers text.now steps (map chosen_of choices.now) result }
    // Each run is what some choices make.
    ensures each { HasEach text.now steps }
{
    match read_scenario(alloc, text) {
        Ok(scenario) => run_chosen(alloc, &scenario, steps, choices),
        Err(RunError::NoMemory) => Err(ChoiceError::NoMemory),
        Err(RunError::BadScenario(line)) => Err(ChoiceError::BadScenario(line)),
    }
}
