//! The search over all runs of a scenario.
ghost use Rattle.choice_offers.specs.Choices.{chosen_of};
ghost use Rattle.choice_run.specs.Chosen.{EndsAs};
ghost use Rattle.choice_search.specs.Numbered.{most};
ghost use Rattle.choice_search.specs.Searched.{Explores, is_cut};
ghost use Rattle.choice_search.specs.Searching.{BeginsSearch, Comes, HasPlace, IsAsked, IsGoneOn, IsLimit, IsNextRun};
ghost use Rattle.choice_search.specs.Searching.{Makes, Parts, Searches, asked_of, at_way};
ghost use Rattle.choice_search.specs.Ways.{host_ways};
ghost use Rattle.machine_rules.specs.Scripts.{HasOpen};
ghost use Rattle.std.specs.Prelude.{◌∷◌, ◌++◌, [], ◌≡◌, ◌≤◌, ◌<◌, ◌-◌, IfOk, IsErrOf, IsOkUnless, length, map, ℕ, false, true, Some};
ghost use Rattle.task_run.specs.Headline.{machine_scenario};
ghost use Rattle.task_run.specs.Lower.{Reads};
ghost use Rattle.task_run.specs.Runnable.{IsRunnable};
ghost use Rattle.task_run.specs.declared.scenario.Scenario.{Scenario};
ghost use Rattle.text_scenario.specs.Grammar.{IsBadLine};

use crate::hosts::{hosts_of, ways};
use crate::kinds::Kinds;
use crate::orders::{choice_at, choices_of};
use choice_run::{ChosenReport, RunEnd, run_on};
use machine_data::{HostDef, NoMemory, Outcome, Seq};
use std::alloc::{AllocError, Global};
use task_run::{RunError, Scenario, read_scenario};
use trace_machine::{Choice, Offer};

/// A run that comes to what is looked for: how the hosts answer, what is chosen, and what that run is.
#[derive(Drop)]
pub struct Found {
    pub hosts: Seq<HostDef>,
    pub choices: Vec<Choice>,
    pub report: ChosenReport,
}

/// What a search has come to.
#[derive(Drop)]
pub enum Explored {
    /// This run. Those with fewer open steps were made before it.
    Found(Found),
    /// There is no such run among these many, which are all.
    None(u64),
    /// So many labels were made, and no more may be.
    Cut(u64),
}

// What is asked of a search.
#[derive(Clone, Copy)]
struct Asked {
    steps: u32,
    polls: Option<u32>,
    kinds: Kinds,
}

// A run up to an open step: the way in which the hosts answer, its choices, and what is offered there.
#[derive(Drop)]
struct Branch {
    way: u64,
    choices: Vec<Choice>,
    offer: Offer,
}

/// A search under way.
#[derive(Drop)]
pub struct Search {
    alloc: Global,
    // The text's, but with the hosts of the last run.
    scenario: Scenario,
    // The hosts of the text.
    hosts: Vec<HostDef>,
    asked: Asked,
    // The runs before an open step, those with fewer open steps first.
    branches: Vec<Branch>,
    // The next way in which the hosts answer; then the next of the runs, and the number of the choice that it takes next.
    way: u64,
    next: usize,
    number: u64,
    runs: u64,
    budget: u64,
    left: u64,
}

// The run that comes next: how its hosts answer, its choices, and how many choices its last one is among.
#[derive(Drop)]
struct NextRun {
    way: u64,
    choices: Vec<Choice>,
    count: u64,
}

// What came of a part of the search.
#[derive(Drop)]
enum Part {
    /// Nothing yet.
    GoesOn,
    /// All runs were made, and none is looked for.
    All,
    /// This run is one that is looked for.
    Finds(Found),
    /// No further label may be made.
    Cuts,
}

// A copy of a choice.
fn copy_of(alloc: Global, choice: &Choice) -> Result<Choice, AllocError>
    ensures { IfOk result (λ c. c ≡ choice.now) }
{
    Ok(Choice {
        waiter: choice.waiter,
        member: choice.member,
        release: Seq::from_vec(Vec::from_slice(alloc, choice.release.as_slice())?),
    })
}

// These choices and one more.
fn with_one(alloc: Global, choices: &[Choice], last: Choice) -> Result<Vec<Choice>, AllocError>
    ensures { IfOk result (λ list. list.items ≡ choices.now ++ last ∷ []) }
{
    let mut list = Vec::new(alloc);
    for choice in choices {
        let copy = copy_of(alloc, choice)?;
        let Ok(()) = list.push(copy) else {
            return Err(AllocError);
        };
    }
    let Ok(()) = list.push(last) else {
        return Err(AllocError);
    };
    Ok(list)
}

// Whether a run was cut off there.
fn is_cut(outcome: Outcome) -> bool
    ensures { result ≡ is_cut outcome }
{
    match outcome {
        Outcome::OutOfSteps => true,
        _ => false,
    }
}

impl Search {
    /// Begins a search for a run of the scenario of at most so many labels, 1,000,000 or fewer, that comes to an outcome of these kinds.
    /// Each host that ends pends at 0 to `polls` polls, or, if none are given, at as many as the scenario says. At most `budget` labels
    /// are made in all.
    pub fn new(
        alloc: Global,
        scenario: Scenario,
        steps: u32,
        polls: Option<u32>,
        budget: u64,
        kinds: Kinds,
    ) -> Result<Search, NoMemory>
        requires runnable { IsRunnable scenario }
        requires hosts { HasOpen scenario.component → ⊥ }
        requires few { steps ≤ 1000000 }
        ensures { IfOk result (λ s. BeginsSearch scenario steps polls kinds budget s) }
    {
        let hosts = Vec::from_slice(alloc, scenario.component.hosts.as_slice())?;
        Ok(Search {
            alloc,
            scenario,
            hosts,
            asked: Asked {
                steps,
                polls,
                kinds,
            },
            branches: Vec::new(alloc),
            way: 0,
            next: 0,
            number: 0,
            runs: 0,
            budget,
            left: budget,
        })
    }

    /// Returns how many runs have come to an outcome, and how many labels were made.
    pub fn progress(&self) -> (u64, u64)
        ensures { result ≡ (self.now.runs, self.now.budget - self.now.left) }
    {
        (self.runs, self.budget.saturating_sub(self.left))
    }

    // How many labels the next run may have.
    fn steps_left(&self) -> u32
        ensures { IsLimit self.now result }
    {
        if u64::from(self.asked.steps) <= self.left {
            self.asked.steps
        } else {
            self.left as u32
        }
    }

    // Whether a run of so many steps had no more of them because no more labels may be made.
    fn is_cut_off(&self, steps: u32, outcome: Outcome) -> bool
        ensures cut { result ≡ true → (steps < self.now.asked.steps) × (is_cut outcome ≡ true) }
        ensures whole { result ≡ false → steps < self.now.asked.steps → is_cut outcome ≡ false }
    {
        if steps < self.asked.steps {
            is_cut(outcome)
        } else {
            false
        }
    }

    // Counts a run that has come to an outcome.
    fn count(
        &mut self,
        way: u64,
        report: ChosenReport,
        choices: Vec<Choice>,
        steps: u32,
    ) -> Result<Part, NoMemory>
        requires asked { IsAsked (asked_of self.old) self.old.asked }
        requires scenario { self.old.scenario ≡ at_way (asked_of self.old) self.old.asked.polls way }
        requires steps { IsLimit self.old steps }
        requires end { EndsAs (machine_scenario self.old.scenario) steps (map chosen_of choices.items) (RunEnd.Reports report) }
        ensures { IfOk result (λ p. Makes self.old way (map chosen_of choices.items) p self.new) }
    {
        self.left -= report.trace.len() as u64;
        if self.is_cut_off(steps, report.outcome) {
            return Ok(Part::Cuts);
        }
        self.runs = self.runs.saturating_add(1);
        if !self.asked.kinds.has(report.outcome) {
            return Ok(Part::GoesOn);
        }
        let hosts = Vec::from_slice(self.alloc, self.scenario.component.hosts.as_slice())?;
        Ok(Part::Finds(Found {
            hosts: Seq::from_vec(hosts),
            choices,
            report,
        }))
    }

    // Takes in where the run of these choices ends.
    fn take(
        &mut self,
        way: u64,
        choices: Vec<Choice>,
        steps: u32,
        end: RunEnd,
    ) -> Result<Part, NoMemory>
        requires asked { IsAsked (asked_of self.old) self.old.asked }
        requires scenario { self.old.scenario ≡ at_way (asked_of self.old) self.old.asked.polls way }
        requires steps { IsLimit self.old steps }
        requires end { EndsAs (machine_scenario self.old.scenario) steps (map chosen_of choices.items) end }
        ensures { IfOk result (λ p. Makes self.old way (map chosen_of choices.items) p self.new) }
    {
        match end {
            RunEnd::Reports(report) => self.count(way, report, choices, steps),
            RunEnd::Short(labels, offer) => {
                self.left = self.left.saturating_sub(u64::from(labels));
                let Ok(()) = self.branches.push(Branch {
                    way,
                    choices,
                    offer,
                })
                else {
                    return Err(NoMemory);
                };
                Ok(Part::GoesOn)
            }
            RunEnd::Wrong(_choice) => Ok(Part::GoesOn),
        }
    }

    // Makes the run of these choices, where the hosts answer in this way, up to the open step after them.
    fn make(&mut self, way: u64, choices: Vec<Choice>) -> Result<Part, NoMemory>
        requires { IsAsked (asked_of self.old) self.old.asked }
        ensures { IfOk result (λ p. Makes self.old way (map chosen_of choices.items) p self.new) }
    {
        if self.left == 0 {
            return Ok(Part::Cuts);
        }
        let polls = self.asked.polls;
        let hosts = hosts_of(self.alloc, self.hosts.as_slice(), polls, way)?;
        self.scenario.component.hosts = hosts;
        let steps = self.steps_left();
        let end = run_on(self.alloc, &self.scenario, steps, choices.as_slice())?;
        let part = self.take(way, choices, steps, end)?;
        Ok(part)
    }

    // The next run of the tree; none if all were made.
    fn next_run(&self) -> Result<Option<NextRun>, NoMemory>
        ensures { IfOk result (λ run. IsNextRun self.now run) }
    {
        match self.branches.as_slice().get(self.next) {
            Some(branch) => {
                let last = choice_at(self.alloc, &branch.offer, self.number)?;
                let choices = with_one(self.alloc, branch.choices.as_slice(), last)?;
                Ok(Some(NextRun {
                    way: branch.way,
                    choices,
                    count: choices_of(&branch.offer),
                }))
            }
            None => Ok(None),
        }
    }

    // Whether what is gone through is still counted: no search comes so far that it isn't.
    fn has_place(&self) -> bool
        ensures { result ≡ true → HasPlace self.now }
    {
        if self.way >= u64::MAX {
            return false;
        }
        if self.next >= usize::MAX {
            return false;
        }
        self.number < u64::MAX
    }

    // Goes on to the next choice, and after the last one of so many to the next run of the tree.
    fn advance(&mut self, count: u64)
        requires { HasPlace self.old }
        ensures { IsGoneOn count self.old self.new }
    {
        self.number += 1;
        if count < u64::MAX && self.number >= count {
            self.next += 1;
            self.number = 0;
        }
    }

    // Makes the first run of the next way in which the hosts answer.
    fn first_run(&mut self) -> Result<Part, NoMemory>
        requires searches { Searches self.old self.old }
        requires more { self.old.way < most (host_ways self.old.asked.polls self.old.hosts.items) }
        ensures { IfOk result (λ p. Parts self.old p self.new) }
    {
        let way = self.way;
        self.way += 1;
        let part = self.make(way, Vec::new(self.alloc))?;
        Ok(part)
    }

    // Makes this run of the tree.
    fn branch_run(&mut self, run: NextRun) -> Result<Part, NoMemory>
        requires searches { Searches self.old self.old }
        requires place { HasPlace self.old }
        requires last { most (host_ways self.old.asked.polls self.old.hosts.items) ≤ self.old.way }
        requires next { IsNextRun self.old (Some run) }
        ensures { IfOk result (λ p. Parts self.old p self.new) }
    {
        let NextRun {
            way,
            choices,
            count,
        } = run;
        self.advance(count);
        let part = self.make(way, choices)?;
        Ok(part)
    }

    // Makes the next run of the tree, if there is one.
    fn tree_run(&mut self) -> Result<Part, NoMemory>
        requires searches { Searches self.old self.old }
        requires place { HasPlace self.old }
        requires last { most (host_ways self.old.asked.polls self.old.hosts.items) ≤ self.old.way }
        ensures { IfOk result (λ p. Parts self.old p self.new) }
    {
        let next = self.next_run()?;
        match next {
            Some(run) => self.branch_run(run),
            None => Ok(Part::All),
        }
    }

    // Makes the next run, if there is one.
    fn part(&mut self) -> Result<Part, NoMemory>
        requires { Searches self.old self.old }
        ensures { IfOk result (λ p. Parts self.old p self.new) }
    {
        if self.way < ways(self.hosts.as_slice(), self.asked.polls) {
            return self.first_run();
        }
        if self.has_place() {
            return self.tree_run();
        }
        Err(NoMemory)
    }

    /// Goes on by so many runs; answers what the search has come to, if it has.
    pub fn go_on(&mut self, runs: u64) -> Result<Option<Explored>, NoMemory>
        requires { Searches self.old self.old }
        ensures { IfOk result (λ e. Comes self.old e self.new) }
    {
        'runs: for _run in 0..runs {
            let part = self.part()?;
            match part {
                Part::GoesOn => {}
                Part::All => return Ok(Some(Explored::None(self.runs))),
                Part::Cuts => return Ok(Some(Explored::Cut(self.budget))),
                Part::Finds(found) => return Ok(Some(Explored::Found(found))),
            }
        }
        Ok(None)
    }
}

// Goes through the runs of a scenario.
fn explore_scenario(
    alloc: Global,
    scenario: Scenario,
    steps: u32,
    polls: Option<u32>,
    budget: u64,
    kinds: Kinds,
) -> Result<Explored, NoMemory>
    requires runnable { IsRunnable scenario }
    requires hosts { HasOpen scenario.component → ⊥ }
    requires few { steps ≤ 1000000 }
    ensures { IfOk result (λ e. Explores (machine_scenario scenario) steps polls kinds budget e) }
{
    let mut search = Search::new(alloc, scenario, steps, polls, budget, kinds)?;
    let said = search.go_on(u64::MAX)?;
    match said {
        Some(explored) => Ok(explored),
        // No search makes so many runs.
        None => Err(NoMemory),
    }
}

/// Searches for a run of the scenario of a text of at most 1,048,576 bytes that comes to an outcome of these kinds in at most `steps`
/// labels, over all choices, and over 0 to `polls` polls of each host that ends, if polls are given. At most `budget` labels are made
/// in all.
pub fn explore(
    alloc: Global,
    text: &[u8],
    steps: u32,
    polls: Option<u32>,
    budget: u64,
    kinds: Kinds,
) -> Result<Explored, RunError>
    requires text { length text.now ≤ 1048576 }
    requires few { steps ≤ 1000000 }
    ensures explores { IfOk result (λ e. (x : Scenario) × (Reads text.now x × Explores (machine_scenario x) steps polls kinds budget e)) }
    ensures refused { (n : ℕ) → IsErrOf result (RunError.BadScenario n) → IsBadLine text.now n }
    // A scenario's text is refused for lack of memory alone.
    ensures only { (x : Scenario) → Reads text.now x → IsOkUnless result RunError.NoMemory }
{
    let scenario = read_scenario(alloc, text)?;
    match explore_scenario(alloc, scenario, steps, polls, budget, kinds) {
        Ok(explored) => Ok(explored),
        Err(_) => Err(RunError::NoMemory),
    }
}
