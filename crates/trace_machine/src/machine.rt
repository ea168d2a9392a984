//! The machine of a scenario.
ghost use Rattle.choice_offers.specs.Choices.{chosen_of};
ghost use Rattle.choice_offers.specs.Spots.{Offers};
ghost use Rattle.choice_offers.specs.Times.{AreTimed};
ghost use Rattle.laws_choices.specs.Offer.{FitsOffer};
ghost use Rattle.laws_choices.specs.Offers.{offer};
ghost use Rattle.laws_states.specs.Order.{is_open};
ghost use Rattle.machine_data.specs.declared.label.Label.{Label};
ghost use Rattle.machine_rules.specs.Outcome.{is_at_rest};
ghost use Rattle.machine_rules.specs.Run.{opens};
ghost use Rattle.machine_rules.specs.Scripts.{HasOpen};
ghost use Rattle.std.specs.Prelude.{◌≡◌, ◌∷◌, [], Bool, IfOk, None, OnOk, false, true, ℕ};
ghost use Rattle.ops_turns.specs.Turn.{given};
ghost use Rattle.task_run.specs.Headline.{machine_scenario};
ghost use Rattle.task_run.specs.Runnable.{IsRunnable};
ghost use Rattle.trace_machine.specs.Machines.{Comes, ComesOnly, GoesOn, HoldsLast, HasNumbers, HasWanted, IsKept, IsOffered, IsOfferOf};
ghost use Rattle.trace_machine.specs.Machines.{KnowsOrder, chooser_of, held_in, outcome_at, setting_at, state_of, turn_at};

use crate::labels::{held_in, outcome_of_last};
use choice_offers::{Choice, HeldOrder, Offer, Offered, Spot, fits, no_spot, op_spot, take_spot};
use core_primitives::{QueuePrimitives, View};
use machine_data::{Label, NoMemory, Outcome, Turn};
use ops_turns::is_idle;
use std::alloc::Global;
use task_loop::{RunConcurrent, Trace, run_concurrent};
use task_run::{Scenario, ScriptMain, ScriptedHost, new_store, traps_on_idle};
use task_store::Store;

/// What came of a choice.
#[derive(Clone, Copy)]
pub enum Went {
    /// The step with this label was made.
    Did(Label),
    /// The run goes on, and the choice doesn't fit. All is as before.
    Refused,
    /// No label is lawful.
    Over,
}

/// What came of a step that is made if it leaves no choice.
#[derive(Drop)]
pub enum Only {
    /// The step with this label was made, by the only choice that fits.
    Did(Label),
    /// The run goes on, and two choices or more fit this offer. All is as before.
    Open(Offer),
    /// No label is lawful.
    Over,
}

/// The machine of a scenario: a state, and the last label of the run that led to it.
#[derive(Drop)]
pub struct Machine<'a> {
    alloc: Global,
    scenario: &'a Scenario,
    store: Store<(), ScriptedHost>,
    run: RunConcurrent,
    // Whose turn it is in the run.
    turn: Turn,
    main: ScriptMain<'a>,
    held: HeldOrder,
    last: Option<Label>,
}

// The label of the only step that was made.
fn only_label(trace: &Trace) -> Label
    requires { (l : Label) × (trace.now ≡ l ∷ []) }
    ensures { trace.now ≡ result ∷ [] }
{
    match trace.last() {
        Some(label) => label,
        None => unreachable!(),
    }
}

// Remembers the thread that a label says is held, if it says so of one.
fn keep_order(held: &mut HeldOrder, label: Label) -> Result<(), NoMemory>
    requires { AreTimed held.old }
    ensures { OnOk result (HoldsLast (held_in label) held.old held.new × AreTimed held.new) }
{
    match held_in(label) {
        Some(thread) => held.add(thread),
        None => Ok(()),
    }
}

impl<'a> Machine<'a> {
    /// Makes the machine in the opening state of a scenario.
    pub fn open(alloc: Global, scenario: &'a Scenario) -> Result<Machine<'a>, NoMemory>
        requires runnable { IsRunnable scenario.now }
        requires hosts { HasOpen scenario.now.component → ⊥ }
        ensures state { IfOk result (λ m. state_of m ≡ opens (machine_scenario scenario.now)) }
        ensures scenario { IfOk result (λ m. m.scenario.now ≡ scenario.now) }
        ensures last { IfOk result (λ m. m.last ≡ None) }
        ensures order { IfOk result (λ m. KnowsOrder m []) }
        ensures kept { IfOk result (λ m. IsKept m) }
        ensures numbers { IfOk result (λ m. given m.store.state.core ≡ 0) }
    {
        let instances = scenario.component.instances.len();
        let mut store = new_store(
            alloc,
            (),
            scenario.rules,
            instances,
            scenario.handles,
            scenario.table,
        )?;
        let main = ScriptMain::new(alloc, scenario.main.as_slice());
        let Ok(run) = run_concurrent(&mut store, traps_on_idle(scenario.idle)) else {
            unreachable!()
        };
        let held = HeldOrder::new(alloc);
        Ok(Machine {
            alloc,
            scenario,
            store,
            run,
            turn: Turn::Main,
            main,
            held,
            last: None,
        })
    }

    // Whether no label is lawful: the run is over, or nothing can go on and that is no deadlock.
    fn is_over(&self) -> bool
        requires { IsKept self.now }
        ensures over { is_open (turn_at self.now) ≡ false → result ≡ true }
        ensures rests { is_open (turn_at self.now) ≡ true → result ≡ is_at_rest (setting_at self.now) (state_of self.now) }
    {
        if let Turn::Over = self.turn {
            return true;
        }
        let trap_on_idle = traps_on_idle(self.scenario.idle);
        is_idle(&self.store.state, self.turn, trap_on_idle)
    }

    // Where the op of the running thread chooses.
    fn run_spot(&self) -> Spot
        requires kept { IsKept self.now }
        requires runs { (n : ℕ) × (self.now.turn ≡ Turn.Run n) }
        ensures { Offers self.now.store.state (chooser_of self.now) result (offer (setting_at self.now) (state_of self.now)) }
    {
        let core = &self.store.state;
        core.none_is_zero();
        let Some(thread) = core.current() else {
            unreachable!()
        };
        op_spot(&self.scenario.component, core, thread)
    }

    // Where the taking of the next entry chooses, if there is one.
    fn next_spot(&self) -> Spot
        requires kept { IsKept self.now }
        requires takes { (ended : Bool) × (self.now.turn ≡ Turn.Take ended) }
        ensures { Offers self.now.store.state (chooser_of self.now) result (offer (setting_at self.now) (state_of self.now)) }
    {
        let core = &self.store.state;
        core.none_is_zero();
        match core.next_entry() {
            Some(next) => take_spot(core, next.1),
            None => no_spot(core),
        }
    }

    // Where the next step chooses.
    fn spot(&self) -> Spot
        requires { IsKept self.now }
        ensures { Offers self.now.store.state (chooser_of self.now) result (offer (setting_at self.now) (state_of self.now)) }
    {
        let nothing = no_spot(&self.store.state);
        match self.turn {
            Turn::Run { thread: _thread } => self.run_spot(),
            Turn::Take { ended: _ended } => self.next_spot(),
            Turn::Main => nothing,
            Turn::Futures { polled: _polled } => nothing,
            Turn::Over => nothing,
        }
    }

    // Among what the next step chooses.
    fn offered(&self) -> Result<Offered, NoMemory>
        requires { IsKept self.now }
        ensures { IfOk result (λ o. IsOffered self.now o) }
    {
        let place = self.spot();
        let offered = Offered::at(self.alloc, &self.store.state, &self.held, place)?;
        Ok(offered)
    }

    /// Lists among what the next step chooses: waiters in order of number, handles of ready members in
    /// ascending order, and held threads in the order of their last labels `held`. The lists are empty if it chooses none.
    pub fn offer(&self) -> Result<Offer, NoMemory>
        requires { IsKept self.now }
        ensures { IfOk result (λ o. IsOfferOf self.now o) }
    {
        let offered = self.offered()?;
        let offer = offered.offer(self.alloc)?;
        Ok(offer)
    }

    // The core is to pick what is chosen.
    fn want(&mut self, offered: &Offered, choice: &Choice) -> Result<(), NoMemory>
        requires offered { IsOffered self.old offered.now }
        requires fits { FitsOffer (chosen_of choice.now) (offer (setting_at self.old) (state_of self.old)) }
        ensures { OnOk result (HasWanted self.old choice.now self.new) }
    {
        let wanted = offered.wanted(self.alloc, choice)?;
        self.store.state.want(wanted);
        Ok(())
    }

    // Makes the step that picks what is wanted, and remembers a thread that is held by it.
    fn go_on(&mut self) -> Result<Label, NoMemory>
        requires kept { IsKept self.old }
        requires turn { is_open (turn_at self.old) ≡ true }
        requires moves { is_at_rest (setting_at self.old) (state_of self.old) ≡ false }
        requires few { HasNumbers self.old }
        ensures { IfOk result (λ l. GoesOn self.old l self.new) }
    {
        let mut trace = Trace::new(self.alloc);
        let component = &self.scenario.component;
        let stepped = self
            .run
            .step(component, &mut self.store, &mut self.main, &mut trace);
        // No hook is told of a machine's groups, so none fails.
        let Ok(made) = stepped else {
            return Err(NoMemory);
        };
        let Some(turn) = made else { unreachable!() };
        self.turn = turn;
        let label = only_label(&trace);
        self.last = Some(label);
        keep_order(&mut self.held, label)?;
        Ok(label)
    }

    /// Makes the next step as the choice says: `Did` with its label. `Over` if no label is lawful: the run is over, or nothing can go on.
    /// `Refused` if neither is so and the choice doesn't fit what is offered; then all is as before. If it is out of memory, nothing is
    /// said of the machine.
    pub fn go(&mut self, choice: &Choice) -> Result<Went, NoMemory>
        requires kept { IsKept self.old }
        requires few { HasNumbers self.old }
        ensures { IfOk result (λ went. Comes self.old choice.now went self.new) }
    {
        if self.is_over() {
            return Ok(Went::Over);
        }
        let offered = self.offered()?;
        let offer = offered.offer(self.alloc)?;
        if !fits(choice, &offer) {
            return Ok(Went::Refused);
        }
        self.want(&offered, choice)?;
        let label = self.go_on()?;
        Ok(Went::Did(label))
    }

    /// Makes the next step if it leaves no choice: `Did` with its label. `Over` if no label is lawful: the run is over, or nothing can
    /// go on. `Open` with what is offered if two choices or more fit; then all is as before. If it is out of memory, nothing is said of
    /// the machine.
    pub fn go_only(&mut self) -> Result<Only, NoMemory>
        requires kept { IsKept self.old }
        requires few { HasNumbers self.old }
        ensures { IfOk result (λ only. ComesOnly self.old only self.new) }
    {
        if self.is_over() {
            return Ok(Only::Over);
        }
        let offered = self.offered()?;
        let offer = offered.offer(self.alloc)?;
        if offer.is_open() {
            return Ok(Only::Open(offer));
        }
        let choice = offer.first_choice(self.alloc)?;
        self.want(&offered, &choice)?;
        let label = self.go_on()?;
        Ok(Only::Did(label))
    }

    /// Returns what the run has come to, if it has: by its last label, or else that it is idle, or else, if `used_up` says that its
    /// steps are used up, that it is out of steps.
    pub fn outcome(&self, used_up: bool) -> Option<Outcome>
        requires { IsKept self.now }
        ensures { result ≡ outcome_at self.now used_up }
    {
        if let Some(outcome) = outcome_of_last(self.last) {
            return Some(outcome);
        }
        if self.is_over() {
            return Some(Outcome::Idle);
        }
        if used_up {
            return Some(Outcome::OutOfSteps);
        }
        None
    }
}
