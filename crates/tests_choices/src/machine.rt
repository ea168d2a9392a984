//! The machine of a scenario that was read.
ghost use Rattle.machine_rules.specs.Scripts.{HasOpen};
ghost use Rattle.task_run.specs.Runnable.{IsRunnable};
ghost use Rattle.tests_choices.specs.Going.{GoesTo, HasGiven};
ghost use Rattle.trace_machine.specs.Machines.{IsKept};

use crate::offers::list;
use crate::runs::scenario;
use machine_data::{Outcome, Trap};
use std::alloc::Global;
use std::process::Abort;
use task_run::Scenario;
use trace_machine::{Choice, Machine, Offer, Only, Went};

fn opened<'a>(rt: &impl Abort, alloc: Global, scenario: &'a Scenario) -> Machine<'a>
    requires runnable { IsRunnable scenario.now }
    requires hosts { HasOpen scenario.now.component → ⊥ }
    ensures kept { IsKept result }
    ensures few { HasGiven 0 result }
{
    match Machine::open(alloc, scenario) {
        Ok(machine) => machine,
        Err(_) => panic!(rt; "no memory"),
    }
}

fn waking(rt: &impl Abort, alloc: Global, waiter: Option<u64>) -> Choice {
    Choice {
        waiter,
        member: None,
        release: list(rt, alloc, &[]),
    }
}

fn offer_of(rt: &impl Abort, machine: &Machine<'_>) -> Offer
    requires { IsKept machine.now }
{
    match machine.offer() {
        Ok(offer) => offer,
        Err(_) => panic!(rt; "no memory"),
    }
}

fn went(rt: &impl Abort, machine: &mut Machine<'_>, choice: &Choice) -> Went
    requires kept { IsKept machine.old }
    requires few { HasGiven 1000 machine.old }
    ensures { GoesTo 2 machine.old machine.new }
{
    match machine.go(choice) {
        Ok(went) => went,
        Err(_) => panic!(rt; "no memory"),
    }
}

fn is_made(only: &Only) -> bool {
    matches!(only, Only::Did(_))
}

// Makes the next step if it leaves no choice, and returns whether it was made.
fn goes_only(rt: &impl Abort, machine: &mut Machine<'_>) -> bool
    requires kept { IsKept machine.old }
    requires few { HasGiven 1000 machine.old }
    ensures { GoesTo 2 machine.old machine.new }
{
    let Ok(only) = machine.go_only() else {
        panic!(rt; "no memory")
    };
    is_made(&only)
}

// Makes the steps that leave no choice, at most 100, and returns how many they were.
fn go_on(rt: &impl Abort, alloc: Global, machine: &mut Machine<'_>) -> u32
    requires kept { IsKept machine.old }
    requires few { HasGiven 800 machine.old }
    ensures { GoesTo 200 machine.old machine.new }
{
    let mut labels = 0;
    'labels: while labels < 100 {
        if machine.outcome(false).is_some() {
            return labels;
        }
        let offer = offer_of(rt, machine);
        if offer.is_open() {
            return labels;
        }
        let Ok(choice) = offer.first_choice(alloc) else {
            panic!(rt; "no memory")
        };
        let _went = went(rt, machine, &choice);
        labels += 1;
    }
    labels
}

// The machine wakes the waiter.
fn wakes(rt: &impl Abort, alloc: Global, machine: &mut Machine<'_>, waiter: u64) -> Went
    requires kept { IsKept machine.old }
    requires few { HasGiven 1000 machine.old }
    ensures { GoesTo 2 machine.old machine.new }
{
    let choice = waking(rt, alloc, Some(waiter));
    went(rt, machine, &choice)
}

#[test]
fn one_of_two_waiters_is_chosen(rt: HostRuntime) {
    let alloc = rt.alloc();
    let scenario = scenario(&rt, alloc);
    let mut machine = opened(&rt, alloc, &scenario);
    assert!(rt; goes_only(&rt, &mut machine));
    assert!(rt; go_on(&rt, alloc, &mut machine) == 23);
    assert!(rt; !goes_only(&rt, &mut machine));
    let offer = offer_of(&rt, &machine);
    assert!(rt; offer.waiters.as_slice() == [2, 3].as_slice());
    assert!(rt; machine.outcome(false).is_none());
    assert!(rt; matches!(machine.outcome(true), Some(Outcome::OutOfSteps)));
    assert!(rt; matches!(wakes(&rt, alloc, &mut machine, 4), Went::Refused));
    assert!(rt; matches!(wakes(&rt, alloc, &mut machine, 3), Went::Did(_)));
    assert!(rt; go_on(&rt, alloc, &mut machine) > 0);
    assert!(rt; matches!(wakes(&rt, alloc, &mut machine, 3), Went::Over));
    assert!(rt;
        matches!(
            machine.outcome(false),
            Some(Outcome::Deadlock(Trap::AsyncDeadlock))
        )
    );
}
