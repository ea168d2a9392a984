ghost use Rattle.laws_choices.specs.Steps.{ChoiceSteps, MadeIsStep, StepChooses, StepDetermined};

/// A choice makes one step: one label, and one next state.
#[tactic(auto, using(crate::proofs::StepLemmas::step_determined))]
pub fn step_is_determined()
    ensures { StepDetermined }
{}

/// Each step is made by a choice that fits what the state before it offers and that its label shows.
#[tactic(auto, using(crate::proofs::StepLemmas::step_chooses))]
pub fn steps_choose()
    ensures { StepChooses }
{}

/// Where some label is lawful, each choice that fits makes a step, and what such a choice makes is a step whose label shows it.
#[tactic(auto, using(crate::proofs::StepLemmas::choice_steps, crate::proofs::StepLemmas::made_is_step))]
pub fn choices_make_steps()
    ensures each { ChoiceSteps }
    ensures lawful { MadeIsStep }
{}
