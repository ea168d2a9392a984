ghost use Rattle.laws_checks.specs.Twins.{HiddenAreTwins, NextIsBusy, NextIsNamed, TwinsGoOn};

/// If a cancel may take one of several threads, its label is the same whichever it takes, and so are the states, but for that thread.
#[tactic(auto, using(crate::proofs::HiddenLemmas::hidden_are_twins))]
pub fn cancels_hide_alike()
    ensures { HiddenAreTwins }
{}

/// The thread that a cancel took is taken next: until then only main acts and works are polled, and the label that takes it names it. So
/// long the run isn't at rest.
#[tactic(auto, using(crate::proofs::TwinLemmas::next_is_named, crate::proofs::TwinLemmas::next_is_busy))]
pub fn next_is_named()
    ensures named { NextIsNamed }
    ensures busy { NextIsBusy }
{}

/// Until then states that differ in that thread alone show the same labels.
#[tactic(auto, using(crate::proofs::TwinLemmas::twins_go_on))]
pub fn twins_go_on()
    ensures { TwinsGoOn }
{}
