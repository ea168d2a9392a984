//! What a run has told: each function here is the statement of a law.
ghost use Rattle.store_notices.specs.Runs.{OtherTurnsTold, DataTold, MainTold, NothingTold, StepTold};

/// Says that before the first step nothing was told.
#[tactic(auto, using(crate::proofs::RunLemmas::nothing_told))]
pub fn nothing_is_told()
    ensures { NothingTold }
{}

/// Says that if the notices of one more step are told, those of the run with it were.
#[tactic(auto, using(crate::proofs::RunLemmas::step_told_on))]
pub fn steps_are_told()
    ensures { StepTold }
{}

/// Says that if a thread does ops on registers and memory cells, nothing need be told.
#[tactic(auto, using(crate::proofs::RunLemmas::data_told))]
pub fn data_is_told()
    ensures { DataTold }
{}

/// Says that in each turn but main's `tell_step` tells just the notices of the step, from the groups before it.
pub fn other_turns_are_told()
    ensures { OtherTurnsTold }
{}

/// Says that at main's turn the notices are those of the group that a start made, and of those that its refusal finished.
#[tactic(auto, using(crate::proofs::RunLemmas::main_told))]
pub fn main_is_told()
    ensures { MainTold }
{}
