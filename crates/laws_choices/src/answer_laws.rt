ghost use Rattle.laws_choices.specs.ChoiceAnswers.{AnswersAreOne, RunIsReported};

/// The run under a list of choices results in one thing alone: it has an outcome, or a choice doesn't fit at its step, or no choice
/// is left at an open step.
#[tactic(auto, using(crate::proofs::AnswerLemmas::answers_are_one))]
pub fn chosen_run_comes_to_one()
    ensures { AnswersAreOne }
{}

/// Each run from a state in order that has an outcome is what the run under some choices results in, which uses them all.
#[tactic(auto, using(crate::proofs::AnswerLemmas::run_is_reported))]
pub fn runs_are_reported()
    ensures { RunIsReported }
{}
