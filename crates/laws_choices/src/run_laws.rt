ghost use Rattle.laws_choices.specs.Runs.{GoingHasNoOutcome, RestUnseen, RunByIsRun, RunDetermined, RunHasChoices};

/// What a list of choices makes is a run: its k-th step with an open offer takes the k-th choice, and each other step the only one
/// that fits.
#[tactic(auto, using(crate::proofs::RunLemmas::run_by_is_run))]
pub fn choices_make_runs()
    ensures { RunByIsRun }
{}

/// Each run from a state in order is made by some list of choices.
#[tactic(auto, using(crate::proofs::RunLemmas::run_has_choices))]
pub fn runs_have_choices()
    ensures { RunHasChoices }
{}

/// A list of choices makes one run of each length, and choices that are left aren't looked at.
#[tactic(auto, using(crate::proofs::RunLemmas::run_determined, crate::proofs::RunLemmas::rest_unseen))]
pub fn chosen_run_is_one()
    ensures one { RunDetermined }
    ensures rest { RestUnseen }
{}

/// Where a further step is lawful, a run with fewer labels than there are steps has resulted in nothing yet. So a run by choices
/// that goes on until it has resulted in something comes to each run that has.
#[tactic(auto, using(crate::proofs::RunLemmas::going_has_no_outcome))]
pub fn outcomes_come_last()
    ensures { GoingHasNoOutcome }
{}
