ghost use Rattle.laws_beside.specs.Outcomes.{NoLabelRests, NoLabelUsesUp, OpenRunsUseUp, RunsComeTo, RunsComeToBehind, RunsShowALabel, WaitingRests, WideOutcomes};

/// A run has come to an end that its last label gives, or to a state at rest, or may go on.
#[tactic(auto, using(crate::proofs::OutcomeLemmas::runs_come_to))]
pub fn runs_come_to()
    ensures { RunsComeTo }
{}

/// So has one that went on behind labels that end no run.
pub fn runs_come_to_behind()
    ensures { RunsComeToBehind }
{}

/// Where no stalled state is a deadlock, each is at rest.
#[tactic(auto, using(crate::proofs::OutcomeLemmas::waiting_rests))]
pub fn waiting_rests()
    ensures { WaitingRests }
{}

/// What a run beside aborters has resulted in, by its last label, and by whether its last round is over.
#[tactic(auto, using(crate::proofs::OutcomeLemmas::wide_outcomes))]
pub fn wide_outcomes()
    ensures { WideOutcomes }
{}

/// A run that has come to no end has used up its steps.
#[tactic(auto, using(crate::proofs::OutcomeLemmas::open_runs_use_up))]
pub fn open_runs_use_up()
    ensures { OpenRunsUseUp }
{}

/// A run from a state that isn't at rest shows a label.
#[tactic(auto, using(crate::proofs::OutcomeLemmas::runs_show_a_label))]
pub fn runs_show_a_label()
    ensures { RunsShowALabel }
{}

/// No label says that the steps are used up.
#[tactic(auto, using(crate::proofs::OutcomeLemmas::no_label_uses_up))]
pub fn no_label_uses_up()
    ensures { NoLabelUsesUp }
{}

/// Nor does one say that nothing can go on.
#[tactic(auto, using(crate::proofs::OutcomeLemmas::no_label_rests))]
pub fn no_label_rests()
    ensures { NoLabelRests }
{}
