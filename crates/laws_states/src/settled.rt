ghost use Rattle.laws_states.specs.Settled.{NoneIsAsked, OpenWorksAnswer, RunsStaySettled, SettledStays};

/// In the run of a text no work is open: where no host of the component is and main is a script, no
/// step makes an open work.
#[tactic(auto, using(crate::proofs::SettledLemmas::settled_stays))]
pub fn settled_stays()
    ensures { SettledStays }
{}

/// Nor does a run of such steps.
#[tactic(auto, using(crate::proofs::SettledLemmas::runs_stay_settled))]
pub fn runs_stay_settled()
    ensures { RunsStaySettled }
{}

/// Where no host and no work is open, no poll is left to what a work answers: each is what the host's
/// definition, or the work's record, says.
#[tactic(auto, using(crate::proofs::SettledLemmas::none_is_asked))]
pub fn none_is_asked()
    ensures { NoneIsAsked }
{}

/// An open work may answer what it likes at each of its polls: that it pends, a value, that it
/// fails. Its label says which, and nothing else comes of its poll.
#[tactic(auto, using(crate::proofs::SettledLemmas::open_works_answer))]
pub fn open_works_answer()
    ensures { OpenWorksAnswer }
{}
