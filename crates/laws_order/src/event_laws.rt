ghost use Rattle.laws_order.specs.Events.{EventsReached, RunsTellHigher, StartsUnstarted, StepsTellHigher};

/// In a state that a run reach, a call whose first thread waits for its start has not started.
#[tactic(auto, using(crate::proofs::WaitLemmasBetween::starts_unstarted))]
pub fn starts_wait_unstarted()
    ensures { StartsUnstarted }
{}

/// In such a state what a call has to hand out is a status that it has resulted in.
#[tactic(auto, using(crate::proofs::EventLaws::events_reached))]
pub fn events_are_reached()
    ensures { EventsReached }
{}

/// By a step from such a state a call comes to have another status to hand out only where it had not
/// come so far before: so each is told at most once, and a later one is a higher one.
#[tactic(auto, using(crate::proofs::EventLaws::steps_tell_higher))]
pub fn steps_tell_higher()
    ensures { StepsTellHigher }
{}

/// So it is by each run that goes on from such a state.
#[tactic(auto, using(crate::proofs::EventLaws::runs_tell_higher))]
pub fn runs_tell_higher()
    ensures { RunsTellHigher }
{}
