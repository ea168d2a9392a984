ghost use Rattle.laws_places.specs.PlaceWakes.{IdleIsStalled, ReachedCounted, ReachedGoOn, ReachedHoldBack, ReachedUnblocked};

/// In each state that a run reach no held thread is admitted: a flag or a counter that kept it out falls only together with its
/// release.
#[tactic(auto, using(crate::proofs::WakeLines::reached_hold_back))]
pub fn reached_hold_back()
    ensures { ReachedHoldBack }
{}

/// In each state that a run reaches, while its turns aren't over, no thread is blocked on a subtask that has an end as its event:
/// who is blocked on it goes on as that is set.
#[tactic(auto, using(crate::proofs::IdleLemmas::reached_unblocked))]
pub fn reached_unblocked()
    ensures { ReachedUnblocked }
{}

/// In each state that a run reaches, while its turns aren't over, from each thread that is behind another one comes, through those
/// that it is behind or under, to one that is ready or runs.
#[tactic(auto, using(crate::proofs::IdleLemmas::reached_go_on))]
pub fn reached_go_on()
    ensures { ReachedGoOn }
{}

/// In each state that a run reaches, while its turns aren't over, each set that has a waiter has at least as many woken threads as
/// members that have an event.
#[tactic(auto, using(crate::proofs::IdleLemmas::reached_counted))]
pub fn reached_counted()
    ensures { ReachedCounted }
{}

/// A state in order in which nothing is there, no work moves and main pends is stalled.
#[tactic(auto, using(crate::proofs::IdleLemmas::idle_is_stalled))]
pub fn idle_is_stalled()
    ensures { IdleIsStalled }
{}
