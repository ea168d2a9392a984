ghost use Rattle.laws_places.specs.KeptPlaces.{ReachedInPlace, StepsKeepPlaces};

/// In each reached state each thread is at exactly one place, with an entry exactly where its
/// place says so, and a thread whose turn it is runs.
#[tactic(auto, using(crate::proofs::OrderLemmas::reached_in_place))]
pub fn reached_are_placed()
    ensures { ReachedInPlace }
{}

/// Each step from a reached state leads to such a state.
#[tactic(auto, using(crate::proofs::OrderLemmas::steps_keep_places))]
pub fn steps_keep_places()
    ensures { StepsKeepPlaces }
{}
