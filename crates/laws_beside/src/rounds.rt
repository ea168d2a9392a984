ghost use Rattle.laws_beside.specs.Rounds.{RoundsGoOn, SpawnsAreNext, StepsGoOn};

/// A run beside aborters goes on by a step, outside its last round.
#[tactic(auto, using(crate::proofs::RoundLemmas::steps_go_on))]
pub fn steps_go_on()
    ensures { StepsGoOn }
{}

/// The last round goes on by a poll of the spawned work that is next.
#[tactic(auto, using(crate::proofs::RoundLemmas::rounds_go_on))]
pub fn rounds_go_on()
    ensures { RoundsGoOn }
{}

/// Of the live works that are polled, those that were spawned are the round's, in the same order.
#[tactic(auto, using(crate::proofs::RoundLemmas::spawns_are_next))]
pub fn spawns_are_next()
    ensures { SpawnsAreNext }
{}
