ghost use Rattle.laws_choices.specs.Wanted.{WantedIsTaken, WantedIsWoken};

/// What is wanted is what a step picks that picks what comes first, where it can be picked.
#[tactic(auto, using(crate::proofs::WantedLemmas::wanted_is_woken, crate::proofs::WantedLemmas::wanted_is_taken))]
pub fn wanted_is_picked()
    ensures woken { WantedIsWoken }
    ensures taken { WantedIsTaken }
{}
