ghost use Rattle.laws_picks.specs.Wants.{WantedIsChosen};

/// A choice that fits is made by each step that picks what comes first, if that is what the choice says.
#[tactic(auto, using(crate::proofs::ChosenLemmas::wanted_is_chosen))]
pub fn wanted_is_chosen()
    ensures { WantedIsChosen }
{}
