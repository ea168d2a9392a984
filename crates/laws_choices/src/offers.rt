ghost use Rattle.laws_choices.specs.Offer.{ClosedHasOne, FirstFits};
ghost use Rattle.laws_choices.specs.Steps.{OpenHasTwo};

/// The first of each kind fits every offer, and an offer that isn't open is fitted by nothing else.
#[tactic(auto, using(crate::proofs::OfferLemmas::first_fits, crate::proofs::OfferLemmas::closed_has_one))]
pub fn first_choice_fits()
    ensures first { FirstFits }
    ensures alone { ClosedHasOne }
{}

/// A state's offer that is open is fitted by two choices at least.
#[tactic(auto, using(crate::proofs::OpenLemmas::open_has_two))]
pub fn open_offers_have_two()
    ensures { OpenHasTwo }
{}
