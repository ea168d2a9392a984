//! Laws of the numbers by which choices and ways are gone through.
ghost use Rattle.choice_search.specs.Numbered.{EachIsNumbered};
ghost use Rattle.choice_search.specs.Searched.{EachIsAWay};

/// Each choice that fits an offer has a number below their count.
#[tactic(auto, using(crate::proofs::NumberLemmas::each_is_numbered))]
pub fn choices_are_numbered()
    ensures { EachIsNumbered }
{}

/// Each way in which hosts may answer has a number below their count, and each number is such a way.
#[tactic(auto, using(crate::proofs::WayLemmas::each_is_a_way))]
pub fn ways_are_numbered()
    ensures { EachIsAWay }
{}
