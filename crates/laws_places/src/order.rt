ghost use Rattle.laws_states.specs.Order.{OpeningInOrder, StepInOrder, StepsMakeFew};
ghost use Rattle.laws_places.specs.KeptPlaces.{ReachedInOrder};

/// Each opening state of a component is in order.
#[tactic(auto, using(crate::proofs::OrderLemmas::opening_in_order))]
pub fn opening_in_order()
    ensures { OpeningInOrder }
{}

/// Each step from a state in order leads to a state in order.
#[tactic(auto, using(crate::proofs::OrderLemmas::step_in_order))]
pub fn step_in_order()
    ensures { StepInOrder }
{}

/// So each state that a run reach is in order.
#[tactic(auto, using(crate::proofs::OrderLemmas::reached_in_order))]
pub fn reached_in_order()
    ensures { ReachedInOrder }
{}

/// A step makes at most one thread, one work, one set and one group.
#[tactic(auto, using(crate::proofs::OrderLemmas::steps_make_few))]
pub fn steps_make_few()
    ensures { StepsMakeFew }
{}
