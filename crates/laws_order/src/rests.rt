ghost use Rattle.laws_order.specs.Rests.{RestsLowerPolls};

/// A turn that rests, once its works have pended, has lowered the polls that are left of one of them. So no run spends its steps on
/// turns in which nothing comes nearer to its end: another turn takes an entry, ends a work or ends the run, as its labels show.
#[tactic(auto, using(crate::proofs::RestLemmas::rests_lower_polls))]
pub fn rests_lower_polls()
    ensures { RestsLowerPolls }
{}
