ghost use Rattle.laws_choices.specs.Chooses.{RulesChoose, TakingsChoose};

/// The rule of each op chooses among what is offered, where threads wait on sets of their own instances: what a lawful label shows
/// fits the offer, and where some label is lawful each choice that fits is shown by a lawful one. Ops whose offer is empty choose
/// nothing.
#[tactic(auto, using(crate::proofs::RulePicks::rules_choose))]
pub fn ops_choose()
    ensures { RulesChoose }
{}

/// So do the rules of takings, in every core: a start that is admitted or held, a delivery, the entry of a host's work.
#[tactic(auto, using(crate::proofs::TakePicks::takings_choose))]
pub fn takings_choose()
    ensures { TakingsChoose }
{}
