ghost use Rattle.laws_beside.specs.RunCalls.{CallsGoOn, NoCalls};

/// A run that has made no step has made no call.
#[tactic(auto, using(crate::proofs::CallLemmas::no_calls))]
pub fn no_calls()
    ensures { NoCalls }
{}

/// With a step more it has made the calls of the step's label, too.
#[tactic(auto, using(crate::proofs::CallLemmas::calls_go_on))]
pub fn calls_go_on()
    ensures { CallsGoOn }
{}
