ghost use Rattle.laws_states.specs.Holders.{RunsHoldOne};

/// From the label with which a holding entry begins to run to its return no other holding entry of
/// that instance begins to run, in each run of a scripted main whose callees exist.
#[tactic(auto, using(crate::proofs::OneHolder::runs_hold_one))]
pub fn one_entry_holds()
    ensures { RunsHoldOne }
{}
