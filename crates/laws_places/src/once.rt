ghost use Rattle.laws_places.specs.Once.{RunsAreOnce, ScriptsHoldOne};

/// In each run from an opening state each end of a call and of a host work is written at most once, and at most one step hands it
/// out, with the status with which it was written. Premises: the ops that end an activation are in callback exports alone; and main
/// is a script at its first op, or no script.
#[tactic(auto, using(crate::proofs::OnceSteps::runs_are_once))]
pub fn runs_are_once()
    ensures { RunsAreOnce }
{}

/// In each run of a main that is a script, from an opening state, at most one holding entry of an instance runs at a time, however
/// many instances there are. Premises: the ops that end an activation are in callback exports alone; and each export that is
/// started or called is of one of the instances.
#[tactic(auto, using(crate::proofs::HoldLemmas::scripts_hold_one))]
pub fn scripts_hold_one()
    ensures { ScriptsHoldOne }
{}
