ghost use Rattle.laws_checks.specs.Release.{ReleaseIsRun};

/// A run whose releases go in the order in which the threads were held last is one of the machine.
#[tactic(auto, using(crate::proofs::ReleaseLemmas::release_is_run))]
pub fn releases_are_runs()
    ensures { ReleaseIsRun }
{}
