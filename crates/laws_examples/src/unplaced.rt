//! A state that no run reach.

ghost use Rattle.laws_examples.specs.Unplaced.{IsUnplaced, behind_and_no_caller};

/// A thread that is behind another one, and is not among its callers, doesn't have its place.
#[tactic(auto, using(crate::proofs::UnplacedShown::behind_and_no_caller_shown))]
pub fn behind_a_thread_without_callers()
    ensures { IsUnplaced behind_and_no_caller }
{}
