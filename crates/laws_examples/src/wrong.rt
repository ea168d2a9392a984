//! What machines with one rule wrong show and result in, which the statements on runs and on states refuse.

ghost use Rattle.laws_examples.specs.Lost.{forgotten_caller, swallowed_wake};
ghost use Rattle.laws_examples.specs.Wrong.{cancelled_after_return, cancelling_late, returned_twice, returning_twice};
ghost use Rattle.laws_states.specs.WakeLaw.{CallersGoOn, WakesCounted};
ghost use Rattle.machine_rules.specs.Once.{EndsOnce};

/// A `ret` without its first trap writes an end twice. A cancel that puts ReturnCancelled in the
/// place of an undelivered Returned hands out an end that nobody wrote. A delivery of Cancelled
/// that doesn't hand its wake on leaves a waiter on a set that has a ready member and no woken
/// thread. A stop that looks at the top of the strand and not at its foot leaves a caller behind a
/// stopped strand.
#[tactic(auto, using(crate::proofs::WrongShown::return_over_return, crate::proofs::WrongShown::cancel_over_return, crate::proofs::LostShown::swallowed_wake_shown, crate::proofs::LostShown::forgotten_caller_shown))]
pub fn wrong_machines_are_refused()
    ensures second_return { EndsOnce returning_twice.component returned_twice → ⊥ }
    ensures cancel_over_returned { EndsOnce cancelling_late.component cancelled_after_return → ⊥ }
    ensures swallowed { WakesCounted swallowed_wake → ⊥ }
    ensures forgotten { CallersGoOn forgotten_caller → ⊥ }
{}
