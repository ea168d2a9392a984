//! Each function is the statement that its scenario makes just these labels, and ends in this outcome.

ghost use Rattle.laws_examples.specs.Play.{Runs};
ghost use Rattle.laws_examples.specs.Strands as the;

use machine_data::{Outcome, Trap};

#[tactic(auto, using(crate::proofs::StrandsShown::return_in_a_sync_export_traps_shown))]
pub fn return_in_a_sync_export_traps()
    ensures { Runs the.return_in_a_sync_export_traps_run 1000 (Outcome.Trap Trap.TaskReturnInvalid) }
{}

#[tactic(auto, using(crate::proofs::StrandsShown::sync_export_answers_its_first_register_shown))]
pub fn sync_export_answers_its_first_register()
    ensures { Runs the.sync_export_answers_its_first_register_run 1000 (Outcome.Done 8) }
{}

#[tactic(auto, using(crate::proofs::StrandsShown::sync_wait_promotes_a_yield_then_deadlock_nine_shown))]
pub fn sync_wait_promotes_a_yield_then_deadlock_nine()
    ensures { Runs the.sync_wait_promotes_a_yield_then_deadlock_nine_run 1000 (Outcome.Deadlock Trap.CannotBlockSyncTask) }
{}

#[tactic(auto, using(crate::proofs::StrandsShown::sync_wait_promotes_a_yield_whose_exit_then_traps_shown))]
pub fn sync_wait_promotes_a_yield_whose_exit_then_traps()
    ensures { Runs the.sync_wait_promotes_a_yield_whose_exit_then_traps_run 1000 (Outcome.Trap Trap.CannotBlockSyncTask) }
{}

#[tactic(auto, using(crate::proofs::StrandsShown::wait_in_sync_export_with_nothing_to_promote_traps_shown))]
pub fn wait_in_sync_export_with_nothing_to_promote_traps()
    ensures { Runs the.wait_in_sync_export_with_nothing_to_promote_traps_run 1000 (Outcome.Trap Trap.CannotBlockSyncTask) }
{}

#[tactic(auto, using(crate::proofs::StrandsShown::wait_on_empty_set_deadlocks_shown))]
pub fn wait_on_empty_set_deadlocks()
    ensures { Runs the.wait_on_empty_set_deadlocks_run 1000 (Outcome.Deadlock Trap.AsyncDeadlock) }
{}

#[tactic(auto, using(crate::proofs::StrandsShown::wait_on_empty_set_is_idle_under_idle_wait_shown))]
pub fn wait_on_empty_set_is_idle_under_idle_wait()
    ensures { Runs the.wait_on_empty_set_is_idle_under_idle_wait_run 1000 (Outcome.Idle) }
{}
