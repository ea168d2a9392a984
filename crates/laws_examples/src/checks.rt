//! Each function is the statement that its scenario makes just these labels, and ends in this outcome.

ghost use Rattle.laws_examples.specs.Play.{Runs};
ghost use Rattle.laws_examples.specs.Checks as the;

use machine_data::{Outcome, Trap};

#[tactic(auto, using(crate::proofs::ChecksShown::exit_of_a_stackful_export_with_nothing_to_promote_traps_shown))]
pub fn exit_of_a_stackful_export_with_nothing_to_promote_traps()
    ensures { Runs the.exit_of_a_stackful_export_with_nothing_to_promote_traps_run 1000 (Outcome.Trap Trap.CannotBlockSyncTask) }
{}

#[tactic(auto, using(crate::proofs::ChecksShown::exit_of_a_blocking_export_with_nothing_to_promote_traps_shown))]
pub fn exit_of_a_blocking_export_with_nothing_to_promote_traps()
    ensures { Runs the.exit_of_a_blocking_export_with_nothing_to_promote_traps_run 1000 (Outcome.Trap Trap.CannotBlockSyncTask) }
{}

#[tactic(auto, using(crate::proofs::ChecksShown::exit_of_a_direct_call_with_nothing_to_promote_traps_shown))]
pub fn exit_of_a_direct_call_with_nothing_to_promote_traps()
    ensures { Runs the.exit_of_a_direct_call_with_nothing_to_promote_traps_run 1000 (Outcome.Trap Trap.CannotBlockSyncTask) }
{}

#[tactic(auto, using(crate::proofs::ChecksShown::suspend_with_nothing_to_promote_traps_shown))]
pub fn suspend_with_nothing_to_promote_traps()
    ensures { Runs the.suspend_with_nothing_to_promote_traps_run 1000 (Outcome.Trap Trap.CannotBlockSyncTask) }
{}

#[tactic(auto, using(crate::proofs::ChecksShown::sync_call_of_a_waiting_callee_with_nothing_to_promote_traps_shown))]
pub fn sync_call_of_a_waiting_callee_with_nothing_to_promote_traps()
    ensures { Runs the.sync_call_of_a_waiting_callee_with_nothing_to_promote_traps_run 1000 (Outcome.Trap Trap.CannotBlockSyncTask) }
{}

#[tactic(auto, using(crate::proofs::ChecksShown::sync_cancel_with_nothing_to_promote_traps_shown))]
pub fn sync_cancel_with_nothing_to_promote_traps()
    ensures { Runs the.sync_cancel_with_nothing_to_promote_traps_run 1000 (Outcome.Trap Trap.CannotBlockSyncTask) }
{}

#[tactic(auto, using(crate::proofs::ChecksShown::callback_wait_on_no_set_traps_shown))]
pub fn callback_wait_on_no_set_traps()
    ensures { Runs the.callback_wait_on_no_set_traps_run 1000 (Outcome.Trap Trap.BadHandle) }
{}
