//! Each function is the statement that its scenario makes just these labels, and ends in this outcome.

ghost use Rattle.laws_examples.specs.Play.{Runs};
ghost use Rattle.laws_examples.specs.Cancels as the;

use machine_data::{Outcome, Trap};

#[tactic(auto, using(crate::proofs::CancelsShown::cancel_of_a_subtask_joined_to_a_set_traps_shown))]
pub fn cancel_of_a_subtask_joined_to_a_set_traps()
    ensures { Runs the.cancel_of_a_subtask_joined_to_a_set_traps_run 1000 (Outcome.Trap Trap.WaitableSyncAndAsync) }
{}

#[tactic(auto, using(crate::proofs::CancelsShown::cancel_withdraws_a_held_start_shown))]
pub fn cancel_withdraws_a_held_start()
    ensures { Runs the.cancel_withdraws_a_held_start_run 1000 (Outcome.Done 3) }
{}

#[tactic(auto, using(crate::proofs::CancelsShown::sync_cancel_of_a_waiting_callback_shown))]
pub fn sync_cancel_of_a_waiting_callback()
    ensures { Runs the.sync_cancel_of_a_waiting_callback_run 1000 (Outcome.Done 4) }
{}

#[tactic(auto, using(crate::proofs::CancelsShown::task_cancel_without_a_request_traps_shown))]
pub fn task_cancel_without_a_request_traps()
    ensures { Runs the.task_cancel_without_a_request_traps_run 1000 (Outcome.Trap Trap.TaskCancelNotCancelled) }
{}
