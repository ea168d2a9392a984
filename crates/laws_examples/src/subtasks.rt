//! Each function is the statement that its scenario makes just these labels, and ends in this outcome.

ghost use Rattle.laws_examples.specs.Play.{Runs};
ghost use Rattle.laws_examples.specs.Subtasks as the;

use machine_data::{Outcome, Trap};

#[tactic(auto, using(crate::proofs::SubtasksShown::cancel_of_a_yield_that_stands_at_switch_shown))]
pub fn cancel_of_a_yield_that_stands_at_switch()
    ensures { Runs the.cancel_of_a_yield_that_stands_at_switch_run 1000 (Outcome.Done 4) }
{}

#[tactic(auto, using(crate::proofs::SubtasksShown::cancel_of_a_yield_that_stands_at_high_shown))]
pub fn cancel_of_a_yield_that_stands_at_high()
    ensures { Runs the.cancel_of_a_yield_that_stands_at_high_run 1000 (Outcome.Done 4) }
{}

#[tactic(auto, using(crate::proofs::SubtasksShown::cancel_of_a_host_call_whose_entry_was_not_taken_leaves_its_value_shown))]
pub fn cancel_of_a_host_call_whose_entry_was_not_taken_leaves_its_value()
    ensures { Runs the.cancel_of_a_host_call_whose_entry_was_not_taken_leaves_its_value_run 1000 (Outcome.Done 6) }
{}

#[tactic(auto, using(crate::proofs::SubtasksShown::cancel_after_the_end_was_taken_traps_shown))]
pub fn cancel_after_the_end_was_taken_traps()
    ensures { Runs the.cancel_after_the_end_was_taken_traps_run 1000 (Outcome.Trap Trap.SubtaskCancelAfterTerminal) }
{}

#[tactic(auto, using(crate::proofs::SubtasksShown::drop_before_the_end_was_taken_traps_shown))]
pub fn drop_before_the_end_was_taken_traps()
    ensures { Runs the.drop_before_the_end_was_taken_traps_run 1000 (Outcome.Trap Trap.SubtaskDropNotResolved) }
{}

#[tactic(auto, using(crate::proofs::SubtasksShown::task_cancel_after_a_return_traps_shown))]
pub fn task_cancel_after_a_return_traps()
    ensures { Runs the.task_cancel_after_a_return_traps_run 1000 (Outcome.Trap Trap.TaskCancelOrReturnTwice) }
{}

#[tactic(auto, using(crate::proofs::SubtasksShown::set_drop_with_a_waiter_traps_shown))]
pub fn set_drop_with_a_waiter_traps()
    ensures { Runs the.set_drop_with_a_waiter_traps_run 1000 (Outcome.Trap Trap.WaitableSetDropHasWaiters) }
{}

#[tactic(auto, using(crate::proofs::SubtasksShown::caller_is_woken_by_a_start_and_by_ends_shown))]
pub fn caller_is_woken_by_a_start_and_by_ends()
    ensures { Runs the.caller_is_woken_by_a_start_and_by_ends_run 300 (Outcome.Done 8) }
{}
