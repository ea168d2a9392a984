//! Each function is the statement that its scenario makes just these labels, and ends in this outcome.

ghost use Rattle.laws_examples.specs.Play.{Runs};
ghost use Rattle.laws_examples.specs.Threads as the;

use machine_data::{Outcome, Trap};

#[tactic(auto, using(crate::proofs::ThreadsShown::join_of_a_subtask_under_sync_cancel_traps_shown))]
pub fn join_of_a_subtask_under_sync_cancel_traps()
    ensures { Runs the.join_of_a_subtask_under_sync_cancel_traps_run 1000 (Outcome.Trap Trap.WaitableSyncAndAsync) }
{}

#[tactic(auto, using(crate::proofs::ThreadsShown::set_drop_with_a_woken_waiter_that_has_not_run_traps_shown))]
pub fn set_drop_with_a_woken_waiter_that_has_not_run_traps()
    ensures { Runs the.set_drop_with_a_woken_waiter_that_has_not_run_traps_run 1000 (Outcome.Trap Trap.WaitableSetDropHasWaiters) }
{}

#[tactic(auto, using(crate::proofs::ThreadsShown::thread_new_from_a_bad_slot_traps_shown))]
pub fn thread_new_from_a_bad_slot_traps()
    ensures { Runs the.thread_new_from_a_bad_slot_traps_run 1000 (Outcome.Trap Trap.ThreadNewIndirectInvalidType) }
{}

#[tactic(auto, using(crate::proofs::ThreadsShown::thread_new_from_a_slot_without_a_line_traps_shown))]
pub fn thread_new_from_a_slot_without_a_line_traps()
    ensures { Runs the.thread_new_from_a_slot_without_a_line_traps_run 1000 (Outcome.Trap Trap.ThreadNewIndirectUninitialized) }
{}

#[tactic(auto, using(crate::proofs::ThreadsShown::thread_that_resumes_itself_traps_shown))]
pub fn thread_that_resumes_itself_traps()
    ensures { Runs the.thread_that_resumes_itself_traps_run 1000 (Outcome.Trap Trap.CannotResumeThread) }
{}

#[tactic(auto, using(crate::proofs::ThreadsShown::woken_thread_whose_event_was_taken_waits_again_shown))]
pub fn woken_thread_whose_event_was_taken_waits_again()
    ensures { Runs the.woken_thread_whose_event_was_taken_waits_again_run 1000 (Outcome.Deadlock Trap.AsyncDeadlock) }
{}

#[tactic(auto, using(crate::proofs::ThreadsShown::yield_then_promote_of_an_unstarted_thread_is_a_plain_yield_shown))]
pub fn yield_then_promote_of_an_unstarted_thread_is_a_plain_yield()
    ensures { Runs the.yield_then_promote_of_an_unstarted_thread_is_a_plain_yield_run 1000 (Outcome.Done 0) }
{}

#[tactic(auto, using(crate::proofs::ThreadsShown::threads_hand_each_other_the_turn_shown))]
pub fn threads_hand_each_other_the_turn()
    ensures { Runs the.threads_hand_each_other_the_turn_run 300 (Outcome.Done 6) }
{}
