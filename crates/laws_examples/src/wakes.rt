//! Each function is the statement that its scenario makes just these labels, and ends in this outcome.

ghost use Rattle.laws_examples.specs.Play.{Runs};
ghost use Rattle.laws_examples.specs.Wakes as the;

use machine_data::{Outcome, Trap};

#[tactic(auto, using(crate::proofs::WakesShown::cancelled_delivery_hands_its_wake_to_the_next_waiter_shown))]
pub fn cancelled_delivery_hands_its_wake_to_the_next_waiter()
    ensures { Runs the.cancelled_delivery_hands_its_wake_to_the_next_waiter_run 1000 (Outcome.Done 4294967295) }
{}

#[tactic(auto, using(crate::proofs::WakesShown::held_yield_stays_held_under_a_cancel_shown))]
pub fn held_yield_stays_held_under_a_cancel()
    ensures { Runs the.held_yield_stays_held_under_a_cancel_run 1000 (Outcome.Done 4294967295) }
{}

#[tactic(auto, using(crate::proofs::WakesShown::cancel_leaves_a_stackful_wait_waiting_shown))]
pub fn cancel_leaves_a_stackful_wait_waiting()
    ensures { Runs the.cancel_leaves_a_stackful_wait_waiting_run 1000 (Outcome.Deadlock Trap.AsyncDeadlock) }
{}

#[tactic(auto, using(crate::proofs::WakesShown::least_waiter_is_woken_shown))]
pub fn least_waiter_is_woken()
    ensures { Runs the.least_waiter_is_woken_run 1000 (Outcome.Deadlock Trap.AsyncDeadlock) }
{}

#[tactic(auto, using(crate::proofs::WakesShown::woken_thread_takes_its_event_and_the_other_waits_on_shown))]
pub fn woken_thread_takes_its_event_and_the_other_waits_on()
    ensures { Runs the.woken_thread_takes_its_event_and_the_other_waits_on_run 1000 (Outcome.Deadlock Trap.AsyncDeadlock) }
{}

#[tactic(auto, using(crate::proofs::WakesShown::woken_callback_whose_event_was_taken_waits_again_shown))]
pub fn woken_callback_whose_event_was_taken_waits_again()
    ensures { Runs the.woken_callback_whose_event_was_taken_waits_again_run 300 (Outcome.Done 2) }
{}

#[tactic(auto, using(crate::proofs::WakesShown::task_event_taken_by_a_woken_thread_hands_the_wake_on_shown))]
pub fn task_event_taken_by_a_woken_thread_hands_the_wake_on()
    ensures { Runs the.task_event_taken_by_a_woken_thread_hands_the_wake_on_run 300 (Outcome.Done 9) }
{}
