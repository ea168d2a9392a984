//! Each function is the statement that its scenario makes just these labels, and ends in this outcome.

ghost use Rattle.laws_examples.specs.Play.{Runs};
ghost use Rattle.laws_examples.specs.Sets as the;

use machine_data::{Outcome, Trap};

#[tactic(auto, using(crate::proofs::SetsShown::callback_wait_on_empty_set_deadlocks_shown))]
pub fn callback_wait_on_empty_set_deadlocks()
    ensures { Runs the.callback_wait_on_empty_set_deadlocks_run 1000 (Outcome.Deadlock Trap.AsyncDeadlock) }
{}

#[tactic(auto, using(crate::proofs::SetsShown::callback_wait_on_empty_set_is_idle_under_idle_wait_shown))]
pub fn callback_wait_on_empty_set_is_idle_under_idle_wait()
    ensures { Runs the.callback_wait_on_empty_set_is_idle_under_idle_wait_run 1000 (Outcome.Idle) }
{}

#[tactic(auto, using(crate::proofs::SetsShown::freed_set_handle_is_given_again_up_to_the_limit_shown))]
pub fn freed_set_handle_is_given_again_up_to_the_limit()
    ensures { Runs the.freed_set_handle_is_given_again_up_to_the_limit_run 1000 (Outcome.Trap Trap.HandleLimit) }
{}

#[tactic(auto, using(crate::proofs::SetsShown::handle_limit_one_stops_the_first_set_shown))]
pub fn handle_limit_one_stops_the_first_set()
    ensures { Runs the.handle_limit_one_stops_the_first_set_run 1000 (Outcome.Trap Trap.HandleLimit) }
{}

#[tactic(auto, using(crate::proofs::SetsShown::handle_limit_zero_stops_the_start_shown))]
pub fn handle_limit_zero_stops_the_start()
    ensures { Runs the.handle_limit_zero_stops_the_start_run 1000 (Outcome.Trap Trap.HandleLimit) }
{}

#[tactic(auto, using(crate::proofs::SetsShown::unknown_callback_code_traps_shown))]
pub fn unknown_callback_code_traps()
    ensures { Runs the.unknown_callback_code_traps_run 1000 (Outcome.Trap Trap.UnsupportedCallbackCode) }
{}
