//! Each function is the statement that its scenario makes just these labels, and ends in this outcome.

ghost use Rattle.laws_examples.specs.Play.{Runs};
ghost use Rattle.laws_examples.specs.Calls as the;

use machine_data::{Outcome, Trap};

#[tactic(auto, using(crate::proofs::CallsShown::callback_returns_its_parameter_shown))]
pub fn callback_returns_its_parameter()
    ensures { Runs the.callback_returns_its_parameter_run 7 (Outcome.Done 7) }
{}

#[tactic(auto, using(crate::proofs::CallsShown::exit_without_return_traps_shown))]
pub fn exit_without_return_traps()
    ensures { Runs the.exit_without_return_traps_run 1000 (Outcome.Trap Trap.NoAsyncResult) }
{}

#[tactic(auto, using(crate::proofs::CallsShown::run_stops_when_steps_are_used_up_shown))]
pub fn run_stops_when_steps_are_used_up()
    ensures { Runs the.run_stops_when_steps_are_used_up_run 6 (Outcome.OutOfSteps) }
{}

#[tactic(auto, using(crate::proofs::CallsShown::second_return_traps_shown))]
pub fn second_return_traps()
    ensures { Runs the.second_return_traps_run 1000 (Outcome.Trap Trap.TaskCancelOrReturnTwice) }
{}

#[tactic(auto, using(crate::proofs::CallsShown::return_of_the_wrong_type_traps_shown))]
pub fn return_of_the_wrong_type_traps()
    ensures { Runs the.return_of_the_wrong_type_traps_run 1000 (Outcome.Trap Trap.TaskReturnInvalid) }
{}

#[tactic(auto, using(crate::proofs::CallsShown::return_of_the_wrong_type_after_an_end_traps_shown))]
pub fn return_of_the_wrong_type_after_an_end_traps()
    ensures { Runs the.return_of_the_wrong_type_after_an_end_traps_run 1000 (Outcome.Trap Trap.TaskCancelOrReturnTwice) }
{}

#[tactic(auto, using(crate::proofs::CallsShown::main_waits_until_an_instance_lets_calls_in_shown))]
pub fn main_waits_until_an_instance_lets_calls_in()
    ensures { Runs the.main_waits_until_an_instance_lets_calls_in_run 300 (Outcome.Done 4) }
{}

#[tactic(auto, using(crate::proofs::CallsShown::held_starts_are_released_in_either_order_shown))]
pub fn held_starts_are_released_in_either_order()
    ensures { Runs the.held_starts_are_released_in_either_order_run 300 (Outcome.Done 1) }
{}
