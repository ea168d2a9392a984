//! Each function is the statement that its scenario makes just these labels, and ends in this outcome.

ghost use Rattle.laws_examples.specs.Play.{Runs};
ghost use Rattle.laws_examples.specs.Limits as the;

use machine_data::{Outcome, Trap};

#[tactic(auto, using(crate::proofs::LimitsShown::full_table_refuses_a_start_and_the_run_goes_on_shown))]
pub fn full_table_refuses_a_start_and_the_run_goes_on()
    ensures { Runs the.full_table_refuses_a_start_and_the_run_goes_on_run 1000 (Outcome.Done 1) }
{}

#[tactic(auto, using(crate::proofs::LimitsShown::handle_limit_one_suffices_for_one_thread_shown))]
pub fn handle_limit_one_suffices_for_one_thread()
    ensures { Runs the.handle_limit_one_suffices_for_one_thread_run 1000 (Outcome.Done 7) }
{}

#[tactic(auto, using(crate::proofs::LimitsShown::handle_limit_zero_traps_the_first_start_shown))]
pub fn handle_limit_zero_traps_the_first_start()
    ensures { Runs the.handle_limit_zero_traps_the_first_start_run 1000 (Outcome.Trap Trap.HandleLimit) }
{}

#[tactic(auto, using(crate::proofs::LimitsShown::small_table_refuses_the_only_start_shown))]
pub fn small_table_refuses_the_only_start()
    ensures { Runs the.small_table_refuses_the_only_start_run 1000 (Outcome.Done 0) }
{}

#[tactic(auto, using(crate::proofs::LimitsShown::full_table_traps_a_pending_host_call_shown))]
pub fn full_table_traps_a_pending_host_call()
    ensures { Runs the.full_table_traps_a_pending_host_call_run 300 (Outcome.Trap Trap.TableFull) }
{}
