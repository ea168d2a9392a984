//! Each function is the statement that its scenario makes just these labels, and ends in this outcome.

ghost use Rattle.laws_examples.specs.Play.{Runs};
ghost use Rattle.laws_examples.specs.Guests as the;

use machine_data::{Outcome, Trap};

#[tactic(auto, using(crate::proofs::GuestsShown::backpressure_lowered_below_zero_traps_shown))]
pub fn backpressure_lowered_below_zero_traps()
    ensures { Runs the.backpressure_lowered_below_zero_traps_run 1000 (Outcome.Trap Trap.BackpressureOverflow) }
{}

#[tactic(auto, using(crate::proofs::GuestsShown::direct_sync_call_answers_its_result_shown))]
pub fn direct_sync_call_answers_its_result()
    ensures { Runs the.direct_sync_call_answers_its_result_run 1000 (Outcome.Done 8) }
{}

#[tactic(auto, using(crate::proofs::GuestsShown::held_start_runs_when_backpressure_falls_to_zero_shown))]
pub fn held_start_runs_when_backpressure_falls_to_zero()
    ensures { Runs the.held_start_runs_when_backpressure_falls_to_zero_run 1000 (Outcome.Done 16) }
{}

#[tactic(auto, using(crate::proofs::GuestsShown::outer_caller_is_resumed_while_a_direct_callee_blocks_shown))]
pub fn outer_caller_is_resumed_while_a_direct_callee_blocks()
    ensures { Runs the.outer_caller_is_resumed_while_a_direct_callee_blocks_run 1000 (Outcome.Done 17) }
{}
