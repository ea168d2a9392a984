//! Each function is the statement that its scenario makes just these labels, and ends in this outcome.

ghost use Rattle.laws_examples.specs.Play.{Runs};
ghost use Rattle.laws_examples.specs.Hosts as the;

use machine_data::{Outcome, Trap};

#[tactic(auto, using(crate::proofs::HostsShown::async_host_calls_ready_at_once_and_later_shown))]
pub fn async_host_calls_ready_at_once_and_later()
    ensures { Runs the.async_host_calls_ready_at_once_and_later_run 1000 (Outcome.Done 9) }
{}

#[tactic(auto, using(crate::proofs::HostsShown::awaited_never_ending_spawn_is_idle_shown))]
pub fn awaited_never_ending_spawn_is_idle()
    ensures { Runs the.awaited_never_ending_spawn_is_idle_run 1000 (Outcome.Idle) }
{}

#[tactic(auto, using(crate::proofs::HostsShown::failing_spawn_fails_the_run_shown))]
pub fn failing_spawn_fails_the_run()
    ensures { Runs the.failing_spawn_fails_the_run_run 1000 (Outcome.HostFailed 1) }
{}

#[tactic(auto, using(crate::proofs::HostsShown::live_never_ending_spawn_is_idle_under_idle_trap_shown))]
pub fn live_never_ending_spawn_is_idle_under_idle_trap()
    ensures { Runs the.live_never_ending_spawn_is_idle_under_idle_trap_run 1000 (Outcome.Idle) }
{}

#[tactic(auto, using(crate::proofs::HostsShown::live_never_ending_spawn_is_idle_under_idle_wait_shown))]
pub fn live_never_ending_spawn_is_idle_under_idle_wait()
    ensures { Runs the.live_never_ending_spawn_is_idle_under_idle_wait_run 1000 (Outcome.Idle) }
{}

#[tactic(auto, using(crate::proofs::HostsShown::main_aborts_a_never_ending_spawn_shown))]
pub fn main_aborts_a_never_ending_spawn()
    ensures { Runs the.main_aborts_a_never_ending_spawn_run 1000 (Outcome.Done 4) }
{}

#[tactic(auto, using(crate::proofs::HostsShown::set_drop_with_a_member_and_no_waiter_traps_shown))]
pub fn set_drop_with_a_member_and_no_waiter_traps()
    ensures { Runs the.set_drop_with_a_member_and_no_waiter_traps_run 1000 (Outcome.Trap Trap.TableHasChildren) }
{}

#[tactic(auto, using(crate::proofs::HostsShown::sync_host_calls_are_answered_at_once_and_later_shown))]
pub fn sync_host_calls_are_answered_at_once_and_later()
    ensures { Runs the.sync_host_calls_are_answered_at_once_and_later_run 300 (Outcome.Done 11) }
{}

#[tactic(auto, using(crate::proofs::HostsShown::abort_answers_the_phase_that_it_found_shown))]
pub fn abort_answers_the_phase_that_it_found()
    ensures { Runs the.abort_answers_the_phase_that_it_found_run 300 (Outcome.Done 3) }
{}
