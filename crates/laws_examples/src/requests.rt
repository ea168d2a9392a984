//! Each function is the statement that its scenario makes just these labels, and ends in this outcome.

ghost use Rattle.laws_examples.specs.Play.{Runs};
ghost use Rattle.laws_examples.specs.Requests as the;

use machine_data::Outcome;

#[tactic(auto, using(crate::proofs::RequestsShown::generated_scenario_of_one_request_runs_to_done_shown))]
pub fn generated_scenario_of_one_request_runs_to_done()
    ensures { Runs the.generated_scenario_of_one_request_runs_to_done_run 100 (Outcome.Done 102) }
{}
