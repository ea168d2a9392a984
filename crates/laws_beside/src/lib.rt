//! The rules of a run beside which other threads abort spawned works, and laws of such runs: how one goes on, through its last
//! round and up to its outcome, and which calls it makes on its spawns. The rules are definitions, under `specs`; each function
//! here is the statement of a law.
#![tactic(auto)]

mod call_laws;
mod course_laws;
mod laws_of_runs;
mod marked;
mod outcomes;
mod rounds;
mod shown;

pub use call_laws::{calls_go_on, no_calls};
pub use course_laws::{
    has_outcome, open_runs_go_on, round_begins, round_ends, round_goes, rounds_are_cut, run_opens,
    runs_add, steps_add,
};
pub use laws_of_runs::{
    outcomes_are_wide, runs_are_due, runs_are_wide, wide_run_goes_on, wide_runs_join,
};
pub use marked::{marked_aborts_stay, marked_polls_find_aborts};
pub use outcomes::{
    no_label_rests, no_label_uses_up, open_runs_use_up, runs_come_to, runs_come_to_behind,
    runs_show_a_label, waiting_rests, wide_outcomes,
};
pub use rounds::{rounds_go_on, spawns_are_next, steps_go_on};
pub use shown::{others_call_none, polls_call, scripts_call};
