//! The rules of the component machine: what each step does, and what runs are. The rules are
//! definitions, under `specs`; each function here is the statement of a law of theirs.
#![tactic(auto)]

mod rule_laws;

pub use rule_laws::{
    blocking_check_is_after, callback_check_is_after, check_moves_one, counts_never_fall,
    limits_stay, none_after_over, outcome_is_last, outcomes_end, promotion_moves_one,
    records_are_steady, release_keeps_places, removal_keeps_places, run_goes_on, runs_are_steady,
    runs_join, runs_keep_counts, runs_keep_limits, steps_are_walks, stop_keeps_places,
    wake_keeps_places,
};
