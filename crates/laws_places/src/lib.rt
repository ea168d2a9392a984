//! Laws of the component machine that say where each thread is, in each state that a run reach. Each function here is the statement
//! of a law, about the rules that `machine_rules` defines.
#![tactic(auto)]

mod once;
mod order;
mod places;
mod wakes;

pub use once::{runs_are_once, scripts_hold_one};
pub use order::{opening_in_order, reached_in_order, step_in_order, steps_make_few};
pub use places::{reached_are_placed, steps_keep_places};
pub use wakes::{
    idle_is_stalled, reached_counted, reached_go_on, reached_hold_back, reached_unblocked,
};
