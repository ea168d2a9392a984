//! Laws of picks and of the order of arrival. A step that picks what comes first by a preference which wants a choice is the step that
//! this choice makes, so a core that is told what to pick makes each choice. A run whose releases go in the order in which the threads
//! were held last is told by its lines. What the records of a core say of the order of arrival is what the run has shown.
#![tactic(auto)]

mod arrival;
mod wanted;

pub use arrival::{arrivals_are_runs, lines_tell_runs, records_pick_all, runs_say_order};
pub use wanted::wanted_is_chosen;
