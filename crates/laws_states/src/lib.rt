//! Laws of the component machine that hold of each state that a run reach, where the scripts keep to the grammar: the ops that end
//! an activation are in callback exports alone, and what is called exists. Each function here is the statement of a law, about the
//! rules that `machine_rules` defines.
#![tactic(auto)]

mod courses;
mod exports;
mod handles;
mod holders;
mod rises;
mod settled;
mod table;
mod written;

pub use courses::{courses_stay, works_are_called};
pub use exports::{calls_name_exports, handle_tables_stay, instances_stay};
pub use handles::{sets_are_named_at_home, sets_are_named_once};
pub use holders::one_entry_holds;
pub use rises::{
    explicit_thread_names_no_call, runs_rise, statuses_rise, sync_end_is_last,
    sync_is_never_cancelled,
};
pub use settled::{none_is_asked, open_works_answer, runs_stay_settled, settled_stays};
pub use written::{
    ends_are_handed_as_told, ends_are_told_as_recorded, ends_are_written_once, new_ends_are_said,
    new_results_are_said, no_end_is_covered, written_ends_are_new,
};
