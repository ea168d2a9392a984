//! The text of reports (what is printed of a label and of an outcome), the text that `make` writes, and the summary of a run.
#![tactic(auto)]

mod label;
mod page;
mod piece;
mod scenario;
mod summary;
mod table;

pub use label::{LINE, outcome_line};
pub use page::{PAGE, Page};
pub use scenario::make_scenario;
pub use summary::print_summary;
