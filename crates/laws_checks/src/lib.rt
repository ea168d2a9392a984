//! Laws of the check of reports: what runs whose releases go in the order in which threads were held last are, and what the lines after a
//! cancel tell of the thread that it took.
#![tactic(auto)]

mod releases;
mod twins;

pub use releases::releases_are_runs;
pub use twins::{cancels_hide_alike, next_is_named, twins_go_on};
