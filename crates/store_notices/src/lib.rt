//! The notices of groups that the steps of a run give, told to the groups of a store.
#![tactic(auto)]

mod runs;
mod tells;

pub use runs::{data_is_told, main_is_told, nothing_is_told, other_turns_are_told, steps_are_told};
pub use tells::{GroupsBefore, tell_at_once, tell_finishes, tell_moves};
