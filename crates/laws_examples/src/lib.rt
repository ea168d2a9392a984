//! Worked examples of the component machine, computed by the checker from the machine's own rules.
#![tactic(auto)]

pub mod calls;
pub mod cancels;
pub mod checks;
pub mod guests;
pub mod hosts;
pub mod limits;
pub mod requests;
pub mod sets;
pub mod strands;
pub mod subtasks;
pub mod threads;
pub mod unplaced;
pub mod wakes;
pub mod wrong;
