//! The search for a run that comes to a fault: over all choices, and over the times at which hosts answer.
#![tactic(auto)]

mod hosts;
mod kinds;
mod laws;
mod orders;
mod search;

pub use kinds::Kinds;
pub use laws::{choices_are_numbered, ways_are_numbered};
pub use search::{Explored, Found, Search, explore};
