//! The machine of a scenario, told what to choose: among what its next step chooses, the step that a choice makes, and what the run
//! has come to. It is a store under the event loop, one turn at a time, whose core is told what to pick.
#![tactic(auto)]

mod labels;
mod machine;

pub use choice_offers::{Choice, Offer, fits};
pub use machine::{Machine, Only, Went};
