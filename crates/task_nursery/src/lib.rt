//! A scope of calls and works, which ends only when each of them has ended.
#![tactic(auto)]

mod children;
mod nursery;

pub use children::Child;
pub use nursery::{Nursery, NurseryError};
