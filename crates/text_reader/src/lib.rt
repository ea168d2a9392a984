//! Reads the tree of a scenario's text, and says why a text isn't run.
#![tactic(auto)]

mod error;
mod read;

pub use error::RunError;
pub use read::read_tree;
