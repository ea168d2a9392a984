//! Links: lists over nodes that their owners made before, so that a place in a list takes no memory.
#![tactic(auto)]

mod link_laws;
mod links;

pub use link_laws::others_stay;
pub use links::{Links, Node};
