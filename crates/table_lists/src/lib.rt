//! Lists over the records of a core: chains of links whose nodes were made with their records, cached numbers beside them,
//! chains in the order of their keys, and which place of the resource table is given next.
#![tactic(auto)]

mod filed;
mod ordered_lists;
mod places;
mod skip_lists;

pub use filed::{file, first, unfile};
pub use ordered_lists::{OrderKey, OrderedLists};
pub use places::{Holders, TablePlaces};
