//! Primitives on the marks of a core and on the callers of threads.
//!
//! Each is one equation of what contracts see, as the traits of `core_primitives` say it. An entry has its nodes from the start, so no
//! primitive takes memory, and none goes through a list.
#![tactic(auto)]

mod callers;
mod order_keys;
mod pushes;
mod removals;
mod takes;
mod tops;

pub use callers::{add_caller, has_callers, pop_caller, pop_newest_caller};
pub use pushes::{push_high, push_high_first, push_host, push_low, set_switch};
pub use removals::{pop, unqueue};
pub use takes::take_next;
pub use tops::{first_entry, next_entry, switch};
