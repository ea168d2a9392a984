//! Primitives that pick where the machine leaves a choice: what comes first is what is wanted, then the least by the places of the
//! resource table, or in version 2 by when threads began to wait.
#![tactic(auto)]

mod arrivals;
mod picks;
mod rules;

pub use arrivals::arrive;
pub use picks::{first_cancellable, first_ready, first_waiter, has_ready_member, want};
pub use rules::{set_version, version};
