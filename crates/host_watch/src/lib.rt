//! Mains, works and starts of calls that are tested against what their contracts say, for runs of a host that isn't proved yet: such a
//! run stops at the first test that fails. In a proved program the tests aren't made.
#![tactic(auto)]

mod calls;
mod mains;
mod works;

pub use calls::start_watched;
pub use mains::WatchedMain;
pub use works::WatchedWork;
