//! The works of a host: what a type of a host promises as one, and the works that a store keeps.
#![tactic(auto)]

mod joined;
mod kept;
mod own;
mod scripted;
mod work;

pub use joined::JoinedWork;
pub use kept::HostWorks;
pub use machine_data::HostPoll;
pub use own::{CalledTask, OpenTask, OpenWork};
pub use scripted::ScriptedHost;
pub use work::{AccessorTask, FromHost, HostWork};
