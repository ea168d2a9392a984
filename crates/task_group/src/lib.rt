//! Groups of tasks, and a hook that is told when a group starts, is entered, is left and finishes.
#![tactic(auto)]

mod counts;
mod groups;
mod hook;
mod kept;
mod listeners;
mod live;
mod notice;
mod notices;
mod packed;

pub use groups::Groups;
pub use hook::{NoHook, TaskGroupHook};
pub use listeners::Listeners;
pub use machine_data::{NoMemory, Notice, NoticeKind};
pub use notice::{GroupError, HookError, TaskGroupId};
pub use notices::{NoticeList, Notices};
