//! Primitives that go through a chain (who is under a thread or blocked on a subtask, the held threads of an instance, the live
//! works), that remove sets, threads, calls and host works with all that belongs to them, and that make host works.
#![tactic(auto)]

mod admissions;
mod call_removals;
mod called_works;
mod chains;
mod chains_removals;
mod group_removals;
mod least;
mod polls;
mod queued;
mod releases;
mod set_removals;
mod spawned_works;
mod thread_removals;
mod work_entries;
mod work_marks;
mod work_nodes;
mod work_removals;
mod work_requests;

pub use admissions::{has_admitted, has_held};
pub use call_removals::delete_call;
pub use called_works::queue_call;
pub use least::{blocked_on, under};
pub use polls::{count_poll, next_polled};
pub use queued::{queue_spawn, queue_sync_call};
pub use releases::release;
pub use set_removals::close_set;
pub use thread_removals::{remove_thread, retire_thread};
pub use work_entries::queue_push;
pub use work_removals::delete_work;
