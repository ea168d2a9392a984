//! The records of a core, each kind in a table of its own, with chains, handles, cached numbers and room for the results of
//! main's calls; what contracts see of them, and the invariant that each primitive keeps.
#![tactic(auto)]

mod call_records;
mod ids;
mod instance_records;
mod parts;
mod reads;
mod rooms;
mod set_records;
mod single;
mod thread_records;
mod work_records;

pub use call_records::{GuestTask, TaskGroup};
pub use ids::{
    call_at, call_at_unchecked, call_id_at, first_thread, none_is_zero, set_at, set_id_at, task_of,
    thread_at, thread_at_unchecked, thread_id_at, work_at, work_id_at,
};
pub use instance_records::InstanceRecord;
pub use parts::{CachedCounts, CoreParts};
pub use reads::{
    call, call_there, held, held_thread, instance, set, set_there, thread, thread_there, work,
    work_there,
};
pub use rooms::{ResultRoom, ResultRooms};
pub use set_records::WaitSet;
pub use single::Single;
pub use table_links::Node;
pub use thread_records::{Follower, GuestThread, Queued};
pub use work_records::{LiveWork, WorkRecord};
