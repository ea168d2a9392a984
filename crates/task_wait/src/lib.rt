//! What waits and what wakes: the codes that a guest is given, and waitable sets over links.
//!
//! A place in a list is a link that its owner made before, so that no wake and no wait takes memory.
#![tactic(auto)]

mod codes;
mod keys;
mod set;
mod wait_laws;

pub use codes::{BLOCKED, EXIT, Event, WAIT, YIELD, unpack_callback_code};
pub use keys::{
    GroupKey, GuestTaskKey, HostTaskKey, SetKey, ThreadKey, TransmitKey, Waitable, WaitableCommon,
    WaiterKey,
};
pub use machine_data::{NoMemory, Status};
pub use set::{WaitableSet, put_in_order};
pub use table_links::{Links, Node, others_stay};
pub use wait_laws::{
    callback_code_unpacks, packed_status_unpacks, waitables_by_kind_and_id,
    waiters_by_task_and_thread,
};
