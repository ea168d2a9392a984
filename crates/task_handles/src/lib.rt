//! Small handles by which a guest names subtasks, waitable sets and threads, and the count of those that are live.
//!
//! A table gives the handles 1, 2, 3 and so on; a handle that was removed is given again, the one freed last first.
//! How many handles are live is counted in a `HandleCounter` that many tables share, and its limit blocks new ones. A handle can be
//! reserved before it is given: it counts from then on.
#![tactic(auto)]

mod counter;
mod handle_table;
mod kinds;
mod slots;
mod thread_handle_table;

pub use counter::HandleCounter;
pub use handle_table::HandleTable;
pub use kinds::{HandleError, HandleKind, HeldItem, Rep, WaitableKind};
pub use machine_data::NoMemory;
pub use thread_handle_table::ThreadHandleTable;

/// The greatest handle, and the greatest limit on live handles: a handle fits the upper 28 bits of a packed status.
pub const MAX_HANDLES: u32 = 268_435_455;
