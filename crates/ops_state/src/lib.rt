//! The public calls of a store's state, over the primitives of a core: events and joins of waitables, the items that are queued and
//! taken, promotions, a stop, the end of a thread, and what a host reads of an instance. Each makes one move of the machine, and
//! nothing else.
#![tactic(auto)]

mod currents;
mod end_calls;
mod entry_calls;
mod error;
mod event_calls;
mod gives;
mod instance_calls;
mod join_calls;
mod name_calls;
mod promotions;
mod stops;

pub use currents::{CurrentThread, set_thread};
pub use end_calls::cleanup_thread;
pub use entry_calls::{Item, push_work_item, take_item};
pub use error::TaskError;
pub use event_calls::{mark_ready, set_event, take_event};
pub use gives::get_event;
pub use instance_calls::{ConcurrentInstanceState, instance};
pub use join_calls::join;
pub use name_calls::{QualifiedThreadId, is_live};
pub use promotions::{promote_instance_local_thread_work_item, promote_thread_work_item};
pub use stops::stop;
