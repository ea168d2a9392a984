//! The core of a store: threads, calls, host works, sets and instances, as what contracts see of
//! them, with every primitive of `core_primitives`.
#![tactic(auto)]

mod borrows;
mod call_impl;
mod count_impl;
mod groups;
mod instance_impl;
mod limit_impl;
mod place_impl;
mod queue_impl;
mod result_impl;
mod set_impl;
mod state_impl;
mod subtask_impl;
mod task_core;
mod thread_impl;
mod work_impl;

pub use crate::borrows::{CallContext, Scope};
pub use crate::task_core::TaskCore;
