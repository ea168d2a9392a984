//! The running thread's op by its kind and by how far it has come, whatever op it is: its rule is done over the primitives of a
//! core.
#![tactic(auto)]

mod by_progress;
mod call_dispatch;
mod done;
mod exit_dispatch;
mod finishes;
mod ops;
mod scripts;
mod set_dispatch;
mod task_dispatch;
mod thread_dispatch;

pub use by_progress::cancels;
pub use call_dispatch::{called_host, do_host_call, is_host_call};
pub use done::Done;
pub use exit_dispatch::exit;
pub use finishes::finish;
pub use ops::{do_op, do_other_op, do_plain_op};
pub use scripts::{export_def, op_at, script_ops};
