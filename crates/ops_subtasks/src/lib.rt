//! The ops of guests on subtasks over the primitives of a core: each is its rule of the machine. It makes the
//! rule's tests in the rule's order, then the rule's moves in their order.
#![tactic(auto)]

mod aborts;
mod call_ops;
mod cancels;
mod directs;
mod drops;
mod end_ops;
mod guest_ops;
mod host_ops;
mod joins;
mod operands;
mod resumes;
mod returns;
mod takes;
mod withdrawals;

pub use call_ops::{begin_call, start_made};
pub use cancels::cancel;
pub use directs::{answer_call, begin_call_sync, enter};
pub use drops::drop_subtask;
pub use host_ops::{call_host, call_sync_host, go_on_calling_host};
pub use joins::join;
pub use operands::read_operands;
pub use resumes::{go_on_awaiting, go_on_cancelling};
pub use returns::{go_on_calling, go_on_calling_sync};
pub use takes::take_host;
