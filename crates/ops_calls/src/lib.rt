//! The calls by which a host and a guest's task change a store, over the primitives of a core, and the laws that each keeps
//! order and loses no wake. The functions of `method_laws` are statements of laws.
#![tactic(auto)]

mod answer_calls;
mod called;
mod direct_calls;
mod host_calls;
mod host_ops;
mod intrinsics;
mod methods;
mod new_task_calls;
mod poll_calls;
mod resume_calls;
mod return_calls;
mod shown;
mod start_calls;
mod untrapped;
mod wakes;

pub use answer_calls::{Answer, Step};
pub use called::host_called;
pub use direct_calls::{enter_call, exit_call};
pub use host_calls::{finish_call, start_call};
pub use host_ops::{
    begin_event, begin_nothing, begin_number, go_on, host_op_event, host_op_nothing, host_op_number,
};
pub use intrinsics::{ResumeThread, SuspensionTarget, cancel_op, pressure_op, suspension_op};
pub use methods::{calls_keep, directs_keep, host_ops_keep, resumes_keep, returns_keep};
pub use new_task_calls::new_guest_task;
pub use ops_state::{QualifiedThreadId, TaskError, is_live};
pub use poll_calls::{block_on_host, poll_host};
pub use resume_calls::resume_thread;
pub use return_calls::{is_own_type, task_return};
pub use shown::{answers_are_shown, hosts_leave_in_place};
pub use start_calls::{prepare_call, start_prepared};
pub use untrapped::{start_refusal, start_untrapped};
pub use wakes::{calls_lose_none, ops_lose_none};
