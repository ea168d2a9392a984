//! The event loop: main and the threads take their steps, and each step adds a label to a trace.
#![tactic(auto)]

mod beside;
mod call;
mod call_concurrent;
mod call_tells;
mod guest_tasks;
mod host_calls;
mod instance;
mod main_task;
mod poll_methods;
mod run;
mod single_steps;
mod subtask_methods;
mod tells;
mod thread_methods;
mod trace;
mod typed;
mod waitables;
mod yield_budgets;

pub use beside::Beside;
pub use call::{Func, FuncCallConcurrent};
pub use call_concurrent::CallConcurrent;
pub use guest_tasks::{cleanup_thread, new_guest_task, set_thread};
pub use instance::Instance;
pub use machine_data::{
    Callee, Component, ExportDef, HostDef, InstanceDef, Label, NoMemory, Op, Operand, Outcome, Slot,
};
pub use main_task::MainTask;
pub use ops_calls::{Answer, QualifiedThreadId, ResumeThread, Step, SuspensionTarget, TaskError};
pub use ops_turns::{MainStep, operand_value};
pub use poll_methods::RunPoll;
pub use run::{RunConcurrent, run_concurrent};
pub use run_trace::Labels;
pub use task_group::{Notice, NoticeKind, NoticeList, Notices, TaskGroupId};
pub use trace::Trace;
pub use typed::{FromWord, TypedCallConcurrent, TypedFunc, TypedFuncCallConcurrent, Words};
pub use yield_budgets::{drive_is_polls, hook_is_reason};
