//! Primitives on single records of a core: what is read of one record, writes of its fields, and handles that are given to
//! threads, subtasks and sets and taken back.
#![tactic(auto)]

mod arrays;
mod call_fields;
mod groups;
mod handle_fields;
mod instance_fields;
mod items;
mod named_handles;
mod names;
mod subtask_fields;
mod subtask_handles;
mod thread_fields;
mod thread_handles;
mod work_fields;

pub use call_fields::{
    call_number, callee, cancel_was_asked, cancel_was_delivered, end_of, goal, goal_unchecked,
    group_unchecked, is_finished, kind, kind_unchecked, result_of, set_cancel_asked,
    set_cancel_delivered, set_end, set_end_unchecked, set_exited, set_exited_unchecked, set_result,
    set_started, set_started_unchecked, set_starting_published, set_task_event,
    starting_is_published, task_event, thread_group, was_started,
};
pub use handle_fields::{new_handle, new_thread_handle, set_at, subtask_at, thread_at};
pub use instance_fields::{
    backpressure, has_instance, may_not_enter, may_not_suspend, memory_cell, set_backpressure,
    set_do_not_enter, set_do_not_suspend, set_memory_cell,
};
pub use items::{free_handle, insert_handle};
pub use named_handles::name_thread;
pub use names::{caller, join, op_progress, work_caller};
pub use subtask_fields::{event, has_ended, set_subtask_handle, subtask_handle};
pub use subtask_handles::name_subtask;
pub use thread_fields::{
    at, explicit_unchecked, instance_of, instance_unchecked, is_barred, is_explicit, number,
    number_unchecked, position, register, register_unchecked, registers, saved_callee, saved_own,
    set_register, set_saved_callee, set_saved_own, task_unchecked, thread_handle,
};
pub use thread_handles::insert_thread_handle;
pub use work_fields::{course, phase, set_cancelled, was_cancelled, work_group, work_number};
