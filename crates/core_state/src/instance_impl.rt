use crate::task_core::TaskCore;
use core_primitives::{InstancePrimitives, SetId, SubtaskId, ThreadId};
use machine_data::NoMemory;

impl InstancePrimitives for TaskCore {
    fn backpressure(&self, instance: u32) -> u16 {
        core_fields::backpressure(&self.parts, instance)
    }

    fn may_not_enter(&self, instance: u32) -> bool {
        core_fields::may_not_enter(&self.parts, instance)
    }

    fn may_not_suspend(&self, instance: u32) -> bool {
        core_fields::may_not_suspend(&self.parts, instance)
    }

    fn memory_cell(&self, instance: u32, cell: u8) -> u64 {
        core_fields::memory_cell(&self.parts, instance, cell)
    }

    fn set_backpressure(&mut self, instance: u32, count: u16) {
        core_fields::set_backpressure(&mut self.parts, instance, count);
    }

    fn set_do_not_enter(&mut self, instance: u32, flag: bool) {
        core_fields::set_do_not_enter(&mut self.parts, instance, flag);
    }

    fn set_do_not_suspend(&mut self, instance: u32, flag: bool) {
        core_fields::set_do_not_suspend(&mut self.parts, instance, flag);
    }

    fn set_memory_cell(&mut self, instance: u32, cell: u8, value: u64) {
        core_fields::set_memory_cell(&mut self.parts, instance, cell, value);
    }

    fn at_handle_limit(&self) -> bool {
        core_counts::at_handle_limit(&self.parts)
    }

    fn subtask_at(&self, instance: u32, handle: u64) -> Option<SubtaskId> {
        core_fields::subtask_at(&self.parts, instance, handle)
    }

    fn set_at(&self, instance: u32, handle: u64) -> Option<SetId> {
        core_fields::set_at(&self.parts, instance, handle)
    }

    fn thread_at(&self, instance: u32, handle: u64) -> Option<ThreadId> {
        core_fields::thread_at(&self.parts, instance, handle)
    }

    fn new_handle(&self, instance: u32) -> u32 {
        core_fields::new_handle(&self.parts, instance)
    }

    fn new_thread_handle(&self, instance: u32) -> u32 {
        core_fields::new_thread_handle(&self.parts, instance)
    }

    fn name_thread(&mut self, thread: ThreadId) -> Result<u32, NoMemory> {
        core_fields::name_thread(&mut self.parts, thread)
    }

    fn free_handle(&mut self, instance: u32, handle: u32) {
        core_fields::free_handle(&mut self.parts, instance, handle);
    }
}
