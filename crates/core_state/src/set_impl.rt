use crate::task_core::TaskCore;
use core_primitives::{SetId, SetPrimitives, SubtaskId};
use machine_data::NoMemory;

impl SetPrimitives for TaskCore {
    fn has_member(&self, set: SetId) -> bool {
        core_counts::has_member(&self.parts, set)
    }

    fn has_ready_member(&self, set: SetId) -> bool {
        core_picks::has_ready_member(&self.parts, set)
    }

    fn has_waiters(&self, set: SetId) -> bool {
        core_counts::has_waiters(&self.parts, set)
    }

    fn first_ready(&self, set: SetId) -> Option<SubtaskId> {
        core_picks::first_ready(&self.parts, set)
    }

    fn open_set(&mut self, instance: u32) -> Result<SetId, NoMemory> {
        core_makes::open_set(&mut self.parts, instance)
    }

    fn close_set(&mut self, instance: u32, handle: u32, set: SetId) {
        core_removals::close_set(&mut self.parts, instance, handle, set);
    }
}
