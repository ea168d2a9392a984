use crate::task_core::TaskCore;
use core_primitives::{StatePrimitives, WorkId};

impl StatePrimitives for TaskCore {
    fn has_instance(&self, instance: u32) -> bool {
        core_fields::has_instance(&self.parts, instance)
    }

    fn has_held(&self, instance: u32) -> bool {
        core_removals::has_held(&self.parts, instance)
    }

    fn push_work(&mut self, work: WorkId) {
        core_removals::queue_push(&mut self.parts, work);
    }
}
