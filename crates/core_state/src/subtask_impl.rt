use crate::task_core::TaskCore;
use core_primitives::{JoinId, SubtaskId, SubtaskPrimitives};
use machine_data::{NoMemory, Status};

impl SubtaskPrimitives for TaskCore {
    fn event(&self, subtask: SubtaskId) -> Option<Status> {
        core_fields::event(&self.parts, subtask)
    }

    #[inline(always)]
    fn join(&self, subtask: SubtaskId) -> JoinId {
        core_fields::join(&self.parts, subtask)
    }

    fn subtask_handle(&self, subtask: SubtaskId) -> Option<u32> {
        core_fields::subtask_handle(&self.parts, subtask)
    }

    fn has_ended(&self, subtask: SubtaskId) -> bool {
        core_fields::has_ended(&self.parts, subtask)
    }

    fn set_event(&mut self, subtask: SubtaskId, event: Option<Status>) {
        core_places::set_event(&mut self.parts, subtask, event);
    }

    #[inline(always)]
    fn set_join(&mut self, subtask: SubtaskId, join: JoinId) {
        core_places::set_join(&mut self.parts, subtask, join);
    }

    fn set_subtask_handle(&mut self, subtask: SubtaskId, handle: Option<u32>) {
        core_fields::set_subtask_handle(&mut self.parts, subtask, handle);
    }

    fn name_subtask(&mut self, instance: u32, subtask: SubtaskId) -> Result<u32, NoMemory> {
        core_fields::name_subtask(&mut self.parts, instance, subtask)
    }
}
