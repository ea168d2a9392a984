use crate::task_core::TaskCore;
use core_primitives::{ThreadId, WorkCallerId, WorkId, WorkPrimitives};
use machine_data::{Course, HostDef, NoMemory, Phase, Stage};

impl WorkPrimitives for TaskCore {
    fn work_number(&self, work: WorkId) -> u64 {
        core_fields::work_number(&self.parts, work)
    }

    fn course(&self, work: WorkId) -> Course {
        core_fields::course(&self.parts, work)
    }

    fn phase(&self, work: WorkId) -> Phase {
        core_fields::phase(&self.parts, work)
    }

    fn work_caller(&self, work: WorkId) -> WorkCallerId {
        core_fields::work_caller(&self.parts, work)
    }

    fn work_group(&self, work: WorkId) -> Option<u64> {
        core_fields::work_group(&self.parts, work)
    }

    fn was_cancelled(&self, work: WorkId) -> bool {
        core_fields::was_cancelled(&self.parts, work)
    }

    #[inline(always)]
    fn next_polled(&self, polled: u64) -> Option<WorkId> {
        core_removals::next_polled(&self.parts, polled)
    }

    fn has_live_work(&self) -> bool {
        core_counts::has_live_work(&self.parts)
    }

    fn has_moving_work(&self) -> bool {
        core_counts::has_moving_work(&self.parts)
    }

    fn set_course(&mut self, work: WorkId, course: Course) {
        core_counts::set_course(&mut self.parts, work, course);
    }

    fn set_phase(&mut self, work: WorkId, phase: Phase) {
        core_counts::set_phase(&mut self.parts, work, phase);
    }

    fn set_stage(&mut self, work: WorkId, stage: Stage) {
        core_places::set_stage(&mut self.parts, work, stage);
    }

    #[inline(always)]
    fn count_poll(&mut self, work: WorkId) -> bool {
        core_removals::count_poll(&mut self.parts, work)
    }

    fn set_cancelled(&mut self, work: WorkId) {
        core_fields::set_cancelled(&mut self.parts, work);
    }

    fn count_work(&mut self) {
        core_counts::count_work(&mut self.parts);
    }

    fn queue_spawn(&mut self, host: HostDef) -> Result<WorkId, NoMemory> {
        core_removals::queue_spawn(&mut self.parts, host)
    }

    fn queue_sync_call(&mut self, thread: ThreadId, host: HostDef) -> Result<WorkId, NoMemory> {
        core_removals::queue_sync_call(&mut self.parts, thread, host)
    }

    fn queue_call(
        &mut self,
        thread: ThreadId,
        register: u8,
        host: HostDef,
    ) -> Result<WorkId, NoMemory> {
        core_removals::queue_call(&mut self.parts, thread, register, host)
    }

    fn delete_work(&mut self, work: WorkId) {
        core_removals::delete_work(&mut self.parts, work);
    }
}
