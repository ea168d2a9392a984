use crate::task_core::TaskCore;
use core_primitives::{EntryId, QueuePrimitives, ThreadId, WorkId};
use machine_data::Mark;

impl QueuePrimitives for TaskCore {
    fn switch(&self) -> Option<ThreadId> {
        core_queues::switch(&self.parts)
    }

    fn first_entry(&self, instance: u32) -> Option<ThreadId> {
        core_queues::first_entry(&self.parts, instance)
    }

    #[inline(always)]
    fn next_entry(&self) -> Option<(Mark, EntryId)> {
        core_queues::next_entry(&self.parts)
    }

    #[inline(always)]
    fn pop(&mut self, mark: Mark) {
        core_queues::pop(&mut self.parts, mark);
    }

    #[inline(always)]
    fn take_next(&mut self) -> Option<(Mark, EntryId)> {
        core_queues::take_next(&mut self.parts)
    }

    fn set_switch(&mut self, thread: Option<ThreadId>) {
        core_queues::set_switch(&mut self.parts, thread);
    }

    fn push_high(&mut self, thread: ThreadId) {
        core_queues::push_high(&mut self.parts, thread);
    }

    fn push_high_first(&mut self, thread: ThreadId) {
        core_queues::push_high_first(&mut self.parts, thread);
    }

    #[inline(always)]
    fn push_low(&mut self, thread: ThreadId) {
        core_queues::push_low(&mut self.parts, thread);
    }

    fn push_host(&mut self, work: WorkId) {
        core_queues::push_host(&mut self.parts, work);
    }

    fn unqueue(&mut self, thread: ThreadId) {
        core_queues::unqueue(&mut self.parts, thread);
    }
}
