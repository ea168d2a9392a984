use crate::task_core::TaskCore;
use core_primitives::{CallId, OpProgressId, PlaceId, PlacePrimitives, SetId, SubtaskId, ThreadId};
use machine_data::{Mark, Place, Why};

impl PlacePrimitives for TaskCore {
    fn place(&self, thread: ThreadId) -> Option<Place> {
        core_places::place(&self.parts, thread)
    }

    fn why(&self, thread: ThreadId) -> Why {
        core_places::why(&self.parts, thread)
    }

    fn delivered_set(&self, thread: ThreadId) -> Option<SetId> {
        core_places::delivered_set(&self.parts, thread)
    }

    #[inline(always)]
    fn arrive(&mut self, thread: ThreadId) {
        core_picks::arrive(&mut self.parts, thread);
    }

    #[inline(always)]
    fn set_place(&mut self, thread: ThreadId, place: PlaceId) {
        core_places::set_place(&mut self.parts, thread, place);
    }

    #[inline(always)]
    fn stand_at(&mut self, thread: ThreadId, place: PlaceId, op_progress: OpProgressId) {
        core_places::stand_at(&mut self.parts, thread, place, op_progress);
    }

    #[inline(always)]
    fn run_first(&mut self, thread: ThreadId) {
        core_places::run_first(&mut self.parts, thread);
    }

    #[inline(always)]
    fn stand_under(&mut self, thread: ThreadId, callee: ThreadId, call: CallId) {
        core_places::stand_under(&mut self.parts, thread, callee, call);
    }

    fn set_mark(&mut self, thread: ThreadId, mark: Mark) {
        core_places::set_mark(&mut self.parts, thread, mark);
    }

    fn hold(&mut self, thread: ThreadId) {
        core_places::hold(&mut self.parts, thread);
    }

    fn threads(&self) -> u64 {
        core_counts::threads(&self.parts)
    }

    #[inline(always)]
    fn under(&self, thread: ThreadId) -> Option<ThreadId> {
        core_removals::under(&self.parts, thread)
    }

    #[inline(always)]
    fn blocked_on(&self, subtask: SubtaskId) -> Option<ThreadId> {
        core_removals::blocked_on(&self.parts, subtask)
    }

    fn first_waiter(&self, set: SetId) -> Option<ThreadId> {
        core_picks::first_waiter(&self.parts, set)
    }

    fn first_cancellable(&self, call: CallId) -> Option<ThreadId> {
        core_picks::first_cancellable(&self.parts, call)
    }

    fn has_callers(&self, thread: ThreadId) -> bool {
        core_queues::has_callers(&self.parts, thread)
    }

    fn add_caller(&mut self, thread: ThreadId, other: ThreadId) {
        core_queues::add_caller(&mut self.parts, thread, other);
    }

    fn pop_caller(&mut self, thread: ThreadId) -> Option<ThreadId> {
        core_queues::pop_caller(&mut self.parts, thread)
    }

    fn pop_newest_caller(&mut self, thread: ThreadId) -> Option<ThreadId> {
        core_queues::pop_newest_caller(&mut self.parts, thread)
    }

    fn has_admitted(&self, instance: u32) -> bool {
        core_removals::has_admitted(&self.parts, instance)
    }

    #[inline(always)]
    fn release(&mut self, instance: u32) {
        core_removals::release(&mut self.parts, instance);
    }
}
