use crate::task_core::TaskCore;
use core_primitives::{CallId, CallPrimitives, CallerId, ThreadId};
use machine_data::{CallEnd, Callee, ExportKind, Goal, NoMemory, TaskEvent};

impl CallPrimitives for TaskCore {
    fn call_number(&self, call: CallId) -> u64 {
        core_fields::call_number(&self.parts, call)
    }

    fn callee(&self, call: CallId) -> Callee {
        core_fields::callee(&self.parts, call)
    }

    fn kind(&self, call: CallId) -> ExportKind {
        core_fields::kind(&self.parts, call)
    }

    fn goal(&self, call: CallId) -> Goal {
        core_fields::goal(&self.parts, call)
    }

    #[inline(always)]
    fn kind_unchecked(&self, call: CallId) -> ExportKind {
        core_fields::kind_unchecked(&self.parts, call)
    }

    #[inline(always)]
    fn goal_unchecked(&self, call: CallId) -> Goal {
        core_fields::goal_unchecked(&self.parts, call)
    }

    fn caller(&self, call: CallId) -> CallerId {
        core_fields::caller(&self.parts, call)
    }

    fn end_of(&self, call: CallId) -> Option<CallEnd> {
        core_fields::end_of(&self.parts, call)
    }

    fn was_started(&self, call: CallId) -> bool {
        core_fields::was_started(&self.parts, call)
    }

    fn starting_is_published(&self, call: CallId) -> bool {
        core_fields::starting_is_published(&self.parts, call)
    }

    fn task_event(&self, call: CallId) -> Option<TaskEvent> {
        core_fields::task_event(&self.parts, call)
    }

    fn cancel_was_asked(&self, call: CallId) -> bool {
        core_fields::cancel_was_asked(&self.parts, call)
    }

    fn cancel_was_delivered(&self, call: CallId) -> bool {
        core_fields::cancel_was_delivered(&self.parts, call)
    }

    fn result_of(&self, call: CallId) -> u64 {
        core_fields::result_of(&self.parts, call)
    }

    fn first_thread(&self, call: CallId) -> ThreadId {
        core_records::first_thread(&self.parts, call)
    }

    fn is_deletable(&self, call: CallId) -> bool {
        core_counts::is_deletable(&self.parts, call)
    }

    fn is_finished(&self, call: CallId) -> bool {
        core_fields::is_finished(&self.parts, call)
    }

    fn set_started(&mut self, call: CallId) {
        core_fields::set_started(&mut self.parts, call);
    }

    #[inline(always)]
    fn set_end_unchecked(&mut self, call: CallId, end_of_call: CallEnd) {
        core_fields::set_end_unchecked(&mut self.parts, call, end_of_call);
    }

    #[inline(always)]
    fn set_exited_unchecked(&mut self, call: CallId) {
        core_fields::set_exited_unchecked(&mut self.parts, call);
    }

    #[inline(always)]
    fn set_started_unchecked(&mut self, call: CallId) {
        core_fields::set_started_unchecked(&mut self.parts, call);
    }

    fn set_starting_published(&mut self, call: CallId) {
        core_fields::set_starting_published(&mut self.parts, call);
    }

    fn set_end(&mut self, call: CallId, end_of_call: CallEnd) {
        core_fields::set_end(&mut self.parts, call, end_of_call);
    }

    fn set_task_event(&mut self, call: CallId, event: Option<TaskEvent>) {
        core_fields::set_task_event(&mut self.parts, call, event);
    }

    fn set_cancel_asked(&mut self, call: CallId) {
        core_fields::set_cancel_asked(&mut self.parts, call);
    }

    fn set_cancel_delivered(&mut self, call: CallId) {
        core_fields::set_cancel_delivered(&mut self.parts, call);
    }

    fn set_exited(&mut self, call: CallId) {
        core_fields::set_exited(&mut self.parts, call);
    }

    fn set_uninteresting(&mut self, call: CallId) {
        core_counts::set_uninteresting(&mut self.parts, call);
    }

    fn set_result(&mut self, call: CallId, value: Option<u64>) {
        core_fields::set_result(&mut self.parts, call, value);
    }

    fn make_call(
        &mut self,
        thread: ThreadId,
        callee: Callee,
        kind: ExportKind,
        goal: Goal,
        words: &[u64],
    ) -> Result<(ThreadId, CallId), NoMemory> {
        core_makes::make_call(&mut self.parts, thread, callee, kind, goal, words)
    }

    fn make_direct_call(
        &mut self,
        thread: ThreadId,
        callee: Callee,
        kind: ExportKind,
        words: &[u64],
    ) -> Result<(ThreadId, CallId), NoMemory> {
        core_makes::make_direct_call(&mut self.parts, thread, callee, kind, words)
    }

    fn make_call_by_main(
        &mut self,
        callee: Callee,
        kind: ExportKind,
        goal: Goal,
        words: &[u64],
    ) -> Result<(ThreadId, CallId), NoMemory> {
        core_makes::make_call_by_main(&mut self.parts, callee, kind, goal, words)
    }

    fn delete_call(&mut self, call: CallId) {
        core_removals::delete_call(&mut self.parts, call);
    }
}
