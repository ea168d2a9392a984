use crate::task_core::TaskCore;
use core_primitives::{CallId, OpProgressId, ThreadAt, ThreadId, ThreadPrimitives};
use machine_data::{Given, NoMemory};

impl ThreadPrimitives for TaskCore {
    fn number(&self, thread: ThreadId) -> u64 {
        core_fields::number(&self.parts, thread)
    }

    #[inline(always)]
    fn number_unchecked(&self, thread: ThreadId) -> u64 {
        core_fields::number_unchecked(&self.parts, thread)
    }

    fn task_of(&self, thread: ThreadId) -> CallId {
        core_records::task_of(&self.parts, thread)
    }

    #[inline(always)]
    fn task_unchecked(&self, thread: ThreadId) -> CallId {
        core_fields::task_unchecked(&self.parts, thread)
    }

    fn instance_of(&self, thread: ThreadId) -> u32 {
        core_fields::instance_of(&self.parts, thread)
    }

    fn thread_group(&self, thread: ThreadId) -> u64 {
        core_fields::thread_group(&self.parts, thread)
    }

    fn register(&self, thread: ThreadId, register: u8) -> u64 {
        core_fields::register(&self.parts, thread, register)
    }

    fn registers(&self, thread: ThreadId) -> [u64; 16] {
        core_fields::registers(&self.parts, thread)
    }

    fn position(&self, thread: ThreadId) -> u32 {
        core_fields::position(&self.parts, thread)
    }

    #[inline(always)]
    fn at(&self, thread: ThreadId) -> ThreadAt {
        core_fields::at(&self.parts, thread)
    }

    #[inline(always)]
    fn op_progress(&self, thread: ThreadId) -> OpProgressId {
        core_fields::op_progress(&self.parts, thread)
    }

    fn is_explicit(&self, thread: ThreadId) -> bool {
        core_fields::is_explicit(&self.parts, thread)
    }

    #[inline(always)]
    fn instance_unchecked(&self, thread: ThreadId) -> u32 {
        core_fields::instance_unchecked(&self.parts, thread)
    }

    #[inline(always)]
    fn register_unchecked(&self, thread: ThreadId, register: u8) -> u64 {
        core_fields::register_unchecked(&self.parts, thread, register)
    }

    #[inline(always)]
    fn explicit_unchecked(&self, thread: ThreadId) -> bool {
        core_fields::explicit_unchecked(&self.parts, thread)
    }

    fn is_barred(&self, thread: ThreadId) -> bool {
        core_fields::is_barred(&self.parts, thread)
    }

    fn is_last_thread(&self, thread: ThreadId) -> bool {
        core_counts::is_last_thread(&self.parts, thread)
    }

    fn thread_handle(&self, thread: ThreadId) -> Option<u32> {
        core_fields::thread_handle(&self.parts, thread)
    }

    fn saved_own(&self, thread: ThreadId) -> Option<bool> {
        core_fields::saved_own(&self.parts, thread)
    }

    fn saved_callee(&self, thread: ThreadId) -> Option<bool> {
        core_fields::saved_callee(&self.parts, thread)
    }

    fn set_register(&mut self, thread: ThreadId, register: u8, value: u64) {
        core_fields::set_register(&mut self.parts, thread, register, value);
    }

    #[inline(always)]
    fn set_op_progress(&mut self, thread: ThreadId, op_progress: OpProgressId) {
        core_places::set_op_progress(&mut self.parts, thread, op_progress);
    }

    fn set_saved_own(&mut self, thread: ThreadId, flag: Option<bool>) {
        core_fields::set_saved_own(&mut self.parts, thread, flag);
    }

    fn set_saved_callee(&mut self, thread: ThreadId, flag: Option<bool>) {
        core_fields::set_saved_callee(&mut self.parts, thread, flag);
    }

    fn set_context(&mut self, thread: ThreadId, position: u32, registers: &[u64; 16]) {
        core_places::set_context(&mut self.parts, thread, position, registers);
    }

    fn move_to(&mut self, thread: ThreadId, position: u32) {
        core_places::move_to(&mut self.parts, thread, position);
    }

    fn advance(&mut self, thread: ThreadId) {
        core_places::advance(&mut self.parts, thread);
    }

    fn assign(&mut self, thread: ThreadId, register: u8, value: u64) {
        core_places::assign(&mut self.parts, thread, register, value);
    }

    fn activate(&mut self, thread: ThreadId, instance: u32, given: Given) {
        core_places::activate(&mut self.parts, thread, instance, given);
    }

    fn make_thread(&mut self, task: CallId, slot: u8, words: &[u64]) -> Result<ThreadId, NoMemory> {
        core_makes::make_thread(&mut self.parts, task, slot, words)
    }

    fn retire_thread(&mut self, thread: ThreadId) {
        core_removals::retire_thread(&mut self.parts, thread);
    }

    fn remove_thread(&mut self, thread: ThreadId) {
        core_removals::remove_thread(&mut self.parts, thread);
    }
}
