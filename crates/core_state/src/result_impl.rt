use crate::task_core::TaskCore;
use core_primitives::{CallId, ResultPrimitives};
use machine_data::MadeCounts;

impl ResultPrimitives for TaskCore {
    fn give_result(&mut self, call: CallId, value: u64) {
        core_counts::give_result(&mut self.parts, call, value);
    }

    fn result(&self, call: u64) -> Option<u64> {
        core_counts::result(&self.parts, call)
    }

    fn has_results(&self) -> bool {
        core_counts::has_results(&self.parts)
    }

    fn take_result(&mut self, call: u64) {
        core_counts::take_result(&mut self.parts, call);
    }

    fn trapped(&self) -> bool {
        core_counts::trapped(&self.parts)
    }

    fn set_trapped(&mut self) {
        core_counts::set_trapped(&mut self.parts);
    }

    fn fits(&self, entries: usize) -> bool {
        core_counts::fits(&self.parts, entries)
    }

    fn has_interesting(&self) -> bool {
        core_counts::has_interesting(&self.parts)
    }

    fn some_may_not_suspend(&self) -> bool {
        core_counts::some_may_not_suspend(&self.parts)
    }

    fn made(&self) -> MadeCounts {
        core_counts::made(&self.parts)
    }
}
