//! What a host's own code may wait for in a store.
ghost use Rattle.std.specs.Prelude.{◌≡◌, not};
ghost use Rattle.machine_rules.specs.MainOps.{has_interesting, is_ready_for_call};
ghost use Rattle.task_store.specs.Polls.{ready_if};

use crate::data::RuntimeInstance;
use crate::store::Store;
use core_primitives::{InstancePrimitives, ResultPrimitives};
use futures::task::Poll;
use task_group::TaskGroupHook;

impl<T, H, G: TaskGroupHook> Store<T, H, G> {
    /// Returns `Ready` exactly if no task is left that main has to wait for: main's op `quiet`.
    pub fn poll_no_interesting_tasks(&self) -> Poll<()>
        ensures { result ≡ ready_if (not (has_interesting self.now.state.core)) }
    {
        if self.state.has_interesting() {
            return Poll::Pending;
        }
        Poll::Ready(())
    }

    /// Returns `Ready` exactly if a call of the instance could start: nothing asks its entries to wait, and none holds it. It is
    /// main's op `ready`.
    #[tactic(auto, unfolding(machine_rules::specs::MainOps::is_ready_for_call))]
    pub fn poll_ready_for_concurrent_call(&self, instance: RuntimeInstance) -> Poll<()>
        ensures { result ≡ ready_if (is_ready_for_call instance.instance.0 self.now.state.core) }
    {
        let number = instance.instance.0;
        if self.state.may_not_enter(number) || self.state.backpressure(number) != 0 {
            return Poll::Pending;
        }
        Poll::Ready(())
    }
}
