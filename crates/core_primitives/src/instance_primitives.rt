ghost use Rattle.std.specs.Prelude.{◌≡◌, ◌<◌, ◌^◌, IfOk, IfSome, IsSome, OnErr, OnOk, false, option_map};
ghost use Rattle.machine_data.specs.Read.{at_handle_limit, backpressure_of, may_not_enter, may_not_suspend, new_handle, new_thread_handle, subtask_at, memory_cell_of};
ghost use Rattle.machine_data.specs.Write.{free_handle, set_backpressure, set_do_not_enter, set_do_not_suspend, set_memory_cell};
ghost use Rattle.core_primitives.specs.Names.{subtask_in};
ghost use Rattle.core_primitives.specs.StateView.{on_core, thread_of, thread_if_any, set_if_any};
ghost use Rattle.core_primitives.specs.Live.{live_subtask_at, live_set_at, live_thread_at};
ghost use Rattle.core_primitives.specs.Changes.{handle_for, with_handle_for};

use crate::names::{SetId, SubtaskId, ThreadId};
use crate::view::View;
use machine_data::NoMemory;

/// Instances: their flags, counters and memory cells, and what their handles name.
pub trait InstancePrimitives: View {
    /// Returns the instance's count of backpressure, 0 to 65535; 0 if there is no such instance.
    fn backpressure(&self, instance: u32) -> u16
        ensures { result ≡ backpressure_of instance (Self.view self.now).core };

    /// Returns whether the instance keeps entries out (`do_not_enter`); not where there is no such instance.
    fn may_not_enter(&self, instance: u32) -> bool
        ensures { result ≡ may_not_enter instance (Self.view self.now).core };

    /// Returns whether a thread of the instance may not stop (`do_not_suspend`); not where there is no such instance.
    fn may_not_suspend(&self, instance: u32) -> bool
        ensures { result ≡ may_not_suspend instance (Self.view self.now).core };

    /// Returns one of the instance's memory cells, 0 to 15; 0 if there is none.
    fn memory_cell(&self, instance: u32, cell: u8) -> u64
        ensures { result ≡ memory_cell_of instance cell (Self.view self.now).core };

    /// Sets the instance's count of backpressure.
    fn set_backpressure(&mut self, instance: u32, count: u16)
        ensures { Self.view self.new ≡ on_core (set_backpressure instance count) (Self.view self.old) };

    /// Sets whether the instance keeps entries out.
    fn set_do_not_enter(&mut self, instance: u32, flag: bool)
        ensures { Self.view self.new ≡ on_core (set_do_not_enter instance flag) (Self.view self.old) };

    /// Sets whether threads of the instance may not stop.
    fn set_do_not_suspend(&mut self, instance: u32, flag: bool)
        ensures { Self.view self.new ≡ on_core (set_do_not_suspend instance flag) (Self.view self.old) };

    /// Writes one of the instance's memory cells, 0 to 15.
    fn set_memory_cell(&mut self, instance: u32, cell: u8, value: u64)
        ensures { Self.view self.new ≡ on_core (set_memory_cell instance cell value) (Self.view self.old) };

    /// Returns whether a handle may not be given, in any instance.
    fn at_handle_limit(&self) -> bool
        ensures { result ≡ at_handle_limit (Self.view self.now).core };

    /// Returns the subtask that a handle names.
    fn subtask_at(&self, instance: u32, handle: u64) -> Option<SubtaskId>
        ensures is { option_map (subtask_in (Self.view self.now).tags) result ≡ live_subtask_at instance handle (Self.view self.now).core }
        ensures small { IfSome result (λ id. handle < 2 ^ 32) };

    /// Returns the set that a handle names.
    fn set_at(&self, instance: u32, handle: u64) -> Option<SetId>
        ensures is { set_if_any (Self.view self.now) result ≡ live_set_at instance handle (Self.view self.now).core }
        ensures small { IfSome result (λ id. handle < 2 ^ 32) };

    /// Returns the thread that a thread handle names.
    fn thread_at(&self, instance: u32, handle: u64) -> Option<ThreadId>
        ensures { thread_if_any (Self.view self.now) result ≡ live_thread_at instance handle (Self.view self.now).core };

    /// Returns the handle that the instance gives next.
    fn new_handle(&self, instance: u32) -> u32
        ensures { result ≡ new_handle instance (Self.view self.now).core };

    /// Returns the thread handle that the instance gives next.
    fn new_thread_handle(&self, instance: u32) -> u32
        ensures { result ≡ new_thread_handle instance (Self.view self.now).core };

    /// Gives a thread its handle in its instance. If it is out of memory, all is as before.
    fn name_thread(&mut self, thread: ThreadId) -> Result<u32, NoMemory>
        requires live { 0 < thread_of (Self.view self.old) thread }
        requires limit { at_handle_limit (Self.view self.old).core ≡ false }
        ensures handle { IfOk result (λ h. h ≡ handle_for thread (Self.view self.old)) }
        ensures new { OnOk result (Self.view self.new ≡ with_handle_for thread (Self.view self.old)) }
        ensures err { OnErr result (Self.view self.new ≡ Self.view self.old) };

    /// Takes a handle back.
    fn free_handle(&mut self, instance: u32, handle: u32)
        requires { IsSome (subtask_at instance handle (Self.view self.old).core) }
        ensures { Self.view self.new ≡ on_core (free_handle instance handle) (Self.view self.old) };
}
