ghost use Rattle.std.specs.Prelude.{◌≡◌, ◌+◌, ◌<◌, ◌≤◌, ◌^◌, Some, false, is_some, length, true};
ghost use Rattle.machine_data.specs.Maps.{get};
ghost use Rattle.machine_data.specs.Read.{at_handle_limit, call_instance, callee_of, fits, instance_of, is_explicit, is_last_thread, position_of, register_of, registers_of, saved_callee_of, saved_own_of, task_of, thread_handle_of};
ghost use Rattle.machine_data.specs.Write.{remove_thread, set_register, set_saved_callee, set_saved_own};
ghost use Rattle.machine_data.specs.declared.records.Thread.{Thread};
ghost use Rattle.machine_rules.specs.Data.{advanced, assigned, moved_to};
ghost use Rattle.core_primitives.specs.Groups.{tracked_group};
ghost use Rattle.core_primitives.specs.Apart.{IsApart};
ghost use Rattle.core_primitives.specs.Barred.{is_barred};
ghost use Rattle.core_primitives.specs.Context.{activating, with_context};
ghost use Rattle.core_primitives.specs.Names.{op_progress_in};
ghost use Rattle.core_primitives.specs.StateView.{call_of, on_core, thread_of};
ghost use Rattle.core_primitives.specs.Live.{live_op_progress_of};
ghost use Rattle.core_primitives.specs.Changes.{with_op_progress};
ghost use Rattle.core_primitives.specs.Records.{MakesThread, with_member, LosesThreadBy, thread_retired};

use crate::names::{CallId, OpProgressId, ThreadAt, ThreadId};
use crate::view::View;
use machine_data::{Given, NoMemory};

/// The records of threads.
pub trait ThreadPrimitives: View {
    /// Returns the number of a thread; 0 if the id names none.
    fn number(&self, thread: ThreadId) -> u64
        ensures { result ≡ thread_of (Self.view self.now) thread };

    /// Returns the number of a thread that is there: nothing is tested.
    fn number_unchecked(&self, thread: ThreadId) -> u64
        requires { 0 < thread_of (Self.view self.now) thread }
        ensures { result ≡ thread_of (Self.view self.now) thread };

    /// Returns the thread's call, which is there as long as the thread.
    fn task_of(&self, thread: ThreadId) -> CallId
        ensures is { call_of (Self.view self.now) result ≡ task_of (thread_of (Self.view self.now) thread) (Self.view self.now).core }
        ensures live { 0 < thread_of (Self.view self.now) thread → 0 < call_of (Self.view self.now) result };

    /// Returns the call of a thread that is there: nothing is tested.
    fn task_unchecked(&self, thread: ThreadId) -> CallId
        requires { 0 < thread_of (Self.view self.now) thread }
        ensures is { call_of (Self.view self.now) result ≡ task_of (thread_of (Self.view self.now) thread) (Self.view self.now).core }
        ensures live { 0 < call_of (Self.view self.now) result };

    /// Returns the instance of the thread's call.
    fn instance_of(&self, thread: ThreadId) -> u32
        ensures { result ≡ instance_of (thread_of (Self.view self.now) thread) (Self.view self.now).core };

    /// Returns the instance of the call of a thread that is there: nothing is tested.
    fn instance_unchecked(&self, thread: ThreadId) -> u32
        requires { 0 < thread_of (Self.view self.now) thread }
        ensures { result ≡ instance_of (thread_of (Self.view self.now) thread) (Self.view self.now).core };

    /// Returns the number of the thread's group, as long as that is tracked: 0 once its end was told.
    fn thread_group(&self, thread: ThreadId) -> u64
        ensures { result ≡ tracked_group (thread_of (Self.view self.now) thread) (Self.view self.now) };

    /// Returns one of the thread's registers, 0 to 15.
    fn register(&self, thread: ThreadId, register: u8) -> u64
        ensures { result ≡ register_of (thread_of (Self.view self.now) thread) register (Self.view self.now).core };

    /// Returns one of the registers, 0 to 15, of a thread that is there: nothing is tested of the thread.
    fn register_unchecked(&self, thread: ThreadId, register: u8) -> u64
        requires { 0 < thread_of (Self.view self.now) thread }
        ensures { result ≡ register_of (thread_of (Self.view self.now) thread) register (Self.view self.now).core };

    /// Returns all registers.
    fn registers(&self, thread: ThreadId) -> [u64; 16]
        requires { 0 < thread_of (Self.view self.now) thread }
        ensures { result ≡ registers_of (thread_of (Self.view self.now) thread) (Self.view self.now).core };

    /// Returns the thread's position in its script, from 0; the script's length at its end.
    fn position(&self, thread: ThreadId) -> u32
        ensures { result ≡ position_of (thread_of (Self.view self.now) thread) (Self.view self.now).core };

    /// Returns where a thread is in its code.
    fn at(&self, thread: ThreadId) -> ThreadAt
        requires { 0 < thread_of (Self.view self.now) thread }
        ensures callee { result.callee ≡ callee_of (task_of (thread_of (Self.view self.now) thread) (Self.view self.now).core) (Self.view self.now).core }
        ensures script { (t : Thread) → get (Self.view self.now).core.threads (thread_of (Self.view self.now) thread) ≡ Some t → result.script ≡ t.script }
        ensures position { result.position ≡ position_of (thread_of (Self.view self.now) thread) (Self.view self.now).core };

    /// Returns the progress of the thread's op; what that names is no id of anything if it is gone.
    fn op_progress(&self, thread: ThreadId) -> OpProgressId
        ensures { op_progress_in (Self.view self.now).tags result ≡ live_op_progress_of (thread_of (Self.view self.now) thread) (Self.view self.now).core };

    /// Returns whether the thread isn't the first one of its call.
    fn is_explicit(&self, thread: ThreadId) -> bool
        ensures { result ≡ is_explicit (thread_of (Self.view self.now) thread) (Self.view self.now).core };

    /// Returns whether a thread that is there isn't the first one of its call: nothing is tested of it.
    fn explicit_unchecked(&self, thread: ThreadId) -> bool
        requires { 0 < thread_of (Self.view self.now) thread }
        ensures { result ≡ is_explicit (thread_of (Self.view self.now) thread) (Self.view self.now).core };

    /// Returns whether its instance may keep its start out: it isn't explicit, and its export isn't sync.
    fn is_barred(&self, thread: ThreadId) -> bool
        requires { 0 < thread_of (Self.view self.now) thread }
        ensures { result ≡ is_barred (thread_of (Self.view self.now) thread) (Self.view self.now).core };

    /// Returns whether it is the only thread of its call.
    fn is_last_thread(&self, thread: ThreadId) -> bool
        ensures { result ≡ is_last_thread (thread_of (Self.view self.now) thread) (Self.view self.now).core };

    /// Returns the thread's handle in its instance, if it has one.
    fn thread_handle(&self, thread: ThreadId) -> Option<u32>
        ensures { result ≡ thread_handle_of (thread_of (Self.view self.now) thread) (Self.view self.now).core };

    /// Returns the thread's instance's flag `do_not_suspend` as it was before the thread's start, if that was saved.
    fn saved_own(&self, thread: ThreadId) -> Option<bool>
        ensures { result ≡ saved_own_of (thread_of (Self.view self.now) thread) (Self.view self.now).core };

    /// Returns the callee's flag `do_not_suspend` as it was before the thread's call, if that was saved.
    fn saved_callee(&self, thread: ThreadId) -> Option<bool>
        ensures { result ≡ saved_callee_of (thread_of (Self.view self.now) thread) (Self.view self.now).core };

    /// Writes one of the thread's registers, 0 to 15.
    fn set_register(&mut self, thread: ThreadId, register: u8, value: u64)
        ensures { Self.view self.new ≡ on_core (set_register (thread_of (Self.view self.old) thread) register value) (Self.view self.old) };

    /// Sets the progress of the thread's op.
    fn set_op_progress(&mut self, thread: ThreadId, op_progress: OpProgressId)
        ensures { Self.view self.new ≡ with_op_progress thread op_progress (Self.view self.old) };

    /// Saves the flag of the thread's own instance, or removes what was saved.
    fn set_saved_own(&mut self, thread: ThreadId, flag: Option<bool>)
        ensures { Self.view self.new ≡ on_core (set_saved_own (thread_of (Self.view self.old) thread) flag) (Self.view self.old) };

    /// Saves the flag of the callee's instance, or removes what was saved.
    fn set_saved_callee(&mut self, thread: ThreadId, flag: Option<bool>)
        ensures { Self.view self.new ≡ on_core (set_saved_callee (thread_of (Self.view self.old) thread) flag) (Self.view self.old) };

    /// Sets the thread's position, at the start of an op, and its registers.
    fn set_context(&mut self, thread: ThreadId, position: u32, registers: &[u64; 16])
        ensures { Self.view self.new ≡ on_core (with_context (thread_of (Self.view self.old) thread) position registers.now) (Self.view self.old) };

    /// Moves the thread to the op at this position.
    fn move_to(&mut self, thread: ThreadId, position: u32)
        ensures { Self.view self.new ≡ on_core (moved_to (thread_of (Self.view self.old) thread) position) (Self.view self.old) };

    /// Moves the thread past its op, which is done.
    fn advance(&mut self, thread: ThreadId)
        requires { position_of (thread_of (Self.view self.old) thread) (Self.view self.old).core + 1 < 2 ^ 32 }
        ensures { Self.view self.new ≡ on_core (advanced (thread_of (Self.view self.old) thread)) (Self.view self.old) };

    /// Moves the thread past its op, and writes the op's answer to a register.
    fn assign(&mut self, thread: ThreadId, register: u8, value: u64)
        requires { position_of (thread_of (Self.view self.old) thread) (Self.view self.old).core + 1 < 2 ^ 32 }
        ensures { Self.view self.new ≡ on_core (assigned (thread_of (Self.view self.old) thread) register value) (Self.view self.old) };

    /// Begins an activation: the thread is given what is there in r0, r1 and r2, its instance keeps other entries out, and it runs
    /// the react script from its start.
    fn activate(&mut self, thread: ThreadId, instance: u32, given: Given)
        ensures { Self.view self.new ≡ on_core (activating (thread_of (Self.view self.old) thread) instance given) (Self.view self.old) };

    /// Makes an explicit thread of a call with these values, and gives it its handle. If it is out of memory, all is as before.
    fn make_thread(&mut self, task: CallId, slot: u8, words: &[u64]) -> Result<ThreadId, NoMemory>
        requires words { length words.now ≤ 16 }
        requires task { 0 < call_of (Self.view self.old) task }
        requires there { is_some (get (Self.view self.old).core.handles (call_instance (call_of (Self.view self.old) task) (Self.view self.old).core)) ≡ true }
        requires few { (Self.view self.old).core.made.threads + 1 < 2 ^ 64 }
        requires room { fits 2 (Self.view self.old).core ≡ true }
        requires limit { at_handle_limit (Self.view self.old).core ≡ false }
        ensures { MakesThread (with_member (call_of (Self.view self.old) task) slot words.now) (Self.view self.old) result (Self.view self.new) };

    /// Removes a thread, and frees its handle.
    fn retire_thread(&mut self, thread: ThreadId)
        requires live { 0 < thread_of (Self.view self.old) thread }
        requires apart { IsApart (thread_of (Self.view self.old) thread) (Self.view self.old).core }
        ensures { LosesThreadBy thread_retired thread (Self.view self.old) (Self.view self.new) };

    /// Removes a thread whatever its place is; no thread is behind it any more.
    fn remove_thread(&mut self, thread: ThreadId)
        requires live { 0 < thread_of (Self.view self.old) thread }
        requires apart { IsApart (thread_of (Self.view self.old) thread) (Self.view self.old).core }
        ensures { LosesThreadBy remove_thread thread (Self.view self.old) (Self.view self.new) };
}
