ghost use Rattle.std.specs.Prelude.{◌≡◌, ◌+◌, ◌<◌, ◌≤◌, ◌^◌, IsSome, false, length, true};
ghost use Rattle.std.specs.Option.{option_map_or};
ghost use Rattle.machine_data.specs.Maps.{get};
ghost use Rattle.machine_data.specs.Moves.{is_deletable, is_finished};
ghost use Rattle.machine_data.specs.Read.{at_handle_limit, callee_of, cancel_was_asked, cancel_was_delivered, end_of, fits, goal_of, has_thread, kind_of, task_event_of, result_of, was_started};
ghost use Rattle.machine_data.specs.Write.{set_cancel_asked, set_cancel_delivered, set_end, set_exited, set_task_event, set_result, set_started, set_starting_published, set_uninteresting};
ghost use Rattle.machine_data.specs.declared.records.Caller.TheVariants as callers;
ghost use Rattle.machine_rules.specs.Takes.{starting_is_published};
ghost use Rattle.core_primitives.specs.Live.{live_thread, live_caller_of};
ghost use Rattle.core_primitives.specs.Names.{caller_in};
ghost use Rattle.core_primitives.specs.StateView.{call_of, on_core, thread_of};
ghost use Rattle.core_primitives.specs.Records.{MakesCall, MakesGroupedCall, call_by, direct_call_by, grouped_call, LosesCallBy, call_deleted};

use crate::names::{CallId, CallerId, ThreadId};
use crate::view::View;
use machine_data::{CallEnd, Callee, ExportKind, Goal, NoMemory, TaskEvent};

/// The records of calls.
pub trait CallPrimitives: View {
    /// Returns the number of a call; 0 if the id names none.
    fn call_number(&self, call: CallId) -> u64
        ensures { result ≡ call_of (Self.view self.now) call };

    /// Returns the export that the call is of.
    fn callee(&self, call: CallId) -> Callee
        ensures { result ≡ callee_of (call_of (Self.view self.now) call) (Self.view self.now).core };

    /// Returns the kind of the call's export.
    fn kind(&self, call: CallId) -> ExportKind
        ensures { result ≡ kind_of (call_of (Self.view self.now) call) (Self.view self.now).core };

    /// Returns the kind of the export of a call that is there: nothing is tested of it.
    fn kind_unchecked(&self, call: CallId) -> ExportKind
        requires { 0 < call_of (Self.view self.now) call }
        ensures { result ≡ kind_of (call_of (Self.view self.now) call) (Self.view self.now).core };

    /// Returns where the call's result goes.
    fn goal(&self, call: CallId) -> Goal
        ensures { result ≡ goal_of (call_of (Self.view self.now) call) (Self.view self.now).core };

    /// Returns where the result of a call goes that is there: nothing is tested of it.
    fn goal_unchecked(&self, call: CallId) -> Goal
        requires { 0 < call_of (Self.view self.now) call }
        ensures { result ≡ goal_of (call_of (Self.view self.now) call) (Self.view self.now).core };

    /// Returns who made the call: main, or a thread, whose id names nothing if it is gone.
    fn caller(&self, call: CallId) -> CallerId
        ensures { caller_in (Self.view self.now).tags result ≡ live_caller_of (call_of (Self.view self.now) call) (Self.view self.now).core };

    /// Returns how the call has ended, if it has.
    fn end_of(&self, call: CallId) -> Option<CallEnd>
        ensures { result ≡ end_of (call_of (Self.view self.now) call) (Self.view self.now).core };

    /// Returns whether the call's start has run.
    fn was_started(&self, call: CallId) -> bool
        ensures { result ≡ was_started (call_of (Self.view self.now) call) (Self.view self.now).core };

    /// Returns whether the caller was told that the call is Starting.
    fn starting_is_published(&self, call: CallId) -> bool
        ensures { result ≡ starting_is_published (call_of (Self.view self.now) call) (Self.view self.now).core };

    /// Returns the task event, if one is there.
    fn task_event(&self, call: CallId) -> Option<TaskEvent>
        ensures { result ≡ task_event_of (call_of (Self.view self.now) call) (Self.view self.now).core };

    /// Returns whether a cancel was asked of the call.
    fn cancel_was_asked(&self, call: CallId) -> bool
        ensures { result ≡ cancel_was_asked (call_of (Self.view self.now) call) (Self.view self.now).core };

    /// Returns whether a cancel request was delivered to the task.
    fn cancel_was_delivered(&self, call: CallId) -> bool
        ensures { result ≡ cancel_was_delivered (call_of (Self.view self.now) call) (Self.view self.now).core };

    /// Returns the result of a `call_sync` that wasn't taken yet; 0 if there is none.
    fn result_of(&self, call: CallId) -> u64
        ensures { result ≡ result_of (call_of (Self.view self.now) call) (Self.view self.now).core };

    /// Returns the call's first thread, whose number is the call's; it names nothing if that is gone.
    fn first_thread(&self, call: CallId) -> ThreadId
        ensures { thread_of (Self.view self.now) result ≡ live_thread (call_of (Self.view self.now) call) (Self.view self.now).core };

    /// Returns whether nothing keeps the call.
    fn is_deletable(&self, call: CallId) -> bool
        ensures { result ≡ is_deletable (call_of (Self.view self.now) call) (Self.view self.now).core };

    /// Returns whether the call's first thread and its task have ended.
    fn is_finished(&self, call: CallId) -> bool
        ensures { result ≡ option_map_or is_finished (get (Self.view self.now).core.calls (call_of (Self.view self.now) call)) false };

    /// Marks the call as started.
    fn set_started(&mut self, call: CallId)
        ensures { Self.view self.new ≡ on_core (set_started (call_of (Self.view self.old) call)) (Self.view self.old) };

    /// Marks a call that is there as started, without a look-up that may fail.
    fn set_started_unchecked(&mut self, call: CallId)
        requires { 0 < call_of (Self.view self.old) call }
        ensures { Self.view self.new ≡ on_core (set_started (call_of (Self.view self.old) call)) (Self.view self.old) };

    /// Records that the caller was told that the call is Starting.
    fn set_starting_published(&mut self, call: CallId)
        ensures { Self.view self.new ≡ on_core (set_starting_published (call_of (Self.view self.old) call)) (Self.view self.old) };

    /// Records how the call has ended.
    fn set_end(&mut self, call: CallId, end_of_call: CallEnd)
        ensures { Self.view self.new ≡ on_core (set_end (call_of (Self.view self.old) call) end_of_call) (Self.view self.old) };

    /// Writes the end of a call that is there, without a look-up that may fail.
    fn set_end_unchecked(&mut self, call: CallId, end_of_call: CallEnd)
        requires { 0 < call_of (Self.view self.old) call }
        ensures { Self.view self.new ≡ on_core (set_end (call_of (Self.view self.old) call) end_of_call) (Self.view self.old) };

    /// Records that the task event is this one, or none.
    fn set_task_event(&mut self, call: CallId, event: Option<TaskEvent>)
        ensures { Self.view self.new ≡ on_core (set_task_event (call_of (Self.view self.old) call) event) (Self.view self.old) };

    /// Records that a cancel was asked of the call.
    fn set_cancel_asked(&mut self, call: CallId)
        ensures { Self.view self.new ≡ on_core (set_cancel_asked (call_of (Self.view self.old) call)) (Self.view self.old) };

    /// Records that a cancel request was delivered to the task.
    fn set_cancel_delivered(&mut self, call: CallId)
        ensures { Self.view self.new ≡ on_core (set_cancel_delivered (call_of (Self.view self.old) call)) (Self.view self.old) };

    /// Records that the call's first thread has ended.
    fn set_exited(&mut self, call: CallId)
        ensures { Self.view self.new ≡ on_core (set_exited (call_of (Self.view self.old) call)) (Self.view self.old) };

    /// Marks a call that is there as exited, without a look-up that may fail.
    fn set_exited_unchecked(&mut self, call: CallId)
        requires { 0 < call_of (Self.view self.old) call }
        ensures { Self.view self.new ≡ on_core (set_exited (call_of (Self.view self.old) call)) (Self.view self.old) };

    /// Takes the call out of those that the host waits for, and lowers the count of interesting tasks with it.
    fn set_uninteresting(&mut self, call: CallId)
        ensures { Self.view self.new ≡ on_core (set_uninteresting (call_of (Self.view self.old) call)) (Self.view self.old) };

    /// Stores the result of a `call_sync` for its caller to take, or removes it.
    fn set_result(&mut self, call: CallId, value: Option<u64>)
        ensures { Self.view self.new ≡ on_core (set_result (call_of (Self.view self.old) call) value) (Self.view self.old) };

    /// Makes a call by a thread, in the thread's group, and the call's first thread, which is New. If it is out of memory, all is
    /// as before.
    fn make_call(
        &mut self,
        thread: ThreadId,
        callee: Callee,
        kind: ExportKind,
        goal: Goal,
        words: &[u64],
    ) -> Result<(ThreadId, CallId), NoMemory>
        requires live { 0 < thread_of (Self.view self.old) thread }
        requires there { IsSome (get (Self.view self.old).core.instances callee.instance) }
        requires words { length words.now ≤ 16 }
        requires few { (Self.view self.old).core.made.threads + 1 < 2 ^ 64 }
        requires room { fits 3 (Self.view self.old).core ≡ true }
        ensures { MakesCall (call_by (thread_of (Self.view self.old) thread) callee kind goal words.now) (Self.view self.old) result (Self.view self.new) };

    /// Makes a direct call by a thread, and gives the call's first thread its handle. If it is out of memory, all is as before.
    fn make_direct_call(
        &mut self,
        thread: ThreadId,
        callee: Callee,
        kind: ExportKind,
        words: &[u64],
    ) -> Result<(ThreadId, CallId), NoMemory>
        requires live { 0 < thread_of (Self.view self.old) thread }
        requires there { IsSome (get (Self.view self.old).core.instances callee.instance) }
        requires words { length words.now ≤ 16 }
        requires few { (Self.view self.old).core.made.threads + 1 < 2 ^ 64 }
        requires room { fits 3 (Self.view self.old).core ≡ true }
        requires limit { at_handle_limit (Self.view self.old).core ≡ false }
        ensures { MakesCall (direct_call_by (thread_of (Self.view self.old) thread) callee kind words.now) (Self.view self.old) result (Self.view self.new) };

    /// Makes a group, a call without a calling thread in it, and the call's first thread. Where its result is for main there is
    /// room for it. If it is out of memory, all is as before.
    fn make_call_by_main(
        &mut self,
        callee: Callee,
        kind: ExportKind,
        goal: Goal,
        words: &[u64],
    ) -> Result<(ThreadId, CallId), NoMemory>
        requires there { IsSome (get (Self.view self.old).core.instances callee.instance) }
        requires words { length words.now ≤ 16 }
        requires few { (Self.view self.old).core.made.threads + 1 < 2 ^ 64 }
        requires groups { (Self.view self.old).core.made.groups + 1 < 2 ^ 64 }
        requires room { fits 4 (Self.view self.old).core ≡ true }
        ensures { MakesGroupedCall (grouped_call callers.Main callee kind goal words.now) (Self.view self.old) result (Self.view self.new) };

    /// Deletes a call, and finishes its group if nothing of the group is left.
    fn delete_call(&mut self, call: CallId)
        requires live { 0 < call_of (Self.view self.old) call }
        requires last { has_thread (call_of (Self.view self.old) call) (Self.view self.old).core ≡ false }
        ensures { LosesCallBy call_deleted call (Self.view self.old) (Self.view self.new) };
}
