ghost use Rattle.std.specs.Prelude.{◌≡◌, ◌+◌, ◌<◌, ◌^◌, None, OnOk, false, is_some, option_map, true};
ghost use Rattle.machine_data.specs.Read.{at_handle_limit, course_of, fits, instance_of, is_stage_live, new_handle, phase_of, stage_of, was_cancelled};
ghost use Rattle.machine_data.specs.Write.{count_work, set_cancelled, set_course, set_phase, set_stage};
ghost use Rattle.machine_data.specs.declared.component.HostDef.{HostDef as Left};
ghost use Rattle.machine_data.specs.declared.records.WorkCaller.TheVariants as work_callers;
ghost use Rattle.machine_rules.specs.Calls.{work_deleted, work_queued};
ghost use Rattle.machine_rules.specs.Works.{has_live_work, has_moving_work, next_polled, poll_of};
ghost use Rattle.core_primitives.specs.Groups.{tracked_work_group};
ghost use Rattle.core_primitives.specs.Apart.{work_entries};
ghost use Rattle.core_primitives.specs.Names.{work_caller_in};
ghost use Rattle.core_primitives.specs.Polls.{PendsWith};
ghost use Rattle.core_primitives.specs.StateView.{on_core, thread_of, work_of};
ghost use Rattle.core_primitives.specs.Live.{live_work_caller_of};
ghost use Rattle.core_primitives.specs.Changes.{CountsPoll};
ghost use Rattle.core_primitives.specs.Records.{MakesWork, sync_work, async_work, LosesWorkBy};

use crate::names::{ThreadId, WorkCallerId, WorkId};
use crate::view::View;
use machine_data::{Course, HostDef, NoMemory, Phase, Stage};

/// The records of host works.
pub trait WorkPrimitives: View {
    /// Returns the number of a work; 0 if the id names none.
    fn work_number(&self, work: WorkId) -> u64
        ensures { result ≡ work_of (Self.view self.now) work };

    /// Returns how the work goes on, with the polls that are left and its end, or how it has ended.
    fn course(&self, work: WorkId) -> Course
        ensures { result ≡ course_of (work_of (Self.view self.now) work) (Self.view self.now).core };

    /// Returns the phase of the work's join handle.
    fn phase(&self, work: WorkId) -> Phase
        ensures { result ≡ phase_of (work_of (Self.view self.now) work) (Self.view self.now).core };

    /// Returns who has made the work: a spawn, or a thread, whose id names nothing if it is gone.
    fn work_caller(&self, work: WorkId) -> WorkCallerId
        ensures { work_caller_in (Self.view self.now).tags result ≡ live_work_caller_of (work_of (Self.view self.now) work) (Self.view self.now).core };

    /// Returns the number of the work's group, if it is a call, as long as that group is tracked.
    fn work_group(&self, work: WorkId) -> Option<u64>
        ensures { result ≡ tracked_work_group (work_of (Self.view self.now) work) (Self.view self.now) };

    /// Returns whether the work was cancelled by its caller.
    fn was_cancelled(&self, work: WorkId) -> bool
        ensures { result ≡ was_cancelled (work_of (Self.view self.now) work) (Self.view self.now).core };

    /// Returns the live work that is polled next, where those with numbers up to this one were.
    fn next_polled(&self, polled: u64) -> Option<WorkId>
        ensures { option_map (λ id. work_of (Self.view self.now) id) result ≡ next_polled polled (Self.view self.now).core };

    /// Returns whether a work is live, so that the loop polls it.
    fn has_live_work(&self) -> bool
        ensures { result ≡ has_live_work (Self.view self.now).core };

    /// Returns whether some live work is polled to no end.
    fn has_moving_work(&self) -> bool
        ensures { result ≡ has_moving_work (Self.view self.now).core };

    /// Sets how the work goes on, or how it has ended.
    fn set_course(&mut self, work: WorkId, course: Course)
        ensures { Self.view self.new ≡ on_core (set_course (work_of (Self.view self.old) work) course) (Self.view self.old) };

    /// Sets the phase of the work's join handle.
    fn set_phase(&mut self, work: WorkId, phase: Phase)
        ensures { Self.view self.new ≡ on_core (set_phase (work_of (Self.view self.old) work) phase) (Self.view self.old) };

    /// Sets the work's stage: at its first poll, queued, live, finishing or ended.
    fn set_stage(&mut self, work: WorkId, stage: Stage)
        ensures { Self.view self.new ≡ on_core (set_stage (work_of (Self.view self.old) work) stage) (Self.view self.old) };

    /// Counts a poll at which a live work was pending: one poll fewer is left of it, or it is never to end or open, as before.
    /// Answers whether a live work comes after it.
    fn count_poll(&mut self, work: WorkId) -> bool
        requires live { is_stage_live (stage_of (work_of (Self.view self.old) work) (Self.view self.old).core) ≡ true }
        requires pends { (left : Left) × PendsWith left (poll_of (work_of (Self.view self.old) work) (Self.view self.old).core) }
        ensures new { CountsPoll work (Self.view self.old) (Self.view self.new) }
        ensures more { result ≡ is_some (next_polled (work_of (Self.view self.old) work) (Self.view self.new).core) };

    /// Records that the work was cancelled by its caller.
    fn set_cancelled(&mut self, work: WorkId)
        ensures { Self.view self.new ≡ on_core (set_cancelled (work_of (Self.view self.old) work)) (Self.view self.old) };

    /// Counts the work of a host that was ready at its first poll: it has its number, and no record.
    fn count_work(&mut self)
        requires { (Self.view self.old).core.made.works + 1 < 2 ^ 64 }
        ensures { Self.view self.new ≡ on_core count_work (Self.view self.old) };

    /// Makes a spawned work, and its push. If it is out of memory, all is as before.
    fn queue_spawn(&mut self, host: HostDef) -> Result<WorkId, NoMemory>
        requires { (Self.view self.old).core.made.works + 1 < 2 ^ 64 }
        ensures { MakesWork (work_queued work_callers.Spawn host None) (Self.view self.old) result (Self.view self.new) };

    /// Makes the work of a thread's `call_sync`, in the thread's group, and its push. If it is out of memory, all is as before.
    fn queue_sync_call(&mut self, thread: ThreadId, host: HostDef) -> Result<WorkId, NoMemory>
        requires live { 0 < thread_of (Self.view self.old) thread }
        requires few { (Self.view self.old).core.made.works + 1 < 2 ^ 64 }
        requires room { fits 1 (Self.view self.old).core ≡ true }
        ensures { MakesWork (sync_work (thread_of (Self.view self.old) thread) host) (Self.view self.old) result (Self.view self.new) };

    /// Makes the work of a thread's `call`, in the thread's group, with its push, and gives it a handle in the thread's instance.
    /// If it is out of memory, all is as before.
    fn queue_call(
        &mut self,
        thread: ThreadId,
        register: u8,
        host: HostDef,
    ) -> Result<WorkId, NoMemory>
        requires live { 0 < thread_of (Self.view self.old) thread }
        requires few { (Self.view self.old).core.made.works + 1 < 2 ^ 64 }
        requires room { fits 1 (Self.view self.old).core ≡ true }
        requires limit { at_handle_limit (Self.view self.old).core ≡ false }
        ensures new { MakesWork (async_work (thread_of (Self.view self.old) thread) register host) (Self.view self.old) result (Self.view self.new) }
        ensures small { OnOk result (new_handle (instance_of (thread_of (Self.view self.old) thread) (Self.view self.old).core) (Self.view self.old).core < 2 ^ 28) };

    /// Deletes a work, and finishes its group if nothing of the group is left.
    fn delete_work(&mut self, work: WorkId)
        requires live { 0 < work_of (Self.view self.old) work }
        requires unqueued { work_entries (work_of (Self.view self.old) work) (Self.view self.old).core.queues.high ≡ 0 }
        ensures { LosesWorkBy work_deleted work (Self.view self.old) (Self.view self.new) };
}
