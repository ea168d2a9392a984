ghost use Rattle.std.specs.Prelude.{◌≡◌, ◌<◌, [], IfNone, IfSome, false, not, true};
ghost use Rattle.machine_data.specs.Maps.{size};
ghost use Rattle.machine_data.specs.Moves.{why_of};
ghost use Rattle.machine_data.specs.Read.{admitted_held, blocked_on, has_waiter, is_nil, is_waiter, place_of, under_of};
ghost use Rattle.machine_data.specs.Write.{arrive, set_place};
ghost use Rattle.machine_data.specs.declared.records.Place.TheVariants as place_of_thread;
ghost use Rattle.machine_rules.specs.Cancels.{cancellable};
ghost use Rattle.machine_rules.specs.Places.{Placed};
ghost use Rattle.machine_rules.specs.Works.{first_number};
ghost use Rattle.core_primitives.specs.Apart.{IsBehindNobody, later_of, newest_of, older_of};
ghost use Rattle.core_primitives.specs.Live.{live_delivered_set};
ghost use Rattle.core_primitives.specs.Names.{number_in, subtask_in};
ghost use Rattle.core_primitives.specs.StateView.{call_of, on_core, set_of, thread_of, thread_if_any, set_if_any};
ghost use Rattle.core_primitives.specs.Changes.{ComesFirst, IsCancellable, IsFirstToCancel, ReleasesHeld, with_place, standing_at, standing_under, with_mark, with_held, with_caller, with_callers, callers_at};

use crate::names::{CallId, OpProgressId, PlaceId, SetId, SubtaskId, ThreadId};
use crate::view::View;
use machine_data::{Mark, Place, Why};

/// Where threads are, and who is behind, under or waiting for whom.
pub trait PlacePrimitives: View {
    /// Returns the thread's place, by the numbers of what that names.
    fn place(&self, thread: ThreadId) -> Option<Place>
        ensures { result ≡ place_of (thread_of (Self.view self.now) thread) (Self.view self.now).core };

    /// Returns why the thread's entry is queued.
    fn why(&self, thread: ThreadId) -> Why
        ensures { result ≡ why_of (thread_of (Self.view self.now) thread) (Self.view self.now).core };

    /// Returns the set that the thread's queued delivery is for.
    fn delivered_set(&self, thread: ThreadId) -> Option<SetId>
        ensures { set_if_any (Self.view self.now) result ≡ live_delivered_set (thread_of (Self.view self.now) thread) (Self.view self.now).core };

    /// Makes the thread, which is about to wait or to be held, the last of all that wait or are held: in version 2 these come first
    /// as they came.
    fn arrive(&mut self, thread: ThreadId)
        ensures { Self.view self.new ≡ on_core (arrive (thread_of (Self.view self.old) thread)) (Self.view self.old) };

    /// Moves the thread to this place; its entry at a mark, if the place has one, is queued by another call.
    fn set_place(&mut self, thread: ThreadId, place: PlaceId)
        ensures { Self.view self.new ≡ with_place thread place (Self.view self.old) };

    /// Moves the thread to this place, and sets the progress of its op.
    fn stand_at(&mut self, thread: ThreadId, place: PlaceId, op_progress: OpProgressId)
        ensures { Self.view self.new ≡ standing_at thread place op_progress (Self.view self.old) };

    /// Lets a thread that is there run: seldom one that was anywhere but at New.
    fn run_first(&mut self, thread: ThreadId)
        requires { 0 < thread_of (Self.view self.old) thread }
        ensures { Self.view self.new ≡ on_core (set_place (thread_of (Self.view self.old) thread) place_of_thread.Running) (Self.view self.old) };

    /// Moves the thread under the thread of a call, and inside that call: nothing is tested of those two.
    fn stand_under(&mut self, thread: ThreadId, callee: ThreadId, call: CallId)
        requires callee { 0 < thread_of (Self.view self.old) callee }
        requires call { 0 < call_of (Self.view self.old) call }
        ensures { Self.view self.new ≡ standing_under thread callee call (Self.view self.old) };

    /// Moves the thread's entry to this mark. Why it is queued stays.
    fn set_mark(&mut self, thread: ThreadId, mark: Mark)
        ensures { Self.view self.new ≡ with_mark thread mark (Self.view self.old) };

    /// Holds the thread with its entry, which was taken.
    fn hold(&mut self, thread: ThreadId)
        ensures { Self.view self.new ≡ with_held thread (Self.view self.old) };

    /// Returns how many threads there are.
    fn threads(&self) -> u64
        ensures { result ≡ size (Self.view self.now).core.threads };

    /// Returns the thread that waits under this one for its direct callee.
    fn under(&self, thread: ThreadId) -> Option<ThreadId>
        requires { 0 < thread_of (Self.view self.now) thread }
        ensures is { thread_if_any (Self.view self.now) result ≡ under_of (thread_of (Self.view self.now) thread) (Self.view self.now).core }
        ensures live { IfSome result (λ id. 0 < thread_of (Self.view self.now) id) };

    /// Returns the thread that is blocked on a subtask.
    fn blocked_on(&self, subtask: SubtaskId) -> Option<ThreadId>
        requires { 0 < number_in (Self.view self.now).tags subtask }
        ensures is { thread_if_any (Self.view self.now) result ≡ blocked_on (subtask_in (Self.view self.now).tags subtask) (Self.view self.now).core }
        ensures live { IfSome result (λ id. 0 < thread_of (Self.view self.now) id) };

    /// Returns the waiter of a set that comes first: the one that is wanted, else in version 1 the least by place, in version 2
    /// the one that came first.
    fn first_waiter(&self, set: SetId) -> Option<ThreadId>
        requires { 0 < set_of (Self.view self.now) set }
        ensures none { IfNone result (has_waiter (set_of (Self.view self.now) set) (Self.view self.now).core ≡ false) }
        ensures some { IfSome result (λ id. is_waiter (set_of (Self.view self.now) set) (thread_of (Self.view self.now) id) (Self.view self.now).core ≡ true) }
        ensures live { IfSome result (λ id. 0 < thread_of (Self.view self.now) id) }
        ensures first { IfSome result (λ id. ComesFirst set id (Self.view self.now)) };

    /// Returns the thread of a call that waits so that a cancel takes it: the one that is wanted, else the least by place.
    fn first_cancellable(&self, call: CallId) -> Option<ThreadId>
        requires { 0 < call_of (Self.view self.now) call }
        ensures none { IfNone result (cancellable (call_of (Self.view self.now) call) (Self.view self.now).core ≡ []) }
        ensures some { IfSome result (λ id. IsCancellable call id (Self.view self.now)) }
        ensures live { IfSome result (λ id. 0 < thread_of (Self.view self.now) id) }
        ensures first { IfSome result (λ id. IsFirstToCancel call id (Self.view self.now)) };

    /// Returns whether some thread is behind this one.
    fn has_callers(&self, thread: ThreadId) -> bool
        ensures { result ≡ not (is_nil (callers_at (Self.view self.now) thread)) };

    /// Puts a thread last among the callers of another one.
    fn add_caller(&mut self, thread: ThreadId, other: ThreadId)
        requires live { 0 < thread_of (Self.view self.old) thread }
        requires other { 0 < thread_of (Self.view self.old) other }
        requires apart { IsBehindNobody (thread_of (Self.view self.old) other) (Self.view self.old).core }
        ensures { Self.view self.new ≡ with_caller thread other (Self.view self.old) };

    /// Takes the oldest caller of a thread.
    fn pop_caller(&mut self, thread: ThreadId) -> Option<ThreadId>
        requires { 0 < thread_of (Self.view self.old) thread }
        ensures is { thread_if_any (Self.view self.old) result ≡ first_number (callers_at (Self.view self.old) thread) }
        ensures live { IfSome result (λ id. 0 < thread_of (Self.view self.old) id) }
        ensures new { Self.view self.new ≡ with_callers thread (later_of (callers_at (Self.view self.old) thread)) (Self.view self.old) };

    /// Takes the newest caller of a thread.
    fn pop_newest_caller(&mut self, thread: ThreadId) -> Option<ThreadId>
        requires { 0 < thread_of (Self.view self.old) thread }
        ensures is { thread_if_any (Self.view self.old) result ≡ newest_of (callers_at (Self.view self.old) thread) }
        ensures live { IfSome result (λ id. 0 < thread_of (Self.view self.old) id) }
        ensures new { Self.view self.new ≡ with_callers thread (older_of (callers_at (Self.view self.old) thread)) (Self.view self.old) };

    /// Returns whether a held thread of the instance is admitted.
    fn has_admitted(&self, instance: u32) -> bool
        ensures { result ≡ not (is_nil (admitted_held instance (Self.view self.now).core)) };

    /// Puts the held threads of the instance that are admitted at high: in the order that is wanted, the others in version 1 by
    /// place, in version 2 as they came.
    fn release(&mut self, instance: u32)
        requires { Placed (Self.view self.old).core }
        ensures { ReleasesHeld instance (Self.view self.old) (Self.view self.new) };
}
