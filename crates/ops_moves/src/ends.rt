//! The end of a thread.
ghost use Rattle.std.specs.Prelude.{◌≡◌, ◌<◌};
ghost use Rattle.machine_data.specs.Moves.{exited_if};
ghost use Rattle.machine_data.specs.Read.{is_explicit, task_of};
ghost use Rattle.ops_moves.specs.Gone.{HasEnded};
ghost use Rattle.core_primitives.specs.Apart.{IsApart};
ghost use Rattle.core_primitives.specs.StateView.{call_of, on_core, thread_of};

use crate::settle::{settle_call, settle_interest};
use core_primitives::{CallId, Primitives, ThreadId};

// Where the thread is the first of the call, which is there, the task has exited.
fn exit_there<W: Primitives>(w: &mut W, explicit: bool, call: CallId)
    requires { 0 < call_of (W.view w.old) call }
    ensures { W.view w.new ≡ on_core (exited_if explicit (call_of (W.view w.old) call)) (W.view w.old) }
{
    if !explicit {
        w.set_exited_unchecked(call);
    }
}

/// Removes the thread of this call, frees its handle, and does what that settles.
#[inline(always)]
pub fn end_thread_in<W: Primitives>(w: &mut W, thread: ThreadId, call: CallId)
    requires live { 0 < thread_of (W.view w.old) thread }
    requires named { 0 < call_of (W.view w.old) call }
    requires call { call_of (W.view w.old) call ≡ task_of (thread_of (W.view w.old) thread) (W.view w.old).core }
    requires apart { IsApart (thread_of (W.view w.old) thread) (W.view w.old).core }
    ensures { HasEnded (thread_of (W.view w.old) thread) (W.view w.old) (W.view w.new) }
{
    let explicit = w.is_explicit(thread);
    end_known_in(w, thread, call, explicit);
}

/// Does what `end_thread_in` does, where it is known whether the thread isn't the first of the call.
#[inline(always)]
pub fn end_known_in<W: Primitives>(w: &mut W, thread: ThreadId, call: CallId, explicit: bool)
    requires live { 0 < thread_of (W.view w.old) thread }
    requires named { 0 < call_of (W.view w.old) call }
    requires call { call_of (W.view w.old) call ≡ task_of (thread_of (W.view w.old) thread) (W.view w.old).core }
    requires apart { IsApart (thread_of (W.view w.old) thread) (W.view w.old).core }
    requires known { explicit ≡ is_explicit (thread_of (W.view w.old) thread) (W.view w.old).core }
    ensures { HasEnded (thread_of (W.view w.old) thread) (W.view w.old) (W.view w.new) }
{
    exit_there(w, explicit, call);
    w.retire_thread(thread);
    settle_interest(w, call);
    settle_call(w, call);
}

/// Removes the thread, frees its handle, and does what that settles.
#[inline(always)]
pub fn end_thread<W: Primitives>(w: &mut W, thread: ThreadId)
    requires live { 0 < thread_of (W.view w.old) thread }
    requires apart { IsApart (thread_of (W.view w.old) thread) (W.view w.old).core }
    ensures { HasEnded (thread_of (W.view w.old) thread) (W.view w.old) (W.view w.new) }
{
    let call = w.task_of(thread);
    end_thread_in(w, thread, call);
}
