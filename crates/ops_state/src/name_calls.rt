//! The names of threads and of waitables.
ghost use Rattle.std.specs.Prelude.{◌≡◌, ◌<◌, ◌↔◌, IfSome, IsTrue, option_map};
ghost use Rattle.ops_state.specs.Named.{IsLive, IsLiveWaitable, waitable_in};
ghost use Rattle.core_primitives.specs.Names.{subtask_in};
ghost use Rattle.core_primitives.specs.StateView.{thread_of};

use core_primitives::{CallId, Primitives, SubtaskId, ThreadId};
use task_wait::Waitable;

/// A thread and its call.
#[derive(Clone, Copy, PartialEq, Eq, PartialOrd, Ord)]
pub struct QualifiedThreadId {
    pub task: CallId,
    pub thread: ThreadId,
}

/// Returns whether the id names a live thread and its call: the test for the condition on ids.
pub fn is_live<W: Primitives>(w: &W, thread: QualifiedThreadId) -> bool
    ensures { IsTrue result ↔ IsLive (W.view w.now) thread }
{
    let number = w.number(thread.thread);
    number != 0 && w.call_number(w.task_of(thread.thread)) == w.call_number(thread.task)
}

// The thread and its call.
pub(crate) fn qualified<W: Primitives>(w: &W, thread: ThreadId) -> QualifiedThreadId
    requires { 0 < thread_of (W.view w.now) thread }
    ensures thread { result.thread ≡ thread }
    ensures live { IsLive (W.view w.now) result }
{
    QualifiedThreadId {
        task: w.task_of(thread),
        thread,
    }
}

// The waiter and its call.
pub(crate) fn qualified_waiter<W: Primitives>(
    w: &W,
    waiter: Option<ThreadId>,
) -> Option<QualifiedThreadId>
    requires { IfSome waiter (λ id. 0 < thread_of (W.view w.now) id) }
    ensures thread { option_map (λ q. q.thread) result ≡ waiter }
    ensures live { IfSome result (λ q. IsLive (W.view w.now) q) }
{
    match waiter {
        Some(thread) => Some(qualified(w, thread)),
        None => None,
    }
}

// The waitable as a subtask.
pub(crate) fn subtask_of<W: Primitives>(w: &W, waitable: Waitable) -> SubtaskId
    requires { IsLiveWaitable (W.view w.now) waitable }
    ensures { subtask_in (W.view w.now).tags result ≡ waitable_in (W.view w.now).tags waitable }
{
    // only the contract speaks of `w`
    let _w = w;
    match waitable {
        Waitable::Host(work) => SubtaskId::Host(work),
        Waitable::Guest(call) => SubtaskId::Guest(call),
        Waitable::Transmit(_) => unreachable!(),
    }
}
