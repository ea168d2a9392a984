//! Another thread goes on, as the running one says.
ghost use Rattle.std.specs.Prelude.{◌≡◌, IfSome};
ghost use Rattle.ops_calls.specs.HostOps.{IsRunningIn};
ghost use Rattle.ops_calls.specs.Resumes.{Resumed, came_later, or_refused, resumed_by};
ghost use Rattle.ops_turns.specs.Turn.{running_of};

use crate::host_ops::leave;
use crate::intrinsics::ResumeThread;
use core_primitives::Primitives;
use machine_data::{Component, Trap};
use ops_guests::{OpResult, promote_first, resume_first, resume_later};
use ops_state::TaskError;

// A trap is why a call is refused.
fn or_refused(first: Result<bool, Trap>) -> Result<bool, TaskError>
    ensures { result ≡ or_refused first }
{
    match first {
        Ok(goes) => Ok(goes),
        Err(trap) => Err(TaskError::Trap(trap)),
    }
}

// What `resume_later` resulted in.
fn came_later(op_result: OpResult) -> Result<bool, Trap>
    ensures { result ≡ came_later op_result }
{
    match op_result {
        OpResult::Traps(trap) => Err(trap),
        _ => Ok(true),
    }
}

/// Lets the thread that the handle names go on: next, where it has yielded or where it is suspended or wasn't started; or later, by
/// a low entry, and the op is done. Answers false exactly where one that is to be promoted hasn't yielded, and nothing is changed
/// then. Refused with trap 16 if the handle names no thread of the instance, and with trap 11 if that is the running thread, or one
/// that isn't to be promoted and is neither suspended nor unstarted; nothing is changed then.
pub fn resume_thread<W: Primitives>(
    component: &Component,
    w: &mut W,
    handle: u32,
    how: ResumeThread,
) -> Result<bool, TaskError>
    requires running { IsRunningIn component.now (W.view w.old) }
    ensures resumed { IfSome (running_of (W.view w.old)) (λ n. Resumed (resumed_by how n handle (W.view w.old).core) (W.view w.old) result (W.view w.new)) }
{
    // only the contract speaks of `component`
    let _component = component;
    w.none_is_zero();
    let Some(thread) = w.current() else {
        unreachable!()
    };
    let handle = u64::from(handle);
    match how {
        ResumeThread::Promote => or_refused(promote_first(w, thread, handle)),
        ResumeThread::Resume => or_refused(resume_first(w, thread, handle)),
        ResumeThread::ResumeLater => {
            let op_result = resume_later(w, thread, handle);
            leave(w, thread, op_result);
            or_refused(came_later(op_result))
        }
    }
}
