ghost use Rattle.std.specs.Prelude.{◌≡◌};
ghost use Rattle.task_store.specs.HeldBorrows.{cancel_holds_borrows, exit_holds_borrows, holds_borrows, return_holds_borrows};
ghost use Rattle.core_primitives.specs.StateView.{call_of, thread_of};

use core_primitives::{CallId, CallPrimitives, ThreadId, ThreadPrimitives};
use core_state::{Scope, TaskCore};
use machine_data::ExportKind;
use ops_moves::passes_check;

// Whether the call holds borrows.
fn holds_borrows(core: &TaskCore, call: CallId) -> bool
    ensures { result ≡ holds_borrows (call_of core.now call) core.now.core }
{
    match core.call_context(Scope::Id(call)) {
        Some(context) => context.borrows > 0,
        None => false,
    }
}

/// Returns whether the thread's task still holds borrows and would end by a return, of its own type or not: neither trap 1 nor
/// trap 3 comes before that.
pub fn return_holds_borrows(core: &TaskCore, thread: ThreadId, own_type: bool) -> bool
    ensures { result ≡ return_holds_borrows (thread_of core.now thread) own_type core.now.core }
{
    let call = core.task_of(thread);
    if !own_type || core.end_of(call).is_some() {
        return false;
    }
    let lifted = matches!(core.kind(call), ExportKind::Stackful | ExportKind::Callback);
    lifted && holds_borrows(core, call)
}

/// Returns whether it still holds borrows and would end by its answer to a cancel: neither trap 2 nor trap 1 comes before.
pub fn cancel_holds_borrows(core: &TaskCore, thread: ThreadId) -> bool
    ensures { result ≡ cancel_holds_borrows (thread_of core.now thread) core.now.core }
{
    let call = core.task_of(thread);
    if !core.cancel_was_delivered(call) || core.end_of(call).is_some() {
        return false;
    }
    holds_borrows(core, call)
}

/// Returns whether the direct call whose first thread it is still holds borrows and would end by its exit: trap 9 isn't before
/// that.
pub fn exit_holds_borrows(core: &TaskCore, thread: ThreadId) -> bool
    ensures { result ≡ exit_holds_borrows (thread_of core.now thread) core.now.core }
{
    let call = core.task_of(thread);
    let ends = matches!(core.kind(call), ExportKind::Sync)
        || passes_check(core, core.instance_of(thread));
    ends && holds_borrows(core, call)
}
