//! `exit`, and a script's end, by what the thread is.
ghost use Rattle.std.specs.Prelude.{◌≡◌};
ghost use Rattle.ops_dispatch.specs.Continues.{DoesOp};
ghost use Rattle.ops_dispatch.specs.Rules.{exits, exits_by_kind};
ghost use Rattle.ops_dispatch.specs.Runner.{Runner};
ghost use Rattle.machine_data.specs.Read.{task_of};
ghost use Rattle.ops_guests.specs.Works.{KeepsTold};
ghost use Rattle.core_primitives.specs.StateView.{call_of, thread_of};

use core_primitives::{CallId, Primitives, ThreadId};
use machine_data::{ExportKind, Goal, Label, TaskLabel};
use ops_guests::{OpResult, end_activation, exit_blocking, exit_direct, exit_sync, exit_thread};

// The exit of the first thread of this call, which isn't direct, by the kind of its export.
#[inline(always)]
fn exit_by_kind<W: Primitives>(w: &mut W, thread: ThreadId, call: CallId) -> OpResult
    requires runner { Runner thread (W.view w.old) }
    requires call { call_of (W.view w.old) call ≡ task_of (thread_of (W.view w.old) thread) (W.view w.old).core }
    ensures does { DoesOp KeepsTold exits_by_kind thread (W.view w.old) result (W.view w.new) }
{
    match w.kind(call) {
        ExportKind::Sync => exit_sync(w, thread),
        ExportKind::Blocking => exit_blocking(w, thread),
        ExportKind::Stackful => exit_thread(w, thread),
        ExportKind::Callback => {
            let label = Label::Task(TaskLabel::Exit(w.number_unchecked(thread)));
            end_activation(w, thread, label, 0)
        }
    }
}

/// Has the thread exit.
#[inline(always)]
pub fn exit<W: Primitives>(w: &mut W, thread: ThreadId) -> OpResult
    requires runner { Runner thread (W.view w.old) }
    ensures does { DoesOp KeepsTold exits thread (W.view w.old) result (W.view w.new) }
{
    if w.explicit_unchecked(thread) {
        return exit_thread(w, thread);
    }
    let call = w.task_unchecked(thread);
    if matches!(w.goal_unchecked(call), Goal::Direct) {
        return exit_direct(w, thread, call);
    }
    exit_by_kind(w, thread, call)
}
