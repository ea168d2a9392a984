//! A thread that is under another, and the one on top of it.
ghost use Rattle.std.specs.Prelude.{◌≡◌, ◌<◌};
ghost use Rattle.machine_data.specs.Write.{set_place};
ghost use Rattle.machine_data.specs.declared.records.Place.TheVariants as places;
ghost use Rattle.core_records.specs.Seen.{IsSoundCore, seen};
ghost use Rattle.core_primitives.specs.StateView.{call_of, on_core, thread_of};
ghost use Rattle.core_primitives.specs.Changes.{standing_under};

use crate::moves::{put, put_stand};
use core_primitives::{CallId, ThreadId};
use core_records::CoreParts;
use machine_data::{OpProgress, Place, Subtask};

/// Lets a thread that is there run: seldom one that was anywhere but at New.
#[inline(always)]
pub fn run_first(parts: &mut CoreParts, thread: ThreadId)
    requires sound { IsSoundCore parts.old }
    requires live { 0 < thread_of (seen parts.old) thread }
    ensures sound { IsSoundCore parts.new }
    ensures new { seen parts.new ≡ on_core (set_place (thread_of (seen parts.old) thread) places.Running) (seen parts.old) }
{
    put(parts, thread, Place::Running, 0, None);
}

/// Moves the thread under the thread of a call, and inside that call: nothing is tested of those two.
#[inline(always)]
pub fn stand_under(parts: &mut CoreParts, thread: ThreadId, callee: ThreadId, call: CallId)
    requires sound { IsSoundCore parts.old }
    requires callee { 0 < thread_of (seen parts.old) callee }
    requires call { 0 < call_of (seen parts.old) call }
    ensures sound { IsSoundCore parts.new }
    ensures new { seen parts.new ≡ standing_under thread callee call (seen parts.old) }
{
    let top = core_records::thread_there(parts, callee);
    let place = Place::Under { callee: top.number };
    let chain = Some(top.under);
    let called = core_records::call_there(parts, call).number;
    let subtask = Subtask::Guest { call: called };
    let op_progress = OpProgress::Calls { subtask };
    put_stand(
        parts,
        thread,
        place,
        callee.rep(),
        op_progress,
        call.rep(),
        chain,
    );
}
