//! Whom a cancel of a call may take.
ghost use Rattle.core_lists.specs.Listed.{AddsThreads, ListsThreads};
ghost use Rattle.core_primitives.specs.StateView.{call_of};
ghost use Rattle.core_records.specs.Seen.{IsSoundCore, seen};
ghost use Rattle.machine_data.specs.Moves.{waits_cancellable};
ghost use Rattle.machine_rules.specs.Cancels.{cancellable};
ghost use Rattle.std.specs.Prelude.{◌<◌, ◌≡◌, OnOk, false};

use crate::chains::add_waiting;
use core_primitives::{CallId, ThreadId};
use core_records::CoreParts;
use std::alloc::AllocError;

// Adds the only thread of a call that a cancel may take to a list, where its waiting threads aren't kept in a list of their own.
fn add_only(parts: &CoreParts, call: CallId, list: &mut Vec<ThreadId>) -> Result<(), AllocError>
    requires sound { IsSoundCore parts.now }
    requires live { 0 < call_of (seen parts.now) call }
    requires only { waits_cancellable (call_of (seen parts.now) call) (seen parts.now).core ≡ false }
    ensures { OnOk result (AddsThreads (seen parts.now)
        (cancellable (call_of (seen parts.now) call) (seen parts.now).core) list.old.items list.new.items) }
{
    match core_picks::first_cancellable(parts, call) {
        Some(thread) => {
            list.push(thread)?;
            Ok(())
        }
        None => Ok(()),
    }
}

/// Lists the threads of a call that wait so that a cancel may take them.
pub(crate) fn list_cancellable(
    parts: &CoreParts,
    call: CallId,
    list: &mut Vec<ThreadId>,
) -> Result<(), AllocError>
    requires sound { IsSoundCore parts.now }
    requires live { 0 < call_of (seen parts.now) call }
    ensures { OnOk result (ListsThreads (seen parts.now)
        (cancellable (call_of (seen parts.now) call) (seen parts.now).core) list.new.items) }
{
    list.clear();
    match core_records::call_there(parts, call).waits {
        Some(chain) => add_waiting(parts, chain, list),
        None => add_only(parts, call, list),
    }
}
