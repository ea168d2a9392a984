//! Who waits on a set, and its ready members.
ghost use Rattle.core_lists.specs.Listed.{ListsSubtasks, ListsThreads, ready_of};
ghost use Rattle.core_primitives.specs.StateView.{set_of};
ghost use Rattle.core_records.specs.Seen.{IsSoundCore, seen};
ghost use Rattle.laws_choices.specs.Offers.{waiters_of};
ghost use Rattle.std.specs.Prelude.{◌<◌, OnOk};

use crate::chains::{add_calls, add_threads, add_works};
use core_primitives::{SetId, SubtaskId, ThreadId};
use core_records::CoreParts;
use std::alloc::AllocError;

/// Lists the threads that wait on a set.
pub(crate) fn list_waiters(
    parts: &CoreParts,
    set: SetId,
    list: &mut Vec<ThreadId>,
) -> Result<(), AllocError>
    requires sound { IsSoundCore parts.now }
    requires live { 0 < set_of (seen parts.now) set }
    ensures { OnOk result (ListsThreads (seen parts.now) (waiters_of (set_of (seen parts.now) set) (seen parts.now).core) list.new.items) }
{
    list.clear();
    let found = core_records::set_there(parts, set);
    add_threads(parts, found.waiters, list)
}

/// Lists the ready members of a set.
pub(crate) fn list_members(
    parts: &CoreParts,
    set: SetId,
    list: &mut Vec<SubtaskId>,
) -> Result<(), AllocError>
    requires sound { IsSoundCore parts.now }
    requires live { 0 < set_of (seen parts.now) set }
    ensures { OnOk result (ListsSubtasks (seen parts.now) (ready_of (set_of (seen parts.now) set) (seen parts.now).core) list.new.items) }
{
    list.clear();
    let found = core_records::set_there(parts, set);
    add_works(parts, found.ready_works, list)?;
    add_calls(parts, found.ready_calls, list)
}
