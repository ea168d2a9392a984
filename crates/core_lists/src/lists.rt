//! The lists of a core.
ghost use Rattle.core_lists.specs.Listed.{ListsSubtasks, ListsThreads, ready_of};
ghost use Rattle.core_primitives.specs.StateView.{call_of, set_of};
ghost use Rattle.laws_choices.specs.Offers.{waiters_of};
ghost use Rattle.machine_data.specs.Read.{is_nil};
ghost use Rattle.machine_rules.specs.Cancels.{cancellable};
ghost use Rattle.machine_rules.specs.Ends.{held_by_flag};
ghost use Rattle.machine_rules.specs.Task.{held_by_counter};
ghost use Rattle.std.specs.Prelude.{◌<◌, ◌≡◌, OnOk, not};

use crate::cancels::list_cancellable;
use crate::held::{list_by_counter, list_by_flag, some_by_flag};
use crate::members::{list_members, list_waiters};
use core_primitives::{CallId, SetId, SubtaskId, ThreadId};
use core_state::TaskCore;
use std::alloc::AllocError;

/// Lists the threads that wait on a set, in place of what the list had.
pub fn waiters(core: &TaskCore, set: SetId, list: &mut Vec<ThreadId>) -> Result<(), AllocError>
    requires { 0 < set_of core.now set }
    ensures { OnOk result (ListsThreads core.now (waiters_of (set_of core.now set) core.now.core) list.new.items) }
{
    list_waiters(core.parts(), set, list)
}

/// Lists the ready members of a set, in place of what the list had.
pub fn ready_members(
    core: &TaskCore,
    set: SetId,
    list: &mut Vec<SubtaskId>,
) -> Result<(), AllocError>
    requires { 0 < set_of core.now set }
    ensures { OnOk result (ListsSubtasks core.now (ready_of (set_of core.now set) core.now.core) list.new.items) }
{
    list_members(core.parts(), set, list)
}

/// Lists the threads of a call that wait so that a cancel may take them, in place of what the list had.
pub fn cancellable(
    core: &TaskCore,
    call: CallId,
    list: &mut Vec<ThreadId>,
) -> Result<(), AllocError>
    requires { 0 < call_of core.now call }
    ensures { OnOk result (ListsThreads core.now (cancellable (call_of core.now call) core.now.core) list.new.items) }
{
    list_cancellable(core.parts(), call, list)
}

/// Lists the held threads of the instance that are admitted once its flag is clear, in place of what the list had.
pub fn held_by_flag(
    core: &TaskCore,
    instance: u32,
    list: &mut Vec<ThreadId>,
) -> Result<(), AllocError>
    ensures { OnOk result (ListsThreads core.now (held_by_flag instance core.now.core) list.new.items) }
{
    list_by_flag(core.parts(), instance, list)
}

/// Returns whether a held thread of the instance is admitted once its flag is clear.
pub fn some_held_by_flag(core: &TaskCore, instance: u32) -> bool
    ensures { result ≡ not (is_nil (held_by_flag instance core.now.core)) }
{
    some_by_flag(core.parts(), instance)
}

/// Lists the held threads of the instance that are admitted once its backpressure is gone, in place of what the list had.
pub fn held_by_counter(
    core: &TaskCore,
    instance: u32,
    list: &mut Vec<ThreadId>,
) -> Result<(), AllocError>
    ensures { OnOk result (ListsThreads core.now (held_by_counter instance core.now.core) list.new.items) }
{
    list_by_counter(core.parts(), instance, list)
}
