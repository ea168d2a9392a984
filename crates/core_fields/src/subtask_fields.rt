ghost use Rattle.std.specs.Prelude.{◌≡◌};
ghost use Rattle.machine_data.specs.Read.{event_of, subtask_ended, subtask_handle};
ghost use Rattle.machine_data.specs.Write.{set_subtask_handle};
ghost use Rattle.core_records.specs.Seen.{IsSoundCore, seen};
ghost use Rattle.core_primitives.specs.Names.{subtask_in};
ghost use Rattle.core_primitives.specs.StateView.{on_core};

use core_primitives::{CallId, SubtaskId, WorkId};
use core_records::CoreParts;
use machine_data::{Stage, Status};

/// Returns the status of a subtask that was not handed out yet, if there is one.
pub fn event(parts: &CoreParts, subtask: SubtaskId) -> Option<Status>
    requires { IsSoundCore parts.now }
    ensures { result ≡ event_of (subtask_in (seen parts.now).tags subtask) (seen parts.now).core }
{
    match subtask {
        SubtaskId::Guest(call) => match core_records::call(parts, call) {
            Some(entry) => entry.call.event,
            None => None,
        },
        SubtaskId::Host(work) => match core_records::work(parts, work) {
            Some(entry) => entry.work.event,
            None => None,
        },
    }
}

/// Returns the handle that names the subtask, if it has one.
pub fn subtask_handle(parts: &CoreParts, subtask: SubtaskId) -> Option<u32>
    requires { IsSoundCore parts.now }
    ensures { result ≡ subtask_handle (subtask_in (seen parts.now).tags subtask) (seen parts.now).core }
{
    match subtask {
        SubtaskId::Guest(call) => match core_records::call(parts, call) {
            Some(entry) => entry.call.handle,
            None => None,
        },
        SubtaskId::Host(work) => match core_records::work(parts, work) {
            Some(entry) => entry.work.handle,
            None => None,
        },
    }
}

/// Returns whether the call or the work has ended.
pub fn has_ended(parts: &CoreParts, subtask: SubtaskId) -> bool
    requires { IsSoundCore parts.now }
    ensures { result ≡ subtask_ended (subtask_in (seen parts.now).tags subtask) (seen parts.now).core }
{
    match subtask {
        SubtaskId::Guest(call) => match core_records::call(parts, call) {
            Some(entry) => entry.call.end.is_some(),
            None => false,
        },
        SubtaskId::Host(work) => match core_records::work(parts, work) {
            Some(entry) => matches!(entry.work.stage, Stage::Ended),
            None => true,
        },
    }
}

fn set_call_handle(parts: &mut CoreParts, call: CallId, handle: Option<u32>)
    requires { IsSoundCore parts.old }
    ensures sound { IsSoundCore parts.new }
    ensures new { seen parts.new ≡ on_core (set_subtask_handle (subtask_in (seen parts.old).tags (SubtaskId.Guest call)) handle) (seen parts.old) }
{
    if let Ok(entry) = parts.calls.get_mut(call) {
        entry.call.handle = handle;
    }
}

fn set_work_handle(parts: &mut CoreParts, work: WorkId, handle: Option<u32>)
    requires { IsSoundCore parts.old }
    ensures sound { IsSoundCore parts.new }
    ensures new { seen parts.new ≡ on_core (set_subtask_handle (subtask_in (seen parts.old).tags (SubtaskId.Host work)) handle) (seen parts.old) }
{
    if let Ok(entry) = parts.works.get_mut(work) {
        entry.work.handle = handle;
    }
}

/// Sets the handle that names the subtask, or removes it.
pub fn set_subtask_handle(parts: &mut CoreParts, subtask: SubtaskId, handle: Option<u32>)
    requires { IsSoundCore parts.old }
    ensures sound { IsSoundCore parts.new }
    ensures new { seen parts.new ≡ on_core (set_subtask_handle (subtask_in (seen parts.old).tags subtask) handle) (seen parts.old) }
{
    match subtask {
        SubtaskId::Guest(call) => set_call_handle(parts, call, handle),
        SubtaskId::Host(work) => set_work_handle(parts, work, handle),
    }
}
