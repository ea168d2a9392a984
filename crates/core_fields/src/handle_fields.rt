ghost use Rattle.std.specs.Prelude.{◌<◌, ◌^◌, ◌≡◌, IfSome, option_map};
ghost use Rattle.machine_data.specs.Read.{new_handle, new_thread_handle};
ghost use Rattle.core_records.specs.Seen.{IsSoundCore, seen};
ghost use Rattle.core_primitives.specs.Names.{subtask_in};
ghost use Rattle.core_primitives.specs.StateView.{thread_if_any, set_if_any};
ghost use Rattle.core_primitives.specs.Live.{live_subtask_at, live_set_at, live_thread_at};

use core_primitives::{SetId, SubtaskId, ThreadId};
use core_records::{CoreParts, call_id_at, set_id_at, thread_id_at, work_id_at};
use task_handles::{HandleKind, WaitableKind};

/// Returns the subtask that a handle names.
pub fn subtask_at(parts: &CoreParts, instance: u32, handle: u64) -> Option<SubtaskId>
    requires { IsSoundCore parts.now }
    ensures is { option_map (subtask_in (seen parts.now).tags) result ≡ live_subtask_at instance handle (seen parts.now).core }
    ensures small { IfSome result (λ id. handle < 2 ^ 32) }
{
    match core_records::held(parts, instance, handle) {
        Some(held) => match held.kind {
            HandleKind::Waitable(WaitableKind::GuestSubtask) => Some(SubtaskId::Guest(call_id_at(
                parts,
                held.rep.id,
                held.rep.serial,
            ))),
            HandleKind::Waitable(WaitableKind::HostSubtask) => Some(SubtaskId::Host(work_id_at(
                parts,
                held.rep.id,
                held.rep.serial,
            ))),
            HandleKind::Waitable(WaitableKind::Stream | WaitableKind::Future) => None,
            HandleKind::Set => None,
        },
        None => None,
    }
}

/// Returns the set that a handle names.
pub fn set_at(parts: &CoreParts, instance: u32, handle: u64) -> Option<SetId>
    requires { IsSoundCore parts.now }
    ensures is { set_if_any (seen parts.now) result ≡ live_set_at instance handle (seen parts.now).core }
    ensures small { IfSome result (λ id. handle < 2 ^ 32) }
{
    match core_records::held(parts, instance, handle) {
        Some(held) => match held.kind {
            HandleKind::Waitable(WaitableKind::GuestSubtask | WaitableKind::HostSubtask) => None,
            HandleKind::Waitable(WaitableKind::Stream | WaitableKind::Future) => unreachable!(),
            HandleKind::Set => Some(set_id_at(parts, held.rep.id, held.rep.serial)),
        },
        None => None,
    }
}

/// Returns the thread that a thread handle names.
pub fn thread_at(parts: &CoreParts, instance: u32, handle: u64) -> Option<ThreadId>
    requires { IsSoundCore parts.now }
    ensures { thread_if_any (seen parts.now) result ≡ live_thread_at instance handle (seen parts.now).core }
{
    match core_records::held_thread(parts, instance, handle) {
        Some(rep) => Some(thread_id_at(parts, rep.id, rep.serial)),
        None => None,
    }
}

/// Returns the handle that the instance gives next.
pub fn new_handle(parts: &CoreParts, instance: u32) -> u32
    ensures { result ≡ new_handle instance (seen parts.now).core }
{
    match core_records::instance(parts, instance) {
        Some(entry) => entry.handles.next_handle(),
        None => 1,
    }
}

/// Returns the thread handle that the instance gives next.
pub fn new_thread_handle(parts: &CoreParts, instance: u32) -> u32
    ensures { result ≡ new_thread_handle instance (seen parts.now).core }
{
    match core_records::instance(parts, instance) {
        Some(entry) => entry.thread_handles.next_handle(),
        None => 1,
    }
}
