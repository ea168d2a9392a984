ghost use Rattle.std.specs.Prelude.{◌≡◌, ◌&&◌, ◌<◌, not};
ghost use Rattle.machine_data.specs.Moves.{is_deletable, is_deletable_call};
ghost use Rattle.machine_data.specs.Maps.{size};
ghost use Rattle.machine_data.specs.Read.{has_member, has_thread, has_waiters, is_last_thread, undelivered_end};
ghost use Rattle.core_records.specs.Seen.{IsSoundCore, seen};
ghost use Rattle.core_primitives.specs.StateView.{call_of, set_of, thread_of};

use core_primitives::{CallId, SetId, ThreadId};
use core_records::{CoreParts, task_of};
use machine_data::{Call, Status};

/// Returns how many threads there are.
pub fn threads(parts: &CoreParts) -> u64
    requires { IsSoundCore parts.now }
    ensures { result ≡ size (seen parts.now).core.threads }
{
    parts.threads.len() as u64
}

// Whether some thread of the call is left.
fn has_thread(parts: &CoreParts, call: CallId) -> bool
    requires { IsSoundCore parts.now }
    ensures { result ≡ has_thread (call_of (seen parts.now) call) (seen parts.now).core }
{
    match core_records::call(parts, call) {
        Some(entry) => 0 < entry.threads,
        None => false,
    }
}

// An end that wasn't handed out.
fn undelivered_end(event: Option<Status>) -> Option<Status>
    ensures { result ≡ undelivered_end event }
{
    match event {
        Some(Status::Starting) => None,
        Some(Status::Started) => None,
        other => other,
    }
}

fn is_deletable_call(call: &Call) -> bool
    ensures { result ≡ is_deletable_call call.now }
{
    call.handle.is_none() && undelivered_end(call.event).is_none() && call.result.is_none()
}

// The one, and not the other.
fn both(one: bool, other: bool) -> bool
    ensures { result ≡ (one && not other) }
{
    one && !other
}

/// Returns whether nothing keeps the call.
pub fn is_deletable(parts: &CoreParts, call: CallId) -> bool
    requires { IsSoundCore parts.now }
    ensures { result ≡ is_deletable (call_of (seen parts.now) call) (seen parts.now).core }
{
    let has_thread = has_thread(parts, call);
    match core_records::call(parts, call) {
        Some(entry) => both(is_deletable_call(&entry.call), has_thread),
        None => false,
    }
}

/// Returns the number of a set; 0 if the id names none.
pub fn set_number(parts: &CoreParts, set: SetId) -> u64
    requires { IsSoundCore parts.now }
    ensures { result ≡ set_of (seen parts.now) set }
{
    match core_records::set(parts, set) {
        Some(entry) => entry.number,
        None => 0,
    }
}

/// Returns whether a call or a host work is in the set.
pub fn has_member(parts: &CoreParts, set: SetId) -> bool
    requires sound { IsSoundCore parts.now }
    requires live { 0 < set_of (seen parts.now) set }
    ensures { result ≡ has_member (set_of (seen parts.now) set) (seen parts.now).core }
{
    0 < core_records::set_there(parts, set).members
}

/// Returns whether a thread waits on the set or has an entry for it.
pub fn has_waiters(parts: &CoreParts, set: SetId) -> bool
    requires sound { IsSoundCore parts.now }
    requires live { 0 < set_of (seen parts.now) set }
    ensures { result ≡ has_waiters (set_of (seen parts.now) set) (seen parts.now).core }
{
    0 < core_records::set_there(parts, set).entries
}

/// Returns whether it is the only thread of its call.
pub fn is_last_thread(parts: &CoreParts, thread: ThreadId) -> bool
    requires { IsSoundCore parts.now }
    ensures { result ≡ is_last_thread (thread_of (seen parts.now) thread) (seen parts.now).core }
{
    let call = task_of(parts, thread);
    match core_records::thread(parts, thread) {
        Some(_) => core_records::call_there(parts, call).threads <= 1,
        None => true,
    }
}
