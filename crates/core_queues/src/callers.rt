//! Who is behind whom.
ghost use Rattle.std.specs.Prelude.{◌≡◌, ◌<◌, IfSome, not};
ghost use Rattle.machine_data.specs.Read.{is_nil};
ghost use Rattle.core_records.specs.Seen.{IsSoundCore, seen};
ghost use Rattle.machine_rules.specs.Works.{first_number};
ghost use Rattle.core_primitives.specs.Apart.{IsBehindNobody, later_of, newest_of, older_of};
ghost use Rattle.core_primitives.specs.StateView.{thread_of, thread_if_any};
ghost use Rattle.core_primitives.specs.Changes.{with_caller, with_callers, callers_at};

use crate::order_keys::live_thread;
use core_primitives::ThreadId;
use core_records::{CoreParts, Follower, thread_at};

/// Returns whether some thread is behind this one.
pub fn has_callers(parts: &CoreParts, thread: ThreadId) -> bool
    requires { IsSoundCore parts.now }
    ensures { result ≡ not (is_nil (callers_at (seen parts.now) thread)) }
{
    match core_records::thread(parts, thread) {
        Some(found) => parts.behind.first(found.callers).is_some(),
        None => false,
    }
}

/// Puts a thread last among the callers of another one.
pub fn add_caller(parts: &mut CoreParts, thread: ThreadId, other: ThreadId)
    requires sound { IsSoundCore parts.old }
    requires live { 0 < thread_of (seen parts.old) thread }
    requires other { 0 < thread_of (seen parts.old) other }
    requires apart { IsBehindNobody (thread_of (seen parts.old) other) (seen parts.old).core }
    ensures sound { IsSoundCore parts.new }
    ensures new { seen parts.new ≡ with_caller thread other (seen parts.old) }
{
    let found = live_thread(parts, thread);
    let caller = live_thread(parts, other);
    let follower = Follower {
        number: caller.number,
        place: other.rep(),
        node: caller.caller,
    };
    parts.behind.no_node_is_twice();
    parts
        .behind
        .push_back(found.callers, follower.node, follower);
}

/// Takes the oldest caller of a thread.
pub fn pop_caller(parts: &mut CoreParts, thread: ThreadId) -> Option<ThreadId>
    requires sound { IsSoundCore parts.old }
    requires live { 0 < thread_of (seen parts.old) thread }
    ensures sound { IsSoundCore parts.new }
    ensures is { thread_if_any (seen parts.old) result ≡ first_number (callers_at (seen parts.old) thread) }
    ensures live { IfSome result (λ id. 0 < thread_of (seen parts.old) id) }
    ensures new { seen parts.new ≡ with_callers thread (later_of (callers_at (seen parts.old) thread)) (seen parts.old) }
{
    let found = live_thread(parts, thread);
    match parts.behind.first(found.callers) {
        Some((_, caller)) => {
            let id = thread_at(parts, caller.place);
            parts.behind.no_node_is_twice();
            parts.behind.remove(caller.node);
            Some(id)
        }
        None => None,
    }
}

/// Takes the newest caller of a thread.
pub fn pop_newest_caller(parts: &mut CoreParts, thread: ThreadId) -> Option<ThreadId>
    requires sound { IsSoundCore parts.old }
    requires live { 0 < thread_of (seen parts.old) thread }
    ensures sound { IsSoundCore parts.new }
    ensures is { thread_if_any (seen parts.old) result ≡ newest_of (callers_at (seen parts.old) thread) }
    ensures live { IfSome result (λ id. 0 < thread_of (seen parts.old) id) }
    ensures new { seen parts.new ≡ with_callers thread (older_of (callers_at (seen parts.old) thread)) (seen parts.old) }
{
    let found = live_thread(parts, thread);
    match parts.behind.last(found.callers) {
        Some((_, caller)) => {
            let id = thread_at(parts, caller.place);
            parts.behind.no_node_is_twice();
            parts.behind.remove(caller.node);
            Some(id)
        }
        None => None,
    }
}
