//! The thread of the least number in a chain: the only one, where the machine has come there itself.
ghost use Rattle.std.specs.Prelude.{◌≡◌, ◌<◌, IfSome, IsSome};
ghost use Rattle.table_links.specs.Links.{IsLinks, list_of};
ghost use Rattle.machine_data.specs.Read.{blocked_on, under_of};
ghost use Rattle.core_records.specs.Seen.{IsSoundCore, seen};
ghost use Rattle.core_primitives.specs.Names.{number_in, subtask_in};
ghost use Rattle.core_primitives.specs.StateView.{thread_of, thread_if_any};
ghost use Rattle.core_removals.specs.Least.{least_of, lesser};
ghost use Rattle.core_removals.specs.Walks.{of_chain};

use crate::chains::node_thread;
use core_fields::number;
use core_primitives::{SubtaskId, ThreadId};
use core_records::CoreParts;

// Of a thread and of one that was found before that of the smaller number.
fn lesser(parts: &CoreParts, least: Option<ThreadId>, thread: ThreadId) -> ThreadId
    requires { IsSoundCore parts.now }
    ensures { thread_of (seen parts.now) result ≡ lesser (thread_if_any (seen parts.now) least) (thread_of (seen parts.now) thread) }
{
    match least {
        Some(other) => {
            if number(parts, other) < number(parts, thread) {
                other
            } else {
                thread
            }
        }
        None => thread,
    }
}

#[inline(always)]
fn least(parts: &CoreParts, chain: usize) -> Option<ThreadId>
    requires sound { IsSoundCore parts.now }
    requires live { IsSome (list_of parts.now.places chain) }
    ensures is { thread_if_any (seen parts.now) result ≡ least_of (of_chain parts.now chain) }
    ensures links { IsLinks parts.now.places }
{
    let mut least = None;
    let mut next = parts.places.first(chain);
    while let Some(entry) = next {
        least = Some(lesser(parts, least, node_thread(parts, entry.0)));
        next = parts.places.next(entry.0);
    }
    least
}

/// Returns the thread that waits under this one for its direct callee: of those in the chain that of the least number. Where the
/// machine has come there itself one thread at most is under another, so that takes constant time.
#[inline(always)]
pub fn under(parts: &CoreParts, thread: ThreadId) -> Option<ThreadId>
    requires sound { IsSoundCore parts.now }
    requires live { 0 < thread_of (seen parts.now) thread }
    ensures is { thread_if_any (seen parts.now) result ≡ under_of (thread_of (seen parts.now) thread) (seen parts.now).core }
    ensures live { IfSome result (λ id. 0 < thread_of (seen parts.now) id) }
{
    let found = core_records::thread_there(parts, thread);
    least(parts, found.under)
}

/// Returns the thread that is blocked on a subtask: of those in the chain that of the least number. Where the machine has come
/// there itself one thread at most is blocked on a subtask, so that takes constant time.
pub fn blocked_on(parts: &CoreParts, subtask: SubtaskId) -> Option<ThreadId>
    requires sound { IsSoundCore parts.now }
    requires live { 0 < number_in (seen parts.now).tags subtask }
    ensures is { thread_if_any (seen parts.now) result ≡ blocked_on (subtask_in (seen parts.now).tags subtask) (seen parts.now).core }
    ensures live { IfSome result (λ id. 0 < thread_of (seen parts.now) id) }
{
    match subtask {
        SubtaskId::Guest(call) => least(parts, core_records::call_there(parts, call).blocked),
        SubtaskId::Host(work) => least(parts, core_records::work_there(parts, work).blocked),
    }
}
