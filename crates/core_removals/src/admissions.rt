//! The held threads of an instance, and which of them are admitted.
ghost use Rattle.std.specs.List.{list_any};
ghost use Rattle.std.specs.Prelude.{◌≡◌, IsSome, not};
ghost use Rattle.table_links.specs.Links.{IsLinks, list_of};
ghost use Rattle.machine_data.specs.Moves.{held_why_of};
ghost use Rattle.machine_data.specs.Read.{admits, admitted_held, is_held_admitted, is_nil};
ghost use Rattle.machine_data.specs.declared.records.Why.TheVariants as whys;
ghost use Rattle.core_records.specs.Seen.{IsSoundCore, seen};
ghost use Rattle.core_primitives.specs.Held.{held_in};
ghost use Rattle.core_removals.specs.Held.{is_admitted};
ghost use Rattle.core_primitives.specs.StateView.{thread_of};
ghost use Rattle.core_removals.specs.Walks.{of_chain};

use crate::chains::node_thread;
use core_fields::{backpressure, instance_of, is_explicit, kind, may_not_enter};
use core_primitives::ThreadId;
use core_records::{CoreParts, task_of};
use machine_data::{ExportKind, Place, Why};

// Whether a start of the thread may begin. The instance is asked first: where it is open, no record of a call is looked at.
#[inline(always)]
fn admits_start(parts: &CoreParts, thread: ThreadId) -> bool
    requires { IsSoundCore parts.now }
    ensures { result ≡ admits (thread_of (seen parts.now) thread) (seen parts.now).core whys.Start }
{
    let instance = instance_of(parts, thread);
    if !may_not_enter(parts, instance) && backpressure(parts, instance) == 0 {
        return true;
    }
    is_explicit(parts, thread) || matches!(kind(parts, task_of(parts, thread)), ExportKind::Sync)
}

// Whether such an entry of the thread may begin.
#[inline(always)]
fn admits(parts: &CoreParts, thread: ThreadId, why: Why) -> bool
    requires { IsSoundCore parts.now }
    ensures { result ≡ admits (thread_of (seen parts.now) thread) (seen parts.now).core why }
{
    match why {
        Why::Start => admits_start(parts, thread),
        Why::Delivery { .. } => !may_not_enter(parts, instance_of(parts, thread)),
        Why::Resumption => true,
    }
}

/// Returns whether the thread is held in the instance and is admitted now.
#[inline(always)]
pub(crate) fn is_admitted(parts: &CoreParts, instance: u32, thread: ThreadId) -> bool
    requires { IsSoundCore parts.now }
    ensures { result ≡ is_admitted instance (seen parts.now).core (thread_of (seen parts.now) thread) }
{
    match core_records::thread(parts, thread) {
        Some(found) => match found.thread.place {
            Place::Held { why } => found.instance == instance && admits(parts, thread, why),
            _ => false,
        },
        None => false,
    }
}

fn some_admitted(parts: &CoreParts, instance: u32, chain: usize) -> bool
    requires sound { IsSoundCore parts.now }
    requires live { IsSome (list_of parts.now.places chain) }
    ensures is { result ≡ list_any (λ n. is_held_admitted instance (seen parts.now).core n (held_why_of n (seen parts.now).core)) (of_chain parts.now chain) }
    ensures links { IsLinks parts.now.places }
{
    let mut next = parts.places.first(chain);
    while let Some(entry) = next {
        if is_admitted(parts, instance, node_thread(parts, entry.0)) {
            return true;
        }
        next = parts.places.next(entry.0);
    }
    false
}

/// Returns whether a held thread of the instance is admitted. Where the instance is open, all are but the barred starts, which are
/// where no backpressure is; where it is shut, none of these is, and the others are looked at.
pub fn has_admitted(parts: &CoreParts, instance: u32) -> bool
    requires { IsSoundCore parts.now }
    ensures { result ≡ not (is_nil (admitted_held instance (seen parts.now).core)) }
{
    match core_records::instance(parts, instance) {
        Some(found) => {
            if found.instance.do_not_enter {
                return some_admitted(parts, instance, found.held);
            }
            let held = has_any(parts, found.held);
            let starts = has_any(parts, found.starts);
            held | ((found.instance.backpressure == 0) & starts)
        }
        None => false,
    }
}

// Whether some thread is in the chain.
fn has_any(parts: &CoreParts, chain: usize) -> bool
    requires { IsSome (list_of parts.now.places chain) }
    ensures is { result ≡ not (is_nil (of_chain parts.now chain)) }
    ensures links { IsLinks parts.now.places }
{
    parts.places.first(chain).is_some()
}

/// Returns whether some thread of the instance is held.
pub fn has_held(parts: &CoreParts, instance: u32) -> bool
    requires { IsSoundCore parts.now }
    ensures { result ≡ not (is_nil (held_in instance (seen parts.now).core)) }
{
    match core_records::instance(parts, instance) {
        Some(found) => {
            let held = has_any(parts, found.held);
            let starts = has_any(parts, found.starts);
            held | starts
        }
        None => false,
    }
}
