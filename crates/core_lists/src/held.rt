//! The held threads that an instance lets in once it is opened.
ghost use Rattle.core_lists.specs.Listed.{AddsThreads, ListsThreads, held_passes_flag, of_both, passing};
ghost use Rattle.core_primitives.specs.StateView.{thread_of};
ghost use Rattle.core_records.specs.Seen.{IsSoundCore, seen};
ghost use Rattle.core_removals.specs.Walks.{of_chain};
ghost use Rattle.machine_data.specs.Read.{is_nil};
ghost use Rattle.machine_rules.specs.Ends.{held_by_flag};
ghost use Rattle.machine_rules.specs.Task.{held_by_counter};
ghost use Rattle.std.specs.Prelude.{◌≡◌, ◌∷◌, [], IsSome, OnOk, not};
ghost use Rattle.table_links.specs.Links.{IsLinks, list_of};

use crate::chains::{add_threads, node_thread};
use core_fields::{is_explicit, kind};
use core_primitives::ThreadId;
use core_records::{CoreParts, task_of};
use machine_data::{ExportKind, Place, Why};
use std::alloc::AllocError;

// Whether the thread is held with an entry that is admitted even where its instance's flag is set.
fn passes_flag(parts: &CoreParts, thread: ThreadId) -> bool
    requires { IsSoundCore parts.now }
    ensures { result ≡ held_passes_flag (seen parts.now).core (thread_of (seen parts.now) thread) }
{
    match core_places::place(parts, thread) {
        Some(Place::Held { why }) => match why {
            Why::Start => {
                is_explicit(parts, thread)
                    || matches!(kind(parts, task_of(parts, thread)), ExportKind::Sync)
            }
            Why::Delivery { delivery: _ } => false,
            Why::Resumption => true,
        },
        _ => false,
    }
}

// Adds the thread to a list, if it is held with such an entry.
fn add_passing(
    parts: &CoreParts,
    thread: ThreadId,
    list: &mut Vec<ThreadId>,
) -> Result<(), AllocError>
    requires { IsSoundCore parts.now }
    ensures { OnOk result (AddsThreads (seen parts.now)
        (passing (seen parts.now) (thread_of (seen parts.now) thread ∷ [])) list.old.items list.new.items) }
{
    if passes_flag(parts, thread) {
        list.push(thread)?;
    }
    Ok(())
}

// Adds the threads of a chain that are held with such an entry to a list.
fn add_all_passing(
    parts: &CoreParts,
    chain: usize,
    list: &mut Vec<ThreadId>,
) -> Result<(), AllocError>
    requires sound { IsSoundCore parts.now }
    requires live { IsSome (list_of parts.now.places chain) }
    ensures links { IsLinks parts.now.places }
    ensures added { OnOk result (AddsThreads (seen parts.now)
        (passing (seen parts.now) (of_chain parts.now chain)) list.old.items list.new.items) }
{
    let mut next = parts.places.first(chain);
    while let Some(entry) = next {
        add_passing(parts, node_thread(parts, entry.0), list)?;
        next = parts.places.next(entry.0);
    }
    Ok(())
}

// Adds the threads of the one chain to a list, and if all are admitted those of the other one.
fn add_admitted(
    parts: &CoreParts,
    held: usize,
    starts: usize,
    all: bool,
    list: &mut Vec<ThreadId>,
) -> Result<(), AllocError>
    requires held { IsSome (list_of parts.now.places held) }
    requires starts { IsSome (list_of parts.now.places starts) }
    ensures links { IsLinks parts.now.places }
    ensures added { OnOk result (AddsThreads (seen parts.now) (of_both parts.now all held starts) list.old.items list.new.items) }
{
    add_threads(parts, held, list)?;
    if all {
        return add_threads(parts, starts, list);
    }
    Ok(())
}

/// Lists the held threads of the instance that are admitted once its flag is clear: where no backpressure is, the barred starts are
/// among them.
pub(crate) fn list_by_flag(
    parts: &CoreParts,
    instance: u32,
    list: &mut Vec<ThreadId>,
) -> Result<(), AllocError>
    requires { IsSoundCore parts.now }
    ensures { OnOk result (ListsThreads (seen parts.now) (held_by_flag instance (seen parts.now).core) list.new.items) }
{
    list.clear();
    match core_records::instance(parts, instance) {
        Some(found) => {
            let all = found.instance.backpressure == 0;
            add_admitted(parts, found.held, found.starts, all, list)
        }
        None => Ok(()),
    }
}

/// Lists the held threads of the instance that are admitted once its backpressure is gone: while its flag is set none of the barred
/// ones, and of the others those whose entries pass the flag.
pub(crate) fn list_by_counter(
    parts: &CoreParts,
    instance: u32,
    list: &mut Vec<ThreadId>,
) -> Result<(), AllocError>
    requires { IsSoundCore parts.now }
    ensures { OnOk result (ListsThreads (seen parts.now) (held_by_counter instance (seen parts.now).core) list.new.items) }
{
    list.clear();
    match core_records::instance(parts, instance) {
        Some(found) => {
            if found.instance.do_not_enter {
                return add_all_passing(parts, found.held, list);
            }
            add_admitted(parts, found.held, found.starts, true, list)
        }
        None => Ok(()),
    }
}

// Whether some thread is in the chain.
fn has_any(parts: &CoreParts, chain: usize) -> bool
    requires { IsSome (list_of parts.now.places chain) }
    ensures is { result ≡ not (is_nil (of_chain parts.now chain)) }
    ensures links { IsLinks parts.now.places }
{
    parts.places.first(chain).is_some()
}

/// Returns whether a held thread of the instance is admitted once its flag is clear.
pub(crate) fn some_by_flag(parts: &CoreParts, instance: u32) -> bool
    requires { IsSoundCore parts.now }
    ensures { result ≡ not (is_nil (held_by_flag instance (seen parts.now).core)) }
{
    match core_records::instance(parts, instance) {
        Some(found) => {
            let held = has_any(parts, found.held);
            let starts = has_any(parts, found.starts);
            held | ((found.instance.backpressure == 0) & starts)
        }
        None => false,
    }
}
