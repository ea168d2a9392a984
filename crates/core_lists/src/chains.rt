//! What is in a chain, as ids.
ghost use Rattle.core_lists.specs.Chains.{call_of_node, calls_in, waiting_in_chain, waiting_of_node, work_of_node, works_in};
ghost use Rattle.core_lists.specs.Listed.{AddsSubtasks, AddsThreads};
ghost use Rattle.core_primitives.specs.Names.{subtask_in};
ghost use Rattle.core_primitives.specs.StateView.{thread_of};
ghost use Rattle.core_records.specs.Seen.{seen};
ghost use Rattle.core_removals.specs.Walks.{of_chain, of_node};
ghost use Rattle.std.specs.Prelude.{◌≡◌, IsSome, OnOk};
ghost use Rattle.table_links.specs.Links.{IsLinks, link_of, list_of};

use core_primitives::{SubtaskId, ThreadId};
use core_records::{CoreParts, Node, call_at, thread_at, work_at};
use std::alloc::AllocError;

/// Returns the thread that a node represents.
pub(crate) fn node_thread(parts: &CoreParts, node: Node) -> ThreadId
    requires { IsSome (link_of parts.now.places node.index) }
    ensures { thread_of (seen parts.now) result ≡ of_node parts.now node.index }
{
    match parts.places.get(node) {
        Some((_, order_key)) => thread_at(parts, order_key.place),
        None => unreachable!(),
    }
}

// The call that a node represents.
fn node_call(parts: &CoreParts, node: Node) -> SubtaskId
    requires { IsSome (link_of parts.now.ready_calls node.index) }
    ensures { subtask_in (seen parts.now).tags result ≡ call_of_node parts.now node.index }
{
    match parts.ready_calls.get(node) {
        Some((_, order_key)) => SubtaskId::Guest(call_at(parts, order_key.place)),
        None => unreachable!(),
    }
}

// The work that a node represents.
fn node_work(parts: &CoreParts, node: Node) -> SubtaskId
    requires { IsSome (link_of parts.now.ready_works node.index) }
    ensures { subtask_in (seen parts.now).tags result ≡ work_of_node parts.now node.index }
{
    match parts.ready_works.get(node) {
        Some((_, order_key)) => SubtaskId::Host(work_at(parts, order_key.place)),
        None => unreachable!(),
    }
}

/// Adds the threads of a chain to a list.
pub(crate) fn add_threads(
    parts: &CoreParts,
    chain: usize,
    list: &mut Vec<ThreadId>,
) -> Result<(), AllocError>
    requires { IsSome (list_of parts.now.places chain) }
    ensures links { IsLinks parts.now.places }
    ensures added { OnOk result (AddsThreads (seen parts.now) (of_chain parts.now chain) list.old.items list.new.items) }
{
    let mut next = parts.places.first(chain);
    while let Some(entry) = next {
        list.push(node_thread(parts, entry.0))?;
        next = parts.places.next(entry.0);
    }
    Ok(())
}

// The thread that waits, which a node represents in the chain of its call.
fn node_waiting(parts: &CoreParts, node: Node) -> ThreadId
    requires { IsSome (link_of parts.now.waits node.index) }
    ensures { thread_of (seen parts.now) result ≡ waiting_of_node parts.now node.index }
{
    match parts.waits.get(node) {
        Some((_, order_key)) => thread_at(parts, order_key.place),
        None => unreachable!(),
    }
}

/// Adds the threads of a call's chain of waiting ones to a list.
pub(crate) fn add_waiting(
    parts: &CoreParts,
    chain: usize,
    list: &mut Vec<ThreadId>,
) -> Result<(), AllocError>
    requires { IsSome (list_of parts.now.waits chain) }
    ensures links { IsLinks parts.now.waits }
    ensures added { OnOk result (AddsThreads (seen parts.now) (waiting_in_chain parts.now chain) list.old.items list.new.items) }
{
    let mut next = parts.waits.first(chain);
    while let Some(entry) = next {
        list.push(node_waiting(parts, entry.0))?;
        next = parts.waits.next(entry.0);
    }
    Ok(())
}

/// Adds the calls of a chain of ready ones to a list.
pub(crate) fn add_calls(
    parts: &CoreParts,
    chain: usize,
    list: &mut Vec<SubtaskId>,
) -> Result<(), AllocError>
    requires { IsSome (list_of parts.now.ready_calls chain) }
    ensures links { IsLinks parts.now.ready_calls }
    ensures added { OnOk result (AddsSubtasks (seen parts.now) (calls_in parts.now chain) list.old.items list.new.items) }
{
    let mut next = parts.ready_calls.first(chain);
    while let Some(entry) = next {
        list.push(node_call(parts, entry.0))?;
        next = parts.ready_calls.next(entry.0);
    }
    Ok(())
}

/// Adds the works of a chain of ready ones to a list.
pub(crate) fn add_works(
    parts: &CoreParts,
    chain: usize,
    list: &mut Vec<SubtaskId>,
) -> Result<(), AllocError>
    requires { IsSome (list_of parts.now.ready_works chain) }
    ensures links { IsLinks parts.now.ready_works }
    ensures added { OnOk result (AddsSubtasks (seen parts.now) (works_in parts.now chain) list.old.items list.new.items) }
{
    let mut next = parts.ready_works.first(chain);
    while let Some(entry) = next {
        list.push(node_work(parts, entry.0))?;
        next = parts.ready_works.next(entry.0);
    }
    Ok(())
}
