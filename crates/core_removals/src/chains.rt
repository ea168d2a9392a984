//! The nodes of a chain of threads.
ghost use Rattle.std.specs.Prelude.{◌<◌, ◌≡◌, IsSome};
ghost use Rattle.table_links.specs.Links.{AreLinked, IsLinks, entries, link_of, list_of};
ghost use Rattle.core_records.specs.Seen.{seen};
ghost use Rattle.core_primitives.specs.StateView.{thread_of};
ghost use Rattle.core_removals.specs.Walks.{of_node};

use core_primitives::ThreadId;
use core_records::{CoreParts, Node, thread_at, thread_at_unchecked};

/// Returns the thread that a node represents.
pub(crate) fn node_thread(parts: &CoreParts, node: Node) -> ThreadId
    requires { IsSome (link_of parts.now.places node.index) }
    ensures { thread_of (seen parts.now) result ≡ of_node parts.now node.index }
{
    match parts.places.get(node) {
        Some((_, order_key)) => thread_at(parts, order_key.place),
        None => unreachable!(),
    }
}

/// Returns the thread that a node represents, which is there: nothing is tested.
pub(crate) fn held_thread(parts: &CoreParts, node: Node) -> ThreadId
    requires link { IsSome (link_of parts.now.places node.index) }
    requires live { 0 < of_node parts.now node.index }
    ensures { thread_of (seen parts.now) result ≡ of_node parts.now node.index }
{
    match parts.places.get(node) {
        Some((_, order_key)) => thread_at_unchecked(parts, order_key.place),
        None => unreachable!(),
    }
}

/// States that each node of a chain has its order key there. It does nothing.
#[inline(always)]
pub(crate) fn nodes_have_order_keys(parts: &CoreParts, chain: usize)
    requires { IsSome (list_of parts.now.places chain) }
    ensures linked { AreLinked parts.now.places chain (entries parts.now.places chain) }
    ensures links { IsLinks parts.now.places }
{
    // read so that the proof knows the invariant of `places`
    let _first = parts.places.first(chain);
}
