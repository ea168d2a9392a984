//! Chains and nodes that are dropped with a record.
ghost use Rattle.core_removals.specs.Chains.{Closes, ClosesIf, Drops, DropsIf};
ghost use Rattle.std.specs.Prelude.{◌≡◌, IfSome, IsSome, true};
ghost use Rattle.table_links.specs.Links.{is_made, list_of};

use table_links::{Links, Node};
use table_lists::OrderedLists;

/// Takes every node out of a chain, and drops it.
#[inline(always)]
pub(crate) fn close<P: Copy>(links: &mut Links<P>, chain: usize)
    requires { IsSome (list_of links.old chain) }
    ensures { Closes links.old links.new chain }
{
    while let Some((node, _)) = links.first(chain) {
        links.remove(node);
    }
    links.drop_chain(chain);
}

/// Takes every node out of a chain that is in the order of order keys, and drops it.
#[inline(always)]
pub(crate) fn close_order_keys(links: &mut OrderedLists, chain: usize)
    requires { IsSome (list_of links.old chain) }
    ensures { Closes links.old links.new chain }
{
    while let Some((node, _)) = links.first(chain) {
        links.remove(node);
    }
    links.drop_chain(chain);
}

/// Takes a node out of the chain that it is in, if it is in one, and drops it.
#[inline(always)]
pub(crate) fn drop_order_key(links: &mut OrderedLists, node: Node)
    requires { is_made links.old node.index ≡ true }
    ensures { Drops links.old links.new node.index }
{
    links.no_node_is_twice();
    links.remove(node);
    links.drop_node(node);
}

/// Drops the chain of a call's own threads that wait, if it has one.
#[inline(always)]
pub(crate) fn close_waits(waits: &mut OrderedLists, chain: Option<usize>)
    requires { IfSome chain (λ c. IsSome (list_of waits.old c)) }
    ensures { ClosesIf waits.old waits.new chain }
{
    if let Some(chain) = chain {
        close_order_keys(waits, chain);
    }
}

/// Drops the node of a thread among those of its call that wait, if it has one.
#[inline(always)]
pub(crate) fn drop_wait(waits: &mut OrderedLists, node: Option<Node>)
    requires { IfSome node (λ n. is_made waits.old n.index ≡ true) }
    ensures { DropsIf waits.old waits.new node }
{
    if let Some(node) = node {
        drop_order_key(waits, node);
    }
}
