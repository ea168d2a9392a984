//! Nodes in the chains of an index.
ghost use Rattle.std.specs.Prelude.{◌≡◌, IfNone, IfSome, IsSome, None, Some, true};
ghost use Rattle.table_lists.specs.Index.{Holds, Refiles};
ghost use Rattle.table_links.specs.Links.{entries, is_free, is_made, last_of, list_of};

use table_links::{Links, Node};

/// Takes a node out of the chain that it is in, if it is in one. It is then free.
pub fn unfile<P: Copy>(links: &mut Links<P>, node: Node)
    requires { is_made links.old node.index ≡ true }
    ensures links { Refiles links.old links.new node.index None }
    ensures free { is_free links.new node.index ≡ true }
{
    links.no_node_is_twice();
    links.remove(node);
}

/// Puts a node at the end of a chain; it leaves the chain that it was in.
pub fn file<P: Copy>(links: &mut Links<P>, node: Node, chain: usize, value: P)
    requires made { is_made links.old node.index ≡ true }
    requires live { IsSome (list_of links.old chain) }
    ensures links { Refiles links.old links.new node.index (Some (chain, value)) }
    ensures last { last_of (entries links.new chain) ≡ Some (node.index, value) }
{
    unfile(links, node);
    links.push_back(chain, node, value);
}

/// Returns the first node's link in a chain: the chain and the value. `None` exactly where the chain is empty.
pub fn first<P: Copy>(links: &Links<P>, chain: usize) -> Option<(usize, P)>
    requires { IsSome (list_of links.now chain) }
    ensures some { IfSome result (λ link. Holds links.now chain link.1) }
    ensures none { IfNone result ((value : P) → Holds links.now chain value → ⊥) }
{
    match links.first(chain) {
        Some((node, _)) => links.get(node),
        None => None,
    }
}
