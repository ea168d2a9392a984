//! A law of links that users of them rest on. The function does nothing.
ghost use Rattle.std.specs.Prelude.{◌≡◌, ℕ, List, None, IsSome, true};
ghost use Rattle.table_links.specs.Links.{ChangesOnly, is_made, linked, list_of, unlinked, LinkingChangesOnly};

use crate::links::{Links, Node};

/// States that a node which is put into a live chain, or taken out of it, changes that chain and its own link alone:
/// every other chain keeps its list, and every other node its link, or stays free.
pub fn others_stay<P: Copy>(links: &Links<P>, chain: usize, node: Node)
    requires chain { IsSome (list_of links.now chain) }
    requires made { is_made links.now node.index ≡ true }
    ensures linked { LinkingChangesOnly links.now chain node.index }
    ensures unlinked { (list : List (ℕ × P)) → ChangesOnly links.now (unlinked chain node.index list links.now) chain node.index list None }
{
    // only the contract speaks of `links`, `chain` and `node`
    let _links = links;
    let _parts = (chain, node);
}
