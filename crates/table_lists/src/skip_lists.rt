//! Skip lists: from where an order key's place is looked for in a long chain.
//!
//! One node in 64 has a skip node in a level over all chains, one in 1,024 also in a second level, one in 16,384 in a third. Each
//! level is in the order of chains and order keys. So among up to 262,144 nodes a place is found past some fifty nodes and skip
//! nodes, however many of them are in its chain. Above that the third level grows by a skip node for each 16,384 nodes, and is
//! passed one by one: among 1,000,000 nodes some 60 at most. A level is left after 1,024 skip nodes, and a place that is further on
//! is looked for from the end of its chain. Few nodes have skip nodes since threads that are held in their order need none, and
//! each of them would enter and leave its levels. Nothing rests on the skip lists: who asks them tests the answer, and if it is out
//! of memory a node has no skip node. The first 64 names have none, as short chains need no skip list.
ghost use Rattle.std.specs.Prelude.{IfSome, IsSome};
ghost use Rattle.table_links.specs.Links.{link_of};

use crate::ordered_lists::{NOWHERE, OrderKey};
use std::alloc::Global;
use std::collections::BTreeMap;
use table_links::{Links, Node};

/// Where a node is: its chain, its order key there, itself, and its skip node in the level below.
#[derive(Clone, Copy)]
struct SkipNode {
    chain: usize,
    order_key: OrderKey,
    node: Node,
    below: Node,
}

const NO_STOP: SkipNode = SkipNode {
    chain: 0,
    order_key: NOWHERE,
    node: Node { index: 0 },
    below: Node { index: 0 },
};

/// A node's skip nodes, of which the upper ones are there as its name wants.
#[derive(Clone, Copy)]
struct Levels {
    low: Node,
    middle: Option<Node>,
    high: Option<Node>,
}

/// The levels' chains.
#[derive(Clone, Copy)]
struct SkipLevels {
    low: usize,
    middle: usize,
    high: usize,
}

/// The last skip node of each level that comes before an order key.
#[derive(Clone, Copy)]
struct Trail {
    low: Option<Node>,
    middle: Option<Node>,
    high: Option<Node>,
}

/// The skip lists of all chains.
#[derive(Drop)]
pub(crate) struct SkipLists {
    stops: Links<SkipNode>,
    skip_levels: Option<SkipLevels>,
    // The skip nodes of each node, by its name.
    towers: BTreeMap<usize, Levels>,
}

// The most skip nodes that are passed in one level.
const MOST_PASSED: usize = 1024;

// A name's number, whose bits below the 32nd are spread, so that names that follow one another have unlike heights.
fn spread(name: usize) -> usize {
    name.wrapping_mul(0x61C8_8647)
}

// Whether a node of this name has skip nodes: one in 64, as its six highest bits tell. They are so for none of the first 64.
fn has_levels(name: usize) -> bool {
    spread(name) & 0xFC00_0000 == 0x9C00_0000
}

// Whether it has a middle skip node, and a high one: the four bits below tell each.
fn has_middle(name: usize) -> bool {
    spread(name) & 0xFFC0_0000 == 0x9C00_0000
}

fn has_high(name: usize) -> bool {
    spread(name) & 0xFFFC_0000 == 0x9C00_0000
}

// The skip node that is here, if there is one.
fn skip_node_at(stops: &Links<SkipNode>, at: Node) -> Option<SkipNode>
    ensures { IfSome result (λ _. IsSome (link_of stops.now at.index)) }
{
    if !stops.is_made(at) {
        return None;
    }
    match stops.get(at) {
        Some((_, stop)) => Some(stop),
        None => None,
    }
}

// The skip node after one, or the first of a level.
fn next(stops: &Links<SkipNode>, skip_level: usize, at: Option<Node>) -> Option<(Node, SkipNode)> {
    match at {
        Some(node) => match skip_node_at(stops, node) {
            Some(_) => stops.next(node),
            None => None,
        },
        None => {
            if stops.is_live(skip_level) {
                stops.first(skip_level)
            } else {
                None
            }
        }
    }
}

// Whether a skip node comes before an order key of a chain.
fn comes_before(stop: SkipNode, chain: usize, order_key: OrderKey) -> bool {
    stop.chain < chain || stop.chain == chain && stop.order_key < order_key
}

// The last skip node of a level, from one on, that comes before an order key.
fn pass(
    stops: &Links<SkipNode>,
    skip_level: usize,
    from: Option<Node>,
    chain: usize,
    order_key: OrderKey,
) -> Option<Node> {
    let mut at = from;
    for _ in 0..MOST_PASSED {
        match next(stops, skip_level, at) {
            Some((node, stop)) if comes_before(stop, chain, order_key) => {
                at = Some(node);
            }
            _ => {
                return at;
            }
        }
    }
    at
}

// The skip node below one.
fn below(stops: &Links<SkipNode>, at: Option<Node>) -> Option<Node> {
    match at {
        Some(node) => match skip_node_at(stops, node) {
            Some(stop) => Some(stop.below),
            None => None,
        },
        None => None,
    }
}

// The skip nodes before an order key.
fn find(
    stops: &Links<SkipNode>,
    skip_levels: SkipLevels,
    chain: usize,
    order_key: OrderKey,
) -> Trail {
    let high = pass(stops, skip_levels.high, None, chain, order_key);
    let middle = pass(
        stops,
        skip_levels.middle,
        below(stops, high),
        chain,
        order_key,
    );
    let low = pass(
        stops,
        skip_levels.low,
        below(stops, middle),
        chain,
        order_key,
    );
    Trail { low, middle, high }
}

// Puts a skip node into a level, after one, or first.
fn put(
    stops: &mut Links<SkipNode>,
    skip_level: usize,
    before: Option<Node>,
    at: Node,
    stop: SkipNode,
) {
    if !stops.is_free(at) || !stops.is_live(skip_level) {
        return;
    }
    match next(stops, skip_level, before) {
        Some((node, _)) => match skip_node_at(stops, node) {
            Some(_) => stops.insert_before(node, at, stop),
            None => {}
        },
        None => stops.push_back(skip_level, at, stop),
    }
}

// Takes a skip node out of its level.
fn take_out(stops: &mut Links<SkipNode>, at: Node) {
    if stops.is_made(at) {
        stops.remove(at);
    }
}

// Drops a skip node.
fn drop_skip_node(stops: &mut Links<SkipNode>, at: Node) {
    take_out(stops, at);
    if stops.is_free(at) {
        stops.drop_node(at);
    }
}

// Drops a skip node, if there is one.
fn drop_upper(stops: &mut Links<SkipNode>, at: Option<Node>) {
    if let Some(node) = at {
        drop_skip_node(stops, node);
    }
}

// A skip node in no level, where one is wanted and there is memory for it.
fn make_upper(stops: &mut Links<SkipNode>, wanted: bool) -> Option<Node> {
    if wanted {
        match stops.make_node() {
            Ok(node) => Some(node),
            Err(_) => None,
        }
    } else {
        None
    }
}

// A chain for a level, if there is memory for it.
fn make_skip_level(stops: &mut Links<SkipNode>) -> Option<usize> {
    match stops.make_chain() {
        Ok(chain) => Some(chain),
        Err(_) => None,
    }
}

// The levels, if there is memory for them.
fn make_skip_levels(stops: &mut Links<SkipNode>) -> Option<SkipLevels> {
    let low = make_skip_level(stops)?;
    let middle = make_skip_level(stops)?;
    let high = make_skip_level(stops)?;
    Some(SkipLevels { low, middle, high })
}

impl SkipLists {
    /// Makes skip lists without a level.
    pub(crate) fn new(alloc: Global) -> SkipLists {
        SkipLists {
            stops: Links::new(alloc, NO_STOP),
            skip_levels: None,
            towers: BTreeMap::new(alloc),
        }
    }

    // The skip nodes of a node, in no level.
    #[cold]
    fn add_levels(&mut self, name: usize) {
        if self.skip_levels.is_none() {
            self.skip_levels = make_skip_levels(&mut self.stops);
        }
        if let Some(low) = make_upper(&mut self.stops, true) {
            let middle = make_upper(&mut self.stops, has_middle(name));
            let high = make_upper(&mut self.stops, has_high(name));
            let levels = Levels { low, middle, high };
            if self.towers.insert(name, levels).is_err() {
                drop_skip_node(&mut self.stops, low);
                drop_upper(&mut self.stops, middle);
                drop_upper(&mut self.stops, high);
            }
        }
    }

    /// Notes that a node was made.
    #[inline(always)]
    pub(crate) fn add(&mut self, node: Node) {
        if has_levels(node.index) {
            self.add_levels(node.index);
        }
    }

    #[cold]
    fn drop_levels(&mut self, name: usize) {
        if let Some(levels) = self.towers.remove(&name) {
            drop_skip_node(&mut self.stops, levels.low);
            drop_upper(&mut self.stops, levels.middle);
            drop_upper(&mut self.stops, levels.high);
        }
    }

    /// Notes that a node is dropped.
    #[inline(always)]
    pub(crate) fn forget(&mut self, node: Node) {
        if has_levels(node.index) {
            self.drop_levels(node.index);
        }
    }

    #[cold]
    fn leave_skip_levels(&mut self, name: usize) {
        if let Some(levels) = self.towers.get(&name) {
            let levels = *levels;
            take_out(&mut self.stops, levels.low);
            if let Some(node) = levels.middle {
                take_out(&mut self.stops, node);
            }
            if let Some(node) = levels.high {
                take_out(&mut self.stops, node);
            }
        }
    }

    /// Notes that a node leaves its chain.
    #[inline(always)]
    pub(crate) fn leave(&mut self, node: Node) {
        if has_levels(node.index) {
            self.leave_skip_levels(node.index);
        }
    }

    // It takes the order key's numbers, so that an order key of a node without skip nodes isn't in memory for it.
    #[cold]
    fn enter_skip_levels(&mut self, node: Node, chain: usize, task: u64, thread: u32, place: u32) {
        let order_key = OrderKey {
            task,
            thread,
            place,
        };
        let Some(skip_levels) = self.skip_levels else {
            return;
        };
        if let Some(levels) = self.towers.get(&node.index) {
            let levels = *levels;
            let before = find(&self.stops, skip_levels, chain, order_key);
            let stop = SkipNode {
                chain,
                order_key,
                node,
                below: levels.low,
            };
            put(
                &mut self.stops,
                skip_levels.low,
                before.low,
                levels.low,
                stop,
            );
            if let Some(middle) = levels.middle {
                put(
                    &mut self.stops,
                    skip_levels.middle,
                    before.middle,
                    middle,
                    stop,
                );
                if let Some(high) = levels.high {
                    let upper = SkipNode {
                        chain,
                        order_key,
                        node,
                        below: middle,
                    };
                    put(&mut self.stops, skip_levels.high, before.high, high, upper);
                }
            }
        }
    }

    /// Notes that a node was put into a chain.
    #[inline(always)]
    pub(crate) fn enter(&mut self, node: Node, chain: usize, order_key: OrderKey) {
        if has_levels(node.index) {
            self.enter_skip_levels(
                node,
                chain,
                order_key.task,
                order_key.thread,
                order_key.place,
            );
        }
    }

    /// Returns a node near the place of an order key in its chain that doesn't come before it, if there is a skip node there.
    #[cold]
    pub(crate) fn near(&self, chain: usize, order_key: OrderKey) -> Option<Node> {
        let Some(skip_levels) = self.skip_levels else {
            return None;
        };
        let before = find(&self.stops, skip_levels, chain, order_key);
        match next(&self.stops, skip_levels.low, before.low) {
            Some((_, stop)) if stop.chain == chain => Some(stop.node),
            _ => None,
        }
    }
}
