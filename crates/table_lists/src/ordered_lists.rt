ghost use Rattle.std.specs.Ordering.{is_lt};
ghost use Rattle.std.specs.Prelude.{◌≡◌, [], if◌then◌else◌, false, IfOk, IfSome, IsSome, None, OnErr, Some, option_map, true};
ghost use Rattle.table_lists.specs.OrderKeys.{AreOrdered, comes_first, order_key_order, keyed, linked_keyed, BeginsWalk};
ghost use Rattle.table_lists.specs.Index.{Refiles};
ghost use Rattle.table_links.specs.Links.{AreLinked, ChainOf, FreeNode, IsLinks, Renames, Unmade, entries, following, head_of, is_free, is_made, link_of, linked, list_of, removed};
ghost use Rattle.task_wait.specs.Sets.{IsAscending, IsLeast, place_of, placed};

use crate::skip_lists::SkipLists;
use machine_data::NoMemory;
use std::alloc::Global;
use std::marker::Model;
use table_links::{Links, Node};

/// Where a thread or a subtask comes in the order of the resource table's places. Seats are ordered by the place of the
/// task, then of the thread, then by the place in the table of their kind.
#[derive(Clone, Copy, PartialEq, Eq, PartialOrd, Ord)]
pub struct OrderKey {
    /// The place of the call, or of the host work, in the resource table; of a thread that goes as it came, when it came.
    pub task: u64,
    /// The place of the thread there; 0 for a call, a host work or a thread that goes as it came.
    pub thread: u32,
    /// The place in the table of their kind.
    pub place: u32,
}

/// The order key of nothing.
pub(crate) const NOWHERE: OrderKey = OrderKey {
    task: 0,
    thread: 0,
    place: 0,
};

// Whether a value is less than the first of a live chain.
fn comes_first<P: Copy + Ord>(links: &Links<P>, chain: usize, value: P) -> bool
    requires { IsSome (list_of links.now chain) }
    ensures { result ≡ comes_first P.cmp value (head_of (entries links.now chain)) }
{
    match links.first(chain) {
        Some((_, first)) => value.cmp(&first).is_lt(),
        None => false,
    }
}

// Whether one value is less than another.
fn is_less<P: Copy + Ord>(value: P, other: P) -> bool
    ensures { result ≡ is_lt (P.cmp value other) }
{
    value.cmp(&other).is_lt()
}

// Whether a value is greater than the last of a live chain.
fn comes_last<P: Copy + Ord>(links: &Links<P>, chain: usize, value: P) -> bool
    requires { IsSome (list_of links.now chain) }
    ensures last { result ≡ true → place_of (λ other. is_lt (P.cmp other value)) (entries links.now chain) ≡ None }
    ensures sound { IsLinks links.now }
{
    match links.last(chain) {
        Some(entry) => is_less(entry.1, value),
        None => true,
    }
}

// From where a value's place is looked for: the next node to be looked at, and the last that was found not to be less.
// It is the end of the chain, unless a node of the chain is given that isn't less.
fn begin<P: Copy + Ord>(
    links: &Links<P>,
    chain: usize,
    from: Option<Node>,
    value: P,
) -> (Option<(Node, P)>, Option<Node>)
    requires chain { IsSome (list_of links.now chain) }
    requires order { IsAscending P.cmp (entries links.now chain) }
    ensures walk { BeginsWalk P.cmp value (entries links.now chain) result }
    ensures sound { IsLinks links.now }
{
    if let Some(node) = from {
        if links.is_made(node) {
            links.nodes_have_values(chain);
            if let Some(link) = links.get(node) {
                let there = link.0;
                if there == chain {
                    if is_less(link.1, value) {
                        return (links.last(chain), None);
                    }
                    let before = links.previous(node);
                    return (before, Some(node));
                }
            }
        }
    }
    (links.last(chain), None)
}

// The node before which a value is put: the first after which, itself among them, none is less.
fn place<P: Copy + Ord>(
    links: &Links<P>,
    chain: usize,
    from: Option<Node>,
    value: P,
) -> Option<Node>
    requires chain { IsSome (list_of links.now chain) }
    requires order { IsAscending P.cmp (entries links.now chain) }
    ensures place { option_map (λ node. node.index) result ≡ place_of (λ other. is_lt (P.cmp other value)) (entries links.now chain) }
    ensures sound { IsLinks links.now }
{
    let begun = begin(links, chain, from, value);
    let mut last = begun.0;
    let mut place = begun.1;
    while let Some(entry) = last {
        if is_less(entry.1, value) {
            return place;
        }
        place = Some(entry.0);
        last = links.previous(entry.0);
    }
    place
}

// Puts a free node into a live chain, where its value belongs, which is looked for from a node on that isn't less, or
// from the end.
fn put_between<P: Copy + Ord>(
    links: &mut Links<P>,
    chain: usize,
    from: Option<Node>,
    node: Node,
    value: P,
)
    requires chain { IsSome (list_of links.old chain) }
    requires free { is_free links.old node.index ≡ true }
    requires order { IsAscending P.cmp (entries links.old chain) }
    ensures links { links.new ≡ linked chain node.index value (placed P.cmp (node.index, value) (entries links.old chain)) links.old }
    ensures order { IsAscending P.cmp (entries links.new chain) }
{
    match place(links, chain, from, value) {
        Some(at) => links.insert_before(at, node, value),
        None => links.push_back(chain, node, value),
    }
}

// Takes a node out of the chain that it is in, if it is in one.
#[inline(always)]
fn take_out(links: &mut Links<OrderKey>, skip_lists: &mut SkipLists, node: Node)
    requires { is_made links.old node.index ≡ true }
    ensures { links.new ≡ removed node.index links.old }
{
    if links.remove(node).is_some() {
        skip_lists.leave(node);
    }
}

// Puts a free node into a live chain, if its value belongs at one of the ends, as that of a thread does that waits again.
#[inline(always)]
fn put_at_end<P: Copy + Ord>(links: &mut Links<P>, chain: usize, node: Node, value: P) -> bool
    requires chain { IsSome (list_of links.old chain) }
    requires free { is_free links.old node.index ≡ true }
    requires order { IsAscending P.cmp (entries links.old chain) }
    ensures links { links.new ≡ (if result then linked_keyed P.cmp chain node.index value links.old else links.old) }
    ensures order { IsAscending P.cmp (entries links.new chain) }
    ensures between { result ≡ false → comes_first P.cmp value (head_of (entries links.old chain)) ≡ false }
{
    if comes_last(links, chain, value) {
        links.push_back(chain, node, value);
        return true;
    }
    if comes_first(links, chain, value) {
        links.push_front(chain, node, value);
        return true;
    }
    false
}

// Puts a free node into a live chain, where its order key belongs, which isn't first. It takes the order key's numbers, so that an
// order key that belongs at an end isn't in memory for it.
#[cold]
#[inline(never)]
fn put_inside(
    links: &mut Links<OrderKey>,
    skip_lists: &SkipLists,
    chain: usize,
    node: Node,
    task: u64,
    thread: u32,
    place: u32,
)
    requires chain { IsSome (list_of links.old chain) }
    requires free { is_free links.old node.index ≡ true }
    requires order { IsAscending order_key_order (entries links.old chain) }
    requires between { comes_first order_key_order (record { task = task; thread = thread; place = place }) (head_of (entries links.old chain)) ≡ false }
    ensures links { links.new ≡ linked_keyed order_key_order chain node.index (record { task = task; thread = thread; place = place }) links.old }
    ensures order { IsAscending order_key_order (entries links.new chain) }
{
    let order_key = OrderKey {
        task,
        thread,
        place,
    };
    put_between(
        links,
        chain,
        skip_lists.near(chain, order_key),
        node,
        order_key,
    );
}

// Puts a free node into a live chain, where its order key belongs.
#[inline(always)]
fn put(
    links: &mut Links<OrderKey>,
    skip_lists: &SkipLists,
    chain: usize,
    node: Node,
    order_key: OrderKey,
)
    requires chain { IsSome (list_of links.old chain) }
    requires free { is_free links.old node.index ≡ true }
    requires order { IsAscending order_key_order (entries links.old chain) }
    ensures links { links.new ≡ linked chain node.index order_key (keyed order_key_order (node.index, order_key) (entries links.old chain)) links.old }
    ensures order { IsAscending order_key_order (entries links.new chain) }
{
    if !put_at_end(links, chain, node, order_key) {
        put_inside(
            links,
            skip_lists,
            chain,
            node,
            order_key.task,
            order_key.thread,
            order_key.place,
        );
    }
}

/// Links whose chains are in the order of order keys.
#[derive(Drop)]
pub struct OrderedLists {
    links: Links<OrderKey>,
    skip_lists: SkipLists,
}

impl Model for OrderedLists {
    ghost use Rattle.std.specs.Prelude.{List};
    ghost use Rattle.table_lists.specs.OrderKeys.{AreOrdered};
    ghost use Rattle.table_lists.specs.declared.ordered_lists.OrderKey.{OrderKey};
    ghost use Rattle.table_links.specs.Links.{Spot};

    ghost Value = { List (Spot OrderKey) };

    ghost view = { λ l. l.links };

    ghost invariant = { λ l. AreOrdered l.links };
}

impl OrderedLists {
    /// Makes lists without a chain and a node.
    pub fn new(alloc: Global) -> OrderedLists
        ensures { result ≡ [] }
    {
        OrderedLists {
            links: Links::new(alloc, NOWHERE),
            skip_lists: SkipLists::new(alloc),
        }
    }

    /// Makes a new empty chain. Where there is no memory for it, all is as before.
    #[inline(always)]
    pub fn make_chain(&mut self) -> Result<usize, NoMemory>
        ensures made { IfOk result (λ chain. Renames self.old self.new chain Unmade (ChainOf [])) }
        ensures err { OnErr result (self.new ≡ self.old) }
    {
        self.links.make_chain()
    }

    /// Makes a new node, which is free. Where there is no memory for it, all is as before.
    #[inline(always)]
    pub fn make_node(&mut self) -> Result<Node, NoMemory>
        ensures made { IfOk result (λ node. Renames self.old self.new node.index Unmade FreeNode) }
        ensures err { OnErr result (self.new ≡ self.old) }
    {
        match self.links.make_node() {
            Ok(node) => {
                self.skip_lists.add(node);
                Ok(node)
            }
            Err(why) => Err(why),
        }
    }

    /// Drops a live chain that is empty.
    #[inline(always)]
    pub fn drop_chain(&mut self, chain: usize)
        requires { list_of self.old chain ≡ Some [] }
        ensures { Renames self.old self.new chain (ChainOf []) Unmade }
    {
        self.links.drop_chain(chain);
    }

    /// Drops a free node.
    #[inline(always)]
    pub fn drop_node(&mut self, node: Node)
        requires { is_free self.old node.index ≡ true }
        ensures { Renames self.old self.new node.index FreeNode Unmade }
    {
        self.skip_lists.forget(node);
        self.links.drop_node(node);
    }

    /// States that no node is twice in the chains, and that a node's link is to the chain whose list it is in. It does nothing.
    pub fn no_node_is_twice(&self)
        ensures { IsLinks self.now }
    {
        self.links.no_node_is_twice();
    }

    /// States that each chain is in the order of order keys. It does nothing.
    pub fn chains_are_ordered(&self)
        ensures { AreOrdered self.now }
    {
        self.links.no_node_is_twice();
    }

    /// Takes a node out of the chain that it is in, if it is in one. It is then free.
    #[inline(always)]
    pub fn remove(&mut self, node: Node)
        requires { is_made self.old node.index ≡ true }
        ensures { self.new ≡ removed node.index self.old }
    {
        self.links.no_node_is_twice();
        take_out(&mut self.links, &mut self.skip_lists, node);
    }

    /// Puts a node into a chain, where its order key belongs; it leaves the chain that it was in. Where its order key is the least
    /// or the greatest of the chain, that takes constant time, else logarithmic time.
    #[inline(always)]
    pub fn file(&mut self, node: Node, chain: usize, order_key: OrderKey)
        requires made { is_made self.old node.index ≡ true }
        requires live { IsSome (list_of self.old chain) }
        ensures { Refiles self.old self.new node.index (Some (chain, order_key)) }
    {
        self.links.no_node_is_twice();
        take_out(&mut self.links, &mut self.skip_lists, node);
        put(&mut self.links, &self.skip_lists, chain, node, order_key);
        self.skip_lists.enter(node, chain, order_key);
    }

    /// Puts a free node into a chain, where its order key belongs, in the time that `file` takes.
    #[inline(always)]
    pub fn file_free(&mut self, node: Node, chain: usize, order_key: OrderKey)
        requires free { is_free self.old node.index ≡ true }
        requires live { IsSome (list_of self.old chain) }
        ensures { Refiles self.old self.new node.index (Some (chain, order_key)) }
    {
        put(&mut self.links, &self.skip_lists, chain, node, order_key);
        self.skip_lists.enter(node, chain, order_key);
    }

    /// Returns the first node of a live chain and its order key, which is the least. `None` where the chain is empty.
    pub fn first(&self, chain: usize) -> Option<(Node, OrderKey)>
        requires { IsSome (list_of self.now chain) }
        ensures entry { option_map (λ e. (e.0.index, e.1)) result ≡ head_of (entries self.now chain) }
        ensures linked { AreLinked self.now chain (entries self.now chain) }
        ensures least { IfSome result (λ e. IsLeast order_key_order e.1 (entries self.now chain)) }
        ensures sound { IsLinks self.now }
    {
        self.links.nodes_have_values(chain);
        self.links.first(chain)
    }

    /// Returns the node after one that is in a chain, and its order key. `None` where that one is the last.
    pub fn next(&self, node: Node) -> Option<(Node, OrderKey)>
        requires { IsSome (link_of self.now node.index) }
        ensures entry { option_map (λ e. (e.0.index, e.1)) result ≡ following node.index self.now }
        ensures sound { IsLinks self.now }
    {
        self.links.next(node)
    }

    /// Returns the chain of a made node and its order key. `None` where it is in no chain.
    pub fn get(&self, node: Node) -> Option<(usize, OrderKey)>
        requires { is_made self.now node.index ≡ true }
        ensures { result ≡ link_of self.now node.index }
    {
        self.links.get(node)
    }
}
