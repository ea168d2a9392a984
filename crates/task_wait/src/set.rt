ghost use Rattle.std.specs.Prelude.{◌≡◌, ◌↔◌, ◌++◌, ◌∷◌, [], true, Some, None, IsSome, is_some, drop, OnErr, IfOk};
ghost use Rattle.std.specs.Option.{option_map};
ghost use Rattle.table_links.specs.Links.{IsLinks, Renames, NamesSame, Unmade, ChainOf, entries, head_of, is_free, is_made, list_of, linked};
ghost use Rattle.task_wait.specs.Sets.{is_in, place_of, ready_chain, ready_list, sync_flag, taken_out, waiter_chain, waiter_list, without_first, FindsLeast, StaysAscending, linked_in_order};
ghost use Rattle.std.specs.Ordering.{is_lt};

use crate::keys::{Waitable, WaiterKey};
use machine_data::NoMemory;
use table_links::{Links, Node};

/// A waitable set: the members that are ready, the threads that wait at it, and whether it is a sync one.
///
/// Its lists are chains of the links that are handed in, which are the same at each call.
#[derive(Drop)]
pub struct WaitableSet {
    // The chain of the ready members.
    ready: usize,
    // The chain of the waiters.
    waiters: usize,
    sync: bool,
}

// Takes a node out of a chain, if it is in it, and tells whether it was.
fn take_out<P: Copy + Ord>(links: &mut Links<P>, chain: usize, node: Node) -> bool
    requires chain { IsSome (list_of links.old chain) }
    requires made { is_made links.old node.index ≡ true }
    ensures there { result ≡ is_in chain node.index links.old }
    ensures links { links.new ≡ taken_out chain node.index links.old }
    ensures order { StaysAscending P.cmp (entries links.old chain) (entries links.new chain) }
{
    match links.get(node) {
        Some((found, _)) if found == chain => {
            links.remove(node);
            true
        }
        _ => false,
    }
}

// The value of the first node of a chain.
fn first_value<P: Copy + Ord>(links: &Links<P>, chain: usize) -> Option<P>
    requires { IsSome (list_of links.now chain) }
    ensures first { result ≡ option_map (λ e. e.1) (head_of (entries links.now chain)) }
    ensures least { FindsLeast P.cmp result (entries links.now chain) }
{
    match links.first(chain) {
        Some((_, value)) => Some(value),
        None => None,
    }
}

// Takes the first node of a chain out of it, and gives its value.
fn take_first<P: Copy + Ord>(links: &mut Links<P>, chain: usize) -> Option<P>
    requires { IsSome (list_of links.old chain) }
    ensures first { result ≡ option_map (λ e. e.1) (head_of (entries links.old chain)) }
    ensures links { links.new ≡ without_first chain links.old }
    ensures rest { entries links.new chain ≡ drop 1 (entries links.old chain) }
    ensures least { FindsLeast P.cmp result (entries links.old chain) }
    ensures order { StaysAscending P.cmp (entries links.old chain) (entries links.new chain) }
{
    match links.first(chain) {
        Some((first, value)) => {
            links.remove(first);
            Some(value)
        }
        None => None,
    }
}

// Whether one value is less than another.
fn is_less<P: Copy + Ord>(value: P, other: P) -> bool
    ensures { result ≡ is_lt (P.cmp value other) }
{
    value.cmp(&other).is_lt()
}

// The node before which a value is put: the first after which, itself among them, none is less. It looks from the end of the chain on.
fn place<P: Copy + Ord>(links: &Links<P>, chain: usize, value: P) -> Option<Node>
    requires { IsSome (list_of links.now chain) }
    ensures place { option_map (λ node. node.index) result ≡ place_of (λ other. is_lt (P.cmp other value)) (entries links.now chain) }
    ensures sound { IsLinks links.now }
{
    let mut place = None;
    let mut last = links.last(chain);
    while let Some(entry) = last {
        if is_less(entry.1, value) {
            return place;
        }
        place = Some(entry.0);
        last = links.previous(entry.0);
    }
    place
}

/// Puts a free node into a live chain, after the last value that is less, so that a chain into which all were put so is in
/// ascending order. Where it is the greatest, that takes constant time.
pub fn put_in_order<P: Copy + Ord>(links: &mut Links<P>, chain: usize, node: Node, value: P)
    requires chain { IsSome (list_of links.old chain) }
    requires free { is_free links.old node.index ≡ true }
    ensures links { links.new ≡ linked_in_order P.cmp chain node.index value links.old }
    ensures order { StaysAscending P.cmp (entries links.old chain) (entries links.new chain) }
{
    match place(links, chain, value) {
        Some(at) => links.insert_before(at, node, value),
        None => links.push_back(chain, node, value),
    }
}

impl WaitableSet {
    /// Makes a set with no ready member and no waiter. Where there is no memory for its chains, none is left.
    pub fn new(
        sync: bool,
        ready: &mut Links<Waitable>,
        waiting: &mut Links<WaiterKey>,
    ) -> Result<WaitableSet, NoMemory>
        ensures ready { IfOk result (λ set. Renames ready.old ready.new (ready_chain set) Unmade (ChainOf [])) }
        ensures waiters { IfOk result (λ set. Renames waiting.old waiting.new (waiter_chain set) Unmade (ChainOf [])) }
        ensures sync { IfOk result (λ set. sync_flag set ≡ sync) }
        ensures err_ready { OnErr result (NamesSame ready.old ready.new) }
        ensures err_waiters { OnErr result (waiting.new ≡ waiting.old) }
    {
        let chain = match ready.make_chain() {
            Ok(chain) => chain,
            Err(why) => return Err(why),
        };
        match waiting.make_chain() {
            Ok(waiters) => Ok(WaitableSet {
                ready: chain,
                waiters,
                sync,
            }),
            Err(why) => {
                ready.drop_chain(chain);
                Err(why)
            }
        }
    }

    /// Returns whether the set is a sync one.
    pub fn is_sync(&self) -> bool
        ensures { result ≡ sync_flag self.now }
    {
        self.sync
    }

    /// Returns whether the set's chains are live in these links, as its other calls need.
    pub fn is_live(&self, ready: &Links<Waitable>, waiting: &Links<WaiterKey>) -> bool
        ensures { (result ≡ true) ↔ IsSome (list_of ready.now (ready_chain self.now)) × IsSome (list_of waiting.now (waiter_chain self.now)) }
    {
        ready.is_live(self.ready) && waiting.is_live(self.waiters)
    }

    /// Returns whether the set has no ready member and no waiter in these links, so that it may be closed.
    pub fn is_empty(&self, ready: &Links<Waitable>, waiting: &Links<WaiterKey>) -> bool
        ensures { (result ≡ true) ↔ (list_of ready.now (ready_chain self.now) ≡ Some []) × (list_of waiting.now (waiter_chain self.now) ≡ Some []) }
    {
        ready.is_empty(self.ready) && waiting.is_empty(self.waiters)
    }

    /// Returns whether a thread waits at the set.
    pub fn has_waiters(&self, waiting: &Links<WaiterKey>) -> bool
        requires { IsSome (list_of waiting.now (waiter_chain self.now)) }
        ensures { result ≡ is_some (head_of (waiter_list self.now waiting.now)) }
    {
        waiting.first(self.waiters).is_some()
    }

    /// Returns the first of the ready members, which is the least where they are in ascending order. `None` exactly where none is
    /// ready.
    pub fn first_ready(&self, ready: &Links<Waitable>) -> Option<Waitable>
        requires { IsSome (list_of ready.now (ready_chain self.now)) }
        ensures first { result ≡ option_map (λ e. e.1) (head_of (ready_list self.now ready.now)) }
        ensures least { FindsLeast ⟦<Waitable as Ord>⟧.cmp result (ready_list self.now ready.now) }
    {
        first_value(ready, self.ready)
    }

    /// Adds a member to the ready ones, after the last that is less, so that members that were all put so are in ascending order.
    /// Where it is the greatest, that takes constant time.
    pub fn mark(&mut self, ready: &mut Links<Waitable>, node: Node, waitable: Waitable)
        requires chain { IsSome (list_of ready.old (ready_chain self.old)) }
        requires free { is_free ready.old node.index ≡ true }
        ensures links { ready.new ≡ linked_in_order ⟦<Waitable as Ord>⟧.cmp (ready_chain self.old) node.index waitable ready.old }
        ensures order { StaysAscending ⟦<Waitable as Ord>⟧.cmp (ready_list self.old ready.old) (ready_list self.old ready.new) }
        ensures set { self.new ≡ self.old }
    {
        put_in_order(ready, self.ready, node, waitable);
    }

    /// Takes a member from the ready ones, and tells whether it was one. Its node is then free.
    pub fn unmark(&mut self, ready: &mut Links<Waitable>, node: Node) -> bool
        requires chain { IsSome (list_of ready.old (ready_chain self.old)) }
        requires made { is_made ready.old node.index ≡ true }
        ensures there { result ≡ is_in (ready_chain self.old) node.index ready.old }
        ensures links { ready.new ≡ taken_out (ready_chain self.old) node.index ready.old }
        ensures order { StaysAscending ⟦<Waitable as Ord>⟧.cmp (ready_list self.old ready.old) (ready_list self.old ready.new) }
        ensures set { self.new ≡ self.old }
    {
        take_out(ready, self.ready, node)
    }

    /// Adds a waiter, after the last that is less, so that waiters that were all put so are in ascending order. Where it is the
    /// greatest, that takes constant time.
    pub fn add_waiter(&mut self, waiting: &mut Links<WaiterKey>, node: Node, waiter: WaiterKey)
        requires chain { IsSome (list_of waiting.old (waiter_chain self.old)) }
        requires free { is_free waiting.old node.index ≡ true }
        ensures links { waiting.new ≡ linked_in_order ⟦<WaiterKey as Ord>⟧.cmp (waiter_chain self.old) node.index waiter waiting.old }
        ensures order { StaysAscending ⟦<WaiterKey as Ord>⟧.cmp (waiter_list self.old waiting.old) (waiter_list self.old waiting.new) }
        ensures set { self.new ≡ self.old }
    {
        put_in_order(waiting, self.waiters, node, waiter);
    }

    /// Puts a waiter at the end of the waiters.
    pub fn add_waiter_last(&mut self, waiting: &mut Links<WaiterKey>, node: Node, waiter: WaiterKey)
        requires chain { IsSome (list_of waiting.old (waiter_chain self.old)) }
        requires free { is_free waiting.old node.index ≡ true }
        ensures links { waiting.new ≡ linked (waiter_chain self.old) node.index waiter (waiter_list self.old waiting.old ++ (node.index, waiter) ∷ []) waiting.old }
        ensures set { self.new ≡ self.old }
    {
        waiting.push_back(self.waiters, node, waiter);
    }

    /// Takes the first waiter, which is the least where they are in ascending order; its node is then free. `None` exactly where
    /// none waits.
    pub fn take_first_waiter(&mut self, waiting: &mut Links<WaiterKey>) -> Option<WaiterKey>
        requires { IsSome (list_of waiting.old (waiter_chain self.old)) }
        ensures first { result ≡ option_map (λ e. e.1) (head_of (waiter_list self.old waiting.old)) }
        ensures links { waiting.new ≡ without_first (waiter_chain self.old) waiting.old }
        ensures rest { waiter_list self.old waiting.new ≡ drop 1 (waiter_list self.old waiting.old) }
        ensures least { FindsLeast ⟦<WaiterKey as Ord>⟧.cmp result (waiter_list self.old waiting.old) }
        ensures order { StaysAscending ⟦<WaiterKey as Ord>⟧.cmp (waiter_list self.old waiting.old) (waiter_list self.old waiting.new) }
        ensures set { self.new ≡ self.old }
    {
        take_first(waiting, self.waiters)
    }

    /// Takes a waiter from the waiters, and tells whether it was one. Its node is then free.
    pub fn remove_waiter(&mut self, waiting: &mut Links<WaiterKey>, node: Node) -> bool
        requires chain { IsSome (list_of waiting.old (waiter_chain self.old)) }
        requires made { is_made waiting.old node.index ≡ true }
        ensures there { result ≡ is_in (waiter_chain self.old) node.index waiting.old }
        ensures links { waiting.new ≡ taken_out (waiter_chain self.old) node.index waiting.old }
        ensures order { StaysAscending ⟦<WaiterKey as Ord>⟧.cmp (waiter_list self.old waiting.old) (waiter_list self.old waiting.new) }
        ensures set { self.new ≡ self.old }
    {
        take_out(waiting, self.waiters, node)
    }

    /// Ends a set with no ready member and no waiter: its chains are dropped.
    pub fn close(self, ready: &mut Links<Waitable>, waiting: &mut Links<WaiterKey>)
        requires ready { list_of ready.old (ready_chain self) ≡ Some [] }
        requires waiters { list_of waiting.old (waiter_chain self) ≡ Some [] }
        ensures ready { Renames ready.old ready.new (ready_chain self) (ChainOf []) Unmade }
        ensures waiters { Renames waiting.old waiting.new (waiter_chain self) (ChainOf []) Unmade }
    {
        ready.drop_chain(self.ready);
        waiting.drop_chain(self.waiters);
    }
}
