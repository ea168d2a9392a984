//! The scope: calls and works are begun in it, and it ends when it is closed and each of them has ended.
ghost use Rattle.std.specs.Option.{option_and_then, option_copied, option_map, option_map_or};
ghost use Rattle.futures.specs.declared.task.Poll.TheVariants as polls;
ghost use Rattle.std.specs.Prelude.{◌≡◌, ◌↔◌, Err, ◌+◌, ◌<◌, ◌≤◌, ◌^◌, ◌++◌, ◌∷◌, [], IfNone, IfSome, OnOk, false, length, slice_get, true, vec_capacity, vec_len};
ghost use Rattle.task_loop.specs.CallStarts.{KeepsStore};
ghost use Rattle.machine_data.specs.declared.component.Component.{Component};
ghost use Rattle.machine_data.specs.declared.records.Turn.{Turn};
ghost use Rattle.task_nursery.specs.Children.{has_ended, is_open, is_open_call, thread_in, value_in};
ghost use Rattle.task_nursery.specs.Numbers.{first_among, first_where, numbered, numbers_where};
ghost use Rattle.task_nursery.specs.Scope.{AreOf, BeginsChild, EndsChild, IsOf, KeepsRest, SpawnsChild, Tallies, TakesWords, aborted_at, all_aborted, refusal_of, those_aborted};
ghost use Rattle.task_store.specs.Changes.{ChangesCore};
ghost use Rattle.task_store.specs.Hosts.{HoldsHosts, WorksNumbered};
ghost use Rattle.ops_turns.specs.Turn.{CoreInOrder, given};
ghost use Rattle.ops_turns.specs.WellFormed.{IsWellFormed};
ghost use Rattle.core_primitives.specs.Groups.{IsAsked};

use crate::children::{Child, Kept};
use core_primitives::ResultPrimitives;
use futures::task::Poll;
use machine_data::Trap;
use std::alloc::{AllocError, Global};
use std::marker::Model;
use task_loop::{Component, Func, TaskError};
use task_store::{AccessorTask, HostWork, Store};

/// Why a nursery takes no further child.
#[derive(Clone, Copy)]
pub enum NurseryError {
    NoMemory,
    /// It was closed.
    Closed,
    /// As many calls as it may have are open.
    Full,
    /// The store refused the call, and is trapped.
    Trap(Trap),
}

/// A scope of calls and works in a store. It ends only when each of them has ended. A contract sees its limit, whether it is closed,
/// and its children.
#[derive(Drop)]
pub struct Nursery {
    limit: u32,
    closed: bool,
    children: Vec<Kept>,
    // The numbers of the open children, ascending.
    running: Vec<u32>,
    // How many of them are calls.
    calls: u32,
}

impl Model for Nursery {
    ghost use Rattle.task_nursery.specs.Scope.{Scope, Tallies};

    ghost Value = { Scope };

    ghost view = { λ n. record { limit = n.limit; closed = n.closed; children = n.children.items } };

    ghost invariant = { λ n. Tallies n.children.items n.running.items n.calls };
}

// Makes room for a child more.
fn make_room(children: &mut Vec<Kept>, running: &mut Vec<u32>) -> Result<(), AllocError>
    ensures children { children.new.items ≡ children.old.items }
    ensures running { running.new.items ≡ running.old.items }
    ensures room { OnOk result ((vec_len children.new < vec_capacity children.new) × (vec_len running.new < vec_capacity running.new)) }
{
    children.reserve(1)?;
    running.reserve(1)
}

// A child more, which is open and has the next number.
fn add(children: &mut Vec<Kept>, running: &mut Vec<u32>, kept: Kept) -> Child
    requires room { vec_len children.old < vec_capacity children.old }
    requires place { vec_len running.old < vec_capacity running.old }
    requires few { length children.old.items < 4294967295 }
    ensures children { children.new.items ≡ children.old.items ++ kept ∷ [] }
    ensures running { running.new.items ≡ running.old.items ++ result.number ∷ [] }
    ensures number { result.number ≡ length children.old.items + 1 }
{
    let number = children.len() as u32 + 1;
    children.push_reserved(kept);
    running.push_reserved(number);
    Child { number }
}

// What is kept of the child of this number, if there is one.
fn kept_at(children: &[Kept], number: u32) -> Option<&Kept>
    ensures { option_copied result ≡ numbered children.now number }
{
    children.get((number as usize).checked_sub(1)?)
}

// Whether the child of this number is open and has ended in the store.
fn has_ended_at<T, H: HostWork>(children: &[Kept], number: u32, store: &mut Store<T, H>) -> bool
    requires of { AreOf children.now store.old.state }
    requires hosts { HoldsHosts H.course store.old }
    ensures answer { result ≡ option_map_or (has_ended store.old.state.core) (numbered children.now number) false }
    ensures rest { store.new ≡ record store.old { works = store.new.works } }
    ensures hosts { HoldsHosts H.course store.new }
{
    match kept_at(children, number) {
        Some(kept) => kept.has_ended(store),
        None => false,
    }
}

// The place among these numbers of the first child that has ended in the store, by looking at one after another.
fn seek_ended<T, H: HostWork>(
    children: &[Kept],
    running: &[u32],
    store: &mut Store<T, H>,
) -> Option<usize>
    requires of { AreOf children.now store.old.state }
    requires hosts { HoldsHosts H.course store.old }
    ensures first { first_among (has_ended store.old.state.core) (numbered children.now) running.now ≡ option_and_then (λ at. slice_get running.now at) result }
    ensures there { IfSome result (λ at. at < length running.now) }
    ensures rest { store.new ≡ record store.old { works = store.new.works } }
    ensures hosts { HoldsHosts H.course store.new }
{
    let mut at = 0;
    'running: while at < running.len() {
        let number = running[at];
        if has_ended_at(children, number, store) {
            return Some(at);
        }
        at += 1;
    }
    None
}

// The place of the first child that has ended. None is looked at where each of them is a call and main has nothing to take.
fn first_ended<T, H: HostWork>(
    children: &[Kept],
    running: &[u32],
    calls: u32,
    store: &mut Store<T, H>,
) -> Option<usize>
    requires tallies { Tallies children.now running.now calls }
    requires of { AreOf children.now store.old.state }
    requires hosts { HoldsHosts H.course store.old }
    ensures first { first_among (has_ended store.old.state.core) (numbered children.now) running.now ≡ option_and_then (λ at. slice_get running.now at) result }
    ensures there { IfSome result (λ at. at < length running.now) }
    ensures rest { store.new ≡ record store.old { works = store.new.works } }
    ensures hosts { HoldsHosts H.course store.new }
{
    if running.len() == calls as usize && !store.state.has_results() {
        return None;
    }
    seek_ended(children, running, store)
}

// Asks the child of this number to end, if it is an open work.
fn abort_at<T, H: HostWork>(children: &[Kept], number: u32, store: &mut Store<T, H>)
    requires of { AreOf children.now store.old.state }
    requires hosts { HoldsHosts H.course store.old }
    ensures state { ChangesCore (aborted_at (numbered children.now number)) store.old store.new }
    ensures of { AreOf children.now store.new.state }
    ensures order { (c : Component) (p : Turn) → CoreInOrder c p store.old.state.core → CoreInOrder c p store.new.state.core }
    ensures hosts { HoldsHosts H.course store.new }
{
    match kept_at(children, number) {
        Some(kept) => kept.abort(store),
        None => {}
    }
}

// Asks the works among these children to end.
fn abort_all<T, H: HostWork>(children: &[Kept], running: &[u32], store: &mut Store<T, H>)
    requires of { AreOf children.now store.old.state }
    requires hosts { HoldsHosts H.course store.old }
    ensures state { ChangesCore (those_aborted (numbered children.now) running.now) store.old store.new }
    ensures of { AreOf children.now store.new.state }
    ensures order { (c : Component) (p : Turn) → CoreInOrder c p store.old.state.core → CoreInOrder c p store.new.state.core }
    ensures hosts { HoldsHosts H.course store.new }
{
    let mut at = 0;
    'running: while at < running.len() {
        let number = running[at];
        abort_at(children, number, store);
        at += 1;
    }
}

// Why the scope takes no call, where the store doesn't.
fn refusal(e: TaskError) -> NurseryError
    ensures { result ≡ refusal_of e }
{
    match e {
        TaskError::Trap(trap) => NurseryError::Trap(trap),
        _ => NurseryError::NoMemory,
    }
}

// How many calls are open without this child.
fn fewer(calls: u32, kept: &Kept) -> u32
    requires { is_open_call kept.now ≡ true → 0 < calls }
    ensures call { is_open_call kept.now ≡ true → result + 1 ≡ calls }
    ensures other { is_open_call kept.now ≡ false → result ≡ calls }
{
    if kept.is_open_call() {
        calls - 1
    } else {
        calls
    }
}

impl Nursery {
    /// Makes a scope without a child, in which at most so many calls, 1 to 1,024, are open at once.
    pub fn new(alloc: Global, limit: u32) -> Self
        requires some { 1 ≤ limit }
        requires few { limit ≤ 1024 }
        ensures { result ≡ record { limit = limit; closed = false; children = [] } }
    {
        Nursery {
            limit,
            closed: false,
            children: Vec::new(alloc),
            running: Vec::new(alloc),
            calls: 0,
        }
    }

    /// Starts a call of the export with as many words as it takes: a child more, which is open. Refused as `Closed` exactly where
    /// the scope is closed, else as `Full` exactly where as many calls as it may have are open, else with the trap with which the
    /// store refuses the call (`Func::start_call_concurrent`), which is trapped then. After a refusal, and if it is out of memory,
    /// the scope is as before. Fewer than 4,294,967,295 children were made.
    pub fn start<T, H>(
        &mut self,
        component: &Component,
        store: &mut Store<T, H>,
        func: Func,
        params: &[u64],
    ) -> Result<Child, NurseryError>
        requires covered { IsWellFormed component.now }
        requires takes { TakesWords component.now func (length params.now) }
        requires order { (p : Turn) × CoreInOrder component.now p store.old.state.core }
        requires given { given store.old.state.core < 2 ^ 61 }
        requires few { length self.old.children < 4294967295 }
        requires of { IsOf self.old store.old.state }
        ensures begins { BeginsChild component.now func params.now self.old store.old result self.new store.new }
        ensures keeps { KeepsStore component.now store.old store.new }
    {
        if self.closed {
            return Err(NurseryError::Closed);
        }
        if self.calls >= self.limit {
            return Err(NurseryError::Full);
        }
        if make_room(&mut self.children, &mut self.running).is_err() {
            return Err(NurseryError::NoMemory);
        }
        match func.start_call_concurrent(component, store, params) {
            Ok(call) => {
                self.calls += 1;
                let kept = Kept::Call(func, call);
                Ok(add(&mut self.children, &mut self.running, kept))
            }
            Err(e) => Err(refusal(e)),
        }
    }

    /// Spawns a work: a child more, which is open. Refused as `Closed` exactly where the scope is closed. After a refusal, and if
    /// it is out of memory, the scope is as before. Fewer than 4,294,967,295 children were made.
    pub fn spawn<T, H: AccessorTask<T>>(
        &mut self,
        store: &mut Store<T, H>,
        work: H,
    ) -> Result<Child, NurseryError>
        requires given { given store.old.state.core < 2 ^ 61 }
        requires few { length self.old.children < 4294967295 }
        requires of { IsOf self.old store.old.state }
        ensures closed { self.old.closed ≡ true → (result ≡ Err NurseryError.Closed) × ((self.new ≡ self.old) × (store.new ≡ store.old)) }
        ensures spawns { self.old.closed ≡ false → SpawnsChild H.course work self.old store.old result self.new store.new }
        ensures of { IsOf self.new store.new.state }
        ensures hosts { WorksNumbered store.old.state.core → HoldsHosts H.course store.old → HoldsHosts H.course store.new }
        ensures keeps { KeepsRest store.old store.new }
    {
        if self.closed {
            return Err(NurseryError::Closed);
        }
        if make_room(&mut self.children, &mut self.running).is_err() {
            return Err(NurseryError::NoMemory);
        }
        match store.spawn(work) {
            Ok(work) => Ok(add(&mut self.children, &mut self.running, Kept::Work(work))),
            Err(_) => Err(NurseryError::NoMemory),
        }
    }

    /// Closes the scope: it takes no further child. Each open work is asked to end; the calls that are open go on.
    pub fn close<T, H: HostWork>(&mut self, store: &mut Store<T, H>)
        requires of { IsOf self.old store.old.state }
        requires hosts { HoldsHosts H.course store.old }
        ensures closed { self.new ≡ record self.old { closed = true } }
        ensures state { ChangesCore (all_aborted self.old.children) store.old store.new }
        ensures of { IsOf self.new store.new.state }
        ensures order { (c : Component) (p : Turn) → CoreInOrder c p store.old.state.core → CoreInOrder c p store.new.state.core }
        ensures groups { IsAsked store.old.state → IsAsked store.new.state }
        ensures hosts { HoldsHosts H.course store.new }
    {
        self.closed = true;
        abort_all(&self.children, &self.running, store);
    }

    /// Ends the least open child that has ended in the store: a call with its value, which is taken from the store. None exactly
    /// where no open child has ended. It looks at no child where no work is open and main has no result to take, else at the open
    /// ones in their order.
    pub fn turn<T, H: HostWork>(&mut self, store: &mut Store<T, H>) -> Option<Child>
        requires of { IsOf self.old store.old.state }
        requires hosts { HoldsHosts H.course store.old }
        ensures least { option_map (λ c. c.number) result ≡ first_where (has_ended store.old.state.core) 1 self.old.children }
        ensures ended { IfSome result (λ c. EndsChild c self.old store.old self.new store.new) }
        ensures none { IfNone result ((self.new ≡ self.old) × (store.new.state ≡ store.old.state)) }
        ensures of { IsOf self.new store.new.state }
        ensures hosts { HoldsHosts H.course store.new }
        ensures keeps { KeepsRest store.old store.new }
    {
        match first_ended(&self.children, &self.running, self.calls, store) {
            Some(at) => {
                let number = self.running.remove(at);
                let place = number as usize - 1;
                self.calls = fewer(self.calls, &self.children[place]);
                self.children[place].end(store);
                Some(Child { number })
            }
            None => None,
        }
    }

    /// Returns `Ready` exactly if the scope is closed and no child is open.
    pub fn poll(&self) -> Poll<()>
        ensures ready { (result ≡ polls.Ready tt) ↔ ((self.now.closed ≡ true) × (numbers_where is_open 1 self.now.children ≡ [])) }
    {
        if self.closed && self.running.is_empty() {
            Poll::Ready(())
        } else {
            Poll::Pending
        }
    }

    /// Returns the value of a call that has ended; none exactly for each other child.
    pub fn value(&self, child: Child) -> Option<u64>
        ensures { result ≡ option_and_then value_in (numbered self.now.children child.number) }
    {
        kept_at(&self.children, child.number)?.value()
    }

    /// Returns the number of the thread of a call that is open, by which labels name it; none exactly for each other child.
    pub fn thread(&self, child: Child) -> Option<u64>
        ensures { result ≡ option_and_then thread_in (numbered self.now.children child.number) }
    {
        kept_at(&self.children, child.number)?.thread()
    }
}
