//! What a nursery keeps of its children.
ghost use Rattle.std.specs.Prelude.{◌≡◌, true};
ghost use Rattle.machine_data.specs.declared.component.Component.{Component};
ghost use Rattle.machine_data.specs.declared.component.HostDef.{HostDef};
ghost use Rattle.machine_data.specs.declared.records.Turn.{Turn};
ghost use Rattle.task_nursery.specs.Children.{WasSpawned, aborted_by, ended, has_ended, is_open_call, left_by, thread_in, value_in};
ghost use Rattle.task_store.specs.Changes.{ChangesCore};
ghost use Rattle.core_primitives.specs.Groups.{IsAsked};
ghost use Rattle.task_store.specs.Hosts.{HoldsHosts};
ghost use Rattle.ops_turns.specs.Turn.{CoreInOrder};
ghost use Rattle.core_primitives.specs.StateView.{on_core};

use core_primitives::ResultPrimitives;
use futures::task::Poll;
use task_loop::{Func, FuncCallConcurrent};
use task_store::{HostWork, SpawnHandle, Store};

/// A child of a nursery, by its number, from 1 in the order in which they were made.
#[derive(Clone, Copy)]
pub struct Child {
    pub number: u32,
}

/// What is kept of a child.
#[derive(Drop)]
pub enum Kept {
    /// A call of this export that hasn't ended.
    Call(Func, FuncCallConcurrent),
    /// A call that has ended, with its value.
    Returned(u64),
    /// A work that hasn't ended.
    Work(SpawnHandle),
    /// A work that has ended.
    Ended,
}

impl Kept {
    /// Returns whether it is a call that is open.
    pub(crate) fn is_open_call(&self) -> bool
        ensures { result ≡ is_open_call self.now }
    {
        matches!(self, Kept::Call(..))
    }

    /// Returns the value of a call that has ended.
    pub(crate) fn value(&self) -> Option<u64>
        ensures { result ≡ value_in self.now }
    {
        match self {
            Kept::Returned(value) => Some(*value),
            _ => None,
        }
    }

    /// Returns the number of the thread of a call that is open.
    pub(crate) fn thread(&self) -> Option<u64>
        ensures { result ≡ thread_in self.now }
    {
        match self {
            Kept::Call(_, call) => Some(call.thread()),
            _ => None,
        }
    }

    /// Returns whether it is open and has ended in the store.
    pub(crate) fn has_ended<T, H: HostWork>(&self, store: &mut Store<T, H>) -> bool
        requires spawned { WasSpawned self.now store.old.state }
        requires hosts { HoldsHosts H.course store.old }
        ensures answer { result ≡ has_ended store.old.state.core self.now }
        ensures rest { store.new ≡ record store.old { works = store.new.works } }
        ensures hosts { HoldsHosts H.course store.new }
    {
        match self {
            Kept::Call(_, call) => store.state.result(call.thread()).is_some(),
            Kept::Work(work) => matches!(work.poll(store), Poll::Ready(())),
            Kept::Returned(_) | Kept::Ended => false,
        }
    }

    /// Ends a child that has ended in the store. The value of a call is taken from the store.
    pub(crate) fn end<T, H: HostWork>(&mut self, store: &mut Store<T, H>)
        requires ended { has_ended store.old.state.core self.old ≡ true }
        ensures kept { self.new ≡ ended store.old.state.core self.old }
        ensures state { store.new.state ≡ on_core (left_by self.old) store.old.state }
        ensures rest { store.new ≡ record store.old { state = store.new.state } }
        ensures order { (c : Component) (p : Turn) → CoreInOrder c p store.old.state.core → CoreInOrder c p store.new.state.core }
        ensures groups { IsAsked store.old.state → IsAsked store.new.state }
        ensures hosts { (course : H → HostDef) → HoldsHosts course store.old → HoldsHosts course store.new }
    {
        let now = match self {
            Kept::Call(func, call) => match func.finish_call_concurrent(store, call) {
                Poll::Ready(value) => Kept::Returned(value),
                Poll::Pending => unreachable!(),
            },
            Kept::Work(_) => Kept::Ended,
            Kept::Returned(_) | Kept::Ended => unreachable!(),
        };
        *self = now;
    }

    /// Asks a work that is open to end.
    pub(crate) fn abort<T, H: HostWork>(&self, store: &mut Store<T, H>)
        requires spawned { WasSpawned self.now store.old.state }
        requires hosts { HoldsHosts H.course store.old }
        ensures state { ChangesCore (aborted_by self.now) store.old store.new }
        ensures order { (c : Component) (p : Turn) → CoreInOrder c p store.old.state.core → CoreInOrder c p store.new.state.core }
        ensures hosts { HoldsHosts H.course store.new }
    {
        if let Kept::Work(work) = self {
            let _found = work.abort(store);
        }
    }
}
