//! What a host reads of a store, and sets.
ghost use Rattle.std.specs.Prelude.{◌≡◌, ◌-◌, ◌==◌, ◌≤◌, min, true};
ghost use Rattle.machine_data.specs.Maps.{size};
ghost use Rattle.machine_data.specs.Read.{table_use};
ghost use Rattle.task_store.specs.Data.{is_empty_state};

use crate::store::{ComponentInstanceId, Store};
use core_primitives::{QueuePrimitives, View, WorkPrimitives};
use task_group::TaskGroupHook;

/// An instance of a store, as a host names it: its place in the component is 0, since each instance
/// here is a component's instance of its own.
#[derive(Clone, Copy, PartialEq, Eq)]
pub struct RuntimeInstance {
    pub instance: ComponentInstanceId,
    pub index: u32,
}

/// An instance and the store that it is of, by the number by which the host knows the store.
#[derive(Clone, Copy, PartialEq, Eq)]
pub struct StoreComponentInstanceId {
    pub store: u64,
    pub instance: ComponentInstanceId,
}

impl StoreComponentInstanceId {
    /// Returns whether the instance is of the store with this number.
    pub fn belongs_to(&self, store: u64) -> bool
        ensures { result ≡ (self.now.store == store) }
    {
        self.store == store
    }
}

impl<T, H, G: TaskGroupHook> Store<T, H, G> {
    /// Returns whether the store's calls may run beside one another.
    pub fn is_concurrent(&self) -> bool
        ensures { result ≡ self.now.concurrent }
    {
        self.concurrent
    }

    /// Returns the number of the instance that is made next, which is the number of instances.
    pub fn next_component_instance_id(&self) -> ComponentInstanceId
        ensures { result.0 ≡ min (size self.now.state.core.instances) 4294967295 }
    {
        ComponentInstanceId(self.state.instances().min(4294967295) as u32)
    }

    /// Lowers a count of what an allocator has given out by the number of instances, which it isn't
    /// below.
    pub fn decrement_allocator_resources(&self, count: &mut u32)
        requires { min (size self.now.state.core.instances) 4294967295 ≤ count.old }
        ensures { count.new ≡ count.old - min (size self.now.state.core.instances) 4294967295 }
    {
        *count -= self.next_component_instance_id().0;
    }

    /// Returns how much a call of a host may copy, in bytes: the last value set, and 134,217,728 in a new store. Nothing here
    /// spends it.
    pub fn hostcall_fuel(&self) -> usize
        ensures { result ≡ self.now.fuel }
    {
        self.fuel
    }

    /// Sets how much a call of a host may copy, in bytes.
    pub fn set_hostcall_fuel(&mut self, fuel: usize)
        ensures { self.new ≡ record self.old { fuel = fuel } }
    {
        self.fuel = fuel;
    }

    /// Returns how many entries the table of a concurrent store has.
    pub fn concurrent_state_table_size(&self) -> u64
        requires { self.now.concurrent ≡ true }
        ensures { result ≡ table_use self.now.state.core }
    {
        self.state.used()
    }

    /// Returns whether nothing is left in a concurrent store: its table has no entry, so no thread is held, no handle is live, no
    /// entry is at a mark, no thread runs, and no work of the host is live.
    pub fn concurrent_state_empty(&self) -> bool
        requires { self.now.concurrent ≡ true }
        ensures { result ≡ is_empty_state self.now.state }
    {
        self.state.used() == 0
            && self.state.live_handles() == 0
            && self.state.next_entry().is_none()
            && self.state.current().is_none()
            && !self.state.has_live_work()
    }
}
