//! An accessor: how a host's code reaches the store in a slot, and a part of the host's value.
ghost use Rattle.std.specs.Prelude.{◌≡◌, ◌<◌, ◌^◌, not};
ghost use Rattle.task_store.specs.Called.{CalledAtAccess, TakesAccess};
ghost use Rattle.task_store.specs.Slots.{Gets, OnStore, told_by};
ghost use Rattle.task_store.specs.Spawns.{SpawnsIn};
ghost use Rattle.machine_rules.specs.MainOps.{has_interesting, is_ready_for_call};
ghost use Rattle.task_store.specs.Polls.{ready_if};
ghost use Rattle.ops_turns.specs.Turn.{given};

use crate::access::Access;
use crate::data::RuntimeInstance;
use crate::slot::{Held, SlotError, StoreSlot};
use crate::spawn::SpawnHandle;
use futures::task::Poll;
use ops_state::TaskError;
use std::marker::PhantomData;
use std::mem;
use store_works::AccessorTask;

/// Reaches the store that a slot has, and the part `P` of its host's value.
#[derive(Clone, Copy)]
pub struct Accessor<T, P> {
    value: PhantomData<T>,
    part: PhantomData<P>,
}

/// Why no work was spawned.
#[derive(Drop)]
pub enum SpawnError<H> {
    /// The slot gave no store; the work comes back.
    Slot(SlotError, H),
    /// The store refused it.
    Task(TaskError),
}

impl<T, P> Accessor<T, P> {
    /// Makes an accessor with this projection.
    pub fn new(getter: PhantomData<P>) -> Self
        ensures { result.part ≡ getter }
    {
        Accessor {
            value: PhantomData,
            part: getter,
        }
    }

    /// Names the projection.
    pub fn getter(&self) -> PhantomData<P>
        ensures { result ≡ self.now.part }
    {
        self.part
    }

    /// Returns an accessor to the same stores with another projection.
    pub fn with_getter<Q>(&self, getter: PhantomData<Q>) -> Accessor<T, Q>
        ensures { result.part ≡ getter }
    {
        Accessor::new(getter)
    }

    /// Calls `f` with access to the slot's store. Refused exactly where the slot has none, or it is taken.
    pub fn with<R, H, F: FnOnce(&mut Access<'_, T, P, H>) -> R>(
        &self,
        slot: &mut StoreSlot<'_, T, H>,
        f: F,
    ) -> Result<R, SlotError>
        requires callable { OnStore slot.old.held (λ a. TakesAccess F.FnOnce f a.now) }
        ensures { Gets slot.old.held result slot.new.held (λ a r b. CalledAtAccess F.FnOnce f a.now r b.now) }
    {
        match mem::replace(&mut slot.held, Held::Taken) {
            Held::Absent => {
                slot.held = Held::Absent;
                Err(SlotError::Absent)
            }
            Held::Taken => Err(SlotError::Taken),
            Held::Store(store) => {
                let mut access = Access::new(store);
                let result = f(&mut access);
                slot.held = Held::Store(store);
                Ok(result)
            }
        }
    }

    /// Spawns a work in the slot's store, as `Store::spawn` does. Where the slot has none, or it is taken,
    /// the work comes back.
    pub fn spawn<H: AccessorTask<T>>(
        &self,
        slot: &mut StoreSlot<'_, T, H>,
        work: H,
    ) -> Result<SpawnHandle, SpawnError<H>>
        requires given { OnStore slot.old.held (λ a. given a.now.state.core < 2 ^ 61) }
        ensures { SpawnsIn H.course work slot.old.held result slot.new.held }
    {
        match &mut slot.held {
            Held::Absent => Err(SpawnError::Slot(SlotError::Absent, work)),
            Held::Taken => Err(SpawnError::Slot(SlotError::Taken, work)),
            Held::Store(store) => match store.spawn(work) {
                Ok(handle) => Ok(handle),
                Err(error) => Err(SpawnError::Task(error)),
            },
        }
    }

    /// Returns `Ready` exactly if no task is left that a host waits for, in the slot's store. It is main's op `quiet`.
    /// A host asks this before it ends, since a call that has returned may still be at work.
    pub fn poll_no_interesting_tasks<H>(
        &self,
        slot: &mut StoreSlot<'_, T, H>,
    ) -> Result<Poll<()>, SlotError>
        ensures answer { result ≡ told_by slot.old.held (λ s. ready_if (not (has_interesting s.state.core))) }
        ensures slot { slot.new ≡ slot.old }
    {
        match mem::replace(&mut slot.held, Held::Taken) {
            Held::Absent => {
                slot.held = Held::Absent;
                Err(SlotError::Absent)
            }
            Held::Taken => Err(SlotError::Taken),
            Held::Store(store) => {
                let answer = store.poll_no_interesting_tasks();
                slot.held = Held::Store(store);
                Ok(answer)
            }
        }
    }

    /// Returns `Ready` exactly if a call of the instance could start, in the slot's store. It is main's op `ready`. A call that is
    /// started before would only be held.
    pub fn poll_ready_for_concurrent_call<H>(
        &self,
        slot: &mut StoreSlot<'_, T, H>,
        instance: RuntimeInstance,
    ) -> Result<Poll<()>, SlotError>
        ensures answer { result ≡ told_by slot.old.held (λ s. ready_if (is_ready_for_call instance.instance.0 s.state.core)) }
        ensures slot { slot.new ≡ slot.old }
    {
        match mem::replace(&mut slot.held, Held::Taken) {
            Held::Absent => {
                slot.held = Held::Absent;
                Err(SlotError::Absent)
            }
            Held::Taken => Err(SlotError::Taken),
            Held::Store(store) => {
                let answer = store.poll_ready_for_concurrent_call(instance);
                slot.held = Held::Store(store);
                Ok(answer)
            }
        }
    }
}

/// What gives an accessor.
pub trait AsAccessor {
    type Data;

    type AccessorData;

    ghost use Rattle.task_store.specs.declared.accessor.Accessor.{Accessor};

    ghost accessor: { Self → Accessor Self.Data Self.AccessorData };

    /// Returns the accessor.
    fn as_accessor(&self) -> &Accessor<Self::Data, Self::AccessorData>
        ensures { result.now ≡ accessor self.now };
}

impl<T, P> AsAccessor for Accessor<T, P> {
    type Data = T;

    type AccessorData = P;

    ghost accessor = { λ a. a };

    fn as_accessor(&self) -> &Accessor<T, P> {
        self
    }
}

impl<A: AsAccessor> AsAccessor for &A {
    type Data = A::Data;

    type AccessorData = A::AccessorData;

    ghost accessor = { λ a. A.accessor a.now };

    fn as_accessor(&self) -> &Accessor<A::Data, A::AccessorData> {
        A::as_accessor(*self)
    }
}
