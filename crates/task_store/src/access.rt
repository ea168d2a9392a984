ghost use Rattle.std.specs.Prelude.{◌≡◌, ◌<◌, ◌^◌};
ghost use Rattle.std.specs.Borrow.{Lends, sem};
ghost use Rattle.task_store.specs.PartLending.{LendsPart, LendsStore};
ghost use Rattle.task_store.specs.Spawns.{Spawns};
ghost use Rattle.ops_turns.specs.Turn.{given};

use crate::spawn::SpawnHandle;
use crate::store::Store;
use ops_state::TaskError;
use std::marker::PhantomData;
use store_works::AccessorTask;
use task_group::{NoHook, TaskGroupHook};

/// A part of a host's value.
pub trait Project<T> {
    type Data;

    ghost part: { T → Self.Data };

    // The value with this part in place of its own.
    ghost with_part: { T → Self.Data → T };

    /// Returns the part, for writing: what is written to it is written to the value.
    fn project(value: &mut T) -> &mut Self::Data
        ensures* writes_back { sem 𝓛 (Lends T.row Self.Data.row value.entry result (with_part value.old)) }
        ensures value { result.now ≡ part value.old };
}

/// The whole of a host's value.
#[derive(Drop)]
pub struct Whole;

impl<T> Project<T> for Whole {
    type Data = T;

    ghost part = { λ value. value };

    ghost with_part = { λ _ part. part };

    /// Returns the value itself.
    fn project(value: &mut T) -> &mut T {
        value
    }
}

/// A store that is lent to a host's code, which looks at the part `P` of the host's value.
#[derive(Drop)]
pub struct Access<'a, T, P, H, G: TaskGroupHook = NoHook> {
    pub store: &'a mut Store<T, H, G>,
    part: PhantomData<P>,
}

impl<'a, T, P, H, G: TaskGroupHook> Access<'a, T, P, H, G> {
    /// Makes an access to the store.
    pub fn new(store: &'a mut Store<T, H, G>) -> Self
        ensures { result.store ≡ store.entry }
    {
        Access {
            store,
            part: PhantomData,
        }
    }

    /// Returns the store.
    pub fn as_context(&self) -> &Store<T, H, G>
        ensures { result.now ≡ self.now.store.now }
    {
        self.store
    }

    /// Returns the store, for writing: what is written to it is written to the store behind the access.
    pub fn as_context_mut(&mut self) -> &mut Store<T, H, G>
        ensures* writes_back { sem 𝓛 (LendsStore T.row P.row H.row G.row G.TaskGroupHook self.entry result) }
        ensures value { result.now ≡ self.old.store.now }
    {
        self.store
    }

    /// Returns the host's value, for writing.
    pub fn data_mut(&mut self) -> &mut T
        ensures* writes_back { sem 𝓛 (LendsPart T.row P.row H.row G.row G.TaskGroupHook T.row self.entry result (λ _ value. value)) }
        ensures value { result.now ≡ self.old.store.now.value }
    {
        let store = self.as_context_mut();
        store.data_mut()
    }

    /// Names the projection, for an accessor that is made with it.
    pub fn getter(&self) -> PhantomData<P>
        ensures { result ≡ self.now.part }
    {
        self.part
    }
}

impl<'a, T, P: Project<T>, H, G: TaskGroupHook> Access<'a, T, P, H, G> {
    /// Returns the part of the host's value, for writing.
    pub fn get(&mut self) -> &mut P::Data
        ensures* writes_back { sem 𝓛 (LendsPart T.row P.row H.row G.row G.TaskGroupHook P.Data.row self.entry result P.with_part) }
        ensures value { result.now ≡ P.part self.old.store.now.value }
    {
        let value = self.data_mut();
        P::project(value)
    }
}

impl<'a, T, P, H: AccessorTask<T>, G: TaskGroupHook> Access<'a, T, P, H, G> {
    /// Spawns a work in the store, as `Store::spawn` does.
    pub fn spawn(&mut self, work: H) -> Result<SpawnHandle, TaskError>
        requires given { given self.old.store.now.state.core < 2 ^ 61 }
        ensures same { self.new.store.ghost_name ≡ self.old.store.ghost_name }
        ensures spawns { Spawns H.course work result self.old.store.now self.new.store.now }
    {
        self.store.spawn(work)
    }
}
