//! A slot for a store, which a host passes on from call to call.
ghost use Rattle.std.specs.Prelude.{◌≡◌, cond};
ghost use Rattle.task_store.specs.Called.{CalledAtTwo, TakesTwo};
ghost use Rattle.task_store.specs.Slots.{Gets, MayTry, OnStore, Tries, held_store, taken, trap_of};

use crate::store::Store;
use machine_data::Trap;
use std::mem;

/// Why a slot gives no store.
#[derive(Clone, Copy, PartialEq, Eq)]
pub enum SlotError {
    /// A caller further out has taken it.
    Taken,
    /// There is none.
    Absent,
}

impl SlotError {
    /// Returns the refusal that this is: 23 or 24.
    pub fn trap(self) -> Trap
        ensures { result ≡ trap_of self }
    {
        match self {
            SlotError::Taken => Trap::StoreTaken,
            SlotError::Absent => Trap::StoreAbsent,
        }
    }
}

// What a slot holds.
#[derive(Drop)]
pub(crate) enum Held<'a, T, H> {
    Absent,
    Taken,
    Store(&'a mut Store<T, H>),
}

/// A place for a store that a host hands on to what it calls. Whoever has the slot takes the store for a
/// while; in the meantime the slot says that it is taken. So nobody finds a store that another is just changing.
#[derive(Drop)]
pub struct StoreSlot<'a, T, H> {
    pub(crate) held: Held<'a, T, H>,
}

/// What a slot has.
#[derive(Drop)]
pub enum TryGet<'a, T, H> {
    /// No store.
    None,
    /// A store, which somebody has taken.
    Taken,
    /// This store.
    Some(&'a mut Store<T, H>),
}

// What a slot has that holds no store, for as long as it could have held one.
fn without_store<'a, T, H>(slot: &StoreSlot<'a, T, H>, taken: bool) -> TryGet<'a, T, H>
    ensures { result ≡ cond taken TryGet.Taken TryGet.None }
{
    // only the contract speaks of `slot`
    let _slot = slot;
    if taken { TryGet::Taken } else { TryGet::None }
}

impl<'a, T, H> StoreSlot<'a, T, H> {
    /// Makes a slot without a store.
    pub fn absent() -> Self
        ensures { result.held ≡ Held.Absent }
    {
        StoreSlot { held: Held::Absent }
    }

    /// Makes a slot with this store.
    pub fn set(store: &'a mut Store<T, H>) -> Self
        ensures { result.held ≡ Held.Store store.entry }
    {
        StoreSlot {
            held: Held::Store(store),
        }
    }

    /// Returns the store, given back. None if there is none, or where it is taken.
    pub fn into_store(self) -> Option<&'a mut Store<T, H>>
        ensures { result ≡ held_store self.entry.held }
    {
        let held = self.held;
        match held {
            Held::Absent => None,
            Held::Taken => None,
            Held::Store(store) => Some(store),
        }
    }

    /// Calls `f` with what the slot has, and with the slot, which is taken meanwhile where there is a
    /// store. The slot then has what it had before.
    pub fn try_get<R, F: FnOnce(&mut TryGet<'_, T, H>, &mut StoreSlot<'_, T, H>) -> R>(
        &mut self,
        f: F,
    ) -> R
        requires callable { MayTry self.old.held (TakesTwo F.FnOnce f) }
        ensures { Tries self.old.held self.new.held (λ x y z. CalledAtTwo F.FnOnce f x y result z) }
    {
        match mem::replace(&mut self.held, Held::Taken) {
            Held::Absent => {
                self.held = Held::Absent;
                let mut none = without_store(self, false);
                let result = f(&mut none, self);
                self.held = Held::Absent;
                result
            }
            Held::Taken => {
                let mut taken = without_store(self, true);
                let result = f(&mut taken, self);
                self.held = Held::Taken;
                result
            }
            Held::Store(store) => {
                let mut some = TryGet::Some(store);
                let result = f(&mut some, self);
                // Taken apart, so that it is known what was left in the store.
                if let TryGet::Some(_left) = some {}
                self.held = Held::Store(store);
                result
            }
        }
    }

    /// Calls `f` with the store, and with the slot, which is taken meanwhile. The slot then has the
    /// store as `f` left it. Refused exactly where the slot has no store, or it is taken.
    pub fn get<R, F: FnOnce(&mut Store<T, H>, &mut StoreSlot<'_, T, H>) -> R>(
        &mut self,
        f: F,
    ) -> Result<R, SlotError>
        requires callable { OnStore self.old.held (λ a. TakesTwo F.FnOnce f a.now taken) }
        ensures { Gets self.old.held result self.new.held (λ a r b. CalledAtTwo F.FnOnce f a.now taken r b.now) }
    {
        match mem::replace(&mut self.held, Held::Taken) {
            Held::Absent => {
                self.held = Held::Absent;
                Err(SlotError::Absent)
            }
            Held::Taken => Err(SlotError::Taken),
            Held::Store(store) => {
                let result = f(store, self);
                self.held = Held::Store(store);
                Ok(result)
            }
        }
    }
}
