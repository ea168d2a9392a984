//! A store in a slot, and what an accessor does with it.
ghost use Rattle.std.specs.Prelude.{◌≡◌, ◌<◌, ◌^◌};
ghost use Rattle.store_works.specs.KeptWorks.{HoldsNone};
ghost use Rattle.core_records.specs.Seen.{nothing};
ghost use Rattle.ops_turns.specs.Turn.{given};

use futures::task::Poll;
use machine_data::{HostDef, Phase, Trap};
use std::alloc::Global;
use std::marker::PhantomData;
use task_store::{
    Access, Accessor, AsAccessor, ComponentInstanceId, FromHost, Project, RuntimeInstance,
    ScriptedHost, SlotError, SpawnError, SpawnHandle, Store, StoreSlot, TryGet, Whole,
};

// What a host counts.
#[derive(Drop)]
struct Totals {
    spawned: u64,
    asked: u64,
}

// How many works it spawned.
#[derive(Drop)]
struct Spawned;

impl Project<Totals> for Spawned {
    type Data = u64;

    ghost part = { λ value. value.spawned };

    ghost with_part = { λ value part. record value { spawned = part } };

    fn project(value: &mut Totals) -> &mut u64 {
        &mut value.spawned
    }
}

type Counted = Store<Totals, ScriptedHost>;

fn new_store(alloc: Global) -> Counted
    ensures state { result.state ≡ nothing }
    ensures works { HoldsNone result.works }
{
    let value = Totals {
        spawned: 0,
        asked: 0,
    };
    Store::new(alloc, value, true, 1)
}

fn work() -> ScriptedHost {
    ScriptedHost::from_host(
        0,
        HostDef::Settled {
            polls: Some(2),
            value: Some(7),
        },
    )
}

// Spawns a work, and counts it.
fn spawn(access: &mut Access<'_, Totals, Spawned, ScriptedHost>) -> Option<SpawnHandle>
    requires { given access.old.store.now.state.core < 2 ^ 61 }
{
    let spawned = access.get();
    *spawned = spawned.saturating_add(1);
    access.spawn(work()).ok()
}

#[test]
fn a_slot_gives_its_store_to_one_at_a_time(rt: HostRuntime) {
    let mut store = new_store(rt.alloc());
    let mut slot = StoreSlot::set(&mut store);
    let within = slot.get(|store, slot| (store.given(), slot.get(|_store, _slot| ())));
    assert!(rt; matches!(within, Ok((0, Err(SlotError::Taken)))));
    let tried = slot.try_get(|found, slot| {
        let found = matches!(found, TryGet::Some(_));
        (
            found,
            slot.try_get(|found, _slot| matches!(found, TryGet::Taken)),
        )
    });
    assert!(rt; matches!(tried, (true, true)));
    assert!(rt; slot.into_store().is_some());
    assert!(rt; SlotError::Taken.trap() == Trap::StoreTaken);
}

#[test]
fn a_slot_without_a_store_gives_none(rt: HostRuntime) {
    let mut slot: StoreSlot<'_, Totals, ScriptedHost> = StoreSlot::absent();
    let refused = slot.get(|_store, _slot| ());
    assert!(rt; matches!(refused, Err(SlotError::Absent)));
    let tried = slot.try_get(|found, slot| {
        let found = matches!(found, TryGet::None);
        (
            found,
            slot.try_get(|found, _slot| matches!(found, TryGet::None)),
        )
    });
    assert!(rt; matches!(tried, (true, true)));
    let accessor = Accessor::new(PhantomData::<Spawned>);
    let spawned = accessor.spawn(&mut slot, work());
    let Err(SpawnError::Slot(error, _work)) = spawned else {
        panic!(rt; "the work back")
    };
    assert!(rt; error.trap() == Trap::StoreAbsent);
    assert!(rt; slot.into_store().is_none());
}

#[test]
fn a_host_spawns_works_and_changes_its_value_by_an_accessor(rt: HostRuntime) {
    let mut store = new_store(rt.alloc());
    let accessor = Accessor::new(PhantomData::<Spawned>);
    let mut slot = StoreSlot::set(&mut store);
    let first = accessor.with(&mut slot, spawn);
    assert!(rt; matches!(first, Ok(Some(_))));
    let Some(store) = slot.into_store() else {
        panic!(rt; "the store")
    };
    assert!(rt; store.data().spawned == 1 && store.data().asked == 0);
}

#[test]
fn an_accessor_and_a_store_spawn(rt: HostRuntime) {
    let mut store = new_store(rt.alloc());
    let Ok(handle) = store.spawn(work()) else {
        panic!(rt; "a work")
    };
    assert!(rt; handle.poll(&mut store).is_pending());
    assert!(rt; matches!(handle.abort(&mut store), Phase::Running));
    let mut other = new_store(rt.alloc());
    let accessor = Accessor::new(PhantomData::<Whole>);
    let mut slot = StoreSlot::set(&mut other);
    assert!(rt; accessor.spawn(&mut slot, work()).is_ok());
}

#[test]
fn an_accessor_polls_its_store(rt: HostRuntime) {
    let mut store = new_store(rt.alloc());
    assert!(rt; store.next_component_instance_id() == ComponentInstanceId(0));
    assert!(rt; store.add_instance().is_ok());
    let instance = RuntimeInstance {
        instance: ComponentInstanceId(0),
        index: 0,
    };
    let whole = Accessor::new(PhantomData::<Whole>);
    let accessor = whole.with_getter(PhantomData::<Spawned>);
    let mut slot = StoreSlot::set(&mut store);
    let quiet = accessor.poll_no_interesting_tasks(&mut slot);
    assert!(rt; matches!(quiet, Ok(Poll::Ready(()))));
    let ready = (&accessor)
        .as_accessor()
        .poll_ready_for_concurrent_call(&mut slot, instance);
    assert!(rt; matches!(ready, Ok(Poll::Ready(()))));
    let _getter: PhantomData<Spawned> = accessor.as_accessor().getter();
}

#[test]
fn access_lends_the_value_and_its_part(rt: HostRuntime) {
    let mut store = new_store(rt.alloc());
    let mut access: Access<'_, Totals, Spawned, ScriptedHost> = Access::new(&mut store);
    let _getter: PhantomData<Spawned> = access.getter();
    access.data_mut().asked = 4;
    *access.get() = 3;
    assert!(rt; access.as_context().data().asked == 4);
    assert!(rt; store.data().spawned == 3);
}
