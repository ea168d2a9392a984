use std::alloc::Global;
use task_store::{Access, Project, Store, Whole};

fn store(alloc: Global, concurrent: bool) -> Store<u8, u8> {
    Store::new(alloc, 5, concurrent, 1)
}

#[test]
fn a_store_has_its_limits(rt: HostRuntime) {
    let mut alone = store(rt.alloc(), false);
    assert!(rt; alone.concurrent_resource_table().is_none());
    let mut store = store(rt.alloc(), true);
    assert!(rt; store.max_component_handles() == 100_000);
    store.set_max_component_handles(7);
    assert!(rt; store.max_component_handles() == 7);
    assert!(rt; store.concurrent_resource_table().is_some());
}

#[test]
fn a_table_has_the_capacity_of_its_store(rt: HostRuntime) {
    let mut store: Store<u8, u8> = Store::new(rt.alloc(), 5, true, 1);
    assert!(rt; store.given() == 0);
    store.set_table_capacity(4);
    let Some(table) = store.concurrent_resource_table() else {
        panic!(rt; "a table")
    };
    assert!(rt; table.max_capacity == 4 && table.len == 0);
}

#[test]
fn access_lends_the_store(rt: HostRuntime) {
    let mut store = store(rt.alloc(), true);
    let Ok(run) = store.begin_run() else {
        panic!(rt; "a run")
    };
    assert!(rt; store.running() && !store.trapped());
    store.end_run(run);
    assert!(rt; !store.running());
    let mut access: Access<'_, u8, Whole, u8> = Access::new(&mut store);
    access.as_context_mut().set_trapped();
    assert!(rt; access.as_context().trapped());
    let mut value = 5;
    *Whole::project(&mut value) = 6;
    assert!(rt; value == 6);
}
