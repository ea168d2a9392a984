use futures::task::Poll;
use std::alloc::Global;
use task_store::{
    CallContext, ComponentInstanceId, ComponentTasksNotConcurrent, RuntimeInstance, ScriptedHost,
    Store, StoreComponentInstanceId, run_manual_drop_routines,
};

fn store(alloc: Global, concurrent: bool) -> Store<u8, ScriptedHost> {
    Store::new(alloc, 5, concurrent, 1)
}

#[test]
fn a_store_tells_its_instances(rt: HostRuntime) {
    let mut store: Store<u8, ScriptedHost> = Store::new(rt.alloc(), 5, true, 1);
    assert!(rt; store.next_component_instance_id() == ComponentInstanceId(0));
    assert!(rt; store.add_instance().is_ok());
    assert!(rt; store.next_component_instance_id() == ComponentInstanceId(1));
    let mut given_out = 3;
    store.decrement_allocator_resources(&mut given_out);
    assert!(rt; given_out == 2);
}

#[test]
fn a_store_tells_its_fuel(rt: HostRuntime) {
    let mut store = store(rt.alloc(), true);
    assert!(rt; store.is_concurrent());
    assert!(rt; store.hostcall_fuel() == 134_217_728);
    store.set_hostcall_fuel(9);
    assert!(rt; store.hostcall_fuel() == 9);
}

#[test]
fn a_new_store_is_empty(rt: HostRuntime) {
    let store: Store<u8, ScriptedHost> = Store::new(rt.alloc(), 5, true, 1);
    assert!(rt; store.concurrent_state_empty());
    assert!(rt; store.concurrent_state_table_size() == 0);
}

#[test]
fn an_instance_belongs_to_its_store(rt: HostRuntime) {
    let id = StoreComponentInstanceId {
        store: 7,
        instance: ComponentInstanceId(0),
    };
    assert!(rt; id.belongs_to(7) && !id.belongs_to(8));
}

#[test]
fn scopes_are_one_above_the_other(rt: HostRuntime) {
    let mut tasks = ComponentTasksNotConcurrent::new(rt.alloc());
    assert!(rt; tasks.enter_call().is_ok() && tasks.enter_call().is_ok());
    assert!(rt; tasks.set_call_context(1, CallContext { borrows: 4 }));
    assert!(rt; tasks.call_context(1).is_some_and(|x| x.borrows == 4));
    assert!(rt; tasks.call_context(2).is_none());
    assert!(rt; tasks.exit_call() && tasks.exit_call() && !tasks.exit_call());
}

#[test]
fn a_store_lets_go_what_it_holds(rt: HostRuntime) {
    let mut store = store(rt.alloc(), true);
    run_manual_drop_routines(rt.alloc(), &mut store);
    assert!(rt; store.trapped());
}

#[test]
fn a_quiet_store_is_ready(rt: HostRuntime) {
    let mut store: Store<u8, ScriptedHost> = Store::new(rt.alloc(), 5, true, 1);
    assert!(rt; store.next_component_instance_id() == ComponentInstanceId(0));
    assert!(rt; store.add_instance().is_ok());
    let instance = RuntimeInstance {
        instance: ComponentInstanceId(0),
        index: 0,
    };
    assert!(rt; matches!(store.poll_no_interesting_tasks(), Poll::Ready(())));
    assert!(rt;
        matches!(
            store.poll_ready_for_concurrent_call(instance),
            Poll::Ready(())
        )
    );
}
