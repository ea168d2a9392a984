use core_state::TaskCore;
use machine_data::Version;
use task_store::{ScriptedHost, Store};

#[test]
fn a_new_store_takes_the_rules_of_version_two(rt: HostRuntime) {
    let mut store: Store<u8, ScriptedHost> = Store::new(rt.alloc(), 5, true, 1);
    assert!(rt; store.state.rules() == Version::One);
    store.set_rules(Version::Two);
    assert!(rt; store.state.rules() == Version::Two);
}

#[test]
fn a_new_core_takes_the_rules_of_version_two(rt: HostRuntime) {
    let mut core = TaskCore::new(rt.alloc());
    assert!(rt; core.rules() == Version::One);
    core.set_rules(Version::Two);
    assert!(rt; core.rules() == Version::Two);
}
