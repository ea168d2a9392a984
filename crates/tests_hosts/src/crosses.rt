//! Which types may be given to another thread, and which threads may share.
use machine_data::Component;
use store_works::ScriptedHost;
use task_abort::{Abortable, JoinHandle, JoinPass};
use task_loop::{RunConcurrent, Trace};
use task_run::Scenario;
use task_store::{Accessor, SpawnHandle, Store};

fn sends<X: Send>() {}

fn shares<X: Send + Sync>() {}

#[test]
fn values_cross_threads(rt: HostRuntime) {
    let _rt = rt;
    sends::<Store<u64, ScriptedHost>>();
    sends::<RunConcurrent>();
    sends::<Trace>();
    sends::<SpawnHandle>();
    sends::<JoinPass>();
    sends::<Abortable<u64>>();
    shares::<JoinHandle>();
    shares::<Accessor<u64, u64>>();
    shares::<Component>();
    shares::<Scenario>();
    shares::<ScriptedHost>();
}
