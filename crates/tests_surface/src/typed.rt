//! Calls that are polled, and calls with typed parameters.
ghost use Rattle.std.specs.Prelude.{◌≡◌, IfSome, IsSome, None};
ghost use Rattle.task_loop.specs.LoopCalls.{callee_of};
ghost use Rattle.machine_rules.specs.Scripts.{export_at};
ghost use Rattle.core_primitives.specs.Groups.{IsAsked};
ghost use Rattle.task_store.specs.Hosts.{HoldsHosts};
ghost use Rattle.ops_turns.specs.Turn.{CoreInOrder, given, running_of};
ghost use Rattle.ops_turns.specs.WellFormed.{IsWellFormed};

use crate::drive::{CALLEE, Host, component, store};
use futures::task::Poll;
use machine_data::Turn;
use std::process::Abort;
use task_loop::{
    Component, FromWord, Outcome, Trace, TypedFunc, TypedFuncCallConcurrent, Words, run_concurrent,
};
use task_store::{HostWork, ScriptedHost, Store};

// Drives the store until nothing goes on.
fn drive(
    rt: &impl Abort,
    alloc: std::alloc::Global,
    component: &Component,
    store: &mut Store<(), ScriptedHost>,
)
    requires covered { IsWellFormed component.now }
    requires order { CoreInOrder component.now Turn.Main store.old.state.core }
    requires given { given store.old.state.core ≡ 2 }
    requires current { running_of store.old.state ≡ None }
    requires hosts { HoldsHosts ⟦<ScriptedHost as HostWork>⟧.course store.old }
    requires groups { IsAsked store.old.state }
{
    let Ok(mut run) = run_concurrent(store, false) else {
        panic!(rt; "a run")
    };
    let mut main = Host { answer: None };
    let mut trace = Trace::new(alloc);
    let outcome = run.drive(component, store, &mut main, 16, &mut trace);
    assert!(rt; matches!(outcome, Ok(Outcome::Idle)));
    run.end(store);
}

// A call of the export with one typed parameter.
fn called(
    rt: &impl Abort,
    component: &Component,
    store: &mut Store<(), ScriptedHost>,
    func: &TypedFunc<u64, u64>,
) -> TypedFuncCallConcurrent<u64, u64>
    requires func { func.now.func ≡ CALLEE }
    requires covered { IsWellFormed component.now }
    requires there { IsSome (export_at component.now (callee_of CALLEE)) }
    requires params { IfSome (export_at component.now (callee_of CALLEE)) (λ e. 1 ≡ e.params) }
    requires order { CoreInOrder component.now Turn.Main store.old.state.core }
    requires given { given store.old.state.core ≡ 0 }
    requires current { running_of store.old.state ≡ None }
    requires hosts { HoldsHosts ⟦<ScriptedHost as HostWork>⟧.course store.old }
    requires groups { IsAsked store.old.state }
    ensures order { CoreInOrder component.now Turn.Main store.new.state.core }
    ensures given { given store.new.state.core ≡ 2 }
    ensures current { running_of store.new.state ≡ None }
    ensures hosts { HoldsHosts ⟦<ScriptedHost as HostWork>⟧.course store.new }
    ensures groups { IsAsked store.new.state }
{
    match func.start_call_concurrent(component, store, 7) {
        Ok(call) => call,
        Err(_) => panic!(rt; "a call"),
    }
}

#[test]
fn a_typed_call_is_started_and_finished(rt: HostRuntime) {
    let component = component(&rt, rt.alloc());
    let mut store = store(&rt, rt.alloc(), &component);
    let func: TypedFunc<u64, u64> = TypedFunc::new(CALLEE);
    let mut call = called(&rt, &component, &mut store, &func);
    assert!(rt; call.group().number == 1);
    drive(&rt, rt.alloc(), &component, &mut store);
    let result = func.finish_call_concurrent(&mut store, &mut call);
    assert!(rt; matches!(result, Poll::Ready(9)));
}

#[test]
fn a_typed_call_is_polled(rt: HostRuntime) {
    let component = component(&rt, rt.alloc());
    let mut store = store(&rt, rt.alloc(), &component);
    let func: TypedFunc<u64, u64> = TypedFunc::new(CALLEE);
    let mut call = func.call_concurrent(7);
    assert!(rt; call.poll(&component, &mut store).is_pending());
}

#[test]
fn a_call_is_polled(rt: HostRuntime) {
    let component = component(&rt, rt.alloc());
    let mut store = store(&rt, rt.alloc(), &component);
    let Ok(mut call) = CALLEE.call_concurrent(rt.alloc(), &component, &[7]) else {
        panic!(rt; "a call")
    };
    assert!(rt; call.poll(&component, &mut store).is_pending());
}

#[test]
fn a_number_is_one_word(rt: HostRuntime) {
    assert!(rt; 5u64.word(0) == 5);
    assert!(rt; u64::from_word(6) == 6);
}
