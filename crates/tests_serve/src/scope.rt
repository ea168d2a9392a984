//! A scope of one call, and one of a work.
ghost use Rattle.std.specs.Prelude.{◌≡◌, ◌≤◌, length};
ghost use Rattle.tests_serve.specs.Stage.{IsReady, TakesNone, TakesOne};
ghost use Rattle.task_nursery.specs.Scope.{IsOf};
ghost use Rattle.task_store.specs.Hosts.{WorksNumbered};
ghost use Rattle.ops_turns.specs.Turn.{given};
ghost use Rattle.ops_turns.specs.WellFormed.{IsWellFormed};

use crate::stage::{NINE, Scoped, component, settle, store};
use futures::task::Poll;
use machine_data::HostDef;
use std::alloc::Global;
use std::process::Abort;
use task_loop::{Component, Outcome};
use task_nursery::{Child, Nursery, NurseryError};
use task_store::{FromHost, HostWork, ScriptedHost, Store};

// A main whose scope, of one call at once, has an open one.
fn with_one_call(
    rt: &impl Abort,
    alloc: Global,
    component: &Component,
    store: &mut Store<(), ScriptedHost>,
) -> Scoped
    requires covered { IsWellFormed component.now }
    requires takes { TakesOne component.now NINE }
    requires ready { IsReady ⟦<ScriptedHost as HostWork>⟧.course component.now store.old }
    requires given { given store.old.state.core ≡ 0 }
    ensures ready { IsReady ⟦<ScriptedHost as HostWork>⟧.course component.now store.new }
    ensures of { IsOf result.scope store.new.state }
    ensures full { TakesNone result.scope }
{
    let mut scope = Nursery::new(alloc, 1);
    let Ok(_) = scope.start(component, store, NINE, &[7]) else {
        panic!(rt; "a call")
    };
    Scoped { scope }
}

// What a start results in in a scope that takes no call.
fn refused(
    component: &Component,
    store: &mut Store<(), ScriptedHost>,
    main: &mut Scoped,
) -> Result<Child, NurseryError>
    requires covered { IsWellFormed component.now }
    requires takes { TakesOne component.now NINE }
    requires ready { IsReady ⟦<ScriptedHost as HostWork>⟧.course component.now store.old }
    requires of { IsOf main.old.scope store.old.state }
    requires full { TakesNone main.old.scope }
    ensures ready { IsReady ⟦<ScriptedHost as HostWork>⟧.course component.now store.new }
    ensures of { IsOf main.new.scope store.new.state }
    ensures full { TakesNone main.new.scope }
{
    main.scope.start(component, store, NINE, &[7])
}

// Closes the scope.
fn close(component: &Component, store: &mut Store<(), ScriptedHost>, main: &mut Scoped)
    requires ready { IsReady ⟦<ScriptedHost as HostWork>⟧.course component.now store.old }
    requires of { IsOf main.old.scope store.old.state }
    requires few { length main.old.scope.children ≤ 1 }
    ensures ready { IsReady ⟦<ScriptedHost as HostWork>⟧.course component.now store.new }
    ensures of { IsOf main.new.scope store.new.state }
    ensures full { TakesNone main.new.scope }
{
    let _component = component;
    main.scope.close(store);
}

#[test]
fn a_scope_of_one_call_is_full_and_then_closed(rt: HostRuntime) {
    let component = component(&rt, rt.alloc());
    let mut store = store(&rt, rt.alloc(), &component);
    let mut main = with_one_call(&rt, rt.alloc(), &component, &mut store);
    assert!(rt; matches!(main.scope.thread(Child { number: 1 }), Some(1)));
    let next = refused(&component, &mut store, &mut main);
    assert!(rt; matches!(next, Err(NurseryError::Full)));
    close(&component, &mut store, &mut main);
    let next = refused(&component, &mut store, &mut main);
    assert!(rt; matches!(next, Err(NurseryError::Closed)));
    assert!(rt; matches!(main.scope.poll(), Poll::Pending));
    let outcome = settle(&rt, rt.alloc(), &component, &mut store, &mut main);
    assert!(rt; matches!(outcome, Outcome::Idle));
    assert!(rt; matches!(main.scope.poll(), Poll::Pending));
    assert!(rt; matches!(main.scope.turn(&mut store), Some(Child { number: 1 })));
    assert!(rt; matches!(main.scope.value(Child { number: 1 }), Some(9)));
    assert!(rt; main.scope.turn(&mut store).is_none());
    assert!(rt; matches!(main.scope.poll(), Poll::Ready(())));
}

// A main in whose scope a work has begun that goes on for ever.
fn with_one_work(
    rt: &impl Abort,
    alloc: Global,
    component: &Component,
    store: &mut Store<(), ScriptedHost>,
) -> Scoped
    requires ready { IsReady ⟦<ScriptedHost as HostWork>⟧.course component.now store.old }
    requires given { given store.old.state.core ≡ 0 }
    requires numbered { WorksNumbered store.old.state.core }
    ensures ready { IsReady ⟦<ScriptedHost as HostWork>⟧.course component.now store.new }
    ensures of { IsOf result.scope store.new.state }
    ensures one { length result.scope.children ≡ 1 }
{
    let _component = component;
    let never = ScriptedHost::from_host(
        0,
        HostDef::Settled {
            polls: None,
            value: None,
        },
    );
    let mut scope = Nursery::new(alloc, 1);
    let Ok(_) = scope.spawn(store, never) else {
        panic!(rt; "a work")
    };
    Scoped { scope }
}

#[test]
fn the_works_of_a_scope_end_once_it_is_closed(rt: HostRuntime) {
    let component = component(&rt, rt.alloc());
    let mut store = store(&rt, rt.alloc(), &component);
    let mut main = with_one_work(&rt, rt.alloc(), &component, &mut store);
    close(&component, &mut store, &mut main);
    let outcome = settle(&rt, rt.alloc(), &component, &mut store, &mut main);
    assert!(rt; matches!(outcome, Outcome::Idle));
    assert!(rt; matches!(main.scope.turn(&mut store), Some(Child { number: 1 })));
    assert!(rt; main.scope.value(Child { number: 1 }).is_none());
    assert!(rt; matches!(main.scope.poll(), Poll::Ready(())));
}
