//! Starts that are refused, by a failing hook or as the store is trapped: what they answer, and what is left of the store.
ghost use Rattle.machine_data.specs.declared.scenario.Version.TheVariants as versions;
ghost use Rattle.std.specs.Prelude.{◌≡◌, ◌<◌, ◌^◌, IfSome, IsSome, Some, length, true};
ghost use Rattle.task_loop.specs.LoopCalls.{callee_of};
ghost use Rattle.machine_data.specs.Core.{fresh};
ghost use Rattle.machine_data.specs.declared.records.Turn.{Turn};
ghost use Rattle.core_records.specs.Seen.{nothing};
ghost use Rattle.machine_rules.specs.Scripts.{export_at};
ghost use Rattle.task_run.specs.Runnable.{IsRunnable};
ghost use Rattle.ops_turns.specs.Turn.{CoreInOrder, given};
ghost use Rattle.ops_turns.specs.WellFormed.{IsWellFormed};
ghost use Rattle.core_primitives.specs.StateView.{with_core};

use crate::driven::{START, Watched, watched};
use futures::task::Poll;
use machine_data::{Callee, Trap};
use ops_dispatch::export_def;
use std::alloc::Global;
use std::cell::Cell;
use std::process::Abort;
use task_loop::{Component, Func, Instance, TaskError, TypedFunc};
use task_run::{Scenario, read_scenario};

// An export that takes a word.
const ONE_EXPORT: &[u8] =
    b"scenario 1\nhandles 100000\ntable 1000000\nidle trap\ninstance a\nexport f callback 1\nret r0\nexit\nmain\nanswer 1\nend\n";

const F: Func = Func {
    instance: Instance { index: 0 },
    export: 0,
};

// How a call is started.
#[derive(Clone, Copy, PartialEq, Eq)]
enum Way {
    Plain,
    Typed,
    Polled,
    TypedPolled,
}

// Whether the component has that export, with one parameter.
fn takes_a_word(component: &Component) -> bool
    ensures there { result ≡ true → IsSome (export_at component.now (callee_of F)) }
    ensures params { result ≡ true → IfSome (export_at component.now (callee_of F)) (λ e. 1 ≡ e.params) }
{
    let callee = Callee {
        instance: 0,
        export: 0,
    };
    match export_def(component, callee) {
        Some(def) => def.params == 1,
        None => false,
    }
}

fn is_refused<A: Drop>(answer: Result<A, TaskError>, why: Trap) -> bool {
    match answer {
        Err(TaskError::Trap(trap)) => trap.number() == why.number(),
        _ => false,
    }
}

fn is_ready<A: Drop>(answer: Poll<Result<A, TaskError>>, why: Trap) -> bool {
    match answer {
        Poll::Ready(answer) => is_refused(answer, why),
        Poll::Pending => false,
    }
}

// Whether a start in this way is refused by this trap.
fn refuses(
    alloc: Global,
    component: &Component,
    store: &mut Watched<'_>,
    way: Way,
    why: Trap,
) -> bool
    requires covered { IsWellFormed component.now }
    requires there { IsSome (export_at component.now (callee_of F)) }
    requires params { IfSome (export_at component.now (callee_of F)) (λ e. 1 ≡ e.params) }
    requires order { (p : Turn) × CoreInOrder component.now p store.old.state.core }
    requires given { given store.old.state.core < 2 ^ 61 }
{
    let func: TypedFunc<u64, u64> = TypedFunc::new(F);
    match way {
        Way::Plain => is_refused(F.start_call_concurrent(component, store, &[7]), why),
        Way::Typed => is_refused(func.start_call_concurrent(component, store, 7), why),
        Way::Polled => match F.call_concurrent(alloc, component, &[7]) {
            Ok(mut call) => is_ready(call.poll(component, store), why),
            Err(_) => false,
        },
        Way::TypedPolled => is_ready(func.call_concurrent(7).poll(component, store), why),
    }
}

// Tries the refusals in a store in which nothing was made.
fn refuses_first(alloc: Global, scenario: &Scenario, store: &mut Watched<'_>, way: Way) -> bool
    requires runnable { IsRunnable scenario.now }
    requires one { length scenario.now.component.instances ≡ 1 }
    requires there { IsSome (export_at scenario.now.component (callee_of F)) }
    requires params { IfSome (export_at scenario.now.component (callee_of F)) (λ e. 1 ≡ e.params) }
    requires fresh { store.old.state ≡ with_core (fresh versions.One 1 100000 1000000) nothing }
{
    refuses(alloc, &scenario.component, store, way, Trap::HookFailed)
}

// The same in such a store that is trapped then.
fn refuses_trapped(alloc: Global, scenario: &Scenario, store: &mut Watched<'_>, way: Way) -> bool
    requires runnable { IsRunnable scenario.now }
    requires one { length scenario.now.component.instances ≡ 1 }
    requires there { IsSome (export_at scenario.now.component (callee_of F)) }
    requires params { IfSome (export_at scenario.now.component (callee_of F)) (λ e. 1 ≡ e.params) }
    requires fresh { store.old.state ≡ with_core (fresh versions.One 1 100000 1000000) nothing }
{
    store.set_trapped();
    refuses(
        alloc,
        &scenario.component,
        store,
        way,
        Trap::CannotEnterComponent,
    )
}

// A start in this way whose group the hook refuses. Nothing is made by it, and the store is trapped by those that aren't typed.
fn is_left(rt: &impl Abort, alloc: Global, way: Way) -> bool {
    let Ok(scenario) = read_scenario(alloc, ONE_EXPORT) else {
        panic!(rt; "a scenario")
    };
    assert!(rt; scenario.component.instances.len() == 1 && takes_a_word(&scenario.component));
    let told = Cell::new(0);
    let mut store = watched(rt, alloc, &told, 1_000_000, START + 1);
    let refused = refuses_first(alloc, &scenario, &mut store, way);
    let traps = matches!(way, Way::Plain | Way::Polled);
    let none = store.state.groups() == 0 && store.given() == 0;
    refused && none && store.trapped() == traps && told.get() == 11
}

// A start in this way in a trapped store: nothing is made by it, and the hook is told nothing.
fn is_kept_out(rt: &impl Abort, alloc: Global, way: Way) -> bool {
    let Ok(scenario) = read_scenario(alloc, ONE_EXPORT) else {
        panic!(rt; "a scenario")
    };
    assert!(rt; scenario.component.instances.len() == 1 && takes_a_word(&scenario.component));
    let told = Cell::new(0);
    let mut store = watched(rt, alloc, &told, 1_000_000, 0);
    let refused = refuses_trapped(alloc, &scenario, &mut store, way);
    refused && store.given() == 0 && told.get() == 0
}

#[test]
fn a_hook_may_refuse_a_start(rt: HostRuntime) {
    assert!(rt; is_left(&rt, rt.alloc(), Way::Plain));
    assert!(rt; is_left(&rt, rt.alloc(), Way::Typed));
}

#[test]
fn a_hook_may_refuse_the_first_poll(rt: HostRuntime) {
    assert!(rt; is_left(&rt, rt.alloc(), Way::Polled));
    assert!(rt; is_left(&rt, rt.alloc(), Way::TypedPolled));
}

#[test]
fn a_trapped_store_refuses_each_start(rt: HostRuntime) {
    assert!(rt; is_kept_out(&rt, rt.alloc(), Way::Plain));
    assert!(rt; is_kept_out(&rt, rt.alloc(), Way::Typed));
    assert!(rt; is_kept_out(&rt, rt.alloc(), Way::Polled));
    assert!(rt; is_kept_out(&rt, rt.alloc(), Way::TypedPolled));
}
