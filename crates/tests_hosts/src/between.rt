//! Calls between runs in a store with a hook.
ghost use Rattle.std.specs.Prelude.{◌≡◌, IsSome};
ghost use Rattle.machine_data.specs.Maps.{get};
ghost use Rattle.ops_turns.specs.Turn.{given};

use crate::driven::{ENTER, START, Watched, watched};
use core_primitives::{PlacePrimitives, View};
use machine_data::{ExportKind, Place, Trap};
use ops_state::{CurrentThread, is_live};
use std::alloc::Global;
use std::cell::Cell;
use std::process::Abort;
use task_loop::{TaskError, new_guest_task, set_thread};

// What comes of a task that is begun, and whose thread is to run then.
#[derive(Clone, Copy, PartialEq, Eq)]
enum Begun {
    // The hook refused the one or the other.
    NotMade,
    NotRun,
    Runs,
    Otherwise,
}

// It is begun without a caller. Where its thread isn't to run, none does.
fn begins_and_runs(store: &mut Watched<'_>) -> Begun
    requires there { IsSome (get store.old.state.core.instances 0) }
    requires given { given store.old.state.core ≡ 0 }
{
    let id = match new_guest_task(store, ExportKind::Callback, 0, None) {
        Ok(id) => id,
        Err(TaskError::Trap(Trap::HookFailed)) => return Begun::NotMade,
        Err(_) => return Begun::Otherwise,
    };
    if !is_live(&store.state, id) {
        return Begun::Otherwise;
    }
    let Some(Place::New) = store.state.place(id.thread) else {
        return Begun::Otherwise;
    };
    let None = store.state.current() else {
        return Begun::Otherwise;
    };
    match set_thread(store, CurrentThread::Guest(id)) {
        Ok(CurrentThread::None) if store.state.current().is_some() => Begun::Runs,
        Err(TaskError::Trap(Trap::HookFailed)) if store.state.current().is_none() => Begun::NotRun,
        _ => Begun::Otherwise,
    }
}

// A hook that fails at this notice lets it result in this, and is told just that.
fn results_in(rt: &impl Abort, alloc: Global, fails: u64, want: Begun, wanted: u64) {
    let told = Cell::new(0);
    let mut store = watched(rt, alloc, &told, 100, fails);
    let begun = begins_and_runs(&mut store);
    assert!(rt; begun == want && told.get() == wanted);
}

#[test]
fn a_hook_may_refuse_a_task_and_its_turn(rt: HostRuntime) {
    results_in(&rt, rt.alloc(), 0, Begun::Runs, 11_21);
    results_in(&rt, rt.alloc(), START + 1, Begun::NotMade, 11);
    results_in(&rt, rt.alloc(), ENTER + 1, Begun::NotRun, 11_21);
}
