//! The thread that runs.
ghost use Rattle.laws_order.specs.KeptOrder.{TurnsInOrder};
ghost use Rattle.std.specs.Prelude.{◌≡◌, IfOk, OnErr};
ghost use Rattle.ops_state.specs.Currents.{IsCurrent, LeavesNobody, MayRun, left_for, now_runs, number_in, runner, thread_in, LosesNoWakeFor};
ghost use Rattle.core_primitives.specs.StateView.{on_core};
ghost use Rattle.laws_order.specs.WakesKept.{KeepsWakes};

use crate::error::TaskError;
use crate::name_calls::QualifiedThreadId;
use core_primitives::{PlaceId, Primitives, ThreadId};
use machine_data::Place;

/// Which thread runs. No thread runs while the loop polls a work of the host.
#[derive(Clone, Copy, PartialEq, Eq)]
pub enum CurrentThread {
    Guest(QualifiedThreadId),
    None,
}

// The thread that runs, with its call.
fn current_thread<W: Primitives>(w: &W) -> CurrentThread
    ensures { IsCurrent (W.view w.now) result }
{
    match w.current() {
        Some(thread) => CurrentThread::Guest(QualifiedThreadId {
            task: w.task_of(thread),
            thread,
        }),
        None => CurrentThread::None,
    }
}

// The thread's id, if one is to run.
fn id_in(thread: CurrentThread) -> Option<ThreadId>
    ensures { result ≡ thread_in thread }
{
    match thread {
        CurrentThread::Guest(id) => Some(id.thread),
        CurrentThread::None => None,
    }
}

// A thread that runs, and isn't the one that is to run, is suspended.
fn leave<W: Primitives>(w: &mut W, thread: CurrentThread)
    ensures { W.view w.new ≡ on_core (left_for (runner (W.view w.old)) (number_in (W.view w.old) thread)) (W.view w.old) }
{
    let Some(old) = w.current() else {
        return;
    };
    let stays = match id_in(thread) {
        Some(new) => w.number(new) == w.number(old),
        None => false,
    };
    if !stays && matches!(w.place(old), Some(Place::Running)) {
        w.set_place(old, PlaceId::Suspended);
    }
}

// The thread that ran, if it isn't the one that is to run, is suspended, and that one runs.
fn pass_to<W: Primitives>(w: &mut W, thread: CurrentThread)
    requires { MayRun (W.view w.old) thread }
    ensures { W.view w.new ≡ now_runs thread (W.view w.old) }
{
    leave(w, thread);
    let id = id_in(thread);
    if let Some(id) = id {
        w.set_place(id, PlaceId::Running);
    }
    w.set_current(id);
}

/// Changes the thread that runs, or lets none run, and returns the thread that ran. One that ran and isn't named by the new one is
/// suspended. The new one has no entry, is neither waiting nor blocked nor behind another, and is under none but the thread that
/// ran; a thread that is suspended by the call has no callers at its foot. It is refused by nothing. No wake is lost by it where
/// the thread that is suspended isn't inside a wait, and the one that runs wasn't woken by a delivery. Order goes over from a turn
/// of the one to a turn of the other, where that one may be resumed.
pub fn set_thread<W: Primitives>(
    w: &mut W,
    thread: CurrentThread,
) -> Result<CurrentThread, TaskError>
    requires may { MayRun (W.view w.old) thread }
    requires leaves { LeavesNobody (runner (W.view w.old)) (number_in (W.view w.old) thread) (W.view w.old).core }
    ensures answer { IfOk result (λ before. IsCurrent (W.view w.old) before) }
    ensures never { OnErr result ⊥ }
    ensures new { W.view w.new ≡ now_runs thread (W.view w.old) }
    ensures wakes { LosesNoWakeFor thread (W.view w.old) → KeepsWakes (W.view w.old).core (W.view w.new).core }
    ensures order { TurnsInOrder (runner (W.view w.old)) (number_in (W.view w.old) thread) (W.view w.old).core (W.view w.new).core }
{
    let before = current_thread(w);
    pass_to(w, thread);
    Ok(before)
}
