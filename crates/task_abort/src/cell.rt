//! The cell, the two ends that share it, and passes.
ghost use Rattle.std.specs.Prelude.{◌≡◌, false, []};
ghost use Rattle.task_abort.specs.PhaseLog.{IsFirst};
ghost use Rattle.task_abort.specs.Rule.{Knows};

use crate::log::PassView;
use crate::rule::OneLog;
use atomic_table::{Seat, Table};
use futures::task::{Source, Waker};
use std::alloc::Global;
use std::sync::{Arc, Mutex};

/// Who is woken by an abort, and who by a finish.
#[derive(Drop)]
pub struct Wakers {
    pub(crate) work: Option<Waker>,
    pub(crate) handle: Option<Waker>,
}

/// The word with the phase, and beside it the two wakers, of which no call without a runtime knows.
#[derive(Drop)]
pub struct PhaseCell {
    pub(crate) phase: Table<u8, PassView, (), OneLog, Global>,
    pub(crate) wakers: Mutex<Wakers>,
    pub(crate) aborts: Source,
    pub(crate) ends: Source,
    ghost one_word: { phase.shared.table_id.words ≡ 1 },
}

/// The end of a spawned work by which it is aborted and waited for. It may be used in any thread, and its calls take a
/// pass of its cell. Dropping it changes no phase.
#[derive(Drop)]
pub struct JoinHandle {
    pub(crate) cell: Arc<PhaseCell, Global>,
}

/// A work that can be aborted: a future, or any work that its owner polls. It is polled and finished with a pass of its
/// cell.
#[derive(Drop)]
pub struct Abortable<F> {
    pub(crate) cell: Arc<PhaseCell, Global>,
    pub(crate) future: F,
}

/// What one caller has seen and done at one cell. It has no bytes, is never copied, and can be given to another thread.
#[derive(Drop)]
pub struct JoinPass {
    pub(crate) seat: Seat<u8, PassView>,
    ghost bare: { seat.me.1 ≡ [] },
    ghost alive: { seat.me.0.spent ≡ false },
    ghost settled: { seat.me.0.heard ≡ [] },
    pub ghost knows: { Knows seat.me.0 },
}

/// The cell of a work whose owner has both its ends and its first pass, which is never split. Its calls are the atomic
/// steps of the calls of `JoinHandle` and `Abortable` with the same names. None of them takes a runtime, so no waker is
/// ever registered here, and dropping it wakes nobody and waits for nobody.
#[derive(Drop)]
pub struct OwnCell {
    pub(crate) phase: Table<u8, PassView, (), OneLog, Global>,
    pub(crate) pass: JoinPass,
    ghost one_word: { phase.shared.table_id.words ≡ 1 },
    ghost own: { pass.seat.table_id ≡ phase.shared.table_id },
    ghost first: { IsFirst pass.seat.me.0 },
}
