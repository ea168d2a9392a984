//! What the run, and what an aborter, has of the cell of a spawned work.
ghost use Rattle.std.specs.Option.{ForSome};
ghost use Rattle.std.specs.Prelude.{◌≡◌, ◌∷◌, [], map};
ghost use Rattle.beside_works.specs.Shared.{aborters_from, aborts_by, phases_in};
ghost use Rattle.task_abort.specs.Cells.{handle_cell, pass_cell, view_of, work_cell};
ghost use Rattle.task_abort.specs.Staged.{told};

use crate::log::Found;
use machine_data::Phase;
use task_abort::{Abortable, CallMade, JoinHandle, JoinPass};

/// What one aborter has of one cell: a handle, a pass of its own, and what its aborts found, in order.
#[derive(Drop)]
pub struct AborterPass {
    pub(crate) handle: JoinHandle,
    pub(crate) pass: JoinPass,
    // How many passes were split off before this one.
    pub(crate) place: usize,
    pub(crate) found: Vec<Phase>,
    ghost cell: { pass_cell pass ≡ handle_cell handle },
    ghost named: { (view_of pass).own.name ≡ place ∷ [] },
    ghost unsplit: { (view_of pass).own.splits ≡ 0 },
    ghost apart: { (view_of pass).met ≡ [] },
    ghost aborts: { (view_of pass).own.calls ≡ aborts_by (place ∷ []) found.items },
}

/// The cell of a spawned work, as the run that spawns it has it: both ends, the first pass, the list of the run's own calls, and what
/// the aborters found whose passes were met.
#[derive(Drop)]
pub struct SharedSpawn {
    pub(crate) handle: JoinHandle,
    // None once the work is over.
    pub(crate) work: Option<Abortable<()>>,
    pub(crate) pass: JoinPass,
    pub(crate) calls: Vec<CallMade>,
    // How many passes were split off.
    pub(crate) split: usize,
    pub(crate) met: Vec<Found>,
    ghost cell: { pass_cell pass ≡ handle_cell handle },
    ghost work_cell: { ForSome work (λ w. work_cell w ≡ handle_cell handle) },
    ghost first: { (view_of pass).own.name ≡ [] },
    ghost splits: { (view_of pass).own.splits ≡ split },
    ghost listed: { calls.items ≡ map told (view_of pass).own.calls },
    ghost met_each: { (view_of pass).met ≡ aborters_from 0 (phases_in met.items) },
}
