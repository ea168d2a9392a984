//! What another thread has of the cells that it aborts.
ghost use Rattle.std.specs.Prelude.{◌≡◌, ◌++◌, ◌+◌, ◌∷◌, [], IfOk, OnErr, OnOk, length};
ghost use Rattle.beside_works.specs.Views.{aborter_view, found_list, pass_cell_of, place_of};
ghost use Rattle.task_abort.specs.Cells.{handle_cell, pass_cell, view_of};
ghost use Rattle.task_abort.specs.PhaseLog.{new_caller};
ghost use Rattle.task_abort.specs.Rule.{Calls};
ghost use Rattle.task_abort.specs.declared.log.PhaseCall.TheVariants.{Abort};

use crate::cells::AborterPass;
use crate::log::add;
use machine_data::{NoMemory, Phase};
use std::alloc::Global;
use task_abort::{JoinHandle, JoinPass};

impl AborterPass {
    // A pass that was just split off.
    pub(crate) fn new(alloc: Global, handle: JoinHandle, pass: JoinPass, place: usize) -> Self
        requires cell { pass_cell pass ≡ handle_cell handle }
        requires own { (view_of pass).own ≡ new_caller (place ∷ []) }
        requires met { (view_of pass).met ≡ [] }
        ensures cell { pass_cell_of result ≡ handle_cell handle }
        ensures view { aborter_view result ≡ view_of pass }
        ensures place { place_of result ≡ place }
        ensures found { found_list result ≡ [] }
    {
        AborterPass {
            handle,
            pass,
            place,
            found: Vec::new(alloc),
        }
    }

    /// Aborts the work, and keeps the phase that it found. It is one atomic step. If it is out of memory for the list, nothing is
    /// done.
    pub fn abort(&mut self) -> Result<Phase, NoMemory>
        ensures cell { pass_cell_of self.new ≡ pass_cell_of self.old }
        ensures place { place_of self.new ≡ place_of self.old }
        ensures call { IfOk result (λ phase. Calls Abort (aborter_view self.old) phase (aborter_view self.new)) }
        ensures found { IfOk result (λ phase. found_list self.new ≡ found_list self.old ++ phase ∷ []) }
        ensures err { OnErr result ((aborter_view self.new ≡ aborter_view self.old) × (found_list self.new ≡ found_list self.old)) }
    {
        // The room comes first, so that each abort that was made is listed.
        let last = self.found.len();
        add(&mut self.found, Phase::Running)?;
        let phase = self.handle.abort(&mut self.pass);
        self.found[last] = phase;
        Ok(phase)
    }
}
