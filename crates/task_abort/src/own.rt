//! A cell that one owner has whole, and that wakes nobody.
ghost use Rattle.std.specs.Prelude.{◌≡◌, ◌↔◌, IfOk, true};
ghost use Rattle.task_abort.specs.Cells.{own_view, TellsComplete};
ghost use Rattle.task_abort.specs.PhaseLog.{first_view};
ghost use Rattle.task_abort.specs.Rule.{Calls};
ghost use Rattle.machine_data.specs.declared.statuses.Phase.{Phase};
ghost use Rattle.machine_data.specs.declared.statuses.Phase.TheVariants.{Complete, Running};
ghost use Rattle.task_abort.specs.declared.log.PhaseCall.TheVariants.{Abort, Finish, PollFuture, PollHandle};

use crate::cell::{JoinPass, OwnCell};
use crate::handle::phase_of_word;
use crate::rule::{Aborting, Finishing, PollingFuture, PollingHandle};
use atomic_table::Table;
use futures::task::Poll;
use machine_data::{NoMemory, Phase};
use std::alloc::Global;

impl OwnCell {
    /// Makes a cell in phase `Running`, whose pass has seen nothing.
    pub fn new(alloc: Global) -> Result<OwnCell, NoMemory>
        ensures { IfOk result (λ cell. own_view cell ≡ first_view) }
    {
        match Table::of_words(alloc, &[0], &()) {
            Ok((phase, seat)) => Ok(OwnCell {
                phase,
                pass: JoinPass { seat },
            }),
            Err(_) => Err(NoMemory),
        }
    }

    /// Aborts the work, as `JoinHandle::abort` does.
    pub fn abort(&mut self) -> Phase
        ensures { Calls Abort (own_view self.old) result (own_view self.new) }
    {
        let pass = &mut self.pass;
        let word = self
            .phase
            .shared
            .fetch_max::<Aborting>(&mut pass.seat, 0, 1);
        phase_of_word(word)
    }

    /// Polls the handle, as `JoinHandle::poll_handle` does.
    pub fn poll_handle(&mut self) -> Poll<()>
        ensures call { (found : Phase) × Calls PollHandle (own_view self.old) found (own_view self.new) × TellsComplete found result }
    {
        let pass = &mut self.pass;
        let word = self.phase.shared.load::<PollingHandle>(&mut pass.seat, 0);
        match phase_of_word(word) {
            Phase::Complete => Poll::Ready(()),
            _ => Poll::Pending,
        }
    }

    /// Takes the step of `Abortable::running`, and answers whether it found `Running`, so that the work may be polled.
    #[inline(always)]
    pub fn running(&mut self) -> bool
        ensures call { (found : Phase) × Calls PollFuture (own_view self.old) found (own_view self.new) × ((result ≡ true) ↔ (found ≡ Running)) }
    {
        let pass = &mut self.pass;
        let word = self.phase.shared.load::<PollingFuture>(&mut pass.seat, 0);
        matches!(phase_of_word(word), Phase::Running)
    }

    /// Finishes the work, as `Abortable::finish` does, and returns the phase that it found, which is `Complete` from then on.
    pub fn finish(&mut self) -> Phase
        ensures { Calls Finish (own_view self.old) result (own_view self.new) }
    {
        let pass = &mut self.pass;
        let word = self
            .phase
            .shared
            .fetch_max::<Finishing>(&mut pass.seat, 0, 2);
        phase_of_word(word)
    }
}
