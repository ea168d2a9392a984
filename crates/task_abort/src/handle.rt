//! The calls of the handle.
ghost use Rattle.std.specs.Prelude.{◌≡◌, IfOk, IsOkAnd};
ghost use Rattle.task_abort.specs.Cells.{handle_cell, pass_cell, view_of, TellsComplete};
ghost use Rattle.task_abort.specs.PhaseLog.{phase_of_code, phase, split_left, split_right};
ghost use Rattle.task_abort.specs.Rule.{Calls, Meets};
ghost use Rattle.machine_data.specs.declared.statuses.Phase.{Phase};
ghost use Rattle.machine_data.specs.declared.statuses.Phase.TheVariants.{Complete};
ghost use Rattle.task_abort.specs.declared.log.PhaseCall.TheVariants.{Abort, PollHandle};

use crate::cell::{JoinHandle, JoinPass};
use crate::rule::{Aborting, Joining, PollingHandle, Settling, Splitting};
use futures::task::Poll;
use machine_data::{NoMemory, Phase};
use std::sync::Arc;

/// Returns the phase for which a found word is.
pub(crate) fn phase_of_word(word: u64) -> Phase
    ensures { result ≡ phase_of_code word }
{
    match word {
        0 => Phase::Running,
        1 => Phase::AbortRequested,
        _ => Phase::Complete,
    }
}

impl JoinHandle {
    /// Asks that the work end, and answers the phase that it found: `Running` becomes `AbortRequested`, and the others
    /// stay. It is one atomic step, by which the word becomes the greater of itself and 1, and takes no lock and no memory.
    pub fn abort(&self, pass: &mut JoinPass) -> Phase
        requires { pass_cell pass.old ≡ handle_cell self.now }
        ensures same { pass_cell pass.new ≡ pass_cell pass.old }
        ensures call { Calls Abort (view_of pass.old) result (view_of pass.new) }
    {
        let word = self
            .cell
            .phase
            .shared
            .fetch_max::<Aborting>(&mut pass.seat, 0, 1);
        phase_of_word(word)
    }

    /// Polls the handle, and is ready exactly if it found `Complete`. It is one atomic step, which reads the word, registers no waker, and
    /// takes no lock and no memory.
    pub fn poll_handle(&self, pass: &mut JoinPass) -> Poll<()>
        requires { pass_cell pass.old ≡ handle_cell self.now }
        ensures same { pass_cell pass.new ≡ pass_cell pass.old }
        ensures call { (found : Phase) × Calls PollHandle (view_of pass.old) found (view_of pass.new) × TellsComplete found result }
        // A finish that the pass has seen is told.
        ensures seen { phase (view_of pass.old).seen ≡ Complete → result ≡ Poll.Ready tt }
    {
        let word = self
            .cell
            .phase
            .shared
            .load::<PollingHandle>(&mut pass.seat, 0);
        match phase_of_word(word) {
            Phase::Complete => Poll::Ready(()),
            _ => Poll::Pending,
        }
    }

    /// Splits a pass off, which has seen what the first had and made no call of its own. Its name is the first's followed
    /// by the number of passes that were split off before. It is one atomic step. Today no split takes memory, so the
    /// answer is always a pass.
    pub fn split_pass(&self, pass: &mut JoinPass) -> Result<JoinPass, NoMemory>
        requires { pass_cell pass.old ≡ handle_cell self.now }
        ensures same { pass_cell pass.new ≡ pass_cell pass.old }
        ensures left { view_of pass.new ≡ split_left (view_of pass.old) }
        ensures right { IsOkAnd result (λ p. (pass_cell p ≡ pass_cell pass.old) × (view_of p ≡ split_right (view_of pass.old))) }
    {
        let seat = self
            .cell
            .phase
            .shared
            .split_seat::<Splitting>(&mut pass.seat);
        Ok(JoinPass { seat })
    }

    /// Takes a pass in: afterwards the first has seen what both had, and knows the calls that the other made. It is two
    /// atomic steps: the first pass keeps both logs, and then learns which of them begins the other. It takes no lock and
    /// no memory.
    pub fn meet(&self, pass: &mut JoinPass, other: JoinPass)
        requires first { pass_cell pass.old ≡ handle_cell self.now }
        requires second { pass_cell other ≡ handle_cell self.now }
        ensures same { pass_cell pass.new ≡ pass_cell pass.old }
        ensures met { Meets (view_of pass.old) (view_of other) (view_of pass.new) }
    {
        let JoinPass { seat } = other;
        let shared = &self.cell.phase.shared;
        shared.join_seat::<Joining>(&mut pass.seat, seat);
        shared.load::<Settling>(&mut pass.seat, 0);
    }

    /// Returns another handle on the same cell. It is refused only where there is no memory for one more, and changes no phase.
    pub fn share(&self) -> Result<JoinHandle, NoMemory>
        ensures { IfOk result (λ h. handle_cell h ≡ handle_cell self.now) }
    {
        match Arc::try_clone(&self.cell) {
            Ok(cell) => Ok(JoinHandle { cell }),
            Err(_) => Err(NoMemory),
        }
    }
}
