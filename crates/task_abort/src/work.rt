//! The calls of the work.
ghost use Rattle.task_abort.specs.Polls.{PollsFuture};
ghost use Rattle.std.specs.Arc.{arc_value};
ghost use Rattle.std.specs.Prelude.{◌≡◌, ◌≢◌, IfErr, IfOk, IfSome, IsNone, MatchOption, None};
ghost use Rattle.futures.specs.Poll.{OnPending};
ghost use Rattle.futures.specs.Task.{Covers, Keeps};
ghost use Rattle.task_abort.specs.Cells.{work_cell, pass_cell, abort_source, work_of, view_of, AreMadeOf};
ghost use Rattle.task_abort.specs.PhaseLog.{first_view, phase};
ghost use Rattle.task_abort.specs.Rule.{Calls};
ghost use Rattle.machine_data.specs.declared.statuses.Phase.{Phase};
ghost use Rattle.machine_data.specs.declared.statuses.Phase.TheVariants.{Running};
ghost use Rattle.task_abort.specs.declared.log.PhaseCall.TheVariants.{PollFuture, Finish};

use crate::cell::{Abortable, JoinHandle, JoinPass, PhaseCell, Wakers};
use crate::handle::phase_of_word;
use crate::rule::{Finishing, PollingFuture};
use atomic_table::Table;
use futures::Future;
use futures::task::{Context, Poll, Source};
use machine_data::Phase;
use std::alloc::Global;
use std::sync::{Arc, Mutex};

/// Returns a cell in phase `Running`, with its first pass.
fn new_cell(alloc: Global) -> Option<(Arc<PhaseCell, Global>, JoinPass)>
    ensures { IfSome result (λ r. (pass_cell r.1 ≡ (arc_value r.0).phase.shared.table_id) × (view_of r.1 ≡ first_view)) }
{
    let (phase, seat) = Table::of_words(alloc, &[0], &()).ok()?;
    let cell = PhaseCell {
        phase,
        wakers: Mutex::new(Wakers {
            work: None,
            handle: None,
        }),
        aborts: Source::new(),
        ends: Source::new(),
    };
    let cell = Arc::new(alloc, cell).ok()?;
    Some((cell, JoinPass { seat }))
}

impl JoinHandle {
    /// Makes a cell in phase `Running` for a work: its handle, the work, and the first pass, which has seen nothing.
    /// Where there is no memory the work comes back.
    pub fn run<F>(alloc: Global, future: F) -> Result<(JoinHandle, Abortable<F>, JoinPass), F>
        ensures ok { IfOk result (λ r. AreMadeOf future r) }
        ensures no_memory { IfErr result (λ f. f ≡ future) }
    {
        let Some((cell, pass)) = new_cell(alloc) else {
            return Err(future);
        };
        let Ok(other) = Arc::try_clone(&cell) else {
            return Err(future);
        };
        let work = Abortable {
            cell: other,
            future,
        };
        Ok((JoinHandle { cell }, work, pass))
    }
}

impl<F> Abortable<F> {
    ghost use Rattle.std.specs.Borrow.{sem};
    ghost use Rattle.task_abort.specs.Lends.{LendsWork};

    /// Polls a work that isn't a `Future`: none exactly where it found another phase than `Running`, else the work,
    /// which the caller polls. It is the step of `poll`, which reads the word, and takes no lock and no memory.
    pub fn running(&mut self, pass: &mut JoinPass) -> Option<&mut F>
        requires { pass_cell pass.old ≡ work_cell self.old }
        ensures* lends { sem 𝓛 (LendsWork F.row self.entry result) }
        ensures same { pass_cell pass.new ≡ pass_cell pass.old }
        ensures call { (found : Phase) × Calls PollFuture (view_of pass.old) found (view_of pass.new) × MatchOption result (found ≢ Running) (λ r. (found ≡ Running) × (r.now ≡ work_of self.old)) }
        // An abort or a finish that the pass has seen is told.
        ensures seen { phase (view_of pass.old).seen ≢ Running → IsNone result }
    {
        let word = self
            .cell
            .phase
            .shared
            .load::<PollingFuture>(&mut pass.seat, 0);
        match phase_of_word(word) {
            Phase::Running => Some(&mut self.future),
            _ => None,
        }
    }
}

impl<F> Abortable<F> {
    /// Takes the step of `running`, and answers the phase that it found: the work may be polled where that is `Running`.
    pub fn phase(&self, pass: &mut JoinPass) -> Phase
        requires { pass_cell pass.old ≡ work_cell self.now }
        ensures same { pass_cell pass.new ≡ pass_cell pass.old }
        ensures call { Calls PollFuture (view_of pass.old) result (view_of pass.new) }
    {
        let word = self
            .cell
            .phase
            .shared
            .load::<PollingFuture>(&mut pass.seat, 0);
        phase_of_word(word)
    }
}

impl<F: Drop> Abortable<F> {
    /// Drops the work and answers the phase that it found, which is `Complete` from then on. It is one atomic step, by
    /// which the word becomes the greater of itself and 2, and takes no lock and no memory.
    pub fn finish(self, pass: &mut JoinPass) -> Phase
        requires { pass_cell pass.old ≡ work_cell self }
        ensures same { pass_cell pass.new ≡ pass_cell pass.old }
        ensures call { Calls Finish (view_of pass.old) result (view_of pass.new) }
    {
        let word = self
            .cell
            .phase
            .shared
            .fetch_max::<Finishing>(&mut pass.seat, 0, 2);
        phase_of_word(word)
    }
}

impl<F: Future> Abortable<F> {
    /// Polls the future, which may be polled: `Ready(None)` exactly where it found another phase than `Running`, else the
    /// future's own poll, whose output is handed on. It is one atomic step, which reads the word, and then that poll: it
    /// returns where that returns, and takes the memory that that takes.
    pub fn poll(&mut self, pass: &mut JoinPass, cx: &mut Context<'_>) -> Poll<Option<F::Output>>
        requires cell { pass_cell pass.old ≡ work_cell self.old }
        requires ready { F.can_poll (work_of self.old) }
        ensures same { (pass_cell pass.new ≡ pass_cell pass.old) × (work_cell self.new ≡ work_cell self.old) × (abort_source self.new ≡ abort_source self.old) }
        ensures call { PollsFuture (F.gives (work_of self.old)) (F.can_poll (work_of self.new)) (view_of pass.old) result (view_of pass.new) }
        ensures seen { phase (view_of pass.old).seen ≢ Running → result ≡ Poll.Ready None }

        // What a future owes of its poll, where this is part of one.
        ensures gives { OnPending result ((x : F.Output) → F.gives (work_of self.new) x → F.gives (work_of self.old) x) }
        ensures registered { OnPending result (Covers cx.new (F.needs (work_of self.new))) }
        ensures kept { Keeps cx.old cx.new }
    {
        let word = self
            .cell
            .phase
            .shared
            .load::<PollingFuture>(&mut pass.seat, 0);
        match phase_of_word(word) {
            Phase::Running => match self.future.poll(cx) {
                Poll::Ready(output) => Poll::Ready(Some(output)),
                Poll::Pending => Poll::Pending,
            },
            _ => Poll::Ready(None),
        }
    }
}
