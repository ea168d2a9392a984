//! The calls that wake, or that can be woken.
ghost use Rattle.task_abort.specs.Polls.{PollsFuture};
ghost use Rattle.std.specs.Prelude.{◌≡◌, ◌≢◌, ◌⊎◌, None};
ghost use Rattle.futures.specs.Poll.{OnPending};
ghost use Rattle.futures.specs.Task.{Covers, Keeps};
ghost use Rattle.task_abort.specs.Cells.{handle_cell, work_cell, pass_cell, abort_source, end_source, work_of, view_of, TellsComplete};
ghost use Rattle.task_abort.specs.PhaseLog.{phase};
ghost use Rattle.task_abort.specs.Rule.{Calls};
ghost use Rattle.machine_data.specs.declared.statuses.Phase.{Phase};
ghost use Rattle.machine_data.specs.declared.statuses.Phase.TheVariants.{Running, Complete};
ghost use Rattle.task_abort.specs.declared.log.PhaseCall.TheVariants.{Abort, PollHandle, Finish};

use crate::cell::{Abortable, JoinHandle, JoinPass, PhaseCell};
use crate::handle::phase_of_word;
use crate::rule::Finishing;
use futures::Future;
use futures::task::{Context, Poll};
use machine_data::Phase;
use std::sync::Wait;

impl PhaseCell {
    // A waker wakes when it is dropped, and that is outside the lock.
    fn wake_work<W: Wait>(&self, rt: &W) {
        let waker = self.wakers.lock(rt).work.take();
        drop(waker);
    }

    fn wake_handle<W: Wait>(&self, rt: &W) {
        let waker = self.wakers.lock(rt).handle.take();
        drop(waker);
    }

    fn register_work<W: Wait>(&self, rt: &W, cx: &mut Context<'_>)
        ensures registered { Covers cx.new (λ s. s ≡ self.now.aborts.id) }
        ensures kept { Keeps cx.old cx.new }
    {
        let mut wakers = self.wakers.lock(rt);
        let _: Poll<()> = cx.register(&self.aborts, &mut wakers.work);
    }

    fn register_handle<W: Wait>(&self, rt: &W, cx: &mut Context<'_>)
        ensures registered { Covers cx.new (λ s. s ≡ self.now.ends.id) }
        ensures kept { Keeps cx.old cx.new }
    {
        let mut wakers = self.wakers.lock(rt);
        let _: Poll<()> = cx.register(&self.ends, &mut wakers.handle);
    }
}

impl JoinHandle {
    /// Aborts as `abort` does, and then wakes the task whose poll of the future was registered. It takes the wakers' lock after its
    /// step.
    pub fn abort_and_wake<W: Wait>(&self, rt: &W, pass: &mut JoinPass) -> Phase
        requires { pass_cell pass.old ≡ handle_cell self.now }
        ensures same { pass_cell pass.new ≡ pass_cell pass.old }
        ensures call { Calls Abort (view_of pass.old) result (view_of pass.new) }
    {
        let found = self.abort(pass);
        self.cell.wake_work(rt);
        found
    }

    /// Registers the task for a finish, or yields where no waker can be made; then as `poll_handle`. It takes the wakers'
    /// lock, and the memory of a waker.
    pub fn poll_handle_registered<W: Wait>(
        &self,
        rt: &W,
        pass: &mut JoinPass,
        cx: &mut Context<'_>,
    ) -> Poll<()>
        requires { pass_cell pass.old ≡ handle_cell self.now }
        ensures same { pass_cell pass.new ≡ pass_cell pass.old }
        ensures call { (found : Phase) × Calls PollHandle (view_of pass.old) found (view_of pass.new) × TellsComplete found result }
        ensures seen { phase (view_of pass.old).seen ≡ Complete → result ≡ Poll.Ready tt }

        // What a future owes of its poll, where this is part of one.
        ensures registered { Covers cx.new (λ s. s ≡ end_source self.now) }
        ensures kept { Keeps cx.old cx.new }
    {
        self.cell.register_handle(rt, cx);
        self.poll_handle(pass)
    }
}

impl<F: Drop> Abortable<F> {
    /// Finishes as `finish` does, and then wakes the task whose poll of the handle was registered. It takes the wakers' lock after
    /// its step.
    pub fn finish_and_wake<W: Wait>(self, rt: &W, pass: &mut JoinPass) -> Phase
        requires { pass_cell pass.old ≡ work_cell self }
        ensures same { pass_cell pass.new ≡ pass_cell pass.old }
        ensures call { Calls Finish (view_of pass.old) result (view_of pass.new) }
    {
        let word = self
            .cell
            .phase
            .shared
            .fetch_max::<Finishing>(&mut pass.seat, 0, 2);
        self.cell.wake_handle(rt);
        phase_of_word(word)
    }
}

impl<F: Future> Abortable<F> {
    /// Registers the task for an abort, or yields where no waker can be made; then as `poll`. It takes the wakers' lock,
    /// the memory of a waker, and what the future's own poll takes.
    pub fn poll_registered<W: Wait>(
        &mut self,
        rt: &W,
        pass: &mut JoinPass,
        cx: &mut Context<'_>,
    ) -> Poll<Option<F::Output>>
        requires cell { pass_cell pass.old ≡ work_cell self.old }
        requires ready { F.can_poll (work_of self.old) }
        ensures same { (pass_cell pass.new ≡ pass_cell pass.old) × (work_cell self.new ≡ work_cell self.old) × (abort_source self.new ≡ abort_source self.old) }
        ensures call { PollsFuture (F.gives (work_of self.old)) (F.can_poll (work_of self.new)) (view_of pass.old) result (view_of pass.new) }
        ensures seen { phase (view_of pass.old).seen ≢ Running → result ≡ Poll.Ready None }

        // What a future owes of its poll, where this is part of one.
        ensures gives { OnPending result ((x : F.Output) → F.gives (work_of self.new) x → F.gives (work_of self.old) x) }
        ensures registered { OnPending result (Covers cx.new (λ s. F.needs (work_of self.new) s ⊎ (s ≡ abort_source self.old))) }
        ensures kept { Keeps cx.old cx.new }
    {
        self.cell.register_work(rt, cx);
        self.poll(pass, cx)
    }
}
