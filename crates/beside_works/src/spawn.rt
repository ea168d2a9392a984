//! The cell of a spawn, as the run has it.
ghost use Rattle.beside_works.specs.SpawnCalls.{FinishesSpawn, PollsSpawn};
ghost use Rattle.std.specs.Prelude.{◌≡◌, ◌++◌, ◌+◌, ◌∷◌, [], IfOk, None, OnErr, OnOk, false, length, true, ℕ};
ghost use Rattle.beside_works.specs.Shared.{listed};
ghost use Rattle.beside_works.specs.Views.{HasMetEach, aborter_view, found_list, is_finished, met_list, own_list, pass_cell_of, place_of, spawn_cell, spawn_view, split_count};
ghost use Rattle.beside_works.specs.declared.log.Found.{Found};
ghost use Rattle.task_abort.specs.Cells.{TellsComplete};
ghost use Rattle.task_abort.specs.PhaseLog.{IsLegal, first_view, split_left, split_right};
ghost use Rattle.task_abort.specs.Rule.{Calls, Meets};
ghost use Rattle.task_abort.specs.Staged.{LastRound, made, staged};
ghost use Rattle.task_abort.specs.declared.log.PhaseCall.TheVariants.{Abort, Finish, PollFuture, PollHandle};
ghost use Rattle.machine_data.specs.declared.statuses.Phase.{Phase};
ghost use Rattle.machine_data.specs.declared.statuses.Phase.TheVariants.{Complete};

use crate::cells::{AborterPass, SharedSpawn};
use crate::log::{Found, add, staged};
use futures::task::Poll;
use machine_data::{NoMemory, Phase};
use std::alloc::Global;
use task_abort::{Abortable, CallMade, JoinHandle, JoinPass, LogEntry, PhaseCall};

// A call that is to be made: it is in its list before, so that each call that was made is listed.
fn unanswered(call: PhaseCall) -> CallMade
    ensures { result ≡ made call None }
{
    CallMade { call, answer: None }
}

impl SharedSpawn {
    /// Makes a cell in phase `Running`, of which no call was made.
    pub fn new(alloc: Global) -> Result<SharedSpawn, NoMemory>
        ensures view { IfOk result (λ s. spawn_view s ≡ first_view) }
        ensures open { IfOk result (λ s. is_finished s ≡ false) }
        ensures alone { IfOk result (λ s. (split_count s ≡ 0) × (met_list s ≡ [])) }
    {
        match JoinHandle::run(alloc, ()) {
            Ok((handle, work, pass)) => Ok(SharedSpawn {
                handle,
                work: Some(work),
                pass,
                calls: Vec::new(alloc),
                split: 0,
                met: Vec::new(alloc),
            }),
            Err(()) => Err(NoMemory),
        }
    }

    /// Returns a pass for an aborter, which has seen what the run has. It is refused only if it is out of memory.
    pub fn split(&mut self, alloc: Global) -> Result<AborterPass, NoMemory>
        ensures cell { spawn_cell self.new ≡ spawn_cell self.old }
        ensures left { OnOk result (spawn_view self.new ≡ split_left (spawn_view self.old)) }
        ensures right { IfOk result (λ a. (pass_cell_of a ≡ spawn_cell self.old) × (aborter_view a ≡ split_right (spawn_view self.old))) }
        ensures place { IfOk result (λ a. (place_of a ≡ split_count self.old) × (split_count self.new ≡ split_count self.old + 1)) }
        ensures found { IfOk result (λ a. found_list a ≡ []) }
        ensures rest { (is_finished self.new ≡ is_finished self.old) × ((own_list self.new ≡ own_list self.old) × (met_list self.new ≡ met_list self.old)) }
        ensures err { OnErr result ((spawn_view self.new ≡ spawn_view self.old) × (split_count self.new ≡ split_count self.old)) }
    {
        let Some(next) = self.split.checked_add(1) else {
            return Err(NoMemory);
        };
        let handle = self.handle.share()?;
        let Ok(pass) = self.handle.split_pass(&mut self.pass) else {
            unreachable!()
        };
        let place = self.split;
        self.split = next;
        Ok(AborterPass::new(alloc, handle, pass, place))
    }

    /// Asks whether the work may be polled, which it may where `Running` was found. A work that is over isn't asked: it is
    /// `Complete`. If it is out of memory for the list, nothing is done.
    pub fn poll(&mut self) -> Result<Phase, NoMemory>
        ensures cell { spawn_cell self.new ≡ spawn_cell self.old }
        ensures call { IfOk result (λ found. PollsSpawn found self.old self.new) }
        ensures rest { (is_finished self.new ≡ is_finished self.old) × ((split_count self.new ≡ split_count self.old) × (met_list self.new ≡ met_list self.old)) }
        ensures err { OnErr result (spawn_view self.new ≡ spawn_view self.old) }
        // What was made when all aborts had been stays so.
        ensures round { (n : ℕ) → LastRound (spawn_view self.old) n → LastRound (spawn_view self.new) n }
    {
        let Some(work) = &self.work else {
            return Ok(Phase::Complete);
        };
        let last = self.calls.len();
        add(&mut self.calls, unanswered(PhaseCall::PollFuture))?;
        let found = work.phase(&mut self.pass);
        self.calls[last] = CallMade {
            call: PhaseCall::PollFuture,
            answer: Some(found),
        };
        Ok(found)
    }

    /// Says that the work is over; where it was, nothing is done. If it is out of memory for the list, nothing is done either.
    pub fn finish(&mut self) -> Result<(), NoMemory>
        ensures cell { spawn_cell self.new ≡ spawn_cell self.old }
        ensures call { OnOk result (FinishesSpawn self.old self.new) }
        ensures over { OnOk result (is_finished self.new ≡ true) }
        ensures rest { (split_count self.new ≡ split_count self.old) × (met_list self.new ≡ met_list self.old) }
        ensures err { OnErr result ((spawn_view self.new ≡ spawn_view self.old) × (is_finished self.new ≡ is_finished self.old)) }
        // What was made when all aborts had been stays so.
        ensures round { (n : ℕ) → LastRound (spawn_view self.old) n → LastRound (spawn_view self.new) n }
    {
        if self.work.is_none() {
            return Ok(());
        }
        let last = self.calls.len();
        add(&mut self.calls, unanswered(PhaseCall::Finish))?;
        if let Some(work) = self.work.take() {
            let found = work.finish(&mut self.pass);
            self.calls[last] = CallMade {
                call: PhaseCall::Finish,
                answer: Some(found),
            };
        }
        Ok(())
    }

    /// Aborts the work by the run itself, and answers the phase that it found. If it is out of memory for the list, nothing is
    /// done.
    pub fn abort(&mut self) -> Result<Phase, NoMemory>
        ensures cell { spawn_cell self.new ≡ spawn_cell self.old }
        ensures call { IfOk result (λ found. Calls Abort (spawn_view self.old) found (spawn_view self.new)) }
        ensures rest { (is_finished self.new ≡ is_finished self.old) × ((split_count self.new ≡ split_count self.old) × (met_list self.new ≡ met_list self.old)) }
        ensures err { OnErr result (spawn_view self.new ≡ spawn_view self.old) }
        // What was made when all aborts had been stays so.
        ensures round { (n : ℕ) → LastRound (spawn_view self.old) n → LastRound (spawn_view self.new) n }
    {
        let last = self.calls.len();
        add(&mut self.calls, unanswered(PhaseCall::Abort))?;
        let found = self.handle.abort(&mut self.pass);
        self.calls[last] = CallMade {
            call: PhaseCall::Abort,
            answer: Some(found),
        };
        Ok(found)
    }

    /// Returns `Ready` exactly if the work is over. If it is out of memory for the list, nothing is done.
    pub fn poll_handle(&mut self) -> Result<Poll<()>, NoMemory>
        ensures cell { spawn_cell self.new ≡ spawn_cell self.old }
        ensures call { IfOk result (λ poll. (found : Phase) × Calls PollHandle (spawn_view self.old) found (spawn_view self.new) × TellsComplete found poll) }
        ensures rest { (is_finished self.new ≡ is_finished self.old) × ((split_count self.new ≡ split_count self.old) × (met_list self.new ≡ met_list self.old)) }
        ensures err { OnErr result (spawn_view self.new ≡ spawn_view self.old) }
        // What was made when all aborts had been stays so.
        ensures round { (n : ℕ) → LastRound (spawn_view self.old) n → LastRound (spawn_view self.new) n }
    {
        let last = self.calls.len();
        add(&mut self.calls, unanswered(PhaseCall::PollHandle))?;
        let poll = self.handle.poll_handle(&mut self.pass);
        if let Poll::Ready(()) = poll {
            self.calls[last] = CallMade {
                call: PhaseCall::PollHandle,
                answer: Some(Phase::Complete),
            };
        }
        Ok(poll)
    }

    /// Takes an aborter's pass in, under the number of its line. Passes are met in the order in which they were split off. If it is
    /// out of memory for the list, the pass is dropped, and all else is as before.
    pub fn meet(&mut self, number: u32, other: AborterPass) -> Result<(), NoMemory>
        requires cell { pass_cell_of other ≡ spawn_cell self.old }
        requires order { place_of other ≡ length (met_list self.old) }
        ensures cell { spawn_cell self.new ≡ spawn_cell self.old }
        ensures meets { OnOk result (Meets (spawn_view self.old) (aborter_view other) (spawn_view self.new)) }
        ensures met { OnOk result ((f : Found) × (met_list self.new ≡ met_list self.old ++ f ∷ []) × ((f.number ≡ number) × (f.found.items ≡ found_list other))) }
        ensures rest { (is_finished self.new ≡ is_finished self.old) × (split_count self.new ≡ split_count self.old) }
        ensures err { OnErr result ((spawn_view self.new ≡ spawn_view self.old) × (met_list self.new ≡ met_list self.old)) }
    {
        let AborterPass {
            handle: _,
            pass,
            place: _,
            found,
        } = other;
        add(&mut self.met, Found { number, found })?;
        self.handle.meet(&mut self.pass, pass);
        Ok(())
    }

    /// Returns how many calls the run has made. All aborts of the passes that were met have been made by now.
    pub fn calls(&self) -> usize
        ensures count { result ≡ length (own_list self.now) }
        ensures round { LastRound (spawn_view self.now) result }
    {
        self.calls.len()
    }

    /// Returns the log of all calls, put together by stages, once each pass that was split off was met. The run's calls after its
    /// first `early` ones were made when all aborts had been: they are behind them. The log is legal.
    pub fn log(&self, alloc: Global, early: usize) -> Result<Vec<LogEntry<u32>>, NoMemory>
        requires met { HasMetEach self.now }
        requires last { LastRound (spawn_view self.now) early }
        ensures staged { IfOk result (λ log. log.items ≡ staged (own_list self.now) (listed (met_list self.now)) early) }
        ensures legal { IfOk result (λ log. IsLegal log.items) }
    {
        let log = staged(alloc, self.calls.as_slice(), self.met.as_slice(), early)?;
        Ok(log)
    }
}
