//! A work that a store holds, with the ends of its cell and the store's pass.
ghost use Rattle.std.specs.Prelude.{◌≡◌};

use crate::work::AccessorTask;
use futures::task::Poll;
use machine_data::{HostPoll, NoMemory, Phase};
use std::alloc::Global;
use task_abort::OwnCell;

/// A work that a store holds, with its cell. The store has both ends of the cell and its first pass, which is never
/// split, so that each call on it answers the phase that the calls before have left.
#[derive(Drop)]
pub struct JoinedWork<H> {
    pub(crate) work: H,
    pub(crate) cell: OwnCell,
}

impl<H: Drop> JoinedWork<H> {
    ghost use Rattle.std.specs.Prelude.{IfOk};
    ghost use Rattle.store_works.specs.Joined.{joined_phase, joined_work};
    ghost use Rattle.machine_data.specs.declared.statuses.Phase.TheVariants as phases;

    /// Makes a cell for the work, in phase `Running`.
    pub fn new(alloc: Global, work: H) -> Result<JoinedWork<H>, NoMemory>
        ensures work { IfOk result (λ joined. joined_work joined ≡ work) }
        ensures phase { IfOk result (λ joined. joined_phase joined ≡ phases.Running) }
    {
        let cell = OwnCell::new(alloc)?;
        Ok(JoinedWork { work, cell })
    }

    /// Ends the work: its phase is `Complete`, and it is let go. Answers the phase before.
    pub fn finish(self) -> Phase
        ensures { result ≡ joined_phase self }
    {
        let mut cell = self.cell;
        cell.finish()
    }
}

impl<H> JoinedWork<H> {
    ghost use Rattle.std.specs.Prelude.{◌↔◌, ◌≢◌, IfNone, IfSome};
    ghost use Rattle.store_works.specs.Course.{MayTell, one_fewer};
    ghost use Rattle.store_works.specs.Joined.{joined_phase, joined_work};
    ghost use Rattle.task_abort.specs.PhaseLog.{after};
    ghost use Rattle.task_abort.specs.declared.log.PhaseCall.TheVariants.{Abort};
    ghost use Rattle.machine_data.specs.declared.statuses.Phase.TheVariants as phases;

    /// Asks that the work end, and answers the phase that it found.
    pub fn abort(&mut self) -> Phase
        ensures found { result ≡ joined_phase self.old }
        ensures phase { joined_phase self.new ≡ after Abort (joined_phase self.old) }
        ensures work { joined_work self.new ≡ joined_work self.old }
    {
        self.cell.abort()
    }

    /// Returns `Ready` exactly if the work is over.
    pub fn poll_handle(&mut self) -> Poll<()>
        ensures answer { (result ≡ Poll.Ready tt) ↔ (joined_phase self.old ≡ phases.Complete) }
        ensures phase { joined_phase self.new ≡ joined_phase self.old }
        ensures work { joined_work self.new ≡ joined_work self.old }
    {
        self.cell.poll_handle()
    }

    /// Polls the work where its phase is `Running`; else it isn't polled.
    #[inline(always)]
    pub fn poll<T>(&mut self, host: &mut T) -> Option<HostPoll>
    where
        H: AccessorTask<T>,
        ensures none { IfNone result ((joined_phase self.old ≢ phases.Running) × (joined_work self.new ≡ joined_work self.old)) }
        ensures runs { IfSome result (λ answer. joined_phase self.old ≡ phases.Running) }
        ensures answer { IfSome result (λ answer. MayTell (H.course (joined_work self.old)) answer) }
        ensures left { IfSome result (λ answer. H.course (joined_work self.new) ≡ one_fewer (H.course (joined_work self.old))) }
        ensures phase { joined_phase self.new ≡ joined_phase self.old }
    {
        if !self.cell.running() {
            return None;
        }
        Some(self.work.poll(host))
    }
}
