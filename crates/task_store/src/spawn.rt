//! Works that a host spawns: they run beside its calls, and can be aborted and waited for.
ghost use Rattle.std.specs.Prelude.{◌≡◌};
ghost use Rattle.machine_data.specs.Read.{phase_of};
ghost use Rattle.machine_data.specs.declared.component.Component.{Component};
ghost use Rattle.machine_data.specs.declared.records.Turn.{Turn};
ghost use Rattle.machine_rules.specs.Cancels.{aborted_phase};
ghost use Rattle.machine_rules.specs.MainOps.{main_aborted};
ghost use Rattle.task_store.specs.Hosts.{HoldsHosts};
ghost use Rattle.task_store.specs.Spawned.{IsSpawnedIn, poll_of_phase};
ghost use Rattle.ops_turns.specs.Turn.{CoreInOrder};
ghost use Rattle.core_primitives.specs.StateView.{on_core};

use crate::store::Store;
use core_primitives::{WorkId, WorkPrimitives};
use futures::task::Poll;
use machine_data::Phase;
use store_works::HostWork;
use task_group::TaskGroupHook;

/// A work that was spawned in a store.
#[derive(Clone, Copy)]
pub struct SpawnHandle {
    pub(crate) work: WorkId,
    pub(crate) number: u64,
}

// The phase after an abort.
fn after_abort(phase: Phase) -> Phase
    ensures { result ≡ aborted_phase phase }
{
    match phase {
        Phase::Running => Phase::AbortRequested,
        phase => phase,
    }
}

impl SpawnHandle {
    /// Returns the number of the work, by which labels name it.
    pub fn number(&self) -> u64
        ensures { result ≡ self.now.number }
    {
        self.number
    }

    /// Asks that the work end, and answers the phase that it found: `Running` becomes
    /// `AbortRequested`, and the others stay. The work ends when its next poll is due, without a
    /// value, and isn't polled again. It doesn't end at once, since only the loop holds works, and this call may come in the middle of a
    /// poll. A core in order stays so, whosever turn it is.
    pub fn abort<T, H: HostWork, G: TaskGroupHook>(&self, store: &mut Store<T, H, G>) -> Phase
        requires spawned { IsSpawnedIn self.now store.old.state }
        requires hosts { HoldsHosts H.course store.old }
        ensures hosts { HoldsHosts H.course store.new }
        ensures order { (c : Component) (p : Turn) → CoreInOrder c p store.old.state.core → CoreInOrder c p store.new.state.core }
        ensures phase { result ≡ phase_of self.now.number store.old.state.core }
        ensures state { store.new ≡ record store.old { works = store.new.works; state = on_core (main_aborted self.now.number) store.old.state } }
    {
        let phase = store.works.abort(self.number);
        store.state.set_phase(self.work, after_abort(phase));
        phase
    }

    /// Returns `Ready` exactly if the work has ended.
    pub fn poll<T, H: HostWork, G: TaskGroupHook>(&self, store: &mut Store<T, H, G>) -> Poll<()>
        requires spawned { IsSpawnedIn self.now store.old.state }
        requires hosts { HoldsHosts H.course store.old }
        ensures answer { result ≡ poll_of_phase (phase_of self.now.number store.old.state.core) }
        ensures rest { store.new ≡ record store.old { works = store.new.works } }
        ensures hosts { HoldsHosts H.course store.new }
    {
        store.works.poll_handle(self.number)
    }
}
