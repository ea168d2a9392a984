//! The last round: each live spawned work is polled once more, when nothing can go on and all aborters are done.
ghost use Rattle.std.specs.Prelude.{◌≡◌, ◌<◌, IfOk, None, OnOk, Some, false, ℕ};
ghost use Rattle.beside_main.specs.Course.{Able, place};
ghost use Rattle.beside_main.specs.Round.{PolledNext, RoundMade};
ghost use Rattle.machine_data.specs.declared.records.Turn.TheVariants as turn;
ghost use Rattle.machine_data.specs.Read.{work_caller_of};
ghost use Rattle.machine_rules.specs.MainOps.{is_spawn_caller};
ghost use Rattle.machine_rules.specs.Works.{next_polled};
ghost use Rattle.ops_turns.specs.Turn.{runs_in};
ghost use Rattle.core_primitives.specs.StateView.{work_of};

use crate::run::BesideRun;
use beside_works::Gate;
use core_primitives::{WorkCallerId, WorkId, WorkPrimitives};
use machine_data::{Component, NoMemory};
use task_store::{ScriptedHost, Store};

// Whether main has spawned this work.
fn is_spawn(store: &Store<(), ScriptedHost>, work: WorkId) -> bool
    ensures { result ≡ is_spawn_caller (work_caller_of (work_of store.now.state work) store.now.state.core) }
{
    match store.state.work_caller(work) {
        WorkCallerId::Spawn => true,
        WorkCallerId::Async { .. } => false,
        WorkCallerId::Sync(_) => false,
    }
}

impl<'a, G: Gate> BesideRun<'a, G> {
    // Polls the live spawned work that is next past those up to `polled`: it pends, or another thread has aborted it.
    fn poll_last(&mut self, component: &Component, polled: u64) -> Result<(), NoMemory>
        requires able { Able component.now self.old }
        requires left { 0 < self.old.left }
        requires beside { runs_in (place self.old).turn ≡ None }
        requires next { (i : ℕ) × (next_polled polled self.old.store.state.core ≡ Some i) }
        ensures polls { OnOk result (PolledNext component.now polled self.old self.new) }
    {
        self.left -= 1;
        self.run.poll_last(
            component,
            &mut self.store,
            &self.main,
            polled,
            &mut self.cells,
            &mut self.trace,
        )?;
        self.note_over()?;
        Ok(())
    }

    /// Returns the last round: each live spawned work is polled once more, in order, as long as steps are left. Where one was
    /// aborted, main's turn comes next. Answers whether all were polled.
    pub(crate) fn last_round(&mut self, component: &Component) -> Result<bool, NoMemory>
        requires able { Able component.now self.old }
        requires turn { (place self.old).turn ≡ turn.Take false }
        ensures round { IfOk result (λ done. RoundMade component.now done self.old self.new) }
    {
        let mut polled = 0u64;
        'round: while let Some(work) = self.store.state.next_polled(polled) {
            let number = self.store.state.work_number(work);
            if !is_spawn(&self.store, work) {
                polled = number;
                continue 'round;
            }
            if self.left == 0 {
                return Ok(false);
            }
            self.poll_last(component, polled)?;
            polled = number;
        }
        Ok(true)
    }
}
