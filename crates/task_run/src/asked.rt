//! What a main that is a script asks of other threads, which may abort its spawns.
ghost use Rattle.laws_beside.specs.Wide.{is_running};
ghost use Rattle.machine_data.specs.Read.{phase_of};
ghost use Rattle.machine_rules.specs.MainOps.{spawned_at};
ghost use Rattle.std.specs.Prelude.{◌≡◌, IfOk, OnErr, OnOk, true, ℕ};
ghost use Rattle.task_loop.specs.Beside.{HasFound};
ghost use Rattle.task_run.specs.Asked.{HasAskedOp, op_of};
ghost use Rattle.task_run.specs.Says.{script_says};
ghost use Rattle.task_run.specs.Script.{place_of};

use crate::main_script::op_here;
use crate::scenario::MainOp;
use crate::script::ScriptMain;
use core_primitives::WorkPrimitives;
use machine_data::{NoMemory, Phase};
use task_group::TaskGroupHook;
use task_store::{SpawnHandle, Store};

/// Tells a main that is a script what other threads have done to its spawns, each counted from 1.
pub trait AskedSpawns {
    // What these calls keep of it, which each keeps of itself.
    ghost keeps: { Self → Self → Type 0 };

    ghost same: { (b : Self) → keeps b b };

    // What it has done where main was to abort this spawn, and where main looked whether it is over.
    ghost aborted: { ℕ → Self → Self → Type 0 };

    ghost awaited: { ℕ → Self → Self → Type 0 };

    /// Main is to abort this spawn. `running` says that its work runs, for all that the run itself has done. Answers whether another
    /// thread has aborted it: that is so of a running one alone.
    fn aborts(&mut self, spawn: u32, running: bool) -> Result<bool, NoMemory>
        ensures keeps { keeps self.old self.new }
        ensures aborted { OnOk result (aborted spawn self.old self.new) }
        ensures running { IfOk result (λ found. found ≡ true → running ≡ true) };

    /// Main looks whether this spawn is over.
    fn awaits(&mut self, spawn: u32) -> Result<(), NoMemory>
        ensures keeps { keeps self.old self.new }
        ensures awaited { OnOk result (awaited spawn self.old self.new) };
}

// Whether the work is live, and nobody in the run has aborted it.
fn is_live<T, H, G: TaskGroupHook>(store: &Store<T, H, G>, work: SpawnHandle) -> bool
    ensures { result ≡ true → is_running (phase_of work.number store.now.state.core) ≡ true }
{
    let number = work.number();
    let Some(next) = store.state.next_polled(number.saturating_sub(1)) else {
        return false;
    };
    if store.state.work_number(next) != number {
        return false;
    }
    matches!(store.state.phase(next), Phase::Running)
}

// Whether main's spawn is, counted from 1.
fn runs<T, H, G: TaskGroupHook>(main: &ScriptMain<'_>, store: &Store<T, H, G>, spawn: u32) -> bool
    ensures { result ≡ true → is_running (phase_of (spawned_at (place_of main.now) spawn) store.now.state.core) ≡ true }
{
    match main.spawned(spawn) {
        Some(work) => is_live(store, work),
        None => false,
    }
}

impl ScriptMain<'_> {
    /// Asks what other threads have done to the spawn that main is next to abort, or waits for. If main is to abort a running one
    /// that they have aborted, main passes that op, and the spawn is answered, counted from 1. Else, and if it is out of memory, main is
    /// as before.
    pub fn ask<T, H, G: TaskGroupHook, B: AskedSpawns>(
        &mut self,
        store: &Store<T, H, G>,
        beside: &mut B,
    ) -> Result<Option<u32>, NoMemory>
        ensures keeps { B.keeps beside.old beside.new }
        ensures asked { OnOk result (HasAskedOp B.aborted B.awaited (op_of self.old) beside.old beside.new) }
        ensures ops { self.new.ops ≡ self.old.ops }
        ensures found { IfOk result (λ found. HasFound script_says found self.old self.new store.now.state) }
        ensures err { OnErr result (self.new ≡ self.old) }
    {
        match op_here(self.ops, self.at) {
            Some(MainOp::Abort(spawn)) => {
                let spawn = *spawn;
                let running = runs(self, store, spawn);
                if beside.aborts(spawn, running)? {
                    self.at = self.next_place();
                    return Ok(Some(spawn));
                }
                Ok(None)
            }
            Some(MainOp::Await(spawn)) => {
                beside.awaits(*spawn)?;
                Ok(None)
            }
            _ => Ok(None),
        }
    }
}
