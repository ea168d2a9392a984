//! What a run asks of its aborters: it looks at the cells of its spawns.
ghost use Rattle.std.specs.Prelude.{◌≡◌};

use crate::cells::{finds_abort, finds_request, poll_handle};
use crate::main_task::GatedMain;
use crate::spawns::{Spawns, find_spawn, handle_at};
use beside_works::{Gate, SharedSpawn};
use machine_data::NoMemory;
use task_group::NoHook;
use task_loop::Beside;
use task_run::AskedSpawns;
use task_store::{ScriptedHost, SpawnHandle, Store};

/// The cells of the spawn lines, and the spawns that were made.
#[derive(Drop)]
pub struct Cells {
    pub(crate) list: Vec<SharedSpawn>,
    pub(crate) spawns: Spawns,
    // The place of the spawn that was polled in this step.
    pub(crate) polled: Option<usize>,
}

impl AskedSpawns for Cells {
    ghost use Rattle.beside_main.specs.Calls.{HasCalled};
    ghost use Rattle.beside_main.specs.Course.{KeepsAsked};
    ghost use Rattle.beside_main.specs.Same.{same_asked};
    ghost use Rattle.task_abort.specs.declared.log.PhaseCall.TheVariants.{Abort, PollHandle};

    ghost keeps = { KeepsAsked };

    ghost same = { same_asked };

    ghost aborted = { HasCalled Abort };

    ghost awaited = { HasCalled PollHandle };

    fn aborts(&mut self, spawn: u32, running: bool) -> Result<bool, NoMemory> {
        finds_request(&mut self.list, spawn, running)
    }

    fn awaits(&mut self, spawn: u32) -> Result<(), NoMemory> {
        poll_handle(&mut self.list, spawn)
    }
}

impl<'a, G: Gate> Beside<GatedMain<'a, G>, (), ScriptedHost, NoHook> for Cells {
    ghost use Rattle.beside_main.specs.Calls.{CallsMade, PollsCell};
    ghost use Rattle.beside_main.specs.Course.{KeepsAsked};
    ghost use Rattle.beside_main.specs.Same.{same_asked};
    ghost use Rattle.laws_beside.specs.Shown.{calls_of_op};
    ghost use Rattle.task_run.specs.Asked.{op_of};

    ghost keeps = { KeepsAsked };

    ghost same = { same_asked };

    ghost polled = { λ i running found m a b. PollsCell i m.script a b };

    ghost turned = { λ m a b. CallsMade (λ k. calls_of_op k (op_of m.script)) a b };

    fn polls(
        &mut self,
        main: &GatedMain<'a, G>,
        store: &Store<(), ScriptedHost, NoHook>,
        number: u64,
        running: bool,
    ) -> Result<Option<SpawnHandle>, NoMemory> {
        // only the contract speaks of `store`
        let _store = store;
        self.polled = None;
        let Some(place) = find_spawn(&self.spawns, number) else {
            return Ok(None);
        };
        self.polled = Some(place);
        let Ok(found) = finds_abort(&mut self.list, place, running) else {
            return Err(NoMemory);
        };
        if found {
            return Ok(handle_at(&main.script, place, number));
        }
        Ok(None)
    }

    fn turns(
        &mut self,
        main: &mut GatedMain<'a, G>,
        store: &Store<(), ScriptedHost, NoHook>,
    ) -> Result<Option<u32>, NoMemory> {
        main.script.ask(store, self)
    }
}
