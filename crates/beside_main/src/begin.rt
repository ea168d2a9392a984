//! The beginning of a run beside aborters.
ghost use Rattle.std.specs.Prelude.{◌≤◌, IfOk, OnOk};
ghost use Rattle.beside_main.specs.Cells.{AreNew};
ghost use Rattle.beside_main.specs.Report.{Opens};
ghost use Rattle.task_run.specs.Runnable.{IsRunnable};

use crate::asked::Cells;
use crate::lists::add;
use crate::main_task::GatedMain;
use crate::run::BesideRun;
use crate::spawns::Spawns;
use beside_works::{Gate, SharedSpawn};
use machine_data::NoMemory;
use std::alloc::Global;
use task_loop::{Trace, run_concurrent};
use task_run::{MainOp, Scenario, ScriptMain, new_store};

// Adds a cell for an op, if it spawns a work.
fn add_cell(alloc: Global, op: &MainOp, cells: &mut Vec<SharedSpawn>) -> Result<(), NoMemory>
    requires { AreNew cells.old.items }
    ensures { OnOk result (AreNew cells.new.items) }
{
    let MainOp::Spawn(_) = op else {
        return Ok(());
    };
    let cell = SharedSpawn::new(alloc)?;
    add(cells, cell)?;
    Ok(())
}

// A cell for each spawn line.
pub(crate) fn cells_of(alloc: Global, ops: &[MainOp]) -> Result<Vec<SharedSpawn>, NoMemory>
    ensures { IfOk result (λ v. AreNew v.items) }
{
    let mut cells = Vec::new(alloc);
    for op in ops {
        add_cell(alloc, op, &mut cells)?;
    }
    Ok(cells)
}

// The run of a scenario at its beginning. `trap` says whether it is a deadlock if nothing can go on.
pub(crate) fn begin<'a, G: Gate>(
    alloc: Global,
    scenario: &'a Scenario,
    gate: &'a G,
    cells: Vec<SharedSpawn>,
    steps: u32,
    trap: bool,
) -> Result<BesideRun<'a, G>, NoMemory>
    requires runnable { IsRunnable scenario.now }
    requires few { steps ≤ 1000000 }
    ensures { IfOk result (λ b. Opens scenario.now steps trap cells.items b) }
{
    let mut store = new_store(
        alloc,
        (),
        scenario.rules,
        scenario.component.instances.len(),
        scenario.handles,
        scenario.table,
    )?;
    store.keep_notices(2 * (steps as usize) + 512)?;
    let Ok(run) = run_concurrent(&mut store, trap) else {
        unreachable!()
    };
    let script = ScriptMain::new(alloc, scenario.main.as_slice());
    Ok(BesideRun {
        run,
        store,
        main: GatedMain {
            script,
            gate,
            pends: 0,
        },
        trace: Trace::new(alloc),
        cells: Cells {
            list: cells,
            spawns: Spawns {
                numbers: Vec::new(alloc),
                count: 0,
            },
            polled: None,
        },
        left: steps,
    })
}
