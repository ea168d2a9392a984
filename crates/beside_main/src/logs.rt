//! The logs of the works that were spawned.
ghost use Rattle.std.specs.Prelude.{◌≡◌, IfOk, length, map, slice_get};
ghost use Rattle.beside_main.specs.Cells.{AreCounts, AreEarly, AreLogsOf, AreMet};

use crate::lists::add;
use beside_works::SharedSpawn;
use machine_data::NoMemory;
use std::alloc::Global;
use task_abort::LogEntry;
use task_run::ScriptMain;

// How many calls the run has made on each cell by now.
pub(crate) fn counts_of(alloc: Global, cells: &[SharedSpawn]) -> Result<Vec<usize>, NoMemory>
    ensures early { IfOk result (λ v. AreEarly cells.now v.items) }
    ensures counts { IfOk result (λ v. AreCounts cells.now v.items) }
{
    let mut counts = Vec::new(alloc);
    for cell in cells {
        add(&mut counts, cell.calls())?;
    }
    Ok(counts)
}

// The count at this place, if there is one.
fn count_at(counts: &[usize], place: usize) -> Option<usize>
    ensures { result ≡ slice_get counts.now place }
{
    counts.get(place).copied()
}

// The logs of the works that were spawned, in the order of the spawns. So many of the run's own calls on each were made before its last
// round.
pub(crate) fn logs_of(
    alloc: Global,
    script: &ScriptMain<'_>,
    cells: &[SharedSpawn],
    early: &[usize],
) -> Result<Vec<Vec<LogEntry<u32>>>, NoMemory>
    requires met { AreMet cells.now }
    requires early { AreEarly cells.now early.now }
    ensures logs { IfOk result (λ v. AreLogsOf cells.now early.now (map (λ l. l.items) v.items)) }
    ensures each { IfOk result (λ v. length v.items ≡ length script.now.spawns.items) }
{
    let mut logs = Vec::new(alloc);
    let mut spawn = 0u32;
    for cell in cells {
        let Some(next) = spawn.checked_add(1) else {
            return Err(NoMemory);
        };
        spawn = next;
        let Some(_work) = script.spawned(spawn) else {
            return Ok(logs);
        };
        let Some(count) = count_at(early, logs.len()) else {
            unreachable!()
        };
        let log = cell.log(alloc, count)?;
        add(&mut logs, log)?;
    }
    let Some(next) = spawn.checked_add(1) else {
        return Err(NoMemory);
    };
    match script.spawned(next) {
        // Each spawn has a cell, since each is of a line.
        Some(_work) => Err(NoMemory),
        None => Ok(logs),
    }
}
