//! The cells of spawns, as a run asks them. Each is at the place of its spawn line.
ghost use Rattle.std.specs.Prelude.{◌≡◌, ◌∷◌, [], IfOk, OnOk, true};
ghost use Rattle.beside_main.specs.Calls.{Adds, IsOpenAt, on_place};
ghost use Rattle.beside_main.specs.Cells.{KeepsCells};
ghost use Rattle.laws_beside.specs.Own.{if_same};
ghost use Rattle.task_abort.specs.declared.log.PhaseCall.TheVariants.{Abort, Finish, PollFuture, PollHandle};

use beside_works::SharedSpawn;
use futures::task::Poll;
use machine_data::{NoMemory, Phase};

// Polls the cell at this place for a work that runs or doesn't, for all that the run itself has done. Answers whether an aborter has
// aborted the work.
pub(crate) fn finds_abort(
    cells: &mut Vec<SharedSpawn>,
    place: usize,
    running: bool,
) -> Result<bool, NoMemory>
    ensures cells { KeepsCells cells.old.items cells.new.items }
    ensures calls { OnOk result (Adds (on_place place (PollFuture ∷ [])) 1 cells.old.items cells.new.items) }
    ensures still { OnOk result (IsOpenAt place cells.new.items) }
    ensures running { IfOk result (λ found. found ≡ true → running ≡ true) }
{
    let Some(cell) = cells.get_mut(place) else {
        return Ok(false);
    };
    let phase = cell.poll()?;
    match phase {
        Phase::Running => Ok(false),
        Phase::AbortRequested => Ok(running),
        // A work that is over isn't polled.
        Phase::Complete => Err(NoMemory),
    }
}

// Aborts at the cell of a spawn, counted from 1, for main. Answers whether an aborter has aborted the work, which the run hasn't.
pub(crate) fn finds_request(
    cells: &mut Vec<SharedSpawn>,
    spawn: u32,
    running: bool,
) -> Result<bool, NoMemory>
    ensures cells { KeepsCells cells.old.items cells.new.items }
    ensures calls { OnOk result (Adds (λ k. if_same spawn k (Abort ∷ [])) 1 cells.old.items cells.new.items) }
    ensures running { IfOk result (λ found. found ≡ true → running ≡ true) }
{
    let Some(place) = spawn.checked_sub(1) else {
        return Ok(false);
    };
    let Some(cell) = cells.get_mut(place as usize) else {
        return Ok(false);
    };
    let phase = cell.abort()?;
    match phase {
        Phase::Running => Ok(false),
        Phase::AbortRequested => Ok(running),
        Phase::Complete => Ok(false),
    }
}

// Polls the handle at the cell of a spawn, counted from 1.
pub(crate) fn poll_handle(cells: &mut Vec<SharedSpawn>, spawn: u32) -> Result<(), NoMemory>
    ensures cells { KeepsCells cells.old.items cells.new.items }
    ensures calls { OnOk result (Adds (λ k. if_same spawn k (PollHandle ∷ [])) 1 cells.old.items cells.new.items) }
{
    let Some(place) = spawn.checked_sub(1) else {
        return Ok(());
    };
    let Some(cell) = cells.get_mut(place as usize) else {
        return Ok(());
    };
    let _ready: Poll<()> = cell.poll_handle()?;
    Ok(())
}

// Says at its cell that the work at this place is over.
pub(crate) fn finish(cells: &mut Vec<SharedSpawn>, place: usize) -> Result<(), NoMemory>
    requires { IsOpenAt place cells.old.items }
    ensures cells { KeepsCells cells.old.items cells.new.items }
    ensures calls { OnOk result (Adds (on_place place (Finish ∷ [])) 1 cells.old.items cells.new.items) }
{
    let Some(cell) = cells.get_mut(place) else {
        return Ok(());
    };
    cell.finish()?;
    Ok(())
}
