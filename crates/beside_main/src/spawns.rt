//! The spawns that main has made, by their numbers.
ghost use Rattle.std.specs.Prelude.{◌≡◌, IfSome, OnOk, length, ℕ};
ghost use Rattle.beside_main.specs.Calls.{AreNoted, GrowsBy, IsPlaceOf, IsRising};
ghost use Rattle.task_run.specs.Script.{place_of};
ghost use Rattle.task_run.specs.Spawns.{KnowsSpawns};
ghost use Rattle.task_store.specs.Spawned.{IsSpawnedIn};
ghost use Rattle.core_primitives.specs.StateView.{StateView};

use crate::lists::add;
use machine_data::NoMemory;
use task_run::ScriptMain;
use task_store::SpawnHandle;

/// The numbers of the works that main has spawned, in that order, and how many there are.
#[derive(Drop)]
pub struct Spawns {
    pub(crate) numbers: Vec<u64>,
    pub(crate) count: u32,
}

// Keeps the number of the spawn that main has made, if it has made one more.
pub(crate) fn note_spawn(spawns: &mut Spawns, script: &ScriptMain<'_>) -> Result<(), NoMemory>
    requires count { spawns.old.count ≡ length spawns.old.numbers.items }
    requires grows { GrowsBy spawns.old.numbers.items (place_of script.now).spawns }
    ensures { OnOk result (AreNoted script.now spawns.new) }
{
    let Some(next) = spawns.count.checked_add(1) else {
        return Err(NoMemory);
    };
    let Some(work) = script.spawned(next) else {
        return Ok(());
    };
    add(&mut spawns.numbers, work.number())?;
    spawns.count = next;
    Ok(())
}

// The place of the spawn whose work has this number.
pub(crate) fn find_spawn(spawns: &Spawns, number: u64) -> Option<usize>
    ensures { (last : ℕ) → IsRising 0 spawns.now.numbers.items last → IsPlaceOf number result spawns.now.numbers.items }
{
    match spawns.numbers.as_slice().binary_search(&number) {
        Ok(place) => Some(place),
        Err(_) => None,
    }
}

// The handle of the spawn at this place, whose work has this number.
pub(crate) fn handle_at(script: &ScriptMain<'_>, place: usize, number: u64) -> Option<SpawnHandle>
    ensures { IfSome result (λ h. ((s : StateView) → KnowsSpawns script.now s → IsSpawnedIn h s) × (h.number ≡ number)) }
{
    let Ok(place) = u32::try_from(place) else {
        return None;
    };
    let Some(work) = script.spawned(place.saturating_add(1)) else {
        return None;
    };
    if work.number() == number {
        return Some(work);
    }
    None
}
