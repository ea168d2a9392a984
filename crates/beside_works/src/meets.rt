//! The aborters of a run, from when their passes are split off to when these are met.
ghost use Rattle.std.specs.Prelude.{◌≡◌, IfOk, OnErr, OnOk, false, length, map, ℕ};
ghost use Rattle.beside_works.specs.Aborters.{AreNew, CanMeet, MetInPart, NoneOutOfMemory, with_all, MeetsSome};
ghost use Rattle.beside_works.specs.Counts.{cells_in, counts_in, later, met_count, met_of, places_in, raised, with_each};
ghost use Rattle.beside_works.specs.Views.{met_list, own_list, spawn_cell, split_count};

use crate::SharedSpawn;
use crate::aborter_aborters::add;
use crate::line::Aborter;
use machine_data::{NoMemory, Seq};
use std::alloc::Global;

/// Makes the aborters of these lines, in their order, numbered from 1. Each has a pass of each cell. It is refused if it is out of
/// memory, and with more than 4,294,967,295 lines; then passes were split off for the first of the lines, and all else of the cells
/// is as before.
pub fn aborters_of(
    alloc: Global,
    cells: &mut Vec<SharedSpawn>,
    lines: &[Seq<u32>],
) -> Result<Vec<Aborter>, NoMemory>
    ensures new { IfOk result (λ v. AreNew (map spawn_cell cells.old.items) (map split_count cells.old.items) 0 v.items) }
    ensures each { IfOk result (λ v. length v.items ≡ length lines.now) }
    ensures cells { map spawn_cell cells.new.items ≡ map spawn_cell cells.old.items }
    ensures split { OnOk result (map split_count cells.new.items ≡ later (length lines.now) (map split_count cells.old.items)) }
    ensures refused { OnErr result ((k i : ℕ) × (map split_count cells.new.items ≡ raised i (later k (map split_count cells.old.items)))) }
    ensures met { map met_list cells.new.items ≡ map met_list cells.old.items }
    ensures own { map own_list cells.new.items ≡ map own_list cells.old.items }
{
    let mut all = Vec::new(alloc);
    let mut before = 0u32;
    for _line in lines {
        let Some(number) = before.checked_add(1) else {
            return Err(NoMemory);
        };
        let aborter = Aborter::new(alloc, cells, number)?;
        add(&mut all, aborter)?;
        before = number;
    }
    Ok(all)
}

// Takes an aborter's passes in. It is refused if it is, or was, out of memory.
fn meet_each(cells: &mut Vec<SharedSpawn>, aborter: Aborter) -> Result<(), NoMemory>
    requires cells { cells_in aborter.passes.items ≡ map spawn_cell cells.old.items }
    requires places { places_in aborter.passes.items ≡ map met_count cells.old.items }
    ensures cells { map spawn_cell cells.new.items ≡ map spawn_cell cells.old.items }
    ensures split { map split_count cells.new.items ≡ map split_count cells.old.items }
    ensures own { map own_list cells.new.items ≡ map own_list cells.old.items }
    ensures count { OnOk result (map met_count cells.new.items ≡ later 1 (map met_count cells.old.items)) }
    ensures met { OnOk result (map met_of cells.new.items
        ≡ with_each aborter.number (counts_in aborter.passes.items) (map met_of cells.old.items)) }
    ensures out_of_memory { OnOk result (aborter.out_of_memory ≡ false) }
    ensures refused { OnErr result (MeetsSome aborter cells.old.items cells.new.items) }
{
    let Aborter {
        number,
        passes,
        out_of_memory,
    } = aborter;
    if out_of_memory {
        return Err(NoMemory);
    }
    let mut place = 0usize;
    for pass in passes {
        let here = place;
        place += 1;
        if let Some(cell) = cells.get_mut(here) {
            cell.meet(number, pass)?;
        }
    }
    Ok(())
}

/// Takes in what the aborters have done, in the order of their lines. It is refused if it is, or was, out of memory; then what the
/// first of them have done was taken in.
pub fn meet_all(cells: &mut Vec<SharedSpawn>, aborters: Vec<Aborter>) -> Result<(), NoMemory>
    requires { CanMeet (map spawn_cell cells.old.items) (map met_count cells.old.items) aborters.items }
    ensures cells { map spawn_cell cells.new.items ≡ map spawn_cell cells.old.items }
    ensures split { map split_count cells.new.items ≡ map split_count cells.old.items }
    ensures own { map own_list cells.new.items ≡ map own_list cells.old.items }
    ensures count { OnOk result (map met_count cells.new.items ≡ later (length aborters.items) (map met_count cells.old.items)) }
    ensures met { OnOk result (map met_of cells.new.items ≡ with_all aborters.items (map met_of cells.old.items)) }
    ensures out_of_memory { OnOk result (NoneOutOfMemory aborters.items) }
    ensures refused { OnErr result (MetInPart aborters.items (map met_of cells.old.items) (map met_of cells.new.items)) }
{
    for aborter in aborters {
        meet_each(cells, aborter)?;
    }
    Ok(())
}
