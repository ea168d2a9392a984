//! One aborter, which aborts the works of its line.
ghost use Rattle.std.specs.Prelude.{◌≡◌, ◌++◌, ◌∷◌, [], IfOk, OnErr, OnOk, false, length, map, replicate, true, ℕ};
ghost use Rattle.beside_works.specs.Aborters.{HasRun, CountsAbort};
ghost use Rattle.beside_works.specs.Counts.{added, cells_in, counts_in, later, places_in, raised};
ghost use Rattle.beside_works.specs.Views.{met_list, own_list, spawn_cell, split_count};

use crate::gate::Gate;
use crate::line::Aborter;
use crate::{AborterPass, SharedSpawn};
use machine_data::NoMemory;
use std::alloc::Global;

// Adds an item to a list. If it is out of memory, the list is as before.
pub(crate) fn add<T: Drop>(list: &mut Vec<T>, item: T) -> Result<(), NoMemory>
    ensures ok { OnOk result (list.new.items ≡ list.old.items ++ item ∷ []) }
    ensures err { OnErr result (list.new.items ≡ list.old.items) }
{
    match list.push(item) {
        Ok(()) => Ok(()),
        Err(_) => Err(NoMemory),
    }
}

// Aborts this spawn, counted from 1, if there is one. If it is out of memory, nothing is done.
fn abort_one(passes: &mut Vec<AborterPass>, spawn: u32) -> Result<(), NoMemory>
    ensures cells { cells_in passes.new.items ≡ cells_in passes.old.items }
    ensures places { places_in passes.new.items ≡ places_in passes.old.items }
    ensures counts { OnOk result (counts_in passes.new.items ≡ added spawn (counts_in passes.old.items)) }
    ensures err { OnErr result (counts_in passes.new.items ≡ counts_in passes.old.items) }
{
    let Some(place) = (spawn as usize).checked_sub(1) else {
        return Ok(());
    };
    if let Some(pass) = passes.get_mut(place) {
        let _phase = pass.abort()?;
    }
    Ok(())
}

impl Aborter {
    /// Makes an aborter with a pass of each cell, which is split off. It is refused only if it is out of memory; then a pass was
    /// split off the first of the cells, and all else of them is as before.
    pub fn new(
        alloc: Global,
        cells: &mut Vec<SharedSpawn>,
        number: u32,
    ) -> Result<Aborter, NoMemory>
        ensures first { IfOk result (λ a. (a.number ≡ number) × (a.out_of_memory ≡ false)) }
        ensures cells { IfOk result (λ a. cells_in a.passes.items ≡ map spawn_cell cells.old.items) }
        ensures places { IfOk result (λ a. places_in a.passes.items ≡ map split_count cells.old.items) }
        ensures counts { IfOk result (λ a. counts_in a.passes.items ≡ replicate (length cells.old.items) 0) }
        ensures same { map spawn_cell cells.new.items ≡ map spawn_cell cells.old.items }
        ensures split { OnOk result (map split_count cells.new.items ≡ later 1 (map split_count cells.old.items)) }
        ensures refused { OnErr result ((i : ℕ) × (map split_count cells.new.items ≡ raised i (map split_count cells.old.items))) }
        ensures rest { (map met_list cells.new.items ≡ map met_list cells.old.items)
            × (map own_list cells.new.items ≡ map own_list cells.old.items) }
    {
        let mut passes = Vec::new(alloc);
        for cell in cells.iter_mut() {
            let pass = cell.split(alloc)?;
            add(&mut passes, pass)?;
        }
        Ok(Aborter {
            number,
            passes,
            out_of_memory: false,
        })
    }

    // Aborts this spawn, and keeps whether it was out of memory for that.
    fn abort(&mut self, spawn: u32)
        ensures number { self.new.number ≡ self.old.number }
        ensures cells { cells_in self.new.passes.items ≡ cells_in self.old.passes.items }
        ensures places { places_in self.new.passes.items ≡ places_in self.old.passes.items }
        ensures made { CountsAbort spawn self.old self.new }
    {
        match abort_one(&mut self.passes, spawn) {
            Ok(()) => {}
            Err(_) => self.out_of_memory = true,
        }
    }

    /// Makes the aborts of its line, in order, each between two calls of the gate. One for which it is out of memory isn't made.
    pub fn run<G: Gate>(&mut self, gate: &G, line: &[u32])
        ensures { HasRun line.now self.old self.new }
    {
        let mut count = 0u32;
        for spawn in line {
            count = count.saturating_add(1);
            gate.before(self.number, count);
            self.abort(*spawn);
            gate.after(self.number, count);
        }
    }
}
