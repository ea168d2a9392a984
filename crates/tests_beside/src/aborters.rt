ghost use Rattle.std.specs.Prelude.{◌≡◌, ◌++◌, ◌∷◌, [], IfOk, IfSome, OnOk, map};
ghost use Rattle.beside_works.specs.Counts.{met_count};
ghost use Rattle.beside_works.specs.Views.{HasMetEach, split_count};

use beside_works::{Gate, OpenGate, SharedSpawn, aborters_of, meet_all, run_aborters};
use crossbeam_utils::CachePadded;
use machine_data::{NoMemory, Seq};
use std::alloc::Global;
use std::sync::atomic::{AtomicBool, Ordering};
use std::thread::{self, Threads};

// How often one waits for the other.
const TURNS: u32 = 1_000_000;

// Adds an item to a list.
fn add<T: Drop>(list: &mut Vec<T>, item: T) -> Result<(), NoMemory>
    ensures { OnOk result (list.new.items ≡ list.old.items ++ item ∷ []) }
{
    match list.push(item) {
        Ok(()) => Ok(()),
        Err(_) => Err(NoMemory),
    }
}

// Adds a new cell.
fn add_cell(alloc: Global, cells: &mut Vec<SharedSpawn>) -> Result<(), NoMemory>
    requires { map split_count cells.old.items ≡ map met_count cells.old.items }
    ensures { OnOk result (map split_count cells.new.items ≡ map met_count cells.new.items) }
{
    let cell = SharedSpawn::new(alloc)?;
    add(cells, cell)?;
    Ok(())
}

// The cells of two spawns.
fn two_cells(alloc: Global) -> Result<Vec<SharedSpawn>, NoMemory>
    ensures { IfOk result (λ v. map split_count v.items ≡ map met_count v.items) }
{
    let mut cells = Vec::new(alloc);
    add_cell(alloc, &mut cells)?;
    add_cell(alloc, &mut cells)?;
    Ok(cells)
}

// A line of three spawns, each counted from 1.
fn line(alloc: Global, first: u32, second: u32, third: u32) -> Result<Seq<u32>, NoMemory> {
    let mut spawns = Vec::new(alloc);
    add(&mut spawns, first)?;
    add(&mut spawns, second)?;
    add(&mut spawns, third)?;
    Ok(Seq::from_vec(spawns))
}

// The aborters of these lines abort spawns, beside one another.
fn abort_all<R: Threads + Sync, G: Gate + Sync>(
    rt: &R,
    alloc: Global,
    gate: &G,
    lines: &[Seq<u32>],
    cells: &mut Vec<SharedSpawn>,
) -> Result<(), NoMemory>
    requires { map split_count cells.old.items ≡ map met_count cells.old.items }
    ensures { OnOk result (map split_count cells.new.items ≡ map met_count cells.new.items) }
{
    let mut aborters = aborters_of(alloc, cells, lines)?;
    run_aborters(rt, gate, lines, aborters.as_mut_slice());
    meet_all(cells, aborters)?;
    Ok(())
}

// How many entries the log of a cell has.
fn count_of(alloc: Global, cell: Option<&SharedSpawn>) -> Result<usize, NoMemory>
    requires { IfSome cell (λ s. HasMetEach s.now) }
{
    match cell {
        Some(cell) => {
            let log = cell.log(alloc, cell.calls())?;
            Ok(log.len())
        }
        None => Ok(0),
    }
}

// How many entries the logs of both cells have, that of the first one in hundreds.
fn counts<R: Threads + Sync>(rt: &R, alloc: Global) -> Result<usize, NoMemory> {
    let mut cells = two_cells(alloc)?;
    let lines = [line(alloc, 1, 2, 1)?, line(alloc, 2, 2, 7)?];
    abort_all(rt, alloc, &OpenGate, &lines, &mut cells)?;
    let first = count_of(alloc, cells.get(0))?;
    let second = count_of(alloc, cells.get(1))?;
    Ok(first.wrapping_mul(100).wrapping_add(second))
}

#[test]
fn each_abort_of_a_line_is_in_the_log_once(rt: HostRuntime) {
    match counts(&rt, rt.alloc()) {
        Ok(count) => assert!(rt; count == 203),
        Err(_) => panic!(rt; "no memory"),
    }
}

/// Which of two aborters has reached its first abort, and whether one has waited too long for the other.
#[derive(Drop)]
struct Meeting {
    first: CachePadded<AtomicBool>,
    second: CachePadded<AtomicBool>,
    late: CachePadded<AtomicBool>,
}

fn is_set(flag: &AtomicBool) -> bool {
    flag.load(Ordering::SeqCst)
}

impl Gate for Meeting {
    fn before(&self, aborter: u32, number: u32) {
        if number != 1 {
            return;
        }
        match aborter {
            1 => self.first.store(true, Ordering::SeqCst),
            _ => self.second.store(true, Ordering::SeqCst),
        }
        for _turn in 0..TURNS {
            if is_set(&self.first) && is_set(&self.second) {
                return;
            }
            thread::yield_now();
        }
        self.late.store(true, Ordering::SeqCst);
    }

    fn after(&self, _aborter: u32, _number: u32) {}

    fn pends(&self, _number: u32) {}
}

// Whether both aborters reached their first aborts before either had made one.
fn both_meet<R: Threads + Sync>(rt: &R, alloc: Global) -> Result<bool, NoMemory> {
    let meeting = Meeting {
        first: CachePadded::new(AtomicBool::new(false)),
        second: CachePadded::new(AtomicBool::new(false)),
        late: CachePadded::new(AtomicBool::new(false)),
    };
    let mut cells = two_cells(alloc)?;
    let lines = [line(alloc, 1, 2, 1)?, line(alloc, 2, 2, 7)?];
    abort_all(rt, alloc, &meeting, &lines, &mut cells)?;
    Ok(!is_set(&meeting.late))
}

#[test]
fn aborters_run_beside_one_another(rt: HostRuntime) {
    match both_meet(&rt, rt.alloc()) {
        Ok(met) => assert!(rt; met),
        Err(_) => panic!(rt; "no memory"),
    }
}
