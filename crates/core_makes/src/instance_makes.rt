ghost use Rattle.core_makes.specs.Instances.{with_instance};
ghost use Rattle.core_makes.specs.Loose.{AreLoose};
ghost use Rattle.std.specs.Prelude.{◌≡◌, ◌<◌, IfOk, IsSome, None, OnErr, OnOk};
ghost use Rattle.machine_data.specs.Maps.{get, size};
ghost use Rattle.core_records.specs.Seen.{IsSoundCore, parts_of, seen};
ghost use Rattle.core_records.specs.Sound.{bare};
ghost use Rattle.core_primitives.specs.StateView.{on_core};

use crate::mark_makes::{open_high, open_low};
use crate::{make_instance_queue_chain, make_place_chain};
use core_records::{CoreParts, InstanceRecord};
use machine_data::{Instance, NoMemory};
use std::alloc::AllocError;
use task_handles::{HandleTable, ThreadHandleTable};

const UNTOUCHED: Instance = Instance {
    backpressure: 0,
    do_not_enter: false,
    do_not_suspend: false,
    memory_cells: [0; 16],
};

// The chains that an instance is to have, with those of the marks.
fn make_chains(parts: &mut CoreParts) -> Result<(usize, usize, usize, usize), NoMemory>
    requires { IsSoundCore parts.old }
    ensures sound { IsSoundCore parts.new }
    ensures seen { seen parts.new ≡ seen parts.old }
    ensures high { OnOk result (IsSome parts.new.high) }
    ensures low { OnOk result (IsSome parts.new.low) }
    ensures loose { IfOk result (λ made. AreLoose (bare (parts_of parts.new)) made.0 made.1 made.2 made.3) }
{
    open_high(parts)?;
    open_low(parts)?;
    let held = make_place_chain(parts)?;
    let starts = make_place_chain(parts)?;
    let high = make_instance_queue_chain(parts)?;
    let low = make_instance_queue_chain(parts)?;
    Ok((held, starts, high, low))
}

// An instance more, with these chains.
fn add(
    parts: &mut CoreParts,
    held: usize,
    starts: usize,
    high: usize,
    low: usize,
) -> Result<(), AllocError>
    requires sound { IsSoundCore parts.old }
    requires high { IsSome parts.old.high }
    requires low { IsSome parts.old.low }
    requires loose { AreLoose (bare (parts_of parts.old)) held starts high low }
    ensures sound { IsSoundCore parts.new }
    ensures new { OnOk result (seen parts.new ≡ on_core with_instance (seen parts.old)) }
    ensures err { OnErr result (seen parts.new ≡ seen parts.old) }
{
    let instance = InstanceRecord {
        instance: UNTOUCHED,
        handles: HandleTable::new(parts.alloc),
        thread_handles: ThreadHandleTable::new(parts.alloc),
        held,
        starts,
        high,
        low,
    };
    parts.instances.push(instance)?;
    Ok(())
}

/// Makes an instance and answers its number, from 0: its counters and memory cells are 0, its flags are clear, and it has no handles. If
/// it is out of memory, all is as before.
pub fn add_instance(parts: &mut CoreParts) -> Result<u32, NoMemory>
    requires sound { IsSoundCore parts.old }
    requires few { size (seen parts.old).core.instances < 4294967295 }
    ensures sound { IsSoundCore parts.new }
    ensures number { IfOk result (λ i. i ≡ size (seen parts.old).core.instances) }
    ensures fresh { IfOk result (λ i. get (seen parts.old).core.instances i ≡ None) }
    ensures unnamed { IfOk result (λ i. get (seen parts.old).core.handles i ≡ None) }
    ensures new { OnOk result (seen parts.new ≡ on_core with_instance (seen parts.old)) }
    ensures err { OnErr result (seen parts.new ≡ seen parts.old) }
{
    let number = parts.instances.len() as u32;
    let (held, starts, high, low) = make_chains(parts)?;
    match add(parts, held, starts, high, low) {
        Ok(()) => Ok(number),
        Err(_) => Err(NoMemory),
    }
}
