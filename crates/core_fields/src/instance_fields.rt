ghost use Rattle.std.specs.Prelude.{◌≡◌, is_some};
ghost use Rattle.machine_data.specs.Maps.{get};
ghost use Rattle.machine_data.specs.Read.{backpressure_of, may_not_enter, may_not_suspend, memory_cell_of};
ghost use Rattle.machine_data.specs.Write.{set_backpressure, set_do_not_enter, set_do_not_suspend, set_memory_cell};
ghost use Rattle.core_records.specs.Seen.{IsSoundCore, seen};
ghost use Rattle.core_primitives.specs.StateView.{on_core};

use crate::arrays::{number_in, put_number};
use core_records::CoreParts;

/// Returns whether there is such an instance.
pub fn has_instance(parts: &CoreParts, instance: u32) -> bool
    ensures { result ≡ is_some (get (seen parts.now).core.instances instance) }
{
    core_records::instance(parts, instance).is_some()
}

/// Returns the instance's count of backpressure, 0 to 65535; 0 if there is no such instance.
pub fn backpressure(parts: &CoreParts, instance: u32) -> u16
    ensures { result ≡ backpressure_of instance (seen parts.now).core }
{
    match core_records::instance(parts, instance) {
        Some(entry) => entry.instance.backpressure,
        None => 0,
    }
}

/// Returns whether the instance keeps entries out (`do_not_enter`); not where there is no such instance.
pub fn may_not_enter(parts: &CoreParts, instance: u32) -> bool
    ensures { result ≡ may_not_enter instance (seen parts.now).core }
{
    match core_records::instance(parts, instance) {
        Some(entry) => entry.instance.do_not_enter,
        None => false,
    }
}

/// Returns whether a thread of the instance may not stop (`do_not_suspend`); not where there is no such instance.
pub fn may_not_suspend(parts: &CoreParts, instance: u32) -> bool
    ensures { result ≡ may_not_suspend instance (seen parts.now).core }
{
    match core_records::instance(parts, instance) {
        Some(entry) => entry.instance.do_not_suspend,
        None => false,
    }
}

/// Returns one of the instance's memory cells, 0 to 15; 0 if there is none.
pub fn memory_cell(parts: &CoreParts, instance: u32, cell: u8) -> u64
    ensures { result ≡ memory_cell_of instance cell (seen parts.now).core }
{
    match core_records::instance(parts, instance) {
        Some(entry) => number_in(&entry.instance.memory_cells, cell),
        None => 0,
    }
}

/// Sets the instance's count of backpressure.
pub fn set_backpressure(parts: &mut CoreParts, instance: u32, count: u16)
    requires { IsSoundCore parts.old }
    ensures sound { IsSoundCore parts.new }
    ensures new { seen parts.new ≡ on_core (set_backpressure instance count) (seen parts.old) }
{
    if (instance as usize) < parts.instances.len() {
        let entry = &mut parts.instances[instance as usize];
        entry.instance.backpressure = count;
    }
}

/// Sets whether the instance keeps entries out.
pub fn set_do_not_enter(parts: &mut CoreParts, instance: u32, flag: bool)
    requires { IsSoundCore parts.old }
    ensures sound { IsSoundCore parts.new }
    ensures new { seen parts.new ≡ on_core (set_do_not_enter instance flag) (seen parts.old) }
{
    if (instance as usize) < parts.instances.len() {
        let entry = &mut parts.instances[instance as usize];
        entry.instance.do_not_enter = flag;
    }
}

/// Sets whether threads of the instance may not stop.
pub fn set_do_not_suspend(parts: &mut CoreParts, instance: u32, flag: bool)
    requires { IsSoundCore parts.old }
    ensures sound { IsSoundCore parts.new }
    ensures new { seen parts.new ≡ on_core (set_do_not_suspend instance flag) (seen parts.old) }
{
    if (instance as usize) < parts.instances.len() {
        let entry = &mut parts.instances[instance as usize];
        entry.instance.do_not_suspend = flag;
    }
}

/// Writes one of the instance's memory cells, 0 to 15.
pub fn set_memory_cell(parts: &mut CoreParts, instance: u32, cell: u8, value: u64)
    requires { IsSoundCore parts.old }
    ensures sound { IsSoundCore parts.new }
    ensures new { seen parts.new ≡ on_core (set_memory_cell instance cell value) (seen parts.old) }
{
    if (instance as usize) < parts.instances.len() {
        let entry = &mut parts.instances[instance as usize];
        put_number(&mut entry.instance.memory_cells, cell, value);
    }
}
