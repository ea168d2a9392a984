ghost use Rattle.std.specs.Prelude.{◌≡◌, ◌<◌, ◌^◌, IfOk, IsSome, OnErr, OnOk, length};
ghost use Rattle.core_fields.specs.Kinds.{IsHandleKind};
ghost use Rattle.task_handles.specs.Counted.{Counts, Inserts, Unchanged};
ghost use Rattle.machine_data.specs.Read.{new_handle, subtask_at};
ghost use Rattle.machine_data.specs.Write.{free_handle, give_handle};
ghost use Rattle.core_records.specs.Instances.{named_of};
ghost use Rattle.core_records.specs.Names.{IsHeldNamed, kinds};
ghost use Rattle.core_records.specs.Seen.{IsSoundCore, parts_of, seen};
ghost use Rattle.core_records.specs.Sound.{bare};
ghost use Rattle.core_primitives.specs.StateView.{on_core};

use core_records::CoreParts;
use machine_data::NoMemory;
use task_handles::{HandleCounter, HandleKind, HandleTable, HeldItem, WaitableKind};

// By the kind of what the handle is for.
fn insert(
    handles: &mut HandleTable,
    counter: &mut HandleCounter,
    item: HeldItem,
) -> Result<u32, NoMemory>
    requires counts { Counts counter.old handles.old }
    requires known { IsHandleKind item.kind }
    ensures ok { IfOk result (λ handle. Inserts item handles.old handles.new counter.old counter.new handle) }
    ensures err { OnErr result (Unchanged handles.old handles.new counter.old counter.new) }
{
    let handle = match item.kind {
        HandleKind::Waitable(WaitableKind::GuestSubtask) => {
            handles.subtask_insert_guest(counter, item.rep)
        }
        HandleKind::Waitable(WaitableKind::HostSubtask) => {
            handles.subtask_insert_host(counter, item.rep)
        }
        HandleKind::Waitable(WaitableKind::Stream | WaitableKind::Future) => unreachable!(),
        HandleKind::Set => handles.waitable_set_insert(counter, item.rep),
    };
    match handle {
        Ok(handle) => Ok(handle),
        Err(_) => Err(NoMemory),
    }
}

/// Gives the next handle of an instance to a subtask or a set. Where none is given, all is as before.
pub fn insert_handle(parts: &mut CoreParts, index: u32, item: HeldItem) -> Result<u32, NoMemory>
    requires sound { IsSoundCore parts.old }
    requires there { index < length parts.old.instances.items }
    requires stands { IsHeldNamed (kinds (bare (parts_of parts.old))) item.kind item.rep }
    ensures sound { IsSoundCore parts.new }
    ensures handle { IfOk result (λ h. h ≡ new_handle index (seen parts.old).core) }
    ensures small { IfOk result (λ h. h < 2 ^ 28) }
    ensures new { OnOk result (seen parts.new ≡ on_core (give_handle index (named_of item)) (seen parts.old)) }
    ensures err { OnErr result (seen parts.new ≡ seen parts.old) }
    ensures same { OnErr result (parts_of parts.new ≡ parts_of parts.old) }
{
    let entry = &mut parts.instances[index as usize];
    match insert(&mut entry.handles, &mut parts.counter, item) {
        Ok(handle) => Ok(handle),
        Err(_) => Err(NoMemory),
    }
}

/// Takes a handle of a subtask back.
pub fn free_handle(parts: &mut CoreParts, instance: u32, handle: u32)
    requires sound { IsSoundCore parts.old }
    requires live { IsSome (subtask_at instance handle (seen parts.old).core) }
    ensures sound { IsSoundCore parts.new }
    ensures new { seen parts.new ≡ on_core (free_handle instance handle) (seen parts.old) }
{
    let entry = &mut parts.instances[instance as usize];
    let _ = entry.handles.subtask_remove(&mut parts.counter, handle);
}
