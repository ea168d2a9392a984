ghost use Rattle.std.specs.Prelude.{◌≡◌, ◌<◌, IfOk, OnErr, OnOk, Some, length};
ghost use Rattle.machine_data.specs.Read.{new_thread_handle, thread_at};
ghost use Rattle.machine_data.specs.Write.{give_thread_handle};
ghost use Rattle.core_records.specs.Names.{AtPlace, ThreadOf};
ghost use Rattle.core_records.specs.Seen.{IsSoundCore, parts_of, seen};
ghost use Rattle.core_primitives.specs.StateView.{on_core};

use core_records::CoreParts;
use machine_data::NoMemory;
use task_handles::Rep;

/// Gives the next thread handle of an instance to what is at a place. Where none is given, all is as before.
pub fn insert_thread_handle(parts: &mut CoreParts, index: u32, rep: Rep) -> Result<u32, NoMemory>
    requires sound { IsSoundCore parts.old }
    requires there { index < length parts.old.instances.items }
    requires stands { AtPlace (parts_of parts.old) rep.id (ThreadOf rep.serial) }
    ensures sound { IsSoundCore parts.new }
    ensures handle { IfOk result (λ h. h ≡ new_thread_handle index (seen parts.old).core) }
    ensures names { IfOk result (λ h. thread_at index h (seen parts.new).core ≡ Some rep.serial) }
    ensures new { OnOk result (seen parts.new ≡ on_core (give_thread_handle index rep.serial) (seen parts.old)) }
    ensures err { OnErr result (seen parts.new ≡ seen parts.old) }
    ensures same { OnErr result (parts_of parts.new ≡ parts_of parts.old) }
{
    let entry = &mut parts.instances[index as usize];
    match entry
        .thread_handles
        .guest_thread_insert(&mut parts.counter, rep)
    {
        Ok(handle) => Ok(handle),
        Err(_) => Err(NoMemory),
    }
}
