ghost use Rattle.std.specs.Prelude.{◌≡◌, ◌<◌, IfOk, OnErr, OnOk, Some};
ghost use Rattle.machine_data.specs.Write.{set_thread_handle};
ghost use Rattle.core_records.specs.Seen.{IsSoundCore, parts_of, seen};
ghost use Rattle.core_primitives.specs.StateView.{on_core, thread_of};
ghost use Rattle.core_primitives.specs.Changes.{NamesThread, handle_for, with_handle_for};

use crate::thread_handles::insert_thread_handle;
use core_primitives::ThreadId;
use core_records::CoreParts;
use machine_data::NoMemory;
use task_handles::Rep;

// Writes the handle of a thread that is there, which names it in its instance.
#[inline(always)]
fn write_handle(parts: &mut CoreParts, thread: ThreadId, handle: u32)
    requires sound { IsSoundCore parts.old }
    requires live { 0 < thread_of (seen parts.old) thread }
    requires owns { NamesThread thread handle (seen parts.old) }
    ensures sound { IsSoundCore parts.new }
    ensures new { seen parts.new ≡ on_core (set_thread_handle (thread_of (seen parts.old) thread) (Some handle)) (seen parts.old) }
{
    parts.threads.get_mut_unchecked(thread).thread.handle = Some(handle);
}

/// Gives a thread its handle in its instance. If it is out of memory, all is as before.
#[inline(always)]
pub fn name_thread(parts: &mut CoreParts, thread: ThreadId) -> Result<u32, NoMemory>
    requires sound { IsSoundCore parts.old }
    requires live { 0 < thread_of (seen parts.old) thread }
    ensures sound { IsSoundCore parts.new }
    ensures handle { IfOk result (λ h. h ≡ handle_for thread (seen parts.old)) }
    ensures new { OnOk result (seen parts.new ≡ with_handle_for thread (seen parts.old)) }
    ensures err { OnErr result (seen parts.new ≡ seen parts.old) }
    ensures same { OnErr result (parts_of parts.new ≡ parts_of parts.old) }
{
    let entry = core_records::thread_there(parts, thread);
    let instance = entry.instance;
    let rep = Rep {
        id: thread.rep,
        serial: entry.number,
    };
    match insert_thread_handle(parts, instance, rep) {
        Ok(handle) => {
            write_handle(parts, thread, handle);
            Ok(handle)
        }
        Err(why) => Err(why),
    }
}
