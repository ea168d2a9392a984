ghost use Rattle.std.specs.Prelude.{◌≡◌, ◌<◌, IsSome, Ok};
ghost use Rattle.table_lists.specs.GivenPlaces.{given};
ghost use Rattle.machine_data.specs.Read.{set_at};
ghost use Rattle.machine_data.specs.Write.{free_handle, remove_set};
ghost use Rattle.core_records.specs.Kinds.{item_of};
ghost use Rattle.core_records.specs.Seen.{IsSoundCore, seen};
ghost use Rattle.core_records.specs.declared.set_records.WaitSet.{WaitSet};
ghost use Rattle.task_table.specs.TableAnswers.{item_at};
ghost use Rattle.core_primitives.specs.StateView.{on_core, set_of};
ghost use Rattle.core_primitives.specs.Records.{LosesSetBy, set_closed};

use crate::chains_removals::close_order_keys;
use core_primitives::SetId;
use core_records::CoreParts;

// A set is gone, as it is.
fn remove_set(parts: &mut CoreParts, set: SetId)
    requires sound { IsSoundCore parts.old }
    requires live { 0 < set_of (seen parts.old) set }
    ensures sound { IsSoundCore parts.new }
    ensures new { LosesSetBy remove_set set (seen parts.old) (seen parts.new) }
    ensures places { (x : WaitSet) → Ok x ≡ item_at item_of parts.old.sets set.rep set.serial → parts.new.table_places ≡ given x.entry parts.old.table_places }
{
    let found = *core_records::set_there(parts, set);
    close_order_keys(&mut parts.places, found.waiters);
    close_order_keys(&mut parts.ready_calls, found.ready_calls);
    close_order_keys(&mut parts.ready_works, found.ready_works);
    parts.sets.take(set);
    parts.kept.used -= 1;
    parts.table_places.give(found.entry);
}

// Takes a handle of a set back.
fn free_set_handle(parts: &mut CoreParts, instance: u32, handle: u32)
    requires sound { IsSoundCore parts.old }
    requires names { IsSome (set_at instance handle (seen parts.old).core) }
    ensures sound { IsSoundCore parts.new }
    ensures new { seen parts.new ≡ on_core (free_handle instance handle) (seen parts.old) }
{
    let entry = &mut parts.instances[instance as usize];
    let _ = entry
        .handles
        .waitable_set_remove(&mut parts.counter, handle);
}

/// Removes a set, and frees its handle in the instance.
pub fn close_set(parts: &mut CoreParts, instance: u32, handle: u32, set: SetId)
    requires sound { IsSoundCore parts.old }
    requires live { 0 < set_of (seen parts.old) set }
    requires names { IsSome (set_at instance handle (seen parts.old).core) }
    ensures sound { IsSoundCore parts.new }
    ensures new { LosesSetBy (set_closed instance handle) set (seen parts.old) (seen parts.new) }
{
    free_set_handle(parts, instance, handle);
    remove_set(parts, set);
}
