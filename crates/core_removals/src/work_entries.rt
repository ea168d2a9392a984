ghost use Rattle.std.specs.Prelude.{◌≡◌, ◌<◌};
ghost use Rattle.machine_data.specs.Write.{push_high};
ghost use Rattle.machine_data.specs.declared.records.Entry.TheVariants as entries;
ghost use Rattle.core_records.specs.Rows.{push_entry};
ghost use Rattle.core_records.specs.Seen.{IsSoundCore, seen};
ghost use Rattle.core_primitives.specs.Apart.{work_entries};
ghost use Rattle.core_primitives.specs.StateView.{on_core, work_of};

use core_primitives::WorkId;
use core_records::{CoreParts, Queued, WorkRecord};
use machine_data::Entry;

// The push of the work at a place.
fn push_of(place: u32, work: WorkRecord) -> Queued
    ensures { result ≡ push_entry place work }
{
    Queued {
        entry: Entry::Push { work: work.number },
        place,
        instance: None,
        mark: work.mark,
        instance_queue: work.mark,
    }
}

/// Queues the push of a work.
pub fn queue_push(parts: &mut CoreParts, work: WorkId)
    requires sound { IsSoundCore parts.old }
    requires live { 0 < work_of (seen parts.old) work }
    requires unqueued { work_entries (work_of (seen parts.old) work) (seen parts.old).core.queues.high ≡ 0 }
    ensures sound { IsSoundCore parts.new }
    ensures new { seen parts.new ≡ on_core (push_high (entries.Push (work_of (seen parts.old) work))) (seen parts.old) }
{
    let found = *core_records::work_there(parts, work);
    let queued = push_of(work.rep(), found);
    match parts.high {
        Some(chain) => {
            parts.marks.no_node_is_twice();
            parts.marks.push_back(chain, queued.mark, queued);
        }
        None => unreachable!(),
    }
}
