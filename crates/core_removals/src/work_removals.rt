ghost use Rattle.core_removals.specs.Gone.{FreesWork};
ghost use Rattle.core_removals.specs.Counted.{IsNamedBy};
ghost use Rattle.std.specs.Prelude.{◌≡◌, ◌<◌, if◌then◌else◌};
ghost use Rattle.table_lists.specs.GivenPlaces.{given};
ghost use Rattle.machine_data.specs.Read.{join_of, stage_of};
ghost use Rattle.machine_data.specs.Write.{remove_work, set_stage};
ghost use Rattle.machine_data.specs.declared.records.Join.TheVariants as joins;
ghost use Rattle.machine_data.specs.declared.records.Stage.TheVariants as stages;
ghost use Rattle.machine_data.specs.declared.records.Subtask.TheVariants as subtasks;
ghost use Rattle.core_records.specs.Seen.{IsSoundCore, seen};
ghost use Rattle.machine_rules.specs.Calls.{work_deleted, work_group};
ghost use Rattle.core_primitives.specs.Apart.{work_entries};
ghost use Rattle.core_primitives.specs.StateView.{on_core, work_of};
ghost use Rattle.core_primitives.specs.Records.{LosesWorkBy};

use crate::chains_removals::{close_order_keys, drop_order_key};
use crate::group_removals::{lower_group, one_if, settle_group};
use core_places::{set_join, set_stage};
use core_primitives::{JoinId, SubtaskId, WorkId};
use core_records::CoreParts;
use machine_data::Stage;
use table_lists::TablePlaces;
use task_table::TableId;
use task_wait::GroupKey;

// The place in the resource table is free, where it was taken.
fn give_if(places: &mut TablePlaces, was_taken: bool, entry: u32)
    ensures { places.new ≡ (if was_taken then given entry places.old else places.old) }
{
    if was_taken {
        places.give(entry);
    }
}

// A work that has ended and is in no set is gone; its group, if it has one, may be finished.
fn drop_work(parts: &mut CoreParts, work: WorkId) -> Option<TableId<GroupKey>>
    requires sound { IsSoundCore parts.old }
    requires live { 0 < work_of (seen parts.old) work }
    requires unqueued { work_entries (work_of (seen parts.old) work) (seen parts.old).core.queues.high ≡ 0 }
    requires join { join_of (subtasks.Host (work_of (seen parts.old) work)) (seen parts.old).core ≡ joins.Nowhere }
    requires stage { stage_of (work_of (seen parts.old) work) (seen parts.old).core ≡ stages.Ended }
    ensures sound { IsSoundCore parts.new }
    ensures new { LosesWorkBy remove_work work (seen parts.old) (seen parts.new) }
    ensures group { IsNamedBy parts.new.groups (work_group (work_of (seen parts.old) work) (seen parts.old).core) result }
    ensures places { FreesWork work parts.old parts.new }
{
    let found = *core_records::work_there(parts, work);
    let group = lower_group(&mut parts.groups, found.group, found.work.group);
    close_order_keys(&mut parts.places, found.blocked);
    drop_order_key(&mut parts.ready_works, found.ready);
    parts.polled.drop_node(found.live);
    parts.marks.no_node_is_twice();
    parts.marks.drop_node(found.mark);
    parts.works.take(work);
    parts.kept.used -= one_if(found.work.group.is_some());
    give_if(
        &mut parts.table_places,
        found.work.group.is_some(),
        found.entry,
    );
    group
}

// A work has ended, if it hadn't before.
#[inline(always)]
fn end_stage(parts: &mut CoreParts, work: WorkId)
    requires { IsSoundCore parts.old }
    ensures sound { IsSoundCore parts.new }
    ensures new { seen parts.new ≡ on_core (set_stage (work_of (seen parts.old) work) stages.Ended) (seen parts.old) }
{
    match core_records::work(parts, work) {
        Some(found) => match found.work.stage {
            Stage::Ended => {}
            _ => set_stage(parts, work, Stage::Ended),
        },
        None => set_stage(parts, work, Stage::Ended),
    }
}

/// Deletes a work, and finishes its group if nothing of the group is left.
pub fn delete_work(parts: &mut CoreParts, work: WorkId)
    requires sound { IsSoundCore parts.old }
    requires live { 0 < work_of (seen parts.old) work }
    requires unqueued { work_entries (work_of (seen parts.old) work) (seen parts.old).core.queues.high ≡ 0 }
    ensures sound { IsSoundCore parts.new }
    ensures new { LosesWorkBy work_deleted work (seen parts.old) (seen parts.new) }
{
    set_join(parts, SubtaskId::Host(work), JoinId::Nowhere);
    end_stage(parts, work);
    if let Some(group) = drop_work(parts, work) {
        settle_group(parts, group);
    }
}
