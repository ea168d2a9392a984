//! Groups, which are finished when nothing of them is left.
ghost use Rattle.core_removals.specs.Counted.{IsIn, Lowers};
ghost use Rattle.std.specs.Prelude.{◌≡◌, ◌<◌, ◌≤◌, ℕ, Ok, Some, if◌then◌else◌};
ghost use Rattle.machine_data.specs.Moves.{group_settled};
ghost use Rattle.core_records.specs.Keys.{group_key};
ghost use Rattle.core_records.specs.Kinds.{item_of};
ghost use Rattle.core_records.specs.Names.{HasNumber};
ghost use Rattle.core_records.specs.Seen.{IsSoundCore, seen};
ghost use Rattle.core_records.specs.declared.call_records.TaskGroup.{TaskGroup};
ghost use Rattle.task_table.specs.TableAnswers.{item_at};
ghost use Rattle.task_table.specs.Records.{number_in, number_of, record_at};
ghost use Rattle.core_primitives.specs.StateView.{on_core};

use core_records::{CoreParts, Single, TaskGroup};
use table_records::RecordTable;
use task_table::TableId;
use task_wait::GroupKey;

// One where it is so.
pub(crate) fn one_if(flag: bool) -> u64
    ensures { result ≡ (if flag then 1 else 0) }
{
    if flag { 1 } else { 0 }
}

// The group that is at a place, with its id.
pub(crate) fn group_unchecked(
    groups: &RecordTable<Single<TaskGroup>>,
    place: u32,
) -> (TableId<GroupKey>, TaskGroup)
    requires { 0 < number_in (record_at group_key groups.now.places place) }
    ensures item { Ok result.1 ≡ item_at item_of groups.now result.0.rep result.0.serial }
    ensures number { result.1.number ≡ number_in (record_at group_key groups.now.places place) }
{
    let id = TableId::new(place, groups.serial_unchecked(place));
    (id, *groups.there::<GroupKey>(place))
}

/// Takes one call off the group of a host call, which the id names; a spawned work has none.
pub(crate) fn lower_group(
    groups: &mut RecordTable<Single<TaskGroup>>,
    place: u32,
    group: Option<u64>,
) -> Option<TableId<GroupKey>>
    requires named { (n : ℕ) → group ≡ Some n → HasNumber group_key groups.old place n × (0 < n) }
    requires some { (n : ℕ) (r : TaskGroup) → group ≡ Some n → r.number ≡ n → IsIn r groups.old → 1 ≤ r.calls }
    ensures { Lowers groups.old groups.new group result }
{
    if group.is_none() {
        return None;
    }
    let (id, mut counted) = group_unchecked(groups, place);
    counted.calls -= 1;
    *groups.get_mut_unchecked(id) = counted;
    Some(id)
}

/// Finishes the group if nothing of it is left.
pub(crate) fn settle_group(parts: &mut CoreParts, group: TableId<GroupKey>)
    requires sound { IsSoundCore parts.old }
    requires live { 0 < number_of group_key parts.old.groups group.rep group.serial }
    ensures sound { IsSoundCore parts.new }
    ensures new { seen parts.new ≡ on_core (group_settled (number_of group_key parts.old.groups group.rep group.serial)) (seen parts.old) }
{
    let found = *parts.groups.there::<GroupKey>(group.rep);
    settle_counted(parts, group, found);
}

/// Finishes the group, whose record is known, if nothing of it is left. It is among the ended ones then.
#[inline(always)]
pub(crate) fn settle_counted(parts: &mut CoreParts, group: TableId<GroupKey>, found: TaskGroup)
    requires sound { IsSoundCore parts.old }
    requires live { 0 < number_of group_key parts.old.groups group.rep group.serial }
    requires item { Ok found ≡ item_at item_of parts.old.groups group.rep group.serial }
    ensures sound { IsSoundCore parts.new }
    ensures new { seen parts.new ≡ on_core (group_settled (number_of group_key parts.old.groups group.rep group.serial)) (seen parts.old) }
{
    if found.calls > 0 {
        return;
    }
    parts.groups.take(group);
    if found.number > parts.finished {
        parts.table_places.give(found.entry);
        parts.kept.groups -= 1;
        parts.kept.used -= 1;
        parts.ended.push_reserved(found.number);
    }
}
