ghost use Rattle.core_makes.specs.Pushed.{PushesGroup};
ghost use Rattle.core_makes.specs.Counted.{IsGroupLess};
ghost use Rattle.core_makes.specs.Ends.{HasEndRoom};
ghost use Rattle.std.specs.Prelude.{◌≡◌, ◌+◌, ◌-◌, ◌<◌, ◌^◌, IfOk, Ok, OnErr, OnOk, true};
ghost use Rattle.machine_data.specs.Read.{fits};
ghost use Rattle.core_records.specs.Kinds.{item_of};
ghost use Rattle.core_records.specs.Seen.{IsSoundCore, seen};
ghost use Rattle.task_table.specs.TableAnswers.{item_at};
ghost use Rattle.task_table.specs.Changes.{deleted};
ghost use Rattle.task_table.specs.Table.{IsTable};
ghost use Rattle.core_primitives.specs.Groups.{with_group};

use core_records::{CoreParts, TaskGroup};
use machine_data::NoMemory;
use task_table::TableId;
use task_wait::GroupKey;

// There is room for one more group to end. If it is out of memory, all is as before.
#[inline(always)]
pub fn reserve_end(parts: &mut CoreParts) -> Result<(), NoMemory>
    requires sound { IsSoundCore parts.old }
    requires room { fits 1 (seen parts.old).core ≡ true }
    ensures sound { IsSoundCore parts.new }
    ensures seen { seen parts.new ≡ seen parts.old }
    ensures room { OnOk result (HasEndRoom parts.new) }
    ensures only { parts.new ≡ record parts.old { ended = parts.new.ended } }
{
    let more = parts.kept.groups as usize + 1;
    match parts.ended.reserve(more) {
        Ok(()) => Ok(()),
        Err(_) => Err(NoMemory),
    }
}

// A group, with no call yet, at this place of the resource table. If it is out of memory, all is as before.
pub fn push_group(parts: &mut CoreParts, entry: u32) -> Result<TableId<GroupKey>, NoMemory>
    requires sound { IsSoundCore parts.old }
    requires few { parts.old.made.groups + 1 < 2 ^ 64 }
    requires room { fits 1 (seen parts.old).core ≡ true }
    requires end_room { HasEndRoom parts.old }
    ensures sound { IsSoundCore parts.new }
    ensures new { OnOk result (seen parts.new ≡ with_group (seen parts.old)) }
    ensures pushes { IfOk result (λ id. PushesGroup parts.old parts.new entry id) }
    ensures err { OnErr result (parts.new ≡ parts.old) }
{
    let number = parts.made.groups + 1;
    let group = TaskGroup {
        number,
        calls: 0,
        entry,
    };
    match parts.groups.push::<GroupKey>(group) {
        Ok(id) => {
            parts.made.groups = number;
            parts.kept.used += 1;
            parts.kept.groups += 1;
            Ok(id)
        }
        Err(_) => Err(NoMemory),
    }
}

// The record of a group that was just made is gone.
pub fn drop_group(parts: &mut CoreParts, id: TableId<GroupKey>, group: TaskGroup)
    requires sound { IsSoundCore parts.old }
    requires item { Ok group ≡ item_at item_of parts.old.groups id.rep id.serial }
    requires made { 0 < parts.old.made.groups }
    requires used { 0 < parts.old.kept.used }
    requires kept { 0 < parts.old.kept.groups }
    ensures table { IsTable parts.new.groups }
    ensures deleted { parts.new.groups ≡ deleted id.rep parts.old.groups }
    ensures only { IsGroupLess parts.old parts.new }
{
    // only the contract speaks of `group`
    let _group = group;
    match parts.groups.delete(id) {
        Ok(_) => {}
        Err(_) => unreachable!(),
    }
    parts.made.groups -= 1;
    parts.kept.used -= 1;
    parts.kept.groups -= 1;
}
