ghost use Rattle.core_removals.specs.Gone.{FreesCall};
ghost use Rattle.std.specs.Prelude.{◌≡◌, ◌<◌, None, Ok, false};
ghost use Rattle.machine_data.specs.Maps.{get};
ghost use Rattle.machine_data.specs.Read.{call_group, has_thread, join_of};
ghost use Rattle.machine_data.specs.Write.{remove_call, set_join};
ghost use Rattle.machine_data.specs.declared.records.Join.TheVariants as joins;
ghost use Rattle.machine_data.specs.declared.records.Subtask.TheVariants as subtasks;
ghost use Rattle.core_records.specs.Keys.{group_key};
ghost use Rattle.core_records.specs.Kinds.{item_of};
ghost use Rattle.core_records.specs.Seen.{IsSoundCore, seen};
ghost use Rattle.task_table.specs.TableAnswers.{item_at};
ghost use Rattle.task_table.specs.Records.{number_of};
ghost use Rattle.core_primitives.specs.StateView.{call_of};
ghost use Rattle.core_primitives.specs.Records.{LosesCallBy, call_deleted};

use crate::chains_removals::{close_order_keys, close_waits, drop_order_key};
use crate::group_removals::{group_unchecked, one_if, settle_counted};
use core_counts::close_room;
use core_places::set_join;
use core_primitives::{CallId, JoinId, SubtaskId};
use core_records::{CoreParts, TaskGroup};
use machine_data::{Goal, Join};
use task_table::TableId;
use task_wait::GroupKey;

// A call in no set is gone; its group may be finished.
#[inline(always)]
fn drop_call(parts: &mut CoreParts, call: CallId) -> (TableId<GroupKey>, TaskGroup)
    requires sound { IsSoundCore parts.old }
    requires live { 0 < call_of (seen parts.old) call }
    requires last { has_thread (call_of (seen parts.old) call) (seen parts.old).core ≡ false }
    requires join { join_of (subtasks.Guest (call_of (seen parts.old) call)) (seen parts.old).core ≡ joins.Nowhere }
    ensures sound { IsSoundCore parts.new }
    ensures new { LosesCallBy remove_call call (seen parts.old) (seen parts.new) }
    ensures item { Ok result.1 ≡ item_at item_of parts.new.groups result.0.rep result.0.serial }
    ensures group { number_of group_key parts.new.groups result.0.rep result.0.serial ≡ call_group (call_of (seen parts.old) call) (seen parts.old).core }
    ensures positive { 0 < call_group (call_of (seen parts.old) call) (seen parts.old).core }
    ensures places { FreesCall call parts.old parts.new }
{
    let found = *core_records::call_there(parts, call);
    parts.calls.take(call);
    let (group, mut counted) = group_unchecked(&parts.groups, found.group);
    counted.calls -= 1;
    *parts.groups.get_mut_unchecked(group) = counted;
    close_order_keys(&mut parts.places, found.blocked);
    drop_order_key(&mut parts.ready_calls, found.ready);
    close_waits(&mut parts.waits, found.waits);
    parts.kept.used -= 1;
    parts.table_places.give(found.entry);
    parts.kept.interesting -= one_if(found.call.interesting);
    (group, counted)
}

// A call with this goal is gone, and so is its room for a result, where it had one that isn't wanted any more.
fn leave_room(parts: &mut CoreParts, call: u64, goal: Goal)
    requires sound { IsSoundCore parts.old }
    requires gone { get (seen parts.old).core.calls call ≡ None }
    ensures sound { IsSoundCore parts.new }
    ensures seen { seen parts.new ≡ seen parts.old }
    ensures only { parts.new ≡ record parts.old { results = parts.new.results } }
{
    if let Goal::Main = goal {
        close_room(parts, call);
    }
}

// A call in no set is gone, and its group is finished, if nothing of it is left.
#[inline(always)]
fn delete_outlined(parts: &mut CoreParts, call: CallId)
    requires sound { IsSoundCore parts.old }
    requires live { 0 < call_of (seen parts.old) call }
    requires last { has_thread (call_of (seen parts.old) call) (seen parts.old).core ≡ false }
    requires join { join_of (subtasks.Guest (call_of (seen parts.old) call)) (seen parts.old).core ≡ joins.Nowhere }
    ensures sound { IsSoundCore parts.new }
    ensures new { LosesCallBy call_deleted call (seen parts.old) (seen parts.new) }
{
    let found = core_records::call_there(parts, call);
    let number = found.number;
    let goal = found.call.goal;
    let (group, counted) = drop_call(parts, call);
    leave_room(parts, number, goal);
    settle_counted(parts, group, counted);
}

// A call is gone, wherever it is joined. It is a function of its own, as most calls are in no set then.
#[inline(never)]
fn delete_joined(parts: &mut CoreParts, call: CallId)
    requires sound { IsSoundCore parts.old }
    requires live { 0 < call_of (seen parts.old) call }
    requires last { has_thread (call_of (seen parts.old) call) (seen parts.old).core ≡ false }
    ensures sound { IsSoundCore parts.new }
    ensures new { LosesCallBy call_deleted call (seen parts.old) (seen parts.new) }
{
    set_join(parts, SubtaskId::Guest(call), JoinId::Nowhere);
    delete_outlined(parts, call);
}

/// Deletes a call, and finishes its group if nothing of the group is left.
pub fn delete_call(parts: &mut CoreParts, call: CallId)
    requires sound { IsSoundCore parts.old }
    requires live { 0 < call_of (seen parts.old) call }
    requires last { has_thread (call_of (seen parts.old) call) (seen parts.old).core ≡ false }
    ensures sound { IsSoundCore parts.new }
    ensures new { LosesCallBy call_deleted call (seen parts.old) (seen parts.new) }
{
    match core_records::call_there(parts, call).call.join {
        Join::Nowhere => delete_outlined(parts, call),
        Join::Set { .. } | Join::Watched { .. } => delete_joined(parts, call),
    }
}
