ghost use Rattle.std.specs.Prelude.{◌≡◌, ◌+◌, ◌<◌, ◌^◌, IfOk, OnErr, OnOk, if◌then◌else◌, true};
ghost use Rattle.machine_data.specs.Read.{fits, is_host_call};
ghost use Rattle.machine_data.specs.Write.{add_work, count_work};
ghost use Rattle.core_records.specs.Seen.{IsSoundCore, seen};
ghost use Rattle.core_records.specs.declared.call_records.TaskGroup.{TaskGroup};
ghost use Rattle.core_removals.specs.Counted.{IsIn};
ghost use Rattle.core_primitives.specs.BecomesRecord.{BecomesRecord};
ghost use Rattle.core_removals.specs.LooseWorks.{nodes_of};
ghost use Rattle.core_removals.specs.Raised.{IsHere, PushesWork, raised, IsWorkNextOf, MayQueueWork, NamesNewWork};

use core_makes::one_more;
use core_primitives::WorkId;
use core_records::{CoreParts, Single, TaskGroup, WorkRecord};
use machine_data::NoMemory;
use table_records::RecordTable;
use task_table::TableId;
use task_wait::{GroupKey, HostTaskKey};

// The group of a host call has one call more; a spawned work has none.
fn raise_group(
    groups: &mut RecordTable<Single<TaskGroup>>,
    group: Option<(TableId<GroupKey>, TaskGroup)>,
)
    requires here { IsHere groups.old group }
    requires few { (r : TaskGroup) → IsIn r groups.old → r.calls + 1 < 2 ^ 64 }
    ensures { groups.new ≡ raised groups.old group }
{
    if let Some((id, found)) = group {
        one_more(groups, id, found);
    }
}

// A handle's room more, where there is one.
fn counted(used: u64, more: bool) -> u64
    requires { more ≡ true → used + 1 < 2 ^ 64 }
    ensures { result ≡ used + (if more then 1 else 0) }
{
    if more { used + 1 } else { used }
}

/// Makes the record of a host work, with its nodes and its chain.
pub(crate) fn push_work(
    parts: &mut CoreParts,
    work: WorkRecord,
    group: Option<(TableId<GroupKey>, TaskGroup)>,
) -> Result<WorkId, NoMemory>
    requires sound { IsSoundCore parts.old }
    requires few { (seen parts.old).core.made.works + 1 < 2 ^ 64 }
    requires room { is_host_call work.work ≡ true → fits 1 (seen parts.old).core ≡ true }
    requires next { IsWorkNextOf parts.old work group }
    requires nodes { MayQueueWork parts.old (nodes_of work) }
    ensures sound { IsSoundCore parts.new }
    ensures new { OnOk result (BecomesRecord (add_work work.number work.work (count_work (seen parts.old).core)) (seen parts.old) (seen parts.new)) }
    ensures names { IfOk result (λ id. NamesNewWork id (seen parts.old) (seen parts.new)) }
    ensures pushes { IfOk result (λ id. PushesWork parts.old parts.new work group id.rep (if is_host_call work.work then 1 else 0)) }
    ensures err { OnErr result (parts.new ≡ parts.old) }
{
    let called = work.work.group.is_some();
    match parts.works.push::<HostTaskKey>(work) {
        Ok(id) => {
            raise_group(&mut parts.groups, group);
            parts.made.works += 1;
            parts.kept.used = counted(parts.kept.used, called);
            Ok(id)
        }
        Err(_) => Err(NoMemory),
    }
}
