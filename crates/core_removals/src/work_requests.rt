ghost use Rattle.std.specs.Prelude.{◌≡◌};
ghost use Rattle.machine_rules.specs.Calls.{new_work};
ghost use Rattle.core_removals.specs.Raised.{record_for};

use crate::work_nodes::WorkNodes;
use core_records::{TaskGroup, WorkRecord};
use machine_data::{Course, HostDef, Join, Phase, Stage, Work, WorkCaller};
use task_table::TableId;
use task_wait::GroupKey;

/// A host work that is to be made: who calls, from which place in the table of threads, and what.
#[derive(Clone, Copy)]
pub struct WorkRequest {
    pub caller: WorkCaller,
    pub maker: u32,
    pub host: HostDef,
    /// The place that is taken in the resource table, if it is a call.
    pub entry: u32,
}

// A host work as it is made.
fn new_work(caller: WorkCaller, host: HostDef, group: Option<u64>) -> Work
    ensures { result ≡ new_work caller host group }
{
    Work {
        caller,
        course: Course::Continues { host },
        phase: Phase::Running,
        stage: Stage::Queued,
        cancelled: false,
        group,
        event: None,
        join: Join::Nowhere,
        handle: None,
        borrows: 0,
    }
}

/// Returns the record that a host work is to have, with nodes that were made for it.
pub(crate) fn record_for(
    number: u64,
    request: WorkRequest,
    group: Option<(TableId<GroupKey>, TaskGroup)>,
    nodes: WorkNodes,
) -> WorkRecord
    ensures { result ≡ record_for number request group nodes }
{
    let (name, place) = match group {
        Some((id, found)) => (Some(found.number), id.rep()),
        None => (None, 0),
    };
    WorkRecord {
        number,
        work: new_work(request.caller, request.host, name),
        maker: request.maker,
        joined: 0,
        group: place,
        entry: request.entry,
        ready: nodes.ready,
        live: nodes.live,
        mark: nodes.mark,
        blocked: nodes.blocked,
    }
}
