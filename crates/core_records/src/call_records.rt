use crate::single::Single;
use machine_data::Call;
use table_links::Node;
use task_table::Kind;
use task_wait::{GroupKey, GuestTaskKey};

/// A call of an export, under the number of its first thread.
#[derive(Clone, Copy)]
pub struct GuestTask {
    pub number: u64,
    pub call: Call,
    /// The place of the thread that made it, if one did.
    pub maker: u32,
    /// The place of its first thread, as long as that is there.
    pub first: u32,
    /// The place of what `call.join` names, if it names anything.
    pub joined: u32,
    /// The place of its group.
    pub group: u32,
    /// Its place in the resource table.
    pub entry: u32,
    /// How many threads of it there are.
    pub threads: u64,
    /// Its node among the ready members of a set.
    pub ready: Node,
    /// The chain of the threads that are blocked on it.
    pub blocked: usize,
    /// The chain of its own threads that wait, where a cancel may take any of these: an async-lifted call's in version 2.
    pub waits: Option<usize>,
}

/// A group.
#[derive(Clone, Copy)]
pub struct TaskGroup {
    pub number: u64,
    /// How many calls and host calls are of it.
    pub calls: u64,
    /// Its place in the resource table, which is free again once the group is finished.
    pub entry: u32,
}

impl Kind<Single<GuestTask>> for GuestTaskKey {
    ghost use Rattle.core_records.specs.Kinds.{entry_of, item_of, no_other, wrapped};

    type Item = GuestTask;

    ghost entry_of = { entry_of };

    ghost item_of = { item_of };

    ghost wrapped = { wrapped };

    ghost no_other = { no_other };

    fn wrap(item: GuestTask) -> Single<GuestTask> {
        Single { item }
    }

    fn view(entry: &Single<GuestTask>) -> Option<&GuestTask> {
        Some(&entry.item)
    }

    fn view_mut(entry: &mut Single<GuestTask>) -> Option<&mut GuestTask> {
        Some(&mut entry.item)
    }

    fn unwrap(entry: Single<GuestTask>) -> Result<GuestTask, Single<GuestTask>> {
        Ok(entry.item)
    }
}

impl Kind<Single<TaskGroup>> for GroupKey {
    ghost use Rattle.core_records.specs.Kinds.{entry_of, item_of, no_other, wrapped};

    type Item = TaskGroup;

    ghost entry_of = { entry_of };

    ghost item_of = { item_of };

    ghost wrapped = { wrapped };

    ghost no_other = { no_other };

    fn wrap(item: TaskGroup) -> Single<TaskGroup> {
        Single { item }
    }

    fn view(entry: &Single<TaskGroup>) -> Option<&TaskGroup> {
        Some(&entry.item)
    }

    fn view_mut(entry: &mut Single<TaskGroup>) -> Option<&mut TaskGroup> {
        Some(&mut entry.item)
    }

    fn unwrap(entry: Single<TaskGroup>) -> Result<TaskGroup, Single<TaskGroup>> {
        Ok(entry.item)
    }
}
