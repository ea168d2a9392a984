use crate::single::Single;
use machine_data::Work;
use table_links::Node;
use task_table::Kind;
use task_wait::HostTaskKey;

/// A host work, under its number.
#[derive(Clone, Copy)]
pub struct WorkRecord {
    pub number: u64,
    pub work: Work,
    /// The place of the thread that made it, if one did.
    pub maker: u32,
    /// The place of what `work.join` names, if it names anything.
    pub joined: u32,
    /// The place of its group, if it has one.
    pub group: u32,
    /// Its place in the resource table, if it is a host call.
    pub entry: u32,
    /// Its nodes among the ready members of a set, and among the live works.
    pub ready: Node,
    pub live: Node,
    /// Its node among the entries of a mark.
    pub mark: Node,
    /// The chain of the threads that are blocked on it.
    pub blocked: usize,
}

/// A live work: its number, and its place. Live works are ordered by number.
#[derive(Clone, Copy, PartialEq, Eq, PartialOrd, Ord)]
pub struct LiveWork {
    pub number: u64,
    pub place: u32,
}

impl Kind<Single<WorkRecord>> for HostTaskKey {
    ghost use Rattle.core_records.specs.Kinds.{entry_of, item_of, no_other, wrapped};

    type Item = WorkRecord;

    ghost entry_of = { entry_of };

    ghost item_of = { item_of };

    ghost wrapped = { wrapped };

    ghost no_other = { no_other };

    fn wrap(item: WorkRecord) -> Single<WorkRecord> {
        Single { item }
    }

    fn view(entry: &Single<WorkRecord>) -> Option<&WorkRecord> {
        Some(&entry.item)
    }

    fn view_mut(entry: &mut Single<WorkRecord>) -> Option<&mut WorkRecord> {
        Some(&mut entry.item)
    }

    fn unwrap(entry: Single<WorkRecord>) -> Result<WorkRecord, Single<WorkRecord>> {
        Ok(entry.item)
    }
}
