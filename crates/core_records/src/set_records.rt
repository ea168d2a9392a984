use crate::single::Single;
use machine_data::Set;
use task_table::Kind;
use task_wait::SetKey;

/// A waitable set, under its number.
#[derive(Clone, Copy)]
pub struct WaitSet {
    pub number: u64,
    pub set: Set,
    /// Its place in the resource table.
    pub entry: u32,
    /// The chain of the threads that wait on it.
    pub waiters: usize,
    /// The chains of its ready members: calls, and host works.
    pub ready_calls: usize,
    pub ready_works: usize,
    /// How many calls and host works are in it.
    pub members: u64,
    /// How many threads wait on it or have an entry for it.
    pub entries: u64,
}

impl Kind<Single<WaitSet>> for SetKey {
    ghost use Rattle.core_records.specs.Kinds.{entry_of, item_of, no_other, wrapped};

    type Item = WaitSet;

    ghost entry_of = { entry_of };

    ghost item_of = { item_of };

    ghost wrapped = { wrapped };

    ghost no_other = { no_other };

    fn wrap(item: WaitSet) -> Single<WaitSet> {
        Single { item }
    }

    fn view(entry: &Single<WaitSet>) -> Option<&WaitSet> {
        Some(&entry.item)
    }

    fn view_mut(entry: &mut Single<WaitSet>) -> Option<&mut WaitSet> {
        Some(&mut entry.item)
    }

    fn unwrap(entry: Single<WaitSet>) -> Result<WaitSet, Single<WaitSet>> {
        Ok(entry.item)
    }
}
