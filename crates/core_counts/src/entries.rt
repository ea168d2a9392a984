//! The places of groups in the resource table.
ghost use Rattle.core_counts.specs.Entries.{entry_at, GivesGroups, groups_above, number_at};
ghost use Rattle.std.specs.Prelude.{◌≡◌};
ghost use Rattle.table_lists.specs.GivenPlaces.{given_each};

use core_records::{Single, TaskGroup};
use table_lists::{Holders, TablePlaces};
use table_records::RecordTable;
use task_wait::GroupKey;

/// Groups, each under the place of its record.
#[derive(Drop)]
struct GroupHolders<'a> {
    groups: &'a RecordTable<Single<TaskGroup>>,
}

impl Holders for GroupHolders<'_> {
    ghost number_of = { λ it. number_at it.groups.now };

    ghost place_of = { λ it. entry_at it.groups.now };

    fn number(&self, name: u32) -> u64 {
        match self.groups.item_at::<GroupKey>(name) {
            Some(group) => group.number,
            None => 0,
        }
    }

    fn place(&self, name: u32) -> u32 {
        match self.groups.item_at::<GroupKey>(name) {
            Some(group) => group.entry,
            None => 0,
        }
    }
}

// The places of the records of groups with a number above this one represent their places in the resource table.
fn give_names(places: &mut TablePlaces, groups: &RecordTable<Single<TaskGroup>>, finished: u64)
    ensures { places.new ≡ given_each (groups_above finished groups.now) places.old }
{
    for (name, group) in groups.iter() {
        if group.item.number > finished {
            places.give(name);
        }
    }
}

/// Frees the places of the groups with a number above this one, in order of their numbers.
pub(crate) fn give_groups(
    places: &mut TablePlaces,
    groups: &RecordTable<Single<TaskGroup>>,
    finished: u64,
)
    ensures { GivesGroups finished groups.now places.old places.new }
{
    let kept = places.free();
    give_names(places, groups, finished);
    places.put_in_order(kept, &GroupHolders { groups });
}
