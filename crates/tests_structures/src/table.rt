use Call::{AddChild, Capacity, Delete, Push, RemoveChild};
use std::alloc::Global;
use std::process::Abort;
use table_records::RecordTable;
use task_table::{Kind, ResourceTable, ResourceTableError, TableId};

#[derive(Clone, Copy)]
enum Entry {
    Number(u64),
    Flag(bool),
}

// The kind of the entries that are numbers.
#[derive(Drop)]
struct Number;

impl Kind<Entry> for Number {
    ghost use Rattle.std.specs.Prelude.{Some, None, refl};
    ghost use Rattle.tests_structures.specs.declared.table.Entry.TheVariants.{Number, Flag};

    type Item = u64;

    ghost entry_of = { Number };

    ghost item_of = { elim [ Number n ↦ Some n | Flag b ↦ None ] };

    fn wrap(item: u64) -> Entry {
        Entry::Number(item)
    }

    fn view(entry: &Entry) -> Option<&u64> {
        match entry {
            Entry::Number(number) => Some(number),
            Entry::Flag(_) => None,
        }
    }

    fn view_mut(entry: &mut Entry) -> Option<&mut u64> {
        match entry {
            Entry::Number(number) => Some(number),
            Entry::Flag(_) => None,
        }
    }

    fn unwrap(entry: Entry) -> Result<u64, Entry> {
        match entry {
            Entry::Number(number) => Ok(number),
            Entry::Flag(flag) => Err(Entry::Flag(flag)),
        }
    }

    ghost wrapped = { λ _. refl };

    ghost no_other = { elim [ Number n ↦ λ item found. Prim.cc | Flag b ↦ λ item found. Prim.cc ] };
}

// A call on a table. A number names the id that the push of this number, counted from 0, gave.
#[derive(Clone, Copy)]
enum Call {
    Push,
    Delete(usize),
    Capacity(u32),
    AddChild(usize, usize),
    RemoveChild(usize, usize),
}

// What refusals are written as, beside places.
const FULL: u32 = 1_001;

const ABSENT: u32 = 1_002;

const CHILDREN: u32 = 1_003;

fn refused(why: ResourceTableError) -> u32 {
    match why {
        ResourceTableError::Full => FULL,
        ResourceTableError::NotPresent => ABSENT,
        ResourceTableError::HasChildren => CHILDREN,
        ResourceTableError::NoMemory | ResourceTableError::WrongType => u32::MAX,
    }
}

fn done<T: Drop>(answer: Result<T, ResourceTableError>) -> u32 {
    match answer {
        Ok(_) => 0,
        Err(why) => refused(why),
    }
}

// The id that this push gave, or one that names nothing.
fn id_at(ids: &Vec<TableId<Number>>, push: usize) -> TableId<Number> {
    match ids.get(push) {
        Some(id) => *id,
        None => TableId::new(u32::MAX, u64::MAX),
    }
}

// The place that a push gave, 0 for another call that was not refused, or the refusal.
fn answer_of(
    rt: &impl Abort,
    table: &mut ResourceTable<Entry>,
    ids: &mut Vec<TableId<Number>>,
    call: Call,
) -> u32 {
    match call {
        Call::Push => push_answer(rt, table, ids),
        Call::Delete(n) => done(table.delete(id_at(ids, n))),
        Call::Capacity(n) => {
            table.set_max_capacity(n as usize);
            0
        }
        Call::AddChild(child, parent) => add_answer(
            rt,
            table,
            id_at(ids, child),
            id_at(ids, parent),
        ),
        Call::RemoveChild(child, parent) => done(table.remove_child(
            id_at(ids, child),
            id_at(ids, parent),
        )),
    }
}

fn push_answer(
    rt: &impl Abort,
    table: &mut ResourceTable<Entry>,
    ids: &mut Vec<TableId<Number>>,
) -> u32 {
    match table.push::<Number>(7) {
        Ok(id) => {
            assert!(rt; ids.push(id).is_ok());
            id.rep()
        }
        Err(back) => refused(back.why),
    }
}

fn add_answer(
    rt: &impl Abort,
    table: &mut ResourceTable<Entry>,
    child: TableId<Number>,
    parent: TableId<Number>,
) -> u32 {
    assert!(rt; !table.has_parent(child));
    done(table.add_child(child, parent))
}

// Makes the calls on a new table, and compares the answers.
fn answers(rt: &impl Abort, alloc: Global, capacity: u32, calls: &[(Call, u32)]) {
    let mut table = ResourceTable::new(alloc);
    table.set_max_capacity(capacity as usize);
    let mut ids = Vec::new(alloc);
    for (call, want) in calls {
        let answer = answer_of(rt, &mut table, &mut ids, *call);
        assert!(rt; answer == *want);
    }
}

#[test]
fn the_place_freed_last_is_the_next_one_given(rt: HostRuntime) {
    let calls = [
        (Push, 0),
        (Push, 1),
        (Delete(0), 0),
        (Push, 0),
        (Delete(2), 0),
        (Delete(1), 0),
        (Push, 1),
        (Push, 0),
        (Push, 2),
        (Delete(0), ABSENT),
    ];
    answers(&rt, rt.alloc(), 10, &calls);
}

#[test]
fn a_table_takes_as_many_entries_as_its_capacity(rt: HostRuntime) {
    answers(&rt, rt.alloc(), 0, &[(Push, FULL)]);
    let calls = [
        (Push, 0),
        (Push, FULL),
        (Capacity(0), 0),
        (Push, FULL),
        (Delete(0), 0),
        (Push, 0),
        (Push, FULL),
    ];
    answers(&rt, rt.alloc(), 1, &calls);
    let calls = [
        (Push, 0),
        (Push, 1),
        (Push, 2),
        (Push, 3),
        (Push, 4),
        (Push, 5),
        (Push, 6),
        (Push, 7),
        (Push, 8),
        (Push, 9),
        (Push, FULL),
    ];
    answers(&rt, rt.alloc(), 10, &calls);
}

#[test]
fn a_parent_is_deleted_after_its_children(rt: HostRuntime) {
    let calls = [
        (Push, 0),
        (Push, 1),
        (AddChild(1, 0), 0),
        (Delete(0), CHILDREN),
        (RemoveChild(0, 1), ABSENT),
        (RemoveChild(1, 0), 0),
        (RemoveChild(1, 0), ABSENT),
        (Delete(0), 0),
        (AddChild(1, 0), ABSENT),
    ];
    answers(&rt, rt.alloc(), 10, &calls);
}

// Pushes the number to the place of that number, and writes its half over it.
fn pushed(rt: &impl Abort, table: &mut ResourceTable<Entry>, number: u32) {
    let Ok(id) = table.push::<Number>(number as u64) else {
        panic!(rt; "no memory")
    };
    assert!(rt; id.rep() == number);
    assert!(rt; id.serial() == number as u64);
    if let Ok(item) = table.get_mut(id) {
        *item = number as u64 / 2;
    }
    assert!(rt; read(table, id) == number as u64 / 2);
}

fn read(table: &ResourceTable<Entry>, id: TableId<Number>) -> u64 {
    match table.get(id) {
        Ok(item) => *item,
        Err(_) => u64::MAX,
    }
}

// The number of an entry.
fn number_of(entry: &Entry) -> u64 {
    match entry {
        Entry::Number(number) => *number,
        Entry::Flag(_) => u64::MAX,
    }
}

// How many entries are gone through: each has half its place as its number.
fn gone_through(rt: &impl Abort, table: &ResourceTable<Entry>) -> u32 {
    let mut seen = 0;
    for (rep, entry) in table.iter() {
        assert!(rt; rep == seen);
        assert!(rt; number_of(entry) == seen as u64 / 2);
        seen = rep.wrapping_add(1);
    }
    seen
}

#[test]
fn entries_are_counted_read_and_written(rt: HostRuntime) {
    let mut table: ResourceTable<Entry> = ResourceTable::new(rt.alloc());
    assert!(rt; table.is_empty() && table.max_capacity() == 1_000_000);
    pushed(&rt, &mut table, 0);
    pushed(&rt, &mut table, 1);
    pushed(&rt, &mut table, 2);
    assert!(rt; table.len() == 3 && table.free() == 999_997);
    assert!(rt; gone_through(&rt, &table) == 3);
}

#[test]
fn records_are_read_written_and_deleted(rt: HostRuntime) {
    let mut table: RecordTable<Entry> = RecordTable::new(rt.alloc());
    let (Ok(first), Ok(second)) = (table.push::<Number>(7), table.push::<Number>(8)) else {
        panic!(rt; "no memory")
    };
    assert!(rt; first.rep() == 0 && second.rep() == 1 && second.serial() == 1);
    if let Ok(item) = table.get_mut(first) {
        *item = 9;
    }
    let (Ok(9), Some(8)) = (table.get(first), table.item_at::<Number>(1)) else {
        panic!(rt; "not read as written")
    };
    assert!(rt; *table.there::<Number>(1) == 8);
    let (Ok(9), Err(ResourceTableError::NotPresent)) = (table.delete(first), table.get(first))
    else {
        panic!(rt; "not deleted")
    };
    let (None, Some(1), Some(0)) = (table.serial_at(0), table.serial_at(1), table.next_place())
    else {
        panic!(rt; "not at its place")
    };
    let mut seen = 0;
    for (rep, entry) in table.iter() {
        assert!(rt; rep == 1 && number_of(entry) == 8);
        seen = rep;
    }
    assert!(rt; seen == 1 && table.len() == 1);
    let Ok(third) = table.push::<Number>(5) else {
        panic!(rt; "no memory")
    };
    assert!(rt; third.rep() == 0 && third.serial() == 2);
    assert!(rt; matches!(table.get(first), Err(ResourceTableError::NotPresent)));
    assert!(rt; matches!(table.get(third), Ok(5)));
}

#[test]
fn known_records_are_read_written_and_taken(rt: HostRuntime) {
    let mut table: RecordTable<Entry> = RecordTable::new(rt.alloc());
    let (Ok(first), Ok(second)) = (table.push::<Number>(7), table.push::<Number>(8)) else {
        panic!(rt; "no memory")
    };
    let Ok(8) = table.get(second) else {
        panic!(rt; "not there")
    };
    assert!(rt; *table.known(second) == 8);
    *table.get_mut_unchecked(second) = 6;
    let (Ok(7), Ok(6), Some(1)) = (table.get(first), table.get(second), table.serial_at(1)) else {
        panic!(rt; "not written")
    };
    assert!(rt; table.serial_unchecked(1) == 1);
    table.take(first);
    let (Err(ResourceTableError::NotPresent), Some(0)) = (table.get(first), table.next_place())
    else {
        panic!(rt; "not taken")
    };
    assert!(rt; table.len() == 1);
}
