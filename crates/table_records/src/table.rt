ghost use Rattle.std.specs.Prelude.{◌≡◌, ◌↔◌, ◌<◌, ◌≤◌, ◌+◌, ◌-◌, ◌==◌, if◌then◌else◌, false, Ok, Some, None, IsOk, IsSome, is_some, length, true, IfSome, IfOk, IfErr, OnOk, OnErr};
ghost use Rattle.std.specs.Option.{option_and_then, option_copied, option_map};
ghost use Rattle.std.specs.Borrow.{sem};
ghost use Rattle.task_table.specs.TableAnswers.{item_at, deletion, result_copied, result_copied_mut, RefusesItem};
ghost use Rattle.task_table.specs.Changes.{Adds, Removes, next_place, pushed, deleted, with_capacity};
ghost use Rattle.task_table.specs.Entries.{entries};
ghost use Rattle.table_records.specs.Rows.{row_placed};
ghost use Rattle.task_table.specs.Table.{IsTable, new_table, place_at, found, table_len, is_full};

use crate::iter::RecordIter;
use crate::row::{RecordRow, fill, reserve, row_at, row_in, vacate};
use std::alloc::{AllocError, Global};
use std::marker::Model;
use task_table::{Kind, PushError, ResourceTableError, TableId};

/// Records, which may be copied and have no parents. Each call answers as that of a `ResourceTable` of 4,294,967,295 places whose
/// entries have no parents, and costs less.
///
/// A place is given again, the one freed last first; a serial never is. An id finds the entry at its place where that has its
/// serial. A deleted entry stays in memory until its place is given again. A refused call leaves the table as it was. Each call
/// works in constant time, but for a push that makes room and for the walk of `iter`.
#[derive(Drop)]
pub struct RecordTable<E> {
    rows: Vec<RecordRow<E>>,
    // The free rows, the one freed last at the end. It has room for each rule.
    free: Vec<u32>,
    // How many serials were given.
    given: u64,
}

impl<E> Model for RecordTable<E> {
    ghost use Rattle.std.specs.Prelude.{vec_capacity};
    ghost use Rattle.task_table.specs.Table.{Table, table_code};

    ghost Value = { Table E };

    ghost coded = { table_code E.code };

    ghost use Rattle.table_records.specs.Rows.{AreRecords, records_shown};

    ghost view = { λ t. records_shown t.rows.items t.free.items t.given };

    ghost invariant = { λ t. AreRecords t.rows.items t.free.items (vec_capacity t.free) t.given };
}

impl<E: Copy> RecordTable<E> {
    ghost use Rattle.table_records.specs.LentRecords.{lends_entry, lends_item, lends_known};

    /// Makes an empty table, whose places are as many as there can be: 4,294,967,295.
    pub fn new(alloc: Global) -> RecordTable<E>
        ensures empty { result ≡ with_capacity 4294967295 new_table }
        ensures sound { IsTable result }
    {
        RecordTable {
            rows: Vec::new(alloc),
            free: Vec::new(alloc),
            given: 0,
        }
    }

    /// Returns how many entries there are.
    pub fn len(&self) -> usize
        ensures len { result ≡ table_len self.now }
        ensures sound { IsTable self.now }
    {
        self.rows.len() - self.free.len()
    }

    // The row of the entry with this place and serial.
    fn row(&self, rep: u32, serial: u64) -> Option<&RecordRow<E>>
        ensures found { option_map row_placed (option_copied result) ≡ found self.now rep serial }
    {
        row_in(&self.rows, rep, serial)
    }

    // The taken row at a place.
    fn taken(&self, rep: u32) -> Option<&RecordRow<E>>
        ensures { option_map row_placed (option_copied result) ≡ place_at self.now rep }
    {
        row_at(&self.rows, rep)
    }

    // Whether there is an entry with this place and serial.
    fn contains(&self, rep: u32, serial: u64) -> bool
        ensures { result ≡ is_some (found self.now rep serial) }
    {
        self.row(rep, serial).is_some()
    }

    // Whether no push is allowed.
    fn is_full(&self) -> bool
        ensures { result ≡ is_full self.now }
    {
        self.free.is_empty() && self.rows.len() >= 4_294_967_295 || self.given == u64::MAX
    }

    /// Returns the item of the entry with this id. `NotPresent` where no entry has its place and serial, `WrongType` where that
    /// entry is of another kind.
    pub fn get<K: Kind<E>>(&self, id: TableId<K>) -> Result<&K::Item, ResourceTableError>
        ensures { result_copied result ≡ item_at K.item_of self.now id.rep id.serial }
    {
        match self.row(id.rep, id.serial) {
            Some(row) => K::view(&row.entry).ok_or(ResourceTableError::WrongType),
            None => Err(ResourceTableError::NotPresent),
        }
    }

    // The entry at a taken place, for writing.
    fn entry_mut(&mut self, rep: u32) -> &mut E
        requires { IsSome (place_at self.old rep) }
        ensures* lends { sem 𝓛 (lends_entry E.row self.entry rep result) }
        ensures value { option_map (λ p. p.entry) (place_at self.old rep) ≡ Some result.now }
    {
        &mut self.rows[rep as usize].entry
    }

    /// Returns the item of the entry with this id, for writing. It is refused as `get` is. After a write the entry is the one that
    /// the kind makes of the item written, under the same id.
    pub fn get_mut<K: Kind<E>>(
        &mut self,
        id: TableId<K>,
    ) -> Result<&mut K::Item, ResourceTableError>
        ensures* writes_back { sem 𝓛 (lends_item E.row self.entry id.rep K.Item.row K.entry_of result) }
        ensures value { result_copied_mut result ≡ item_at K.item_of self.old id.rep id.serial }
    {
        if !self.contains(id.rep, id.serial) {
            return Err(ResourceTableError::NotPresent);
        }
        match K::view_mut(self.entry_mut(id.rep)) {
            Some(item) => Ok(item),
            None => Err(ResourceTableError::WrongType),
        }
    }

    /// Returns the place that the next push gives. `None` where no push is allowed.
    pub fn next_place(&self) -> Option<u32>
        ensures some { IfSome result (λ rep. rep ≡ next_place self.now) }
        ensures none { (result ≡ None) ↔ (is_full self.now ≡ true) }
    {
        if self.is_full() {
            return None;
        }
        match self.free.last() {
            Some(rep) => Some(*rep),
            None => Some(self.rows.len() as u32),
        }
    }

    /// Puts an item into the table, at the place freed last, else at a new one, and under a serial that was never given.
    ///
    /// It is `Full` exactly where no place is free and 4,294,967,295 places are made, or where 2^64 - 1 serials were given. A
    /// refused item comes back.
    #[inline(always)]
    pub fn push<K: Kind<E>>(&mut self, item: K::Item) -> Result<TableId<K>, PushError<K::Item>>
        ensures rep { IfOk result (λ id. id.rep ≡ next_place self.old) }
        ensures serial { IfOk result (λ id. id.serial ≡ self.old.given) }
        ensures pushed { OnOk result (self.new ≡ pushed (K.entry_of item) self.old) }
        ensures added { IfOk result (λ id. Adds self.old self.new id.rep id.serial (K.entry_of item)) }
        ensures room { OnOk result (is_full self.old ≡ false) }

        ensures refused { IfErr result (λ refused. RefusesItem self.old item refused) }
        ensures err { OnErr result (self.new ≡ self.old) }
        ensures sound { IsTable self.new }
    {
        if self.is_full() {
            return Err(PushError {
                item,
                why: ResourceTableError::Full,
            });
        }
        if reserve(&mut self.rows, &mut self.free).is_err() {
            return Err(PushError {
                item,
                why: ResourceTableError::NoMemory,
            });
        }
        let serial = self.given;
        let row = RecordRow {
            serial,
            entry: K::wrap(item),
        };
        let rep = fill(&mut self.rows, &mut self.free, row);
        self.given = serial + 1;
        Ok(TableId::new(rep, serial))
    }

    /// Takes the entry with this id out of the table, and gives its item. Its place is the next to be given.
    ///
    /// It is refused as `get` is.
    pub fn delete<K: Kind<E>>(&mut self, id: TableId<K>) -> Result<K::Item, ResourceTableError>
        ensures answer { result ≡ deletion K.item_of self.old id.rep id.serial }
        ensures ok { OnOk result (self.new ≡ deleted id.rep self.old) }
        ensures removed { OnOk result (Removes self.old self.new id.rep) }
        ensures err { OnErr result (self.new ≡ self.old) }
        ensures sound { IsTable self.new }
    {
        if let Err(why) = self.get(id) {
            return Err(why);
        }
        let entry = vacate(&mut self.rows, id.rep);
        self.free.push_reserved(id.rep);
        match K::unwrap(entry) {
            Ok(item) => Ok(item),
            Err(_) => unreachable!(),
        }
    }

    /// Returns the serial of what is at a place, so that an id may be made of the place alone.
    pub fn serial_at(&self, rep: u32) -> Option<u64>
        ensures { result ≡ option_map (λ p. p.serial) (place_at self.now rep) }
    {
        match self.taken(rep) {
            Some(row) => Some(row.serial),
            None => None,
        }
    }

    /// Returns the serial of what is known to be at a place: nothing is tested.
    pub fn serial_unchecked(&self, rep: u32) -> u64
        requires { IsSome (place_at self.now rep) }
        ensures { Some result ≡ option_map (λ p. p.serial) (place_at self.now rep) }
    {
        self.rows[rep as usize].serial
    }

    /// Returns the item of what is at a place, whatever its serial, if it is of this kind.
    pub fn item_at<K: Kind<E>>(&self, rep: u32) -> Option<&K::Item>
        ensures { option_copied result ≡ option_and_then (λ p. K.item_of p.entry) (place_at self.now rep) }
    {
        match self.taken(rep) {
            Some(row) => K::view(&row.entry),
            None => None,
        }
    }

    /// Returns the item of an entry that is known to be at a place: nothing is tested.
    pub fn there<K: Kind<E>>(&self, rep: u32) -> &K::Item
        requires { IsSome (option_and_then (λ p. K.item_of p.entry) (place_at self.now rep)) }
        ensures { Some result.now ≡ option_and_then (λ p. K.item_of p.entry) (place_at self.now rep) }
    {
        match K::view(&self.rows[rep as usize].entry) {
            Some(item) => item,
            None => unreachable!(),
        }
    }

    /// Returns the item of the entry with this id, which is known to be there: nothing is tested.
    pub fn known<K: Kind<E>>(&self, id: TableId<K>) -> &K::Item
        requires { IsOk (item_at K.item_of self.now id.rep id.serial) }
        ensures { Ok result.now ≡ item_at K.item_of self.now id.rep id.serial }
    {
        self.there::<K>(id.rep)
    }

    /// Returns the item of the entry with this id, which is known to be there, for writing: nothing is tested. After a write the
    /// entry is the one that the kind makes of the item written, under the same id.
    pub fn get_mut_unchecked<K: Kind<E>>(&mut self, id: TableId<K>) -> &mut K::Item
        requires { IsOk (item_at K.item_of self.old id.rep id.serial) }
        ensures* writes_back { sem 𝓛 (lends_known E.row self.entry id.rep K.Item.row K.entry_of result) }
        ensures value { Ok result.now ≡ item_at K.item_of self.old id.rep id.serial }
    {
        match K::view_mut(self.entry_mut(id.rep)) {
            Some(item) => item,
            None => unreachable!(),
        }
    }

    /// Takes the entry with this id, which is known to be there, out of the table: nothing is tested. Its place is the next to be given.
    pub fn take<K: Kind<E>>(&mut self, id: TableId<K>)
        requires { IsOk (item_at K.item_of self.old id.rep id.serial) }
        ensures deleted { self.new ≡ deleted id.rep self.old }
        ensures removed { Removes self.old self.new id.rep }
        ensures sound { IsTable self.new }
    {
        let _entry = vacate(&mut self.rows, id.rep);
        self.free.push_reserved(id.rep);
    }

    /// Returns each entry with its place, in order of the place.
    pub fn iter(&self) -> RecordIter<'_, E>
        ensures entries { result ≡ entries self.now }
        ensures len { length result ≡ table_len self.now }
        ensures few { length result ≤ 4294967295 }
    {
        RecordIter {
            rows: self.rows.as_slice(),
            rep: 0,
        }
    }
}
