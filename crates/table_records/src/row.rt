//! The rows of a record table, and the changes of one row.
ghost use Rattle.std.specs.Prelude.{◌≡◌, ◌<◌, ◌≤◌, ◌+◌, ◌^◌, [], reverse, drop, map, OnOk, Some, IsSome, length, slice_set, vec_capacity};
ghost use Rattle.std.specs.Option.{option_copied, option_map};
ghost use Rattle.task_table.specs.Changes.{next_of, put_at_next};
ghost use Rattle.task_table.specs.declared.place.TableCell.TheVariants as place;
ghost use Rattle.table_records.specs.Rows.{HasRowRoom, NextIsThere, place_of, row_placed, row_shown};
ghost use Rattle.task_table.specs.Table.{of_serial};

use std::alloc::AllocError;

/// The serial of a free row, which no entry is given.
pub(crate) const FREE: u64 = u64::MAX;

/// An entry with the serial of its id. The entry of a free row says nothing.
#[derive(Clone, Copy)]
pub(crate) struct RecordRow<E> {
    /// The serial of the entry's id, or `FREE`.
    pub(crate) serial: u64,
    /// What was pushed last.
    pub(crate) entry: E,
}

/// Returns the taken row at a place.
#[inline(always)]
pub(crate) fn row_at<E>(rows: &Vec<RecordRow<E>>, rep: u32) -> Option<&RecordRow<E>>
    ensures { option_map row_placed (option_copied result) ≡ row_shown rows.now.items rep }
{
    match rows.get(rep as usize) {
        Some(row) if row.serial != FREE => Some(row),
        _ => None,
    }
}

/// Returns the taken row at a place, if its entry has this serial.
#[inline(always)]
pub(crate) fn row_in<E>(rows: &Vec<RecordRow<E>>, rep: u32, serial: u64) -> Option<&RecordRow<E>>
    ensures { option_map row_placed (option_copied result) ≡ of_serial serial (row_shown rows.now.items rep) }
{
    match rows.get(rep as usize) {
        Some(row) if row.serial == serial && serial != FREE => Some(row),
        _ => None,
    }
}

/// Makes room for one row more, and for freeing it, where no row is free.
#[inline(always)]
pub(crate) fn reserve<E>(
    rows: &mut Vec<RecordRow<E>>,
    free: &mut Vec<u32>,
) -> Result<(), AllocError>
    requires { length rows.old.items < 2 ^ 32 }
    ensures rows { rows.new.items ≡ rows.old.items }
    ensures free { free.new.items ≡ free.old.items }
    ensures kept { vec_capacity free.old ≤ vec_capacity free.new }
    ensures room { OnOk result (HasRowRoom rows.new free.new) }
{
    if free.is_empty() {
        free.reserve(rows.len() + 1)?;
        rows.reserve(1)?;
    }
    Ok(())
}

/// Puts a row at the place freed last, else at a new one.
#[inline(always)]
pub(crate) fn fill<E: Copy>(
    rows: &mut Vec<RecordRow<E>>,
    free: &mut Vec<u32>,
    row: RecordRow<E>,
) -> u32
    requires room { HasRowRoom rows.old free.old }
    requires free { NextIsThere (reverse free.old.items) rows.old.items }
    requires few { free.old.items ≡ [] → length rows.old.items + 1 < 2 ^ 32 }
    ensures rep { result ≡ next_of (reverse free.old.items) (length rows.old.items) }
    ensures rows { rows.new.items ≡ put_at_next (reverse free.old.items) row rows.old.items }
    ensures free { reverse free.new.items ≡ drop 1 (reverse free.old.items) }
    ensures capacity { vec_capacity free.new ≡ vec_capacity free.old }
{
    match free.pop() {
        Some(rep) => {
            rows[rep as usize] = row;
            rep
        }
        None => {
            let rep = rows.len() as u32;
            rows.push_reserved(row);
            rep
        }
    }
}

/// Frees a taken row, and gives its entry.
#[inline(always)]
pub(crate) fn vacate<E: Copy>(rows: &mut Vec<RecordRow<E>>, rep: u32) -> E
    requires { IsSome (row_shown rows.old.items rep) }
    ensures entry { option_map (λ p. p.entry) (row_shown rows.old.items rep) ≡ Some result }
    ensures rows { map place_of rows.new.items ≡ slice_set (map place_of rows.old.items) rep place.Free }
{
    let row = &mut rows[rep as usize];
    row.serial = FREE;
    row.entry
}
