ghost use Rattle.std.specs.Iterator.{YieldsFirstBy, item_count};

use crate::row::{FREE, RecordRow};
use std::marker::Model;

/// The entries of a record table with their places, in order of the place, seen as the list of those that are left.
#[derive(Drop)]
pub struct RecordIter<'a, E> {
    pub(crate) rows: &'a [RecordRow<E>],
    // The number of the first of `rows`.
    pub(crate) rep: u32,
}

impl<'a, E> Model for RecordIter<'a, E> {
    ghost use Rattle.std.specs.Prelude.{ℕ, ◌+◌, ◌≤◌, List, map, length};

    ghost Value = { List (ℕ × E) };

    ghost use Rattle.task_table.specs.Entries.{entries_from};
    ghost use Rattle.task_table.specs.TableCells.{placed_in};
    ghost use Rattle.table_records.specs.Rows.{place_of};

    ghost view = { λ it. entries_from it.rep (map placed_in (map place_of it.rows.now)) };

    ghost invariant = { λ it. it.rep + length it.rows.now ≤ 4294967295 };
}

impl<'a, E> Iterator for RecordIter<'a, E> {
    type Item = (u32, &'a E);

    ghost next_gives = { YieldsFirstBy (λ item. (item.0, item.1.now)) (λ rest. rest) };

    ghost remaining = { item_count (λ rest. rest) };

    fn next(&mut self) -> Option<(u32, &'a E)> {
        while let Some((row, rest)) = self.rows.split_first() {
            let rep = self.rep;
            self.rows = rest;
            self.rep += 1;
            if row.serial != FREE {
                return Some((rep, &row.entry));
            }
        }
        None
    }
}
