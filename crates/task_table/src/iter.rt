ghost use Rattle.std.specs.Iterator.{YieldsFirstBy, item_count};

use crate::place::TableCell;
use std::marker::Model;

/// The entries of a table with their places, in order of the place, seen as the list of those that are left.
#[derive(Drop)]
pub struct TableIter<'a, E> {
    pub(crate) places: &'a [TableCell<E>],
    // The number of the first of `places`.
    pub(crate) rep: u32,
}

impl<'a, E> Model for TableIter<'a, E> {
    ghost use Rattle.std.specs.Prelude.{ℕ, ◌+◌, ◌≤◌, List, map, length};

    ghost Value = { List (ℕ × E) };

    ghost use Rattle.task_table.specs.Entries.{entries_from};
    ghost use Rattle.task_table.specs.TableCells.{placed_in};

    ghost view = { λ it. entries_from it.rep (map placed_in it.places.now) };

    ghost invariant = { λ it. it.rep + length it.places.now ≤ 4294967295 };
}

impl<'a, E> Iterator for TableIter<'a, E> {
    type Item = (u32, &'a E);

    ghost next_gives = { YieldsFirstBy (λ item. (item.0, item.1.now)) (λ rest. rest) };

    ghost remaining = { item_count (λ rest. rest) };

    fn next(&mut self) -> Option<(u32, &'a E)> {
        while let Some((place, rest)) = self.places.split_first() {
            let rep = self.rep;
            self.places = rest;
            self.rep += 1;
            if let TableCell::Taken(slot) = place {
                return Some((rep, &slot.entry));
            }
        }
        None
    }
}
