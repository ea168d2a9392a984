//! What is at the places of a table, and the changes of one place.
ghost use Rattle.std.specs.Prelude.{◌≡◌, ◌<◌, ◌≤◌, ◌+◌, ◌^◌, [], map, reverse, drop, Some, None, IsSome, OnOk, slice_set, slice_index_or, length, vec_capacity};
ghost use Rattle.std.specs.Option.{option_copied, option_map};
ghost use Rattle.std.specs.Borrow.{Lends, sem};
ghost use Rattle.task_table.specs.TableCells.{placed_in, slot_of, slot_at, entry_in, place_with, place_with_parent, children_at, IsCounted, IsCountedBut, HasRoom, NextIsFree};
ghost use Rattle.task_table.specs.Changes.{next_of, put_at_next, with_parent_at};

use std::alloc::AllocError;
use std::mem;

/// A place of the table.
#[derive(Drop)]
pub(crate) enum TableCell<E> {
    /// No entry is there.
    Free,
    /// An entry is there.
    Taken(TakenCell<E>),
}

/// An entry with what the table keeps of it.
#[derive(Drop)]
pub(crate) struct TakenCell<E> {
    /// The serial of the entry's id.
    pub(crate) serial: u64,
    /// The place of the parent.
    pub(crate) parent: Option<u32>,
    /// How many entries have their parent at this place.
    pub(crate) children: u32,
    /// What was pushed.
    pub(crate) entry: E,
}

impl<E> TableCell<E> {
    ghost use Rattle.task_table.specs.contracts.place.TableCell.{the_row};

    // The entry of a taken place, for writing.
    pub(crate) fn entry_mut(&mut self) -> &mut E
        requires { IsSome (slot_of self.old) }
        ensures* lends { sem 𝓛 (Lends (the_row E.row) E.row self.entry result (place_with self.old)) }
        ensures value { entry_in self.old ≡ Some result.now }
    {
        match self {
            TableCell::Taken(slot) => &mut slot.entry,
            TableCell::Free => unreachable!(),
        }
    }
}

// The slot at a place.
pub(crate) fn slot_in<E>(places: &Vec<TableCell<E>>, rep: u32) -> Option<&TakenCell<E>>
    ensures { option_copied result ≡ slot_at places.now.items rep }
{
    match places.get(rep as usize) {
        Some(TableCell::Taken(slot)) => Some(slot),
        _ => None,
    }
}

// Counts a child more at a place, for a child that will have its parent there.
fn count_child<E>(places: &mut Vec<TableCell<E>>, rep: u32)
    requires counted { IsCounted places.old.items }
    requires taken { IsSome (slot_at places.old.items rep) }
    requires few { children_at places.old.items rep + 1 < 2 ^ 32 }
    ensures counted { IsCountedBut places.new.items (Some rep) }
    ensures shown { map placed_in places.new.items ≡ map placed_in places.old.items }
{
    if let TableCell::Taken(slot) = &mut places[rep as usize] {
        slot.children += 1;
    }
}

// Counts a child less at the place of its parent, if it had one.
fn forget_child<E>(places: &mut Vec<TableCell<E>>, parent: Option<u32>)
    requires { IsCountedBut places.old.items parent }
    ensures counted { IsCounted places.new.items }
    ensures shown { map placed_in places.new.items ≡ map placed_in places.old.items }
{
    if let Some(rep) = parent {
        if let TableCell::Taken(slot) = &mut places[rep as usize] {
            slot.children -= 1;
        }
    }
}

// Writes the parent of an entry, and gives the one of before.
fn replace_parent<E>(places: &mut Vec<TableCell<E>>, rep: u32, parent: Option<u32>) -> Option<u32>
    requires { IsSome (slot_at places.old.items rep) }
    ensures old { option_map (λ s. s.parent) (slot_at places.old.items rep) ≡ Some result }
    ensures new { places.new.items ≡ slice_set places.old.items rep (place_with_parent parent (slice_index_or places.old.items rep TableCell.Free)) }
{
    match &mut places[rep as usize] {
        TableCell::Taken(slot) => mem::replace(&mut slot.parent, parent),
        TableCell::Free => unreachable!(),
    }
}

/// Makes the entry at one place a child of the one at another. It must have no parent.
pub(crate) fn link<E>(places: &mut Vec<TableCell<E>>, child: u32, parent: u32)
    requires counted { IsCounted places.old.items }
    requires child { option_map (λ s. s.parent) (slot_at places.old.items child) ≡ Some None }
    requires parent { IsSome (slot_at places.old.items parent) }
    requires few { length places.old.items < 2 ^ 32 }
    ensures counted { IsCounted places.new.items }
    ensures shown { map placed_in places.new.items ≡ with_parent_at child (Some parent) (map placed_in places.old.items) }
{
    count_child(places, parent);
    replace_parent(places, child, Some(parent));
}

/// Takes the entry at a place from its parent.
pub(crate) fn unlink<E>(places: &mut Vec<TableCell<E>>, child: u32)
    requires counted { IsCounted places.old.items }
    requires child { IsSome (slot_at places.old.items child) }
    ensures counted { IsCounted places.new.items }
    ensures shown { map placed_in places.new.items ≡ with_parent_at child None (map placed_in places.old.items) }
{
    let parent = replace_parent(places, child, None);
    forget_child(places, parent);
}

/// Takes the entry at a place out of the table, and from its parent. It must have no children.
pub(crate) fn vacate<E>(places: &mut Vec<TableCell<E>>, rep: u32) -> TakenCell<E>
    requires counted { IsCounted places.old.items }
    requires childless { option_map (λ s. s.children) (slot_at places.old.items rep) ≡ Some 0 }
    ensures slot { slot_at places.old.items rep ≡ Some result }
    ensures counted { IsCounted places.new.items }
    ensures shown { map placed_in places.new.items ≡ slice_set (map placed_in places.old.items) rep None }
{
    match mem::replace(&mut places[rep as usize], TableCell::Free) {
        TableCell::Taken(slot) => {
            forget_child(places, slot.parent);
            slot
        }
        TableCell::Free => unreachable!(),
    }
}

/// Makes room for one place more, and for freeing it, where no place is free.
#[inline(always)]
pub(crate) fn reserve<E>(
    places: &mut Vec<TableCell<E>>,
    free: &mut Vec<u32>,
) -> Result<(), AllocError>
    requires { length places.old.items < 2 ^ 32 }
    ensures places { places.new.items ≡ places.old.items }
    ensures free { free.new.items ≡ free.old.items }
    ensures kept { vec_capacity free.old ≤ vec_capacity free.new }
    ensures room { OnOk result (HasRoom places.new free.new) }
{
    if free.is_empty() {
        free.reserve(places.len() + 1)?;
        places.reserve(1)?;
    }
    Ok(())
}

/// Puts a slot at the place freed last, else at a new one.
pub(crate) fn fill<E>(
    places: &mut Vec<TableCell<E>>,
    free: &mut Vec<u32>,
    slot: TakenCell<E>,
) -> u32
    requires room { HasRoom places.old free.old }
    requires free { NextIsFree (reverse free.old.items) places.old.items }
    requires few { free.old.items ≡ [] → length places.old.items + 1 < 2 ^ 32 }
    ensures rep { result ≡ next_of (reverse free.old.items) (length places.old.items) }
    ensures places { places.new.items ≡ put_at_next (reverse free.old.items) (TableCell.Taken slot) places.old.items }
    ensures free { reverse free.new.items ≡ drop 1 (reverse free.old.items) }
    ensures capacity { vec_capacity free.new ≡ vec_capacity free.old }
{
    match free.pop() {
        Some(rep) => {
            match mem::replace(&mut places[rep as usize], TableCell::Taken(slot)) {
                TableCell::Free => rep,
                TableCell::Taken(_) => unreachable!(),
            }
        }
        None => {
            let rep = places.len() as u32;
            places.push_reserved(TableCell::Taken(slot));
            rep
        }
    }
}
