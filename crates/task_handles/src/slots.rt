ghost use Rattle.std.specs.Prelude.{◌≡◌, ◌≤◌, ◌<◌, ◌↔◌, ◌-◌, IsTrue, slice_set, IsSome, Err, ◌≢◌, IfOk, OnErr, OnOk, None};
ghost use Rattle.task_handles.specs.Handles.{held_by, live_count, IsWhole, next_handle, no_handles, with_held, without};
ghost use Rattle.task_handles.specs.Counted.{Counts, CountsReserved, Inserts, InsertsReserved, Removes, Unchanged};
ghost use Rattle.task_handles.specs.Slots.{value_at as value_at_handle, slot_at, link};

use crate::MAX_HANDLES;
use crate::counter::HandleCounter;
use crate::kinds::HandleError;
use machine_data::NoMemory;
use std::alloc::{AllocError, Global};
use std::marker::Model;

/// A table of handles to values of one type. The slot of handle n is at place n - 1, and each freed slot names the handle that was
/// freed before it, so no call needs more memory than the list.
#[derive(Drop)]
pub struct Slots<T> {
    slots: Vec<HandleSlot<T>>,
    // How many handles are freed.
    freed: u32,
    // The handle freed last, or 0.
    last_freed: u32,
}

#[derive(Clone, Copy)]
pub enum HandleSlot<T> {
    Live(T),
    Freed(u32),
}

impl<T> Model for Slots<T> {
    ghost use Rattle.task_handles.specs.Handles.{Handles, handles_code};

    ghost Value = { Handles T };

    ghost coded = { handles_code T.code };

    ghost use Rattle.task_handles.specs.Slots.{shown, AreSoundHandles};

    ghost view = { λ s. shown s.slots.items s.freed s.last_freed };

    ghost invariant = { λ s. AreSoundHandles s.slots.items s.freed s.last_freed };
}

impl<T: Copy> Slots<T> {
    pub fn new(alloc: Global) -> Self
        ensures { result ≡ no_handles }
    {
        Slots {
            slots: Vec::new(alloc),
            freed: 0,
            last_freed: 0,
        }
    }

    pub fn get(&self, handle: u32) -> Option<T>
        ensures { result ≡ held_by self.now handle }
    {
        value_at(&self.slots, handle)
    }

    pub fn is_empty(&self) -> bool
        ensures { IsTrue result ↔ (live_count self.now ≡ 0) }
    {
        self.slots.len() == self.freed as usize
    }

    // The handle that the next insert gives.
    pub fn next_handle(&self) -> u32
        ensures handle { result ≡ next_handle self.now }
        ensures whole { IsWhole self.now }
    {
        if self.freed == 0 {
            return self.slots.len() as u32 + 1;
        }
        self.last_freed
    }

    // A new live handle: the one freed last, else the next.
    pub fn insert(&mut self, value: T) -> Result<u32, AllocError>
        requires { live_count self.old < MAX_HANDLES }
        ensures handle { IfOk result (λ handle. handle ≡ next_handle self.old) }
        ensures whole { IsWhole self.old }
        ensures free { IfOk result (λ handle. held_by self.old handle ≡ None) }
        ensures positive { IfOk result (λ handle. 0 < handle) }
        ensures small { IfOk result (λ handle. handle ≤ MAX_HANDLES) }
        ensures ok { OnOk result (self.new ≡ with_held value self.old) }
        ensures err { OnErr result (self.new ≡ self.old) }
    {
        if self.freed == 0 {
            self.slots.push(HandleSlot::Live(value))?;
            return Ok(self.slots.len() as u32);
        }
        let handle = self.last_freed;
        self.last_freed = fill(&mut self.slots, handle, value);
        self.freed -= 1;
        Ok(handle)
    }

    // An insert that the counter counts, where its limit allows one more live handle.
    pub fn insert_counted(
        &mut self,
        counter: &mut HandleCounter,
        value: T,
    ) -> Result<u32, HandleError>
        requires { Counts counter.old self.old }
        ensures ok { IfOk result (λ handle. Inserts value self.old self.new counter.old counter.new handle) }
        ensures limit { (result ≡ Err HandleError.Limit) ↔ (counter.old.limit ≤ counter.old.live) }
        ensures known { result ≢ Err HandleError.BadHandle }
        ensures err { OnErr result (Unchanged self.old self.new counter.old counter.new) }
    {
        if counter.is_full() {
            return Err(HandleError::Limit);
        }
        let Ok(handle) = self.insert(value) else {
            return Err(HandleError::NoMemory);
        };
        counter.raise();
        Ok(handle)
    }

    // An insert that a reservation of the counter counts already: it becomes that of the handle.
    pub fn insert_reserved(
        &mut self,
        counter: &mut HandleCounter,
        value: T,
    ) -> Result<u32, NoMemory>
        requires { CountsReserved counter.old self.old }
        ensures ok { IfOk result (λ handle. InsertsReserved value self.old self.new counter.old counter.new handle) }
        ensures err { OnErr result (Unchanged self.old self.new counter.old counter.new) }
    {
        counter.lower();
        let inserted = self.insert(value);
        counter.raise();
        match inserted {
            Ok(handle) => Ok(handle),
            Err(_) => Err(NoMemory),
        }
    }

    // The removal of a live handle, which the counter no longer counts.
    pub fn remove_counted(&mut self, counter: &mut HandleCounter, handle: u32)
        requires live { IsSome (held_by self.old handle) }
        requires counted { 0 < counter.old.live }
        ensures { Removes handle self.old self.new counter.old counter.new }
    {
        self.remove(handle);
        counter.lower();
    }

    // Frees a live handle.
    pub fn remove(&mut self, handle: u32)
        requires { IsSome (held_by self.old handle) }
        ensures { self.new ≡ without handle self.old }
    {
        self.slots[handle as usize - 1] = HandleSlot::Freed(self.last_freed);
        self.last_freed = handle;
        self.freed += 1;
    }
}

// The value of a live handle.
fn value_at<T: Copy>(slots: &Vec<HandleSlot<T>>, handle: u32) -> Option<T>
    ensures { result ≡ value_at_handle slots.now.items handle }
{
    if handle == 0 {
        return None;
    }
    match slots.get(handle as usize - 1) {
        Some(HandleSlot::Live(value)) => Some(*value),
        _ => None,
    }
}

// Makes a freed handle live, and gives the handle that was freed before it.
fn fill<T: Copy>(slots: &mut Vec<HandleSlot<T>>, handle: u32, value: T) -> u32
    requires { IsSome (slot_at slots.old.items handle) }
    ensures link { result ≡ link slots.old.items handle }
    ensures filled { slots.new.items ≡ slice_set slots.old.items (handle - 1) (HandleSlot.Live value) }
{
    let place = handle as usize - 1;
    let before = match slots[place] {
        HandleSlot::Freed(before) => before,
        HandleSlot::Live(_) => 0,
    };
    slots[place] = HandleSlot::Live(value);
    before
}
