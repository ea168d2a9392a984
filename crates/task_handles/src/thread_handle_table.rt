ghost use Rattle.std.specs.Prelude.{◌≡◌, ◌≢◌, ◌≤◌, ◌↔◌, IfOk, OnOk, OnErr, Err};
ghost use Rattle.task_handles.specs.Handles.{IsWhole, no_handles, held_by, next_handle};
ghost use Rattle.task_handles.specs.Counted.{Counts, CountsHandle, CountsReserved, Inserts, InsertsReserved, Removes, Unchanged};
ghost use Rattle.task_handles.specs.HeldItem.{thread_of};

use crate::counter::HandleCounter;
use crate::kinds::{HandleError, Rep};
use crate::slots::Slots;
use machine_data::NoMemory;
use std::alloc::Global;
use std::marker::Model;

/// The handles by which the guest of one instance names threads, in numbers of their own.
///
/// The rules are those of `HandleTable`: handles run from 1 to `MAX_HANDLES`, the one freed last is given first, and a shared
/// counter counts those that are live.
#[derive(Drop)]
pub struct ThreadHandleTable {
    slots: Slots<Rep>,
}

impl Model for ThreadHandleTable {
    ghost use Rattle.task_handles.specs.Handles.{Handles, handles_code};
    ghost use Rattle.task_handles.specs.declared.kinds.Rep.{Rep};

    ghost Value = { Handles Rep };

    ghost use Rattle.task_handles.specs.contracts.kinds.Rep as rep;

    ghost coded = { handles_code rep.the_row.coded };

    ghost view = { λ t. t.slots };
}

impl ThreadHandleTable {
    /// Makes a table with no handle, of which none was made.
    pub fn new(alloc: Global) -> Self
        ensures { result ≡ no_handles }
    {
        ThreadHandleTable {
            slots: Slots::new(alloc),
        }
    }

    /// Gives a handle to a thread, which `rep` names in the table of entries, and counts it.
    ///
    /// `Limit` exactly where as many handles are live as the counter's limit, or more; this is tested before memory is asked for.
    /// `NoMemory` where the list can't grow. After an error table and counter are as before.
    pub fn guest_thread_insert(
        &mut self,
        counter: &mut HandleCounter,
        rep: Rep,
    ) -> Result<u32, HandleError>
        requires { Counts counter.old self.old }
        ensures ok { IfOk result (λ handle. Inserts rep self.old self.new counter.old counter.new handle) }
        ensures limit { (result ≡ Err HandleError.Limit) ↔ (counter.old.limit ≤ counter.old.live) }
        ensures known { result ≢ Err HandleError.BadHandle }
        ensures err { OnErr result (Unchanged self.old self.new counter.old counter.new) }
    {
        self.slots.insert_counted(counter, rep)
    }

    /// Gives a handle to a thread, which `rep` names in the table of entries, if a reservation of the counter stands: it becomes that
    /// of the handle, so the limit isn't asked.
    ///
    /// `NoMemory` if the list can't grow; then table and counter are as before, and the reservation stands.
    pub fn insert_reserved(
        &mut self,
        counter: &mut HandleCounter,
        rep: Rep,
    ) -> Result<u32, NoMemory>
        requires { CountsReserved counter.old self.old }
        ensures ok { IfOk result (λ handle. InsertsReserved rep self.old self.new counter.old counter.new handle) }
        ensures err { OnErr result (Unchanged self.old self.new counter.old counter.new) }
    {
        self.slots.insert_reserved(counter, rep)
    }

    /// Returns what a handle names, if it is live.
    pub fn get(&self, handle: u32) -> Option<Rep>
        ensures { result ≡ held_by self.now handle }
    {
        self.slots.get(handle)
    }

    /// Returns the handle that the next insert gives.
    pub fn next_handle(&self) -> u32
        ensures handle { result ≡ next_handle self.now }
        ensures whole { IsWhole self.now }
    {
        self.slots.next_handle()
    }

    /// Returns the thread that a handle names.
    ///
    /// `BadHandle` exactly where no live handle has this number.
    pub fn guest_thread_rep(&self, handle: u32) -> Result<Rep, HandleError>
        ensures { result ≡ thread_of (held_by self.now handle) }
    {
        self.slots.get(handle).ok_or(HandleError::BadHandle)
    }

    /// Takes back the handle of a thread, so that the number may be given again, and no longer counts it. Answers which thread it named.
    ///
    /// `BadHandle` exactly where no live handle has this number; then table and counter are as before.
    pub fn guest_thread_remove(
        &mut self,
        counter: &mut HandleCounter,
        handle: u32,
    ) -> Result<Rep, HandleError>
        requires { CountsHandle counter.old self.old handle }
        ensures answer { result ≡ thread_of (held_by self.old handle) }
        ensures ok { OnOk result (Removes handle self.old self.new counter.old counter.new) }
        ensures err { OnErr result (Unchanged self.old self.new counter.old counter.new) }
    {
        let rep = self.guest_thread_rep(handle)?;
        self.slots.remove_counted(counter, handle);
        Ok(rep)
    }
}
