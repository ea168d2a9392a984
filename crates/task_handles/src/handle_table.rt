ghost use Rattle.std.specs.Prelude.{◌≡◌, ◌≢◌, ◌≤◌, ◌↔◌, IsTrue, IfOk, OnOk, OnErr, Err};
ghost use Rattle.task_handles.specs.Handles.{IsWhole, no_handles, held_by, live_count, next_handle};
ghost use Rattle.task_handles.specs.Counted.{Counts, CountsHandle, Inserts, Removes, Unchanged};
ghost use Rattle.task_handles.specs.HeldItem.{guest_subtask, host_subtask, waitable_set, subtask_of, waitable_of, set_of};

use crate::counter::HandleCounter;
use crate::kinds::{HandleError, HandleKind, HeldItem, Rep, WaitableKind};
use crate::slots::Slots;
use std::alloc::Global;
use std::marker::Model;

/// The handles by which the guest of one instance names subtasks and waitable sets.
///
/// Handles run from 1 to `MAX_HANDLES`. A handle that was removed is given again, the one freed last first; only where none is free
/// is a new one made. Each call takes constant time, but for the growth of the list.
///
/// The table doesn't know its counter: each call that makes or removes a handle is given the one that counts the table's live
/// handles, as the handle tables of a store's instances share one limit.
#[derive(Drop)]
pub struct HandleTable {
    slots: Slots<HeldItem>,
}

impl Model for HandleTable {
    ghost use Rattle.task_handles.specs.Handles.{Handles, handles_code};
    ghost use Rattle.task_handles.specs.declared.kinds.HeldItem.{HeldItem};

    ghost Value = { Handles HeldItem };

    ghost use Rattle.task_handles.specs.contracts.kinds.HeldItem as held;

    ghost coded = { handles_code held.the_row.coded };

    ghost view = { λ t. t.slots };
}

impl HandleTable {
    /// Makes a table with no handle, of which none was made.
    pub fn new(alloc: Global) -> Self
        ensures { result ≡ no_handles }
    {
        HandleTable {
            slots: Slots::new(alloc),
        }
    }

    /// Gives a handle to a guest subtask, which `rep` names in the table of entries, and counts it.
    ///
    /// `Limit` exactly where as many handles are live as the counter's limit, or more; this is tested before memory is asked for.
    /// `NoMemory` where the list can't grow. After an error table and counter are as before.
    pub fn subtask_insert_guest(
        &mut self,
        counter: &mut HandleCounter,
        rep: Rep,
    ) -> Result<u32, HandleError>
        requires { Counts counter.old self.old }
        ensures ok { IfOk result (λ handle. Inserts (guest_subtask rep) self.old self.new counter.old counter.new handle) }
        ensures limit { (result ≡ Err HandleError.Limit) ↔ (counter.old.limit ≤ counter.old.live) }
        ensures known { result ≢ Err HandleError.BadHandle }
        ensures err { OnErr result (Unchanged self.old self.new counter.old counter.new) }
    {
        let kind = HandleKind::Waitable(WaitableKind::GuestSubtask);
        self.slots.insert_counted(counter, HeldItem { kind, rep })
    }

    /// Gives a handle to a host subtask, which `rep` names in the table of entries, and counts it.
    ///
    /// `Limit` exactly where as many handles are live as the counter's limit, or more; this is tested before memory is asked for.
    /// `NoMemory` where the list can't grow. After an error table and counter are as before.
    pub fn subtask_insert_host(
        &mut self,
        counter: &mut HandleCounter,
        rep: Rep,
    ) -> Result<u32, HandleError>
        requires { Counts counter.old self.old }
        ensures ok { IfOk result (λ handle. Inserts (host_subtask rep) self.old self.new counter.old counter.new handle) }
        ensures limit { (result ≡ Err HandleError.Limit) ↔ (counter.old.limit ≤ counter.old.live) }
        ensures known { result ≢ Err HandleError.BadHandle }
        ensures err { OnErr result (Unchanged self.old self.new counter.old counter.new) }
    {
        let kind = HandleKind::Waitable(WaitableKind::HostSubtask);
        self.slots.insert_counted(counter, HeldItem { kind, rep })
    }

    /// Gives a handle to a waitable set, which `rep` names in the table of entries, and counts it.
    ///
    /// `Limit` exactly where as many handles are live as the counter's limit, or more; this is tested before memory is asked for.
    /// `NoMemory` where the list can't grow. After an error table and counter are as before.
    pub fn waitable_set_insert(
        &mut self,
        counter: &mut HandleCounter,
        rep: Rep,
    ) -> Result<u32, HandleError>
        requires { Counts counter.old self.old }
        ensures ok { IfOk result (λ handle. Inserts (waitable_set rep) self.old self.new counter.old counter.new handle) }
        ensures limit { (result ≡ Err HandleError.Limit) ↔ (counter.old.limit ≤ counter.old.live) }
        ensures known { result ≢ Err HandleError.BadHandle }
        ensures err { OnErr result (Unchanged self.old self.new counter.old counter.new) }
    {
        let kind = HandleKind::Set;
        self.slots.insert_counted(counter, HeldItem { kind, rep })
    }

    /// Returns what a handle names, if it is live.
    pub fn get(&self, handle: u32) -> Option<HeldItem>
        ensures { result ≡ held_by self.now handle }
    {
        self.slots.get(handle)
    }

    /// Returns the handle that the next insert gives.
    pub fn next_handle(&self) -> u32
        ensures handle { result ≡ next_handle self.now }
        ensures whole { IsWhole self.now }
    {
        self.slots.next_handle()
    }

    /// Returns the subtask that a handle names, and whether it is a host's.
    ///
    /// `BadHandle` exactly where no live handle of a subtask has this number: it was never given, was removed, or is that of a set.
    pub fn subtask_rep(&self, handle: u32) -> Result<(Rep, bool), HandleError>
        ensures { result ≡ subtask_of (held_by self.now handle) }
    {
        match self.slots.get(handle) {
            Some(
                HeldItem {
                    kind: HandleKind::Waitable(WaitableKind::GuestSubtask),
                    rep,
                },
            ) => Ok((rep, false)),
            Some(
                HeldItem {
                    kind: HandleKind::Waitable(WaitableKind::HostSubtask),
                    rep,
                },
            ) => Ok((rep, true)),
            _ => Err(HandleError::BadHandle),
        }
    }

    /// Returns the waitable set that a handle names.
    ///
    /// `BadHandle` exactly where no live handle of a set has this number.
    pub fn waitable_set_rep(&self, handle: u32) -> Result<Rep, HandleError>
        ensures { result ≡ set_of (held_by self.now handle) }
    {
        match self.slots.get(handle) {
            Some(
                HeldItem {
                    kind: HandleKind::Set,
                    rep,
                },
            ) => Ok(rep),
            _ => Err(HandleError::BadHandle),
        }
    }

    /// Returns the waitable that a handle names, and its kind. A set is none.
    ///
    /// `BadHandle` exactly where no live handle of a waitable has this number.
    pub fn waitable_rep(&self, handle: u32) -> Result<(Rep, WaitableKind), HandleError>
        ensures { result ≡ waitable_of (held_by self.now handle) }
    {
        match self.slots.get(handle) {
            Some(
                HeldItem {
                    kind: HandleKind::Waitable(kind),
                    rep,
                },
            ) => Ok((rep, kind)),
            _ => Err(HandleError::BadHandle),
        }
    }

    /// Takes back the handle of a subtask, so that the number may be given again, and no longer counts it. Answers which subtask it
    /// named, and whether a host's.
    ///
    /// `BadHandle` exactly where no live handle of a subtask has this number; then table and counter are as before.
    pub fn subtask_remove(
        &mut self,
        counter: &mut HandleCounter,
        handle: u32,
    ) -> Result<(Rep, bool), HandleError>
        requires { CountsHandle counter.old self.old handle }
        ensures answer { result ≡ subtask_of (held_by self.old handle) }
        ensures ok { OnOk result (Removes handle self.old self.new counter.old counter.new) }
        ensures err { OnErr result (Unchanged self.old self.new counter.old counter.new) }
    {
        let subtask = self.subtask_rep(handle)?;
        self.slots.remove_counted(counter, handle);
        Ok(subtask)
    }

    /// Takes back the handle of a waitable set, so that the number may be given again, and no longer counts it. Answers which set it named.
    ///
    /// `BadHandle` exactly where no live handle of a set has this number; then table and counter are as before.
    pub fn waitable_set_remove(
        &mut self,
        counter: &mut HandleCounter,
        handle: u32,
    ) -> Result<Rep, HandleError>
        requires { CountsHandle counter.old self.old handle }
        ensures answer { result ≡ set_of (held_by self.old handle) }
        ensures ok { OnOk result (Removes handle self.old self.new counter.old counter.new) }
        ensures err { OnErr result (Unchanged self.old self.new counter.old counter.new) }
    {
        let rep = self.waitable_set_rep(handle)?;
        self.slots.remove_counted(counter, handle);
        Ok(rep)
    }

    /// Returns whether no handle is live, of those that this table gave.
    pub fn is_empty(&self) -> bool
        ensures { IsTrue result ↔ (live_count self.now ≡ 0) }
    {
        self.slots.is_empty()
    }
}
