//! The borrows that calls hold: a host counts them, and no step of the machine changes them.
ghost use Rattle.std.specs.Prelude.{◌≡◌, ◌↔◌, IsSome, IsTrue, None, Some, option_map};
ghost use Rattle.core_state.specs.Borrows.{borrows_in, call_borrowing, scope_borrowing, work_borrowing};
ghost use Rattle.machine_data.specs.Maps.{get};
ghost use Rattle.core_records.specs.Seen.{IsSoundCore, seen};
ghost use Rattle.core_primitives.specs.StateView.{call_of, on_core, work_of};

use crate::task_core::TaskCore;
use core_primitives::{CallId, WorkId};
use core_records::CoreParts;

/// A call whose borrows are counted: one of an export, or one of a host.
#[derive(Clone, Copy, PartialEq, Eq)]
pub enum Scope {
    Id(CallId),
    HostId(WorkId),
}

/// How many borrows a call holds.
#[derive(Clone, Copy)]
pub struct CallContext {
    pub borrows: u32,
}

// The borrows of a call; none if the id names none.
fn call_borrows(parts: &CoreParts, call: CallId) -> Option<u32>
    requires { IsSoundCore parts.now }
    ensures { result ≡ option_map (λ c. c.borrows) (get (seen parts.now).core.calls (call_of (seen parts.now) call)) }
{
    match core_records::call(parts, call) {
        Some(entry) => Some(entry.call.borrows),
        None => None,
    }
}

// The borrows of a host work; none if the id names none.
fn work_borrows(parts: &CoreParts, work: WorkId) -> Option<u32>
    requires { IsSoundCore parts.now }
    ensures { result ≡ option_map (λ c. c.borrows) (get (seen parts.now).core.works (work_of (seen parts.now) work)) }
{
    match core_records::work(parts, work) {
        Some(entry) => Some(entry.work.borrows),
        None => None,
    }
}

fn set_call_borrows(parts: &mut CoreParts, call: CallId, borrows: u32)
    requires { IsSoundCore parts.old }
    ensures sound { IsSoundCore parts.new }
    ensures new { seen parts.new ≡ on_core (call_borrowing (call_of (seen parts.old) call) borrows) (seen parts.old) }
{
    if let Ok(entry) = parts.calls.get_mut(call) {
        entry.call.borrows = borrows;
    }
}

fn set_work_borrows(parts: &mut CoreParts, work: WorkId, borrows: u32)
    requires { IsSoundCore parts.old }
    ensures sound { IsSoundCore parts.new }
    ensures new { seen parts.new ≡ on_core (work_borrowing (work_of (seen parts.old) work) borrows) (seen parts.old) }
{
    if let Ok(entry) = parts.works.get_mut(work) {
        entry.work.borrows = borrows;
    }
}

impl TaskCore {
    /// Returns the borrows that a call holds, 0 of a new one. None exactly where the id names no call that is there.
    pub fn call_context(&self, scope: Scope) -> Option<CallContext>
        ensures { option_map (λ x. x.borrows) result ≡ borrows_in scope self.now }
    {
        let borrows = match scope {
            Scope::Id(call) => call_borrows(&self.parts, call),
            Scope::HostId(work) => work_borrows(&self.parts, work),
        };
        match borrows {
            Some(borrows) => Some(CallContext { borrows }),
            None => None,
        }
    }

    /// Sets how many borrows the call holds. False exactly where the id names no call that is there, and then nothing is changed.
    pub fn set_call_context(&mut self, scope: Scope, context: CallContext) -> bool
        ensures there { IsTrue result ↔ IsSome (borrows_in scope self.old) }
        ensures new { self.new ≡ on_core (scope_borrowing scope context.borrows self.old) self.old }
    {
        let there = self.call_context(scope).is_some();
        match scope {
            Scope::Id(call) => set_call_borrows(&mut self.parts, call, context.borrows),
            Scope::HostId(work) => set_work_borrows(&mut self.parts, work, context.borrows),
        }
        there
    }
}
