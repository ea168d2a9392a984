//! The scopes of borrows of a store that isn't concurrent.
ghost use Rattle.std.specs.Prelude.{◌≡◌, ◌<◌, ◌↔◌, ◌++◌, ◌∷◌, [], IsTrue, OnErr, OnOk, false, length, option_map, slice_get, slice_set, true, ℕ};
ghost use Rattle.task_store.specs.Scopes.{one_fewer};

use core_state::CallContext;
use machine_data::NoMemory;
use std::alloc::Global;
use std::marker::Model;

/// The calls of a store that isn't concurrent, which are one above the other: how many borrows each holds, the outermost first.
/// They are numbered from 0.
#[derive(Drop)]
pub struct ComponentTasksNotConcurrent {
    borrows: Vec<u32>,
}

impl Model for ComponentTasksNotConcurrent {
    ghost use Rattle.std.specs.Prelude.{List, ℕ};

    ghost Value = { List ℕ };

    ghost view = { λ t. t.borrows.items };
}

impl ComponentTasksNotConcurrent {
    /// Makes an empty list of scopes.
    pub fn new(alloc: Global) -> Self
        ensures { result ≡ [] }
    {
        ComponentTasksNotConcurrent {
            borrows: Vec::new(alloc),
        }
    }

    /// Enters a scope, with no borrow. If it is out of memory, all is as before.
    pub fn enter_call(&mut self) -> Result<(), NoMemory>
        ensures ok { OnOk result (self.new ≡ self.old ++ 0 ∷ []) }
        ensures err { OnErr result (self.new ≡ self.old) }
    {
        match self.borrows.push(0) {
            Ok(()) => Ok(()),
            Err(_) => Err(NoMemory),
        }
    }

    /// Leaves the scope entered last. False exactly where there is none, and then nothing is changed.
    pub fn exit_call(&mut self) -> bool
        ensures there { IsTrue result ↔ (0 < length self.old) }
        ensures left { self.new ≡ one_fewer self.old }
    {
        self.borrows.pop().is_some()
    }

    /// Returns the borrows of a scope. None exactly where no scope has that number.
    pub fn call_context(&self, scope: u32) -> Option<CallContext>
        ensures { option_map (λ x. x.borrows) result ≡ slice_get self.now scope }
    {
        match self.borrows.get(scope as usize) {
            Some(borrows) => Some(CallContext { borrows: *borrows }),
            None => None,
        }
    }

    /// Sets how many borrows the scope holds. False exactly where no scope has that number, and then nothing is changed.
    pub fn set_call_context(&mut self, scope: u32, context: CallContext) -> bool
        ensures there { IsTrue result ↔ (scope < length self.old) }
        ensures new { self.new ≡ slice_set self.old scope context.borrows }
    {
        match self.borrows.get_mut(scope as usize) {
            Some(borrows) => {
                *borrows = context.borrows;
                true
            }
            None => false,
        }
    }
}
