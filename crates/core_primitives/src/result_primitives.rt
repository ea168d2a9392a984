ghost use Rattle.std.specs.Prelude.{◌≡◌, IsSome, None, false, true, ℕ};
ghost use Rattle.machine_data.specs.Maps.{get};
ghost use Rattle.machine_data.specs.Read.{fits, goal_of};
ghost use Rattle.machine_data.specs.Write.{give_result, set_trapped, take_result};
ghost use Rattle.machine_data.specs.declared.records.Goal.TheVariants as goals;
ghost use Rattle.machine_rules.specs.MainOps.{has_interesting};
ghost use Rattle.machine_rules.specs.Stalled.{some_may_not_suspend};
ghost use Rattle.core_primitives.specs.StateView.{call_of, on_core};

use crate::names::CallId;
use crate::view::View;
use machine_data::MadeCounts;

/// What main sees of a store: results, whether it is trapped, and how full it is.
pub trait ResultPrimitives: View {
    /// Gives main the result of a call that it made. The room was taken when the call was made.
    fn give_result(&mut self, call: CallId, value: u64)
        requires { goal_of (call_of (Self.view self.old) call) (Self.view self.old).core ≡ goals.Main }
        ensures { Self.view self.new ≡ on_core (give_result (call_of (Self.view self.old) call) value) (Self.view self.old) };

    /// Returns what the call with this number has returned to main, which has not taken it.
    fn result(&self, call: u64) -> Option<u64>
        ensures { result ≡ get (Self.view self.now).core.results call };

    /// Returns whether something was returned to main that it has not taken.
    fn has_results(&self) -> bool
        ensures none { result ≡ false → (call : ℕ) → get (Self.view self.now).core.results call ≡ None }
        ensures some { result ≡ true → (call : ℕ) × IsSome (get (Self.view self.now).core.results call) };

    /// Removes the result of main's call of this number, which main takes.
    fn take_result(&mut self, call: u64)
        ensures { Self.view self.new ≡ on_core (take_result call) (Self.view self.old) };

    /// Returns whether the store is trapped.
    fn trapped(&self) -> bool
        ensures { result ≡ (Self.view self.now).core.trapped };

    /// Traps the store, and finishes all groups.
    fn set_trapped(&mut self)
        ensures { Self.view self.new ≡ on_core set_trapped (Self.view self.old) };

    /// Returns whether so many entries more have room in the table.
    fn fits(&self, entries: usize) -> bool
        ensures { result ≡ fits entries (Self.view self.now).core };

    /// Returns whether main has to wait for some task.
    fn has_interesting(&self) -> bool
        ensures { result ≡ has_interesting (Self.view self.now).core };

    /// Returns whether the instance of some call may not suspend.
    fn some_may_not_suspend(&self) -> bool
        ensures { result ≡ some_may_not_suspend (Self.view self.now).core };

    /// Returns how many threads, works, sets and groups were made so far.
    fn made(&self) -> MadeCounts
        ensures { result ≡ (Self.view self.now).core.made };
}
