ghost use Rattle.std.specs.Prelude.{◌≡◌, ◌<◌, ◌^◌, IfOk, OnErr, OnOk, false, is_some, true};
ghost use Rattle.machine_data.specs.Maps.{get};
ghost use Rattle.machine_data.specs.Read.{at_handle_limit, event_of, new_handle, subtask_ended, subtask_handle};
ghost use Rattle.machine_data.specs.Write.{set_event, set_subtask_handle};
ghost use Rattle.machine_rules.specs.Calls.{with_handle};
ghost use Rattle.core_primitives.specs.Names.{join_in, subtask_in};
ghost use Rattle.core_primitives.specs.StateView.{on_core};
ghost use Rattle.core_primitives.specs.Live.{live_join_of};
ghost use Rattle.core_primitives.specs.Changes.{with_join};

use crate::names::{JoinId, SubtaskId};
use crate::view::View;
use machine_data::{NoMemory, Status};

/// What calls and host works have in common as subtasks.
pub trait SubtaskPrimitives: View {
    /// Returns the status of a subtask that was not handed out yet, if there is one.
    fn event(&self, subtask: SubtaskId) -> Option<Status>
        ensures { result ≡ event_of (subtask_in (Self.view self.now).tags subtask) (Self.view self.now).core };

    /// Returns the set that the subtask is joined to, or the thread in whose own set it is.
    fn join(&self, subtask: SubtaskId) -> JoinId
        ensures { join_in (Self.view self.now).tags result ≡ live_join_of (subtask_in (Self.view self.now).tags subtask) (Self.view self.now).core };

    /// Returns the handle that names the subtask, if it has one.
    fn subtask_handle(&self, subtask: SubtaskId) -> Option<u32>
        ensures { result ≡ subtask_handle (subtask_in (Self.view self.now).tags subtask) (Self.view self.now).core };

    /// Returns whether the call or the work has ended.
    fn has_ended(&self, subtask: SubtaskId) -> bool
        ensures { result ≡ subtask_ended (subtask_in (Self.view self.now).tags subtask) (Self.view self.now).core };

    /// Sets the event of a subtask: a status that is to be handed out, or none.
    fn set_event(&mut self, subtask: SubtaskId, event: Option<Status>)
        ensures { Self.view self.new ≡ on_core (set_event (subtask_in (Self.view self.old).tags subtask) event) (Self.view self.old) };

    /// Joins the subtask to this set, to the own set of a thread, or to none.
    fn set_join(&mut self, subtask: SubtaskId, join: JoinId)
        ensures { Self.view self.new ≡ with_join subtask join (Self.view self.old) };

    /// Sets the handle that names the subtask, or removes it.
    fn set_subtask_handle(&mut self, subtask: SubtaskId, handle: Option<u32>)
        ensures { Self.view self.new ≡ on_core (set_subtask_handle (subtask_in (Self.view self.old).tags subtask) handle) (Self.view self.old) };

    /// Gives a subtask its handle in an instance. If it is out of memory, all is as before.
    fn name_subtask(&mut self, instance: u32, subtask: SubtaskId) -> Result<u32, NoMemory>
        requires there { is_some (get (Self.view self.old).core.handles instance) ≡ true }
        requires limit { at_handle_limit (Self.view self.old).core ≡ false }
        ensures handle { IfOk result (λ h. h ≡ new_handle instance (Self.view self.old).core) }
        ensures small { IfOk result (λ h. h < 2 ^ 28) }
        ensures new { OnOk result (Self.view self.new ≡ on_core (with_handle instance (subtask_in (Self.view self.old).tags subtask)) (Self.view self.old)) }
        ensures err { OnErr result (Self.view self.new ≡ Self.view self.old) };
}
