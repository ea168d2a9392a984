ghost use Rattle.std.specs.Prelude.{◌≡◌, ◌<◌, is_some, not};
ghost use Rattle.machine_data.specs.Maps.{get};
ghost use Rattle.machine_data.specs.Read.{is_nil};
ghost use Rattle.machine_data.specs.Write.{push_high};
ghost use Rattle.machine_data.specs.declared.records.Entry.TheVariants as entries;
ghost use Rattle.core_primitives.specs.Apart.{work_entries};
ghost use Rattle.core_primitives.specs.Held.{held_in};
ghost use Rattle.core_primitives.specs.StateView.{on_core, work_of};

use crate::names::WorkId;
use crate::view::View;

/// Primitives that no step of the machine needs, and calls of a host do.
pub trait StatePrimitives: View {
    /// Returns whether there is such an instance.
    fn has_instance(&self, instance: u32) -> bool
        ensures { result ≡ is_some (get (Self.view self.now).core.instances instance) };

    /// Returns whether some thread of the instance is held.
    fn has_held(&self, instance: u32) -> bool
        ensures { result ≡ not (is_nil (held_in instance (Self.view self.now).core)) };

    /// Queues the push of a work that was made before.
    fn push_work(&mut self, work: WorkId)
        requires live { 0 < work_of (Self.view self.old) work }
        requires unqueued { work_entries (work_of (Self.view self.old) work) (Self.view self.old).core.queues.high ≡ 0 }
        ensures { Self.view self.new ≡ on_core (push_high (entries.Push (work_of (Self.view self.old) work))) (Self.view self.old) };
}
