ghost use Rattle.std.specs.Prelude.{◌≡◌, None, false};
ghost use Rattle.machine_data.specs.Maps.{get};
ghost use Rattle.machine_rules.specs.Notices.{is_in};
ghost use Rattle.core_primitives.specs.Preferences.{wanted_of};
ghost use Rattle.core_primitives.specs.StateView.{StateView, with_current, with_wanted};

use crate::call_primitives::CallPrimitives;
use crate::instance_primitives::InstancePrimitives;
use crate::names::{ThreadId, WantedId};
use crate::place_primitives::PlacePrimitives;
use crate::queue_primitives::QueuePrimitives;
use crate::result_primitives::ResultPrimitives;
use crate::set_primitives::SetPrimitives;
use crate::subtask_primitives::SubtaskPrimitives;
use crate::thread_primitives::ThreadPrimitives;
use crate::work_primitives::WorkPrimitives;
use machine_data::Version;

/// A state that contracts see as a core, what each id names, and the thread that runs.
pub trait View {
    ghost view: { Self → StateView };

    /// Returns the thread that runs.
    fn current(&self) -> Option<ThreadId>
        ensures { result ≡ (view self.now).current };

    /// Makes this thread the one that runs, or lets none run.
    fn set_current(&mut self, thread: Option<ThreadId>)
        ensures { view self.new ≡ with_current thread (view self.old) };

    /// Returns by which rules the state runs.
    fn version(&self) -> Version
        ensures { result ≡ (view self.now).core.version };

    /// Makes this what is picked first where the machine leaves a choice, as long as it can be picked.
    fn want(&mut self, wanted: WantedId)
        ensures { view self.new ≡ with_wanted (wanted_of wanted) (view self.old) };

    /// Says that nothing has the number 0, which is that of an id that names nothing. It does nothing.
    fn none_is_zero(&self)
        ensures threads { get (view self.now).core.threads 0 ≡ None }
        ensures calls { get (view self.now).core.calls 0 ≡ None }
        ensures sets { get (view self.now).core.sets 0 ≡ None }
        ensures works { get (view self.now).core.works 0 ≡ None }
        ensures groups { is_in (view self.now).tags.tracked 0 ≡ false };
}

/// All primitives.
pub trait Primitives: ThreadPrimitives
    + PlacePrimitives
    + CallPrimitives
    + WorkPrimitives
    + SubtaskPrimitives
    + SetPrimitives
    + InstancePrimitives
    + QueuePrimitives
    + ResultPrimitives {}
