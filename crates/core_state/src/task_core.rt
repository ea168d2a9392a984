ghost use Rattle.std.specs.Prelude.{◌≡◌};
ghost use Rattle.core_records.specs.Seen.{IsSoundCore, nothing, seen};

use core_primitives::{Primitives, ThreadId, View, WantedId};
use core_records::CoreParts;
use machine_data::Version;
use std::alloc::Global;
use std::marker::Model;

/// The core of a store.
pub struct TaskCore {
    pub(crate) parts: CoreParts,
}

// By hand, so that letting a core go is one call, proved once: what a derive writes is proved anew at each place where a core ends.
impl Drop for TaskCore {
    fn drop(self) {
        let TaskCore { parts: _ } = self;
    }
}

impl Model for TaskCore {
    ghost use Rattle.core_primitives.specs.StateView.{StateView};
    ghost use Rattle.core_state.specs.Codes.{state_view_code};

    ghost Value = { StateView };

    ghost coded = { state_view_code };

    ghost use Rattle.core_records.specs.Seen.{IsSoundCore, seen};

    ghost view = { λ a. seen a.parts };

    ghost invariant = { λ a. IsSoundCore a.parts };
}

impl TaskCore {
    /// Makes a core in which nothing was made: no instance, a limit of 100,000 handles, and room for 1,000,000 entries.
    pub fn new(alloc: Global) -> TaskCore
        ensures { result ≡ nothing }
    {
        TaskCore {
            parts: CoreParts::new(alloc),
        }
    }

    /// Returns the records and their chains, for crates that list what is in them.
    pub fn parts(&self) -> &CoreParts
        ensures sound { IsSoundCore result.now }
        ensures seen { seen result.now ≡ self.now }
    {
        &self.parts
    }
}

impl View for TaskCore {
    ghost use Rattle.core_state.specs.Codes.{itself};

    ghost view = { itself };

    fn current(&self) -> Option<ThreadId> {
        core_counts::current(&self.parts)
    }

    fn set_current(&mut self, thread: Option<ThreadId>) {
        core_counts::set_current(&mut self.parts, thread);
    }

    #[inline(always)]
    fn version(&self) -> Version {
        core_picks::version(&self.parts)
    }

    fn want(&mut self, wanted: WantedId) {
        core_picks::want(&mut self.parts, wanted);
    }

    fn none_is_zero(&self) {
        core_records::none_is_zero(&self.parts);
    }
}

impl Primitives for TaskCore {}
