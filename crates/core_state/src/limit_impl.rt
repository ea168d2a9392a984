//! Instances, and the limits of a store.
ghost use Rattle.std.specs.Prelude.{◌≡◌, ◌<◌, ◌≤◌, IfOk, None, OnErr, OnOk};
ghost use Rattle.core_counts.specs.Limits.{with_capacity, with_handle_limit};
ghost use Rattle.core_picks.specs.Rules.{with_version};
ghost use Rattle.core_makes.specs.Instances.{with_instance};
ghost use Rattle.machine_data.specs.Maps.{get, size};
ghost use Rattle.machine_data.specs.Read.{table_use};
ghost use Rattle.core_primitives.specs.StateView.{on_core};

use crate::task_core::TaskCore;
use machine_data::{NoMemory, Version};

impl TaskCore {
    /// Makes an instance and answers its number, from 0: its counters and memory cells are 0, its flags are clear, and it has no handles.
    /// If it is out of memory, the core is as before.
    pub fn add_instance(&mut self) -> Result<u32, NoMemory>
        requires { size self.old.core.instances < 4294967295 }
        ensures number { IfOk result (λ i. i ≡ size self.old.core.instances) }
        ensures fresh { IfOk result (λ i. get self.old.core.instances i ≡ None) }
        ensures unnamed { IfOk result (λ i. get self.old.core.handles i ≡ None) }
        ensures ok { OnOk result (self.new ≡ on_core with_instance self.old) }
        ensures err { OnErr result (self.new ≡ self.old) }
    {
        core_makes::add_instance(&mut self.parts)
    }

    /// Returns how many entries have room in the table.
    pub fn capacity(&self) -> usize
        ensures { result ≡ self.now.core.capacity }
    {
        core_counts::capacity(&self.parts)
    }

    /// Returns how many entries of the table are taken.
    pub fn used(&self) -> u64
        ensures { result ≡ table_use self.now.core }
    {
        core_counts::used(&self.parts)
    }

    /// Sets how many entries have room in the table, at most 4,294,967,295. A lowered capacity takes
    /// none away.
    pub fn set_capacity(&mut self, entries: usize)
        requires { entries ≤ 4294967295 }
        ensures { self.new ≡ on_core (with_capacity entries) self.old }
    {
        core_counts::set_capacity(&mut self.parts, entries);
    }

    /// Returns by which rules calls are run.
    pub fn rules(&self) -> Version
        ensures { result ≡ self.now.core.version }
    {
        core_picks::version(&self.parts)
    }

    /// Makes these the rules by which calls are run. No call may be in the table.
    pub fn set_rules(&mut self, rules: Version)
        requires { size self.old.core.calls ≡ 0 }
        ensures { self.new ≡ on_core (with_version rules) self.old }
    {
        core_picks::set_version(&mut self.parts, rules);
    }

    /// Returns how many handles may be live at once.
    pub fn handle_limit(&self) -> u32
        ensures is { result ≡ self.now.core.handle_limit }
        ensures bound { result ≤ 268435455 }
    {
        core_counts::handle_limit(&self.parts)
    }

    /// Sets how many handles may be live at once, at most 268,435,455. A lowered limit takes none
    /// away.
    pub fn set_handle_limit(&mut self, handles: u32)
        requires { handles ≤ 268435455 }
        ensures { self.new ≡ on_core (with_handle_limit handles) self.old }
    {
        core_counts::set_handle_limit(&mut self.parts, handles);
    }
}
