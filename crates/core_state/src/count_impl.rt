//! How much a core holds.
ghost use Rattle.std.specs.Prelude.{◌≡◌, length};
ghost use Rattle.machine_data.specs.Maps.{size};
ghost use Rattle.machine_data.specs.Read.{live_count};
ghost use Rattle.core_records.specs.Seen.{IsSoundCore, seen};

use crate::task_core::TaskCore;
use core_records::CoreParts;

// How many instances there are.
fn instances(parts: &CoreParts) -> usize
    requires { IsSoundCore parts.now }
    ensures { result ≡ size (seen parts.now).core.instances }
{
    parts.instances.len()
}

// How many handles are live, those of threads among them.
#[tactic(auto, unfolding(machine_data::specs::Read::live_count))]
fn live_handles(parts: &CoreParts) -> u32
    requires { IsSoundCore parts.now }
    ensures { result ≡ live_count (seen parts.now).core }
{
    parts.counter.live()
}

// How many groups are live.
fn groups(parts: &CoreParts) -> u64
    requires { IsSoundCore parts.now }
    ensures { result ≡ length (seen parts.now).core.groups }
{
    parts.kept.groups
}

impl TaskCore {
    /// Returns how many instances there are.
    pub fn instances(&self) -> usize
        ensures { result ≡ size self.now.core.instances }
    {
        instances(&self.parts)
    }

    /// Returns how many handles are live in all instances, those of threads among them.
    pub fn live_handles(&self) -> u32
        ensures { result ≡ live_count self.now.core }
    {
        live_handles(&self.parts)
    }

    /// Returns how many groups are live.
    pub fn groups(&self) -> u64
        ensures { result ≡ length self.now.core.groups }
    {
        groups(&self.parts)
    }
}
