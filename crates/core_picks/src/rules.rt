//! The rules by which a core runs: those of version 1 or of version 2.
ghost use Rattle.std.specs.Prelude.{◌≡◌};
ghost use Rattle.core_picks.specs.Rules.{with_version};
ghost use Rattle.machine_data.specs.Maps.{size};
ghost use Rattle.core_records.specs.Seen.{IsSoundCore, seen};
ghost use Rattle.core_primitives.specs.StateView.{on_core};

use core_records::CoreParts;
use machine_data::Version;

/// Returns by which rules the core runs.
#[inline(always)]
#[tactic(auto, unfolding(core_records::specs::Seen::seen))]
pub fn version(parts: &CoreParts) -> Version
    ensures { result ≡ (seen parts.now).core.version }
{
    parts.version
}

/// Makes these the rules by which the core runs, in which there is no call.
pub fn set_version(parts: &mut CoreParts, version: Version)
    requires sound { IsSoundCore parts.old }
    requires none { size (seen parts.old).core.calls ≡ 0 }
    ensures sound { IsSoundCore parts.new }
    ensures new { seen parts.new ≡ on_core (with_version version) (seen parts.old) }
{
    parts.version = version;
}
