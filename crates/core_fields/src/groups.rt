//! Which groups are tracked.
ghost use Rattle.std.specs.Prelude.{◌≡◌};
ghost use Rattle.core_fields.specs.Groups.{HasGroup};
ghost use Rattle.core_records.specs.Image.{tracked_in};
ghost use Rattle.core_records.specs.Seen.{IsSoundCore, parts_of};
ghost use Rattle.machine_rules.specs.Notices.{is_in};
ghost use Rattle.core_primitives.specs.Groups.{if_tracked};

use core_records::CoreParts;

// Whether the group is among those that have ended. It is a function of its own, as few are asked for that have.
#[cold]
#[inline(never)]
fn has_ended(ended: &[u64], group: u64) -> bool
    ensures { result ≡ is_in ended.now group }
{
    ended.contains(&group)
}

/// Returns whether a group that has a record is tracked.
#[inline(always)]
pub(crate) fn is_tracked(parts: &CoreParts, group: u64) -> bool
    requires sound { IsSoundCore parts.now }
    requires record { HasGroup group parts.now }
    ensures { result ≡ is_in (tracked_in (parts_of parts.now)) group }
{
    if group > parts.finished {
        return true;
    }
    has_ended(parts.ended.as_slice(), group)
}

/// Returns the number of a group that has a record, as long as that is tracked: 0 once its end was told.
#[inline(always)]
pub(crate) fn if_tracked(parts: &CoreParts, group: u64) -> u64
    requires sound { IsSoundCore parts.now }
    requires record { HasGroup group parts.now }
    ensures { result ≡ if_tracked (tracked_in (parts_of parts.now)) group }
{
    if is_tracked(parts, group) { group } else { 0 }
}
