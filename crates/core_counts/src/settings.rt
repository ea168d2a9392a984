//! The limits of a store.
ghost use Rattle.std.specs.Prelude.{◌≡◌, ◌≤◌};
ghost use Rattle.core_counts.specs.Limits.{with_capacity, with_handle_limit};
ghost use Rattle.machine_data.specs.Read.{table_use};
ghost use Rattle.core_records.specs.Seen.{IsSoundCore, seen};
ghost use Rattle.core_primitives.specs.StateView.{on_core};

use core_records::CoreParts;

/// Returns how many entries have room in the table.
#[tactic(auto, unfolding(core_records::specs::Seen::seen))]
pub fn capacity(parts: &CoreParts) -> usize
    ensures { result ≡ (seen parts.now).core.capacity }
{
    parts.capacity
}

/// Returns how many entries of the table are taken.
pub fn used(parts: &CoreParts) -> u64
    requires { IsSoundCore parts.now }
    ensures { result ≡ table_use (seen parts.now).core }
{
    parts.kept.used
}

/// Sets how many entries have room in the table, at most 4,294,967,295. A lowered capacity takes none
/// away.
pub fn set_capacity(parts: &mut CoreParts, entries: usize)
    requires sound { IsSoundCore parts.old }
    requires few { entries ≤ 4294967295 }
    ensures sound { IsSoundCore parts.new }
    ensures new { seen parts.new ≡ on_core (with_capacity entries) (seen parts.old) }
{
    parts.capacity = entries;
}

/// Returns how many handles may be live at once.
#[tactic(auto, unfolding(core_records::specs::Seen::seen))]
pub fn handle_limit(parts: &CoreParts) -> u32
    ensures is { result ≡ (seen parts.now).core.handle_limit }
    ensures bound { result ≤ 268435455 }
{
    parts.counter.limit()
}

/// Sets how many handles may be live at once, at most 268,435,455. A lowered limit takes none away.
pub fn set_handle_limit(parts: &mut CoreParts, handles: u32)
    requires sound { IsSoundCore parts.old }
    requires few { handles ≤ 268435455 }
    ensures sound { IsSoundCore parts.new }
    ensures new { seen parts.new ≡ on_core (with_handle_limit handles) (seen parts.old) }
{
    parts.counter.set_limit(handles);
}
