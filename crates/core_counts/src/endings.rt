//! The groups that have ended.
ghost use Rattle.core_counts.specs.Entries.{numbers_above};
ghost use Rattle.core_counts.specs.Lends.{LeavesSo};
ghost use Rattle.std.specs.Borrow.{sem};
ghost use Rattle.machine_data.specs.Read.{is_nil};
ghost use Rattle.std.specs.Prelude.{◌≡◌, ◌+◌, ◌++◌, ◌≤◌, false, length, not, vec_capacity};
ghost use Rattle.core_records.specs.Seen.{IsSoundCore, seen};
ghost use Rattle.core_primitives.specs.Groups.{CountsEnded, IsAsked, asked, ended_groups};

use core_records::{CoreParts, Single, TaskGroup};
use table_records::RecordTable;

/// Adds the groups with a number above this one to those that have ended. There is room for them.
pub(crate) fn end_groups(
    ended: &mut Vec<u64>,
    groups: &RecordTable<Single<TaskGroup>>,
    finished: u64,
)
    requires { length ended.old.items + length (numbers_above finished groups.now) ≤ vec_capacity ended.old }
    ensures items { ended.new.items ≡ ended.old.items ++ numbers_above finished groups.now }
    ensures room { vec_capacity ended.new ≡ vec_capacity ended.old }
{
    for (_place, group) in groups.iter() {
        if group.item.number > finished {
            ended.push_reserved(group.item.number);
        }
    }
}

/// Returns whether a group has ended since the core was last asked which.
#[inline(always)]
pub fn has_ended(parts: &CoreParts) -> bool
    requires { IsSoundCore parts.now }
    ensures ended { result ≡ not (is_nil (ended_groups (seen parts.now))) }
    ensures none { result ≡ false → IsAsked (seen parts.now) }
{
    parts.ended.len() != 0
}

/// Says that each live group is tracked.
pub fn count_ended(parts: &CoreParts)
    requires { IsSoundCore parts.now }
    ensures { CountsEnded (seen parts.now) }
{
    // only the contract speaks of `parts`
    let _parts = parts;
}

/// Returns the groups that have ended since the core was last asked, in order of number.
pub fn ended(parts: &mut CoreParts) -> &[u64]
    requires { IsSoundCore parts.old }
    ensures numbers { result.now ≡ ended_groups (seen parts.old) }
    ensures* same { sem 𝓛 (LeavesSo parts.entry (λ a. IsSoundCore a × (seen a ≡ seen parts.old))) }
{
    parts.ended.sort_unstable();
    parts.ended.as_slice()
}

/// Forgets the groups that have ended: the core was asked for them, and tracks the live ones alone from now on.
pub fn forget_ended(parts: &mut CoreParts)
    requires { IsSoundCore parts.old }
    ensures sound { IsSoundCore parts.new }
    ensures new { seen parts.new ≡ asked (seen parts.old) }
{
    parts.ended.clear();
}
