ghost use Rattle.std.specs.Prelude.{◌≡◌};
ghost use Rattle.machine_data.specs.Read.{course_of, phase_of, was_cancelled};
ghost use Rattle.machine_data.specs.Write.{set_cancelled};
ghost use Rattle.core_records.specs.Seen.{IsSoundCore, seen};
ghost use Rattle.core_primitives.specs.Groups.{tracked_work_group};
ghost use Rattle.core_primitives.specs.StateView.{on_core, work_of};

use crate::groups::is_tracked;
use core_primitives::WorkId;
use core_records::CoreParts;
use machine_data::{Course, Phase};

/// Returns the number of a work; 0 if the id names none.
pub fn work_number(parts: &CoreParts, work: WorkId) -> u64
    requires { IsSoundCore parts.now }
    ensures { result ≡ work_of (seen parts.now) work }
{
    match core_records::work(parts, work) {
        Some(entry) => entry.number,
        None => 0,
    }
}

/// Returns how the work goes on, with the polls that are left and its end, or how it has ended.
pub fn course(parts: &CoreParts, work: WorkId) -> Course
    requires { IsSoundCore parts.now }
    ensures { result ≡ course_of (work_of (seen parts.now) work) (seen parts.now).core }
{
    match core_records::work(parts, work) {
        Some(entry) => entry.work.course,
        None => Course::NoValue,
    }
}

/// Returns the phase of the work's join handle.
pub fn phase(parts: &CoreParts, work: WorkId) -> Phase
    requires { IsSoundCore parts.now }
    ensures { result ≡ phase_of (work_of (seen parts.now) work) (seen parts.now).core }
{
    match core_records::work(parts, work) {
        Some(entry) => entry.work.phase,
        None => Phase::Complete,
    }
}

/// Returns the number of the work's group, if it is a call, as long as that group is tracked.
pub fn work_group(parts: &CoreParts, work: WorkId) -> Option<u64>
    requires { IsSoundCore parts.now }
    ensures { result ≡ tracked_work_group (work_of (seen parts.now) work) (seen parts.now) }
{
    match core_records::work(parts, work) {
        Some(entry) => match entry.work.group {
            Some(group) => {
                if is_tracked(parts, group) {
                    Some(group)
                } else {
                    None
                }
            }
            None => None,
        },
        None => None,
    }
}

/// Returns whether the work was cancelled by its caller.
pub fn was_cancelled(parts: &CoreParts, work: WorkId) -> bool
    requires { IsSoundCore parts.now }
    ensures { result ≡ was_cancelled (work_of (seen parts.now) work) (seen parts.now).core }
{
    match core_records::work(parts, work) {
        Some(entry) => entry.work.cancelled,
        None => false,
    }
}

/// Records that the work was cancelled by its caller.
pub fn set_cancelled(parts: &mut CoreParts, work: WorkId)
    requires { IsSoundCore parts.old }
    ensures sound { IsSoundCore parts.new }
    ensures new { seen parts.new ≡ on_core (set_cancelled (work_of (seen parts.old) work)) (seen parts.old) }
{
    if let Ok(entry) = parts.works.get_mut(work) {
        entry.work.cancelled = true;
    }
}
