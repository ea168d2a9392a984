ghost use Rattle.std.specs.Prelude.{◌≡◌, ◌+◌, ◌<◌, ◌≤◌, ◌^◌, not, true};
ghost use Rattle.machine_data.specs.Read.{is_never};
ghost use Rattle.machine_data.specs.Write.{set_course, set_phase};
ghost use Rattle.core_primitives.specs.StateView.{on_core, work_of};
ghost use Rattle.core_counts.specs.Ones.{one_if};
ghost use Rattle.core_records.specs.Seen.{IsSoundCore, seen};
ghost use Rattle.machine_rules.specs.Works.{has_live_work, has_moving_work, is_moving};

use core_primitives::WorkId;
use core_records::CoreParts;
use machine_data::{Course, HostDef, Phase, Stage, Work};

/// Returns whether a work is live, so that the loop polls it.
pub fn has_live_work(parts: &CoreParts) -> bool
    requires { IsSoundCore parts.now }
    ensures { result ≡ has_live_work (seen parts.now).core }
{
    0 < parts.kept.live
}

/// Returns whether some live work is polled to no end.
pub fn has_moving_work(parts: &CoreParts) -> bool
    requires { IsSoundCore parts.now }
    ensures { result ≡ has_moving_work (seen parts.now).core }
{
    0 < parts.kept.moving
}

fn is_moving_course(course: Course) -> bool
    ensures { result ≡ not (is_never course) }
{
    match course {
        Course::Continues {
            host: HostDef::Settled { polls, .. },
        } => polls.is_some(),
        Course::Continues {
            host: HostDef::Open,
        } => true,
        Course::Value { .. } => true,
        Course::NoValue => true,
    }
}

/// Returns whether a work is live and is polled to no end.
pub fn is_moving(work: &Work) -> bool
    ensures { result ≡ is_moving work.now }
{
    matches!(work.stage, Stage::Live)
        && (is_moving_course(work.course) || matches!(work.phase, Phase::AbortRequested))
}

/// Says that a number that counted what was so counts what is so.
pub fn recounted(kept: u64, was: bool, is: bool) -> u64
    requires some { was ≡ true → 1 ≤ kept + one_if is }
    requires few { kept + 1 < 2 ^ 64 }
    ensures { result + one_if was ≡ kept + one_if is }
{
    if was == is {
        kept
    } else if is {
        kept + 1
    } else {
        kept - 1
    }
}

/// Writes the course of a work, which is what a poll leaves of it. The search for the next live work begins there.
pub fn set_course(parts: &mut CoreParts, work: WorkId, course: Course)
    requires { IsSoundCore parts.old }
    ensures sound { IsSoundCore parts.new }
    ensures new { seen parts.new ≡ on_core (set_course (work_of (seen parts.old) work) course) (seen parts.old) }
{
    if let Ok(entry) = parts.works.get_mut(work) {
        let was = is_moving(&entry.work);
        entry.work.course = course;
        let is = is_moving(&entry.work);
        parts.polled_last = Some(entry.live);
        parts.kept.moving = recounted(parts.kept.moving, was, is);
    }
}

/// Sets the phase of the work's join handle.
pub fn set_phase(parts: &mut CoreParts, work: WorkId, phase: Phase)
    requires { IsSoundCore parts.old }
    ensures sound { IsSoundCore parts.new }
    ensures new { seen parts.new ≡ on_core (set_phase (work_of (seen parts.old) work) phase) (seen parts.old) }
{
    if let Ok(entry) = parts.works.get_mut(work) {
        let was = is_moving(&entry.work);
        entry.work.phase = phase;
        let is = is_moving(&entry.work);
        parts.kept.moving = recounted(parts.kept.moving, was, is);
    }
}
