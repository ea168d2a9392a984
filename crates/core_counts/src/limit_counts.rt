ghost use Rattle.core_counts.specs.Entries.{GivesGroups};
ghost use Rattle.std.specs.Prelude.{◌≡◌, ◌+◌, ◌<◌, ◌^◌};
ghost use Rattle.machine_data.specs.Read.{at_handle_limit, fits};
ghost use Rattle.machine_data.specs.Write.{count_work, set_trapped, set_uninteresting};
ghost use Rattle.core_records.specs.Seen.{IsSoundCore, seen};
ghost use Rattle.machine_rules.specs.MainOps.{has_interesting};
ghost use Rattle.core_primitives.specs.StateView.{call_of, on_core, with_current};

use crate::endings::end_groups;
use crate::entries::give_groups;
use core_primitives::{CallId, ThreadId};
use core_records::CoreParts;
use machine_data::MadeCounts;

/// Returns whether so many entries more have room in the table.
pub fn fits(parts: &CoreParts, entries: usize) -> bool
    requires { IsSoundCore parts.now }
    ensures { result ≡ fits entries (seen parts.now).core }
{
    entries <= parts.capacity && parts.kept.used <= (parts.capacity - entries) as u64
}

/// Returns whether a handle may not be given, in any instance.
pub fn at_handle_limit(parts: &CoreParts) -> bool
    requires { IsSoundCore parts.now }
    ensures { result ≡ at_handle_limit (seen parts.now).core }
{
    parts.counter.limit() <= parts.counter.live()
}

/// Returns whether main has to wait for some task.
pub fn has_interesting(parts: &CoreParts) -> bool
    requires { IsSoundCore parts.now }
    ensures { result ≡ has_interesting (seen parts.now).core }
{
    0 < parts.kept.interesting
}

/// Returns how many threads, works, sets and groups were made so far.
#[tactic(auto, unfolding(core_records::specs::Seen::seen))]
pub fn made(parts: &CoreParts) -> MadeCounts
    ensures { result ≡ (seen parts.now).core.made }
{
    parts.made
}

/// Returns whether the store is trapped.
#[tactic(auto, unfolding(core_records::specs::Seen::seen))]
pub fn trapped(parts: &CoreParts) -> bool
    ensures { result ≡ (seen parts.now).core.trapped }
{
    parts.trapped
}

/// Takes the call out of those that the host waits for, and lowers the count of interesting tasks with it.
pub fn set_uninteresting(parts: &mut CoreParts, call: CallId)
    requires { IsSoundCore parts.old }
    ensures sound { IsSoundCore parts.new }
    ensures new { seen parts.new ≡ on_core (set_uninteresting (call_of (seen parts.old) call)) (seen parts.old) }
{
    if let Ok(entry) = parts.calls.get_mut(call) {
        let was_interesting = entry.call.interesting;
        entry.call.interesting = false;
        if was_interesting {
            parts.kept.interesting -= 1;
        }
    }
}

/// Returns the thread that runs.
#[tactic(auto, unfolding(core_records::specs::Seen::seen))]
pub fn current(parts: &CoreParts) -> Option<ThreadId>
    ensures { result ≡ (seen parts.now).current }
{
    parts.current
}

/// Makes this thread the one that runs, or lets none run.
pub fn set_current(parts: &mut CoreParts, thread: Option<ThreadId>)
    requires { IsSoundCore parts.old }
    ensures sound { IsSoundCore parts.new }
    ensures new { seen parts.new ≡ with_current thread (seen parts.old) }
{
    parts.current = thread;
}

/// Counts the work of a host that was ready at its first poll: it has its number, and no record.
pub fn count_work(parts: &mut CoreParts)
    requires sound { IsSoundCore parts.old }
    requires few { (seen parts.old).core.made.works + 1 < 2 ^ 64 }
    ensures sound { IsSoundCore parts.new }
    ensures new { seen parts.new ≡ on_core count_work (seen parts.old) }
{
    parts.made.works += 1;
}

/// Traps the store, and finishes all groups. The live ones give back their places in the resource table in order of their numbers,
/// and are among the ended ones.
pub fn set_trapped(parts: &mut CoreParts)
    requires { IsSoundCore parts.old }
    ensures sound { IsSoundCore parts.new }
    ensures new { seen parts.new ≡ on_core set_trapped (seen parts.old) }
    ensures places { GivesGroups parts.old.finished parts.old.groups parts.old.table_places parts.new.table_places }
{
    give_groups(&mut parts.table_places, &parts.groups, parts.finished);
    end_groups(&mut parts.ended, &parts.groups, parts.finished);
    parts.trapped = true;
    parts.finished = parts.made.groups;
    parts.kept.used -= parts.kept.groups;
    parts.kept.groups = 0;
}
