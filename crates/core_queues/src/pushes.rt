//! Entries that are queued.
ghost use Rattle.std.specs.Prelude.{◌≡◌, ◌<◌, IfSome};
ghost use Rattle.machine_data.specs.Write.{push_high, push_high_first, push_low, set_switch};
ghost use Rattle.machine_data.specs.declared.records.Entry.TheVariants as entries;
ghost use Rattle.core_records.specs.Seen.{IsSoundCore, seen};
ghost use Rattle.core_primitives.specs.Apart.{IsUnqueued, work_entries};
ghost use Rattle.core_primitives.specs.StateView.{on_core, thread_of, work_of, thread_if_any};

use crate::order_keys::{entry_of, high_chains, host_entry_of, live_thread, live_work, low_chains};
use core_primitives::{ThreadId, WorkId};
use core_records::{CoreParts, Follower};

/// Gives this thread the entry at switch, or leaves switch empty.
pub fn set_switch(parts: &mut CoreParts, thread: Option<ThreadId>)
    requires sound { IsSoundCore parts.old }
    requires live { IfSome thread (λ id. 0 < thread_of (seen parts.old) id) }
    ensures sound { IsSoundCore parts.new }
    ensures new { seen parts.new ≡ on_core (set_switch (thread_if_any (seen parts.old) thread)) (seen parts.old) }
{
    match thread {
        Some(id) => {
            let found = live_thread(parts, id);
            parts.switch = Some(Follower {
                number: found.number,
                place: id.rep(),
                node: found.caller,
            });
        }
        None => {
            parts.switch = None;
        }
    }
}

/// Puts the thread's entry at the end of high.
#[inline(always)]
pub fn push_high(parts: &mut CoreParts, thread: ThreadId)
    requires sound { IsSoundCore parts.old }
    requires live { 0 < thread_of (seen parts.old) thread }
    requires unqueued { IsUnqueued (thread_of (seen parts.old) thread) (seen parts.old).core }
    ensures sound { IsSoundCore parts.new }
    ensures new { seen parts.new ≡ on_core (push_high (entries.Thread (thread_of (seen parts.old) thread))) (seen parts.old) }
    ensures threads { parts.new.threads ≡ parts.old.threads }
    ensures places { parts.new.places ≡ parts.old.places }
{
    let found = live_thread(parts, thread);
    let (chain, instance_queue) = high_chains(parts, found.instance);
    let queued = entry_of(thread.rep(), found);
    parts.marks.no_node_is_twice();
    parts.marks.push_back(chain, queued.mark, queued);
    parts.instance_queues.no_node_is_twice();
    parts
        .instance_queues
        .push_back(instance_queue, queued.instance_queue, queued);
}

/// Puts the thread's entry at the front of high.
pub fn push_high_first(parts: &mut CoreParts, thread: ThreadId)
    requires sound { IsSoundCore parts.old }
    requires live { 0 < thread_of (seen parts.old) thread }
    requires unqueued { IsUnqueued (thread_of (seen parts.old) thread) (seen parts.old).core }
    ensures sound { IsSoundCore parts.new }
    ensures new { seen parts.new ≡ on_core (push_high_first (entries.Thread (thread_of (seen parts.old) thread))) (seen parts.old) }
{
    let found = live_thread(parts, thread);
    let (chain, instance_queue) = high_chains(parts, found.instance);
    let queued = entry_of(thread.rep(), found);
    parts.marks.no_node_is_twice();
    parts.marks.push_front(chain, queued.mark, queued);
    parts.instance_queues.no_node_is_twice();
    parts
        .instance_queues
        .push_front(instance_queue, queued.instance_queue, queued);
}

/// Puts the thread's entry at the end of low.
#[inline(always)]
pub fn push_low(parts: &mut CoreParts, thread: ThreadId)
    requires sound { IsSoundCore parts.old }
    requires live { 0 < thread_of (seen parts.old) thread }
    requires unqueued { IsUnqueued (thread_of (seen parts.old) thread) (seen parts.old).core }
    ensures sound { IsSoundCore parts.new }
    ensures new { seen parts.new ≡ on_core (push_low (entries.Thread (thread_of (seen parts.old) thread))) (seen parts.old) }
{
    let found = live_thread(parts, thread);
    let (chain, instance_queue) = low_chains(parts, found.instance);
    let queued = entry_of(thread.rep(), found);
    parts.marks.no_node_is_twice();
    parts.marks.push_back(chain, queued.mark, queued);
    parts.instance_queues.no_node_is_twice();
    parts
        .instance_queues
        .push_back(instance_queue, queued.instance_queue, queued);
}

/// Queues the host entry of a work that has ended.
pub fn push_host(parts: &mut CoreParts, work: WorkId)
    requires sound { IsSoundCore parts.old }
    requires live { 0 < work_of (seen parts.old) work }
    requires unqueued { work_entries (work_of (seen parts.old) work) (seen parts.old).core.queues.high ≡ 0 }
    ensures sound { IsSoundCore parts.new }
    ensures new { seen parts.new ≡ on_core (push_high (entries.Host (work_of (seen parts.old) work))) (seen parts.old) }
{
    let found = live_work(parts, work);
    let queued = host_entry_of(work.rep(), found);
    match parts.high {
        Some(chain) => {
            parts.marks.no_node_is_twice();
            parts.marks.push_back(chain, queued.mark, queued);
        }
        None => unreachable!(),
    }
}
