ghost use Rattle.core_removals.specs.Gone.{FreesThread, IsSuspendedOrRuns};
ghost use Rattle.std.specs.Prelude.{◌≡◌, ◌<◌, ℕ, IsSome, None, Ok, Some, true};
ghost use Rattle.machine_data.specs.Maps.{get};
ghost use Rattle.machine_data.specs.Read.{place_of, thread_at};
ghost use Rattle.machine_data.specs.Write.{free_thread_handle, remove_thread};
ghost use Rattle.machine_data.specs.declared.records.Place.TheVariants as places;
ghost use Rattle.core_records.specs.Kinds.{item_of};
ghost use Rattle.core_records.specs.Seen.{IsSoundCore, seen};
ghost use Rattle.core_records.specs.declared.thread_records.GuestThread.{GuestThread};
ghost use Rattle.task_table.specs.TableAnswers.{item_at};
ghost use Rattle.core_primitives.specs.Apart.{IsApart};
ghost use Rattle.core_primitives.specs.StateView.{on_core, thread_of};
ghost use Rattle.core_primitives.specs.Records.{LosesThreadBy, thread_retired};

use crate::chains_removals::{close, close_order_keys, drop_order_key, drop_wait};
use core_places::{place, suspend};
use core_primitives::{CallId, ThreadId};
use core_records::{CoreParts, GuestTask, GuestThread};
use machine_data::Place;

// The record of a thread that is there, and that of its call.
fn with_call(parts: &CoreParts, thread: ThreadId) -> (GuestThread, CallId, GuestTask)
    requires sound { IsSoundCore parts.now }
    requires live { 0 < thread_of (seen parts.now) thread }
    ensures thread { Ok result.0 ≡ item_at item_of parts.now.threads thread.rep thread.serial }
    ensures call { Ok result.2 ≡ item_at item_of parts.now.calls result.1.rep result.1.serial }
    ensures of { result.2.number ≡ result.0.thread.call }
{
    let found = *core_records::thread_there(parts, thread);
    let task = core_records::call_at_unchecked(parts, found.task);
    (found, task, *core_records::call_there(parts, task))
}

// A thread that is suspended or runs is gone.
#[inline(always)]
fn drop_thread(parts: &mut CoreParts, thread: ThreadId)
    requires sound { IsSoundCore parts.old }
    requires live { 0 < thread_of (seen parts.old) thread }
    requires apart { IsApart (thread_of (seen parts.old) thread) (seen parts.old).core }
    requires place { IsSuspendedOrRuns (thread_of (seen parts.old) thread) (seen parts.old).core }
    ensures sound { IsSoundCore parts.new }
    ensures new { LosesThreadBy remove_thread thread (seen parts.old) (seen parts.new) }
    ensures places { FreesThread thread parts.old parts.new }
{
    let (found, task, call) = with_call(parts, thread);
    let threads = call.threads - 1;
    parts.calls.get_mut_unchecked(task).threads = threads;
    parts.threads.take(thread);
    close_order_keys(&mut parts.places, found.under);
    drop_order_key(&mut parts.places, found.node);
    drop_wait(&mut parts.waits, found.wait);
    parts.behind.no_node_is_twice();
    close(&mut parts.behind, found.callers);
    parts.behind.drop_node(found.caller);
    parts.marks.no_node_is_twice();
    parts.marks.drop_node(found.mark);
    parts.instance_queues.no_node_is_twice();
    parts.instance_queues.drop_node(found.instance_queue);
    parts.kept.used -= 2;
    parts.table_places.give(found.entry);
    parts.table_places.give(found.set_entry);
}

// Whether the thread runs.
#[inline(always)]
fn runs(parts: &CoreParts, thread: ThreadId) -> bool
    requires { IsSoundCore parts.now }
    ensures { result ≡ true → place_of (thread_of (seen parts.now) thread) (seen parts.now).core ≡ Some places.Running }
{
    match place(parts, thread) {
        Some(Place::Running) => true,
        _ => false,
    }
}

// A thread is gone, whatever its place is. It is a function of its own, as most threads end where they run.
#[inline(never)]
fn remove_other(parts: &mut CoreParts, thread: ThreadId)
    requires sound { IsSoundCore parts.old }
    requires live { 0 < thread_of (seen parts.old) thread }
    requires apart { IsApart (thread_of (seen parts.old) thread) (seen parts.old).core }
    ensures sound { IsSoundCore parts.new }
    ensures new { LosesThreadBy remove_thread thread (seen parts.old) (seen parts.new) }
{
    suspend(parts, thread);
    drop_thread(parts, thread);
}

/// Removes a thread whatever its place is; no thread is behind it any more.
pub fn remove_thread(parts: &mut CoreParts, thread: ThreadId)
    requires sound { IsSoundCore parts.old }
    requires live { 0 < thread_of (seen parts.old) thread }
    requires apart { IsApart (thread_of (seen parts.old) thread) (seen parts.old).core }
    ensures sound { IsSoundCore parts.new }
    ensures new { LosesThreadBy remove_thread thread (seen parts.old) (seen parts.new) }
{
    if runs(parts, thread) {
        drop_thread(parts, thread);
    } else {
        remove_other(parts, thread);
    }
}

// Takes back the handle of a thread that is gone.
fn free_thread_handle(parts: &mut CoreParts, instance: u32, handle: u32)
    requires sound { IsSoundCore parts.old }
    requires names { IsSome (thread_at instance handle (seen parts.old).core) }
    requires gone { (n : ℕ) → thread_at instance handle (seen parts.old).core ≡ Some n → get (seen parts.old).core.threads n ≡ None }
    ensures sound { IsSoundCore parts.new }
    ensures new { seen parts.new ≡ on_core (free_thread_handle instance handle) (seen parts.old) }
{
    let entry = &mut parts.instances[instance as usize];
    let _ = entry
        .thread_handles
        .guest_thread_remove(&mut parts.counter, handle);
}

/// Removes a thread, and frees its handle.
pub fn retire_thread(parts: &mut CoreParts, thread: ThreadId)
    requires sound { IsSoundCore parts.old }
    requires live { 0 < thread_of (seen parts.old) thread }
    requires apart { IsApart (thread_of (seen parts.old) thread) (seen parts.old).core }
    ensures sound { IsSoundCore parts.new }
    ensures new { LosesThreadBy thread_retired thread (seen parts.old) (seen parts.new) }
{
    let found = core_records::thread_there(parts, thread);
    let instance = found.instance;
    let handle = found.thread.handle;
    remove_thread(parts, thread);
    if let Some(handle) = handle {
        free_thread_handle(parts, instance, handle);
    }
}
