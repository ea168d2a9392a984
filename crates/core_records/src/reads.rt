ghost use Rattle.std.specs.Prelude.{◌<◌, ◌^◌, ◌≡◌, IfNone, IfSome, Ok, option_copied, option_map, slice_get};
ghost use Rattle.machine_data.specs.Maps.{get};
ghost use Rattle.machine_data.specs.Read.{instance_of, named_by, thread_at};
ghost use Rattle.core_records.specs.Instances.{handle_table, named_of, thread_of as thread_named};
ghost use Rattle.core_records.specs.Kinds.{item_of};
ghost use Rattle.core_records.specs.Keys.{thread_key};
ghost use Rattle.core_records.specs.Names.{IsHeldNamed, StandsAt, kinds};
ghost use Rattle.core_records.specs.Seen.{IsSoundCore, parts_of, seen};
ghost use Rattle.task_table.specs.TableAnswers.{item_at};
ghost use Rattle.core_primitives.specs.StateView.{call_of, set_of, thread_of, work_of};

use crate::call_records::GuestTask;
use crate::instance_records::InstanceRecord;
use crate::parts::CoreParts;
use crate::set_records::WaitSet;
use crate::thread_records::GuestThread;
use crate::work_records::WorkRecord;
use core_primitives::{CallId, SetId, ThreadId, WorkId};
use task_handles::{HeldItem, Rep};
use task_wait::{GuestTaskKey, HostTaskKey, SetKey, ThreadKey};

/// Returns the record of a thread, if the id names one.
pub fn thread(parts: &CoreParts, id: ThreadId) -> Option<&GuestThread>
    requires { IsSoundCore parts.now }
    ensures is { option_map (λ g. g.now.thread) result ≡ get (seen parts.now).core.threads (thread_of (seen parts.now) id) }
    ensures item { IfSome result (λ g. Ok g.now ≡ item_at item_of parts.now.threads id.rep id.serial) }
    ensures number { IfSome result (λ g. g.now.number ≡ thread_of (seen parts.now) id) }
    ensures nothing { IfNone result (thread_of (seen parts.now) id ≡ 0) }
    ensures instance { IfSome result (λ g. g.now.instance ≡ instance_of (thread_of (seen parts.now) id) (seen parts.now).core) }
    ensures stranger { IfNone result (0 ≡ instance_of (thread_of (seen parts.now) id) (seen parts.now).core) }
{
    match parts.threads.get(id) {
        Ok(entry) => Some(entry),
        Err(_) => None,
    }
}

/// Returns the record of a thread that is there: nothing is tested.
pub fn thread_there(parts: &CoreParts, id: ThreadId) -> &GuestThread
    requires sound { IsSoundCore parts.now }
    requires live { 0 < thread_of (seen parts.now) id }
    ensures is { Some result.now.thread ≡ get (seen parts.now).core.threads (thread_of (seen parts.now) id) }
    ensures item { Ok result.now ≡ item_at item_of parts.now.threads id.rep id.serial }
    ensures number { result.now.number ≡ thread_of (seen parts.now) id }
    ensures instance { result.now.instance ≡ instance_of (thread_of (seen parts.now) id) (seen parts.now).core }
{
    parts.threads.there::<ThreadKey>(id.rep)
}

/// Returns the record of a call, if the id names one.
pub fn call(parts: &CoreParts, id: CallId) -> Option<&GuestTask>
    requires { IsSoundCore parts.now }
    ensures is { option_map (λ g. g.now.call) result ≡ get (seen parts.now).core.calls (call_of (seen parts.now) id) }
    ensures item { IfSome result (λ g. Ok g.now ≡ item_at item_of parts.now.calls id.rep id.serial) }
    ensures number { IfSome result (λ g. g.now.number ≡ call_of (seen parts.now) id) }
    ensures nothing { IfNone result (call_of (seen parts.now) id ≡ 0) }
{
    match parts.calls.get(id) {
        Ok(entry) => Some(entry),
        Err(_) => None,
    }
}

/// Returns the record of a call that is there: nothing is tested.
pub fn call_there(parts: &CoreParts, id: CallId) -> &GuestTask
    requires sound { IsSoundCore parts.now }
    requires live { 0 < call_of (seen parts.now) id }
    ensures is { Some result.now.call ≡ get (seen parts.now).core.calls (call_of (seen parts.now) id) }
    ensures item { Ok result.now ≡ item_at item_of parts.now.calls id.rep id.serial }
    ensures number { result.now.number ≡ call_of (seen parts.now) id }
{
    parts.calls.there::<GuestTaskKey>(id.rep)
}

/// Returns the record of a host work, if the id names one.
pub fn work(parts: &CoreParts, id: WorkId) -> Option<&WorkRecord>
    requires { IsSoundCore parts.now }
    ensures is { option_map (λ g. g.now.work) result ≡ get (seen parts.now).core.works (work_of (seen parts.now) id) }
    ensures item { IfSome result (λ g. Ok g.now ≡ item_at item_of parts.now.works id.rep id.serial) }
    ensures number { IfSome result (λ g. g.now.number ≡ work_of (seen parts.now) id) }
    ensures nothing { IfNone result (work_of (seen parts.now) id ≡ 0) }
{
    match parts.works.get(id) {
        Ok(entry) => Some(entry),
        Err(_) => None,
    }
}

/// Returns the record of a host work that is there: nothing is tested.
pub fn work_there(parts: &CoreParts, id: WorkId) -> &WorkRecord
    requires sound { IsSoundCore parts.now }
    requires live { 0 < work_of (seen parts.now) id }
    ensures is { Some result.now.work ≡ get (seen parts.now).core.works (work_of (seen parts.now) id) }
    ensures item { Ok result.now ≡ item_at item_of parts.now.works id.rep id.serial }
    ensures number { result.now.number ≡ work_of (seen parts.now) id }
{
    parts.works.there::<HostTaskKey>(id.rep)
}

/// Returns the record of a set, if the id names one.
pub fn set(parts: &CoreParts, id: SetId) -> Option<&WaitSet>
    requires { IsSoundCore parts.now }
    ensures is { option_map (λ g. g.now.set) result ≡ get (seen parts.now).core.sets (set_of (seen parts.now) id) }
    ensures item { IfSome result (λ g. Ok g.now ≡ item_at item_of parts.now.sets id.rep id.serial) }
    ensures number { IfSome result (λ g. g.now.number ≡ set_of (seen parts.now) id) }
    ensures nothing { IfNone result (set_of (seen parts.now) id ≡ 0) }
{
    match parts.sets.get(id) {
        Ok(entry) => Some(entry),
        Err(_) => None,
    }
}

/// Returns the record of a set that is there: nothing is tested.
pub fn set_there(parts: &CoreParts, id: SetId) -> &WaitSet
    requires sound { IsSoundCore parts.now }
    requires live { 0 < set_of (seen parts.now) id }
    ensures is { Some result.now.set ≡ get (seen parts.now).core.sets (set_of (seen parts.now) id) }
    ensures item { Ok result.now ≡ item_at item_of parts.now.sets id.rep id.serial }
    ensures number { result.now.number ≡ set_of (seen parts.now) id }
{
    parts.sets.there::<SetKey>(id.rep)
}

/// Returns an instance, if there is one of this number.
pub fn instance(parts: &CoreParts, index: u32) -> Option<&InstanceRecord>
    ensures is { option_map (λ r. r.now.instance) result ≡ get (seen parts.now).core.instances index }
    ensures handles { option_map (λ r. handle_table named_of r.now.handles) result ≡ get (seen parts.now).core.handles index }
    ensures thread_handles { option_map (λ r. handle_table thread_named r.now.thread_handles) result ≡ get (seen parts.now).core.thread_handles index }
    ensures item { option_copied result ≡ slice_get parts.now.instances.items index }
{
    if (index as usize) < parts.instances.len() {
        Some(&parts.instances[index as usize])
    } else {
        None
    }
}

/// Returns what a handle of an instance names; the numbers past those of handles name nothing.
pub fn held(parts: &CoreParts, index: u32, handle: u64) -> Option<HeldItem>
    requires { IsSoundCore parts.now }
    ensures is { option_map named_of result ≡ named_by (seen parts.now).core.handles index handle }
    ensures named { IfSome result (λ held. IsHeldNamed (kinds (parts_of parts.now)) held.kind held.rep) }
    ensures small { IfSome result (λ held. handle < 2 ^ 32) }
{
    match instance(parts, index) {
        Some(entry) => {
            if handle > 4_294_967_295 {
                None
            } else {
                entry.handles.get(handle as u32)
            }
        }
        None => None,
    }
}

/// Returns what a thread handle of an instance names; the numbers past those of handles name nothing.
pub fn held_thread(parts: &CoreParts, index: u32, handle: u64) -> Option<Rep>
    requires { IsSoundCore parts.now }
    ensures is { option_map thread_named result ≡ thread_at index handle (seen parts.now).core }
    ensures named { IfSome result (λ rep. StandsAt thread_key parts.now.threads rep.id rep.serial) }
{
    match instance(parts, index) {
        Some(entry) => {
            if handle > 4_294_967_295 {
                None
            } else {
                entry.thread_handles.get(handle as u32)
            }
        }
        None => None,
    }
}
