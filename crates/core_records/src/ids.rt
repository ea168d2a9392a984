ghost use Rattle.std.specs.Prelude.{◌<◌, ◌≡◌, None, false};
ghost use Rattle.machine_data.specs.Maps.{get};
ghost use Rattle.machine_data.specs.Read.{task_of};
ghost use Rattle.core_records.specs.Keys.{call_key, set_key, thread_key, work_key};
ghost use Rattle.core_records.specs.Names.{StandsAt};
ghost use Rattle.core_records.specs.Seen.{IsSoundCore, seen};
ghost use Rattle.machine_rules.specs.Notices.{is_in};
ghost use Rattle.task_table.specs.Records.{number_in, record_at};
ghost use Rattle.core_primitives.specs.Live.{kept_in, live_thread};
ghost use Rattle.core_primitives.specs.StateView.{call_of, set_of, thread_of, work_of};

use crate::parts::CoreParts;
use core_primitives::{CallId, SetId, ThreadId, WorkId};
use task_table::TableId;
use task_wait::{GuestTaskKey, HostTaskKey, SetKey, ThreadKey};

// An id that names nothing: no table has this place.
fn nowhere<K>() -> TableId<K>
    ensures { result.rep ≡ 4294967295 }
{
    TableId::new(u32::MAX, 0)
}

/// Returns the id of the thread that is at a place; it names nothing if none is there.
pub fn thread_at(parts: &CoreParts, place: u32) -> ThreadId
    ensures { thread_of (seen parts.now) result ≡ number_in (record_at thread_key parts.now.threads.places place) }
{
    match parts.threads.serial_at(place) {
        Some(serial) => TableId::new(place, serial),
        None => TableId::new(place, 0),
    }
}

/// Returns the id of the thread that is known to be at a place: nothing is tested.
pub fn thread_at_unchecked(parts: &CoreParts, place: u32) -> ThreadId
    requires { 0 < number_in (record_at thread_key parts.now.threads.places place) }
    ensures { thread_of (seen parts.now) result ≡ number_in (record_at thread_key parts.now.threads.places place) }
{
    TableId::new(place, parts.threads.serial_unchecked(place))
}

/// Returns the id of the thread of a number that was kept with a place; it names nothing if it is gone.
pub fn thread_id_at(parts: &CoreParts, place: u32, number: u64) -> ThreadId
    requires sound { IsSoundCore parts.now }
    requires stands { StandsAt thread_key parts.now.threads place number }
    ensures { thread_of (seen parts.now) result ≡ kept_in (seen parts.now).core.threads number }
{
    match parts.threads.item_at::<ThreadKey>(place) {
        Some(item) => {
            if item.number == number {
                thread_at(parts, place)
            } else {
                nowhere()
            }
        }
        None => nowhere(),
    }
}

/// Returns the id of the call that is at a place; it names nothing if none is there.
pub fn call_at(parts: &CoreParts, place: u32) -> CallId
    ensures { call_of (seen parts.now) result ≡ number_in (record_at call_key parts.now.calls.places place) }
{
    match parts.calls.serial_at(place) {
        Some(serial) => TableId::new(place, serial),
        None => TableId::new(place, 0),
    }
}

/// Returns the id of the call that is known to be at a place: nothing is tested.
pub fn call_at_unchecked(parts: &CoreParts, place: u32) -> CallId
    requires { 0 < number_in (record_at call_key parts.now.calls.places place) }
    ensures { call_of (seen parts.now) result ≡ number_in (record_at call_key parts.now.calls.places place) }
{
    TableId::new(place, parts.calls.serial_unchecked(place))
}

/// Returns the id of the call of a number that was kept with a place; it names nothing if it is gone.
pub fn call_id_at(parts: &CoreParts, place: u32, number: u64) -> CallId
    requires sound { IsSoundCore parts.now }
    requires stands { StandsAt call_key parts.now.calls place number }
    ensures { call_of (seen parts.now) result ≡ kept_in (seen parts.now).core.calls number }
{
    match parts.calls.item_at::<GuestTaskKey>(place) {
        Some(item) => {
            if item.number == number {
                call_at(parts, place)
            } else {
                nowhere()
            }
        }
        None => nowhere(),
    }
}

/// Returns the id of the host work that is at a place; it names nothing if none is there.
pub fn work_at(parts: &CoreParts, place: u32) -> WorkId
    ensures { work_of (seen parts.now) result ≡ number_in (record_at work_key parts.now.works.places place) }
{
    match parts.works.serial_at(place) {
        Some(serial) => TableId::new(place, serial),
        None => TableId::new(place, 0),
    }
}

/// Returns the id of the host work of a number that was kept with a place; it names nothing if it is gone.
pub fn work_id_at(parts: &CoreParts, place: u32, number: u64) -> WorkId
    requires sound { IsSoundCore parts.now }
    requires stands { StandsAt work_key parts.now.works place number }
    ensures { work_of (seen parts.now) result ≡ kept_in (seen parts.now).core.works number }
{
    match parts.works.item_at::<HostTaskKey>(place) {
        Some(item) => {
            if item.number == number {
                work_at(parts, place)
            } else {
                nowhere()
            }
        }
        None => nowhere(),
    }
}

/// Returns the id of the set that is at a place; it names nothing if none is there.
pub fn set_at(parts: &CoreParts, place: u32) -> SetId
    ensures { set_of (seen parts.now) result ≡ number_in (record_at set_key parts.now.sets.places place) }
{
    match parts.sets.serial_at(place) {
        Some(serial) => TableId::new(place, serial),
        None => TableId::new(place, 0),
    }
}

/// Returns the id of the set of a number that was kept with a place; it names nothing if it is gone.
pub fn set_id_at(parts: &CoreParts, place: u32, number: u64) -> SetId
    requires sound { IsSoundCore parts.now }
    requires stands { StandsAt set_key parts.now.sets place number }
    ensures { set_of (seen parts.now) result ≡ kept_in (seen parts.now).core.sets number }
{
    match parts.sets.item_at::<SetKey>(place) {
        Some(item) => {
            if item.number == number {
                set_at(parts, place)
            } else {
                nowhere()
            }
        }
        None => nowhere(),
    }
}

/// Returns the call of a thread, which is there as long as the thread.
pub fn task_of(parts: &CoreParts, thread: ThreadId) -> CallId
    requires { IsSoundCore parts.now }
    ensures is { call_of (seen parts.now) result ≡ task_of (thread_of (seen parts.now) thread) (seen parts.now).core }
    ensures live { 0 < thread_of (seen parts.now) thread → 0 < call_of (seen parts.now) result }
{
    match crate::reads::thread(parts, thread) {
        Some(entry) => call_at_unchecked(parts, entry.task),
        None => nowhere(),
    }
}

/// Returns the first thread of a call, which has the call's number; it names nothing if that is gone.
pub fn first_thread(parts: &CoreParts, call: CallId) -> ThreadId
    requires { IsSoundCore parts.now }
    ensures { thread_of (seen parts.now) result ≡ live_thread (call_of (seen parts.now) call) (seen parts.now).core }
{
    match crate::reads::call(parts, call) {
        Some(entry) => thread_id_at(parts, entry.first, entry.number),
        None => nowhere(),
    }
}

/// Says that nothing has the number 0, which is that of an id that names nothing. It does nothing.
pub fn none_is_zero(parts: &CoreParts)
    requires { IsSoundCore parts.now }
    ensures threads { get (seen parts.now).core.threads 0 ≡ None }
    ensures calls { get (seen parts.now).core.calls 0 ≡ None }
    ensures sets { get (seen parts.now).core.sets 0 ≡ None }
    ensures works { get (seen parts.now).core.works 0 ≡ None }
    ensures groups { is_in (seen parts.now).tags.tracked 0 ≡ false }
{}
