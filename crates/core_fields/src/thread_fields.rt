ghost use Rattle.std.specs.Prelude.{◌≡◌, ◌<◌, Some};
ghost use Rattle.machine_data.specs.Maps.{get};
ghost use Rattle.machine_data.specs.Read.{callee_of, instance_of, is_explicit, position_of, register_of, registers_of, saved_callee_of, saved_own_of, task_of, thread_handle_of};
ghost use Rattle.machine_data.specs.Write.{set_register, set_saved_callee, set_saved_own};
ghost use Rattle.machine_data.specs.declared.records.Thread.{Thread};
ghost use Rattle.core_records.specs.Seen.{IsSoundCore, seen};
ghost use Rattle.core_primitives.specs.Barred.{is_barred};
ghost use Rattle.core_primitives.specs.StateView.{call_of, on_core, thread_of};

use crate::arrays::{number_in, put_number};
use core_primitives::{CallId, ThreadAt, ThreadId};
use core_records::CoreParts;
use task_wait::GuestTaskKey;

/// Returns the number of a thread; 0 if the id names none.
pub fn number(parts: &CoreParts, thread: ThreadId) -> u64
    requires { IsSoundCore parts.now }
    ensures { result ≡ thread_of (seen parts.now) thread }
{
    match core_records::thread(parts, thread) {
        Some(entry) => entry.number,
        None => 0,
    }
}

/// Returns the number of a thread that is there: nothing is tested.
pub fn number_unchecked(parts: &CoreParts, thread: ThreadId) -> u64
    requires sound { IsSoundCore parts.now }
    requires live { 0 < thread_of (seen parts.now) thread }
    ensures { result ≡ thread_of (seen parts.now) thread }
{
    core_records::thread_there(parts, thread).number
}

/// Returns the instance of the thread's call.
pub fn instance_of(parts: &CoreParts, thread: ThreadId) -> u32
    requires { IsSoundCore parts.now }
    ensures { result ≡ instance_of (thread_of (seen parts.now) thread) (seen parts.now).core }
{
    match core_records::thread(parts, thread) {
        Some(entry) => entry.instance,
        None => 0,
    }
}

/// Returns the instance of the call of a thread that is there: nothing is tested.
pub fn instance_unchecked(parts: &CoreParts, thread: ThreadId) -> u32
    requires sound { IsSoundCore parts.now }
    requires live { 0 < thread_of (seen parts.now) thread }
    ensures { result ≡ instance_of (thread_of (seen parts.now) thread) (seen parts.now).core }
{
    core_records::thread_there(parts, thread).instance
}

/// Returns the call of a thread that is there: nothing is tested.
pub fn task_unchecked(parts: &CoreParts, thread: ThreadId) -> CallId
    requires sound { IsSoundCore parts.now }
    requires live { 0 < thread_of (seen parts.now) thread }
    ensures is { call_of (seen parts.now) result ≡ task_of (thread_of (seen parts.now) thread) (seen parts.now).core }
    ensures live { 0 < call_of (seen parts.now) result }
{
    let entry = core_records::thread_there(parts, thread);
    core_records::call_at_unchecked(parts, entry.task)
}

/// Returns one of the thread's registers, 0 to 15.
pub fn register(parts: &CoreParts, thread: ThreadId, register: u8) -> u64
    requires { IsSoundCore parts.now }
    ensures { result ≡ register_of (thread_of (seen parts.now) thread) register (seen parts.now).core }
{
    match core_records::thread(parts, thread) {
        Some(entry) => number_in(&entry.thread.registers, register),
        None => 0,
    }
}

/// Returns one of the registers, 0 to 15, of a thread that is there: nothing is tested of the thread.
pub fn register_unchecked(parts: &CoreParts, thread: ThreadId, register: u8) -> u64
    requires sound { IsSoundCore parts.now }
    requires live { 0 < thread_of (seen parts.now) thread }
    ensures { result ≡ register_of (thread_of (seen parts.now) thread) register (seen parts.now).core }
{
    number_in(
        &core_records::thread_there(parts, thread).thread.registers,
        register,
    )
}

/// Returns all registers.
pub fn registers(parts: &CoreParts, thread: ThreadId) -> [u64; 16]
    requires sound { IsSoundCore parts.now }
    requires live { 0 < thread_of (seen parts.now) thread }
    ensures { result ≡ registers_of (thread_of (seen parts.now) thread) (seen parts.now).core }
{
    core_records::thread_there(parts, thread).thread.registers
}

/// Returns the thread's position in its script, from 0; the script's length at its end.
pub fn position(parts: &CoreParts, thread: ThreadId) -> u32
    requires { IsSoundCore parts.now }
    ensures { result ≡ position_of (thread_of (seen parts.now) thread) (seen parts.now).core }
{
    match core_records::thread(parts, thread) {
        Some(entry) => entry.thread.position,
        None => 0,
    }
}

/// Returns where a thread is in its code.
pub fn at(parts: &CoreParts, thread: ThreadId) -> ThreadAt
    requires sound { IsSoundCore parts.now }
    requires live { 0 < thread_of (seen parts.now) thread }
    ensures callee { result.callee ≡ callee_of (task_of (thread_of (seen parts.now) thread) (seen parts.now).core) (seen parts.now).core }
    ensures script { (t : Thread) → get (seen parts.now).core.threads (thread_of (seen parts.now) thread) ≡ Some t → result.script ≡ t.script }
    ensures position { result.position ≡ position_of (thread_of (seen parts.now) thread) (seen parts.now).core }
{
    let entry = core_records::thread_there(parts, thread);
    let item = parts.calls.there::<GuestTaskKey>(entry.task);
    ThreadAt {
        callee: item.call.callee,
        script: entry.thread.script,
        position: entry.thread.position,
    }
}

/// Returns whether the thread isn't the first one of its call.
pub fn is_explicit(parts: &CoreParts, thread: ThreadId) -> bool
    requires { IsSoundCore parts.now }
    ensures { result ≡ is_explicit (thread_of (seen parts.now) thread) (seen parts.now).core }
{
    match core_records::thread(parts, thread) {
        Some(entry) => entry.thread.explicit,
        None => false,
    }
}

/// Returns whether a thread that is there isn't the first one of its call: nothing is tested of it.
pub fn explicit_unchecked(parts: &CoreParts, thread: ThreadId) -> bool
    requires sound { IsSoundCore parts.now }
    requires live { 0 < thread_of (seen parts.now) thread }
    ensures { result ≡ is_explicit (thread_of (seen parts.now) thread) (seen parts.now).core }
{
    core_records::thread_there(parts, thread).thread.explicit
}

/// Returns whether the instance of a thread that is there may keep its start out: it isn't explicit, and its export isn't sync.
pub fn is_barred(parts: &CoreParts, thread: ThreadId) -> bool
    requires sound { IsSoundCore parts.now }
    requires live { 0 < thread_of (seen parts.now) thread }
    ensures { result ≡ is_barred (thread_of (seen parts.now) thread) (seen parts.now).core }
{
    core_records::thread_there(parts, thread).barred
}

/// Returns the thread's handle in its instance, if it has one.
pub fn thread_handle(parts: &CoreParts, thread: ThreadId) -> Option<u32>
    requires { IsSoundCore parts.now }
    ensures { result ≡ thread_handle_of (thread_of (seen parts.now) thread) (seen parts.now).core }
{
    match core_records::thread(parts, thread) {
        Some(entry) => entry.thread.handle,
        None => None,
    }
}

/// Returns the thread's instance's flag `do_not_suspend` as it was before the thread's start, if that was saved.
pub fn saved_own(parts: &CoreParts, thread: ThreadId) -> Option<bool>
    requires { IsSoundCore parts.now }
    ensures { result ≡ saved_own_of (thread_of (seen parts.now) thread) (seen parts.now).core }
{
    match core_records::thread(parts, thread) {
        Some(entry) => entry.thread.saved_own,
        None => None,
    }
}

/// Returns the callee's flag `do_not_suspend` as it was before the thread's call, if that was saved.
pub fn saved_callee(parts: &CoreParts, thread: ThreadId) -> Option<bool>
    requires { IsSoundCore parts.now }
    ensures { result ≡ saved_callee_of (thread_of (seen parts.now) thread) (seen parts.now).core }
{
    match core_records::thread(parts, thread) {
        Some(entry) => entry.thread.saved_callee,
        None => None,
    }
}

/// Writes one of the thread's registers, 0 to 15.
pub fn set_register(parts: &mut CoreParts, thread: ThreadId, register: u8, value: u64)
    requires { IsSoundCore parts.old }
    ensures sound { IsSoundCore parts.new }
    ensures new { seen parts.new ≡ on_core (set_register (thread_of (seen parts.old) thread) register value) (seen parts.old) }
{
    if let Ok(entry) = parts.threads.get_mut(thread) {
        put_number(&mut entry.thread.registers, register, value);
    }
}

/// Saves the flag of the thread's own instance, or removes what was saved.
pub fn set_saved_own(parts: &mut CoreParts, thread: ThreadId, flag: Option<bool>)
    requires { IsSoundCore parts.old }
    ensures sound { IsSoundCore parts.new }
    ensures new { seen parts.new ≡ on_core (set_saved_own (thread_of (seen parts.old) thread) flag) (seen parts.old) }
{
    if let Ok(entry) = parts.threads.get_mut(thread) {
        entry.thread.saved_own = flag;
    }
}

/// Saves the flag of the callee's instance, or removes what was saved.
pub fn set_saved_callee(parts: &mut CoreParts, thread: ThreadId, flag: Option<bool>)
    requires { IsSoundCore parts.old }
    ensures sound { IsSoundCore parts.new }
    ensures new { seen parts.new ≡ on_core (set_saved_callee (thread_of (seen parts.old) thread) flag) (seen parts.old) }
{
    if let Ok(entry) = parts.threads.get_mut(thread) {
        entry.thread.saved_callee = flag;
    }
}
