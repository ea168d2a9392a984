ghost use Rattle.std.specs.Prelude.{◌≡◌, ◌<◌, false};
ghost use Rattle.std.specs.Option.{option_map_or};
ghost use Rattle.machine_data.specs.Maps.{get};
ghost use Rattle.machine_data.specs.Moves.{is_finished};
ghost use Rattle.machine_data.specs.Read.{callee_of, cancel_was_asked, cancel_was_delivered, end_of, goal_of, kind_of, task_event_of, result_of, was_started};
ghost use Rattle.machine_data.specs.Write.{set_cancel_asked, set_cancel_delivered, set_end, set_exited, set_task_event, set_result, set_started, set_starting_published};
ghost use Rattle.core_records.specs.Seen.{IsSoundCore, seen};
ghost use Rattle.machine_rules.specs.Takes.{starting_is_published};
ghost use Rattle.core_primitives.specs.Groups.{tracked_group};
ghost use Rattle.core_primitives.specs.StateView.{call_of, on_core, thread_of};

use crate::groups::if_tracked;
use core_primitives::{CallId, ThreadId};
use core_records::CoreParts;
use machine_data::{CallEnd, Callee, ExportKind, Goal, TaskEvent};
use task_wait::GuestTaskKey;

/// Returns the number of a call; 0 if the id names none.
pub fn call_number(parts: &CoreParts, call: CallId) -> u64
    requires { IsSoundCore parts.now }
    ensures { result ≡ call_of (seen parts.now) call }
{
    match core_records::call(parts, call) {
        Some(entry) => entry.number,
        None => 0,
    }
}

/// Returns the export that the call is of.
pub fn callee(parts: &CoreParts, call: CallId) -> Callee
    requires { IsSoundCore parts.now }
    ensures { result ≡ callee_of (call_of (seen parts.now) call) (seen parts.now).core }
{
    match core_records::call(parts, call) {
        Some(entry) => entry.call.callee,
        None => Callee {
            instance: 0,
            export: 0,
        },
    }
}

/// Returns the kind of the call's export.
pub fn kind(parts: &CoreParts, call: CallId) -> ExportKind
    requires { IsSoundCore parts.now }
    ensures { result ≡ kind_of (call_of (seen parts.now) call) (seen parts.now).core }
{
    match core_records::call(parts, call) {
        Some(entry) => entry.call.kind,
        None => ExportKind::Callback,
    }
}

/// Returns the kind of the export of a call that is there: nothing is tested of it.
pub fn kind_unchecked(parts: &CoreParts, call: CallId) -> ExportKind
    requires sound { IsSoundCore parts.now }
    requires live { 0 < call_of (seen parts.now) call }
    ensures { result ≡ kind_of (call_of (seen parts.now) call) (seen parts.now).core }
{
    core_records::call_there(parts, call).call.kind
}

/// Returns where the call's result goes.
pub fn goal(parts: &CoreParts, call: CallId) -> Goal
    requires { IsSoundCore parts.now }
    ensures { result ≡ goal_of (call_of (seen parts.now) call) (seen parts.now).core }
{
    match core_records::call(parts, call) {
        Some(entry) => entry.call.goal,
        None => Goal::Nowhere,
    }
}

/// Returns where the result of a call goes that is there: nothing is tested of it.
pub fn goal_unchecked(parts: &CoreParts, call: CallId) -> Goal
    requires sound { IsSoundCore parts.now }
    requires live { 0 < call_of (seen parts.now) call }
    ensures { result ≡ goal_of (call_of (seen parts.now) call) (seen parts.now).core }
{
    core_records::call_there(parts, call).call.goal
}

/// Returns how the call has ended, if it has.
pub fn end_of(parts: &CoreParts, call: CallId) -> Option<CallEnd>
    requires { IsSoundCore parts.now }
    ensures { result ≡ end_of (call_of (seen parts.now) call) (seen parts.now).core }
{
    match core_records::call(parts, call) {
        Some(entry) => entry.call.end,
        None => None,
    }
}

/// Returns whether the call's start has run.
pub fn was_started(parts: &CoreParts, call: CallId) -> bool
    requires { IsSoundCore parts.now }
    ensures { result ≡ was_started (call_of (seen parts.now) call) (seen parts.now).core }
{
    match core_records::call(parts, call) {
        Some(entry) => entry.call.started,
        None => false,
    }
}

/// Returns whether the caller was told that the call is Starting.
pub fn starting_is_published(parts: &CoreParts, call: CallId) -> bool
    requires { IsSoundCore parts.now }
    ensures { result ≡ starting_is_published (call_of (seen parts.now) call) (seen parts.now).core }
{
    match core_records::call(parts, call) {
        Some(entry) => entry.call.starting_published,
        None => false,
    }
}

/// Returns the task event, if one is there.
pub fn task_event(parts: &CoreParts, call: CallId) -> Option<TaskEvent>
    requires { IsSoundCore parts.now }
    ensures { result ≡ task_event_of (call_of (seen parts.now) call) (seen parts.now).core }
{
    match core_records::call(parts, call) {
        Some(entry) => entry.call.task_event,
        None => None,
    }
}

/// Returns whether a cancel was asked of the call.
pub fn cancel_was_asked(parts: &CoreParts, call: CallId) -> bool
    requires { IsSoundCore parts.now }
    ensures { result ≡ cancel_was_asked (call_of (seen parts.now) call) (seen parts.now).core }
{
    match core_records::call(parts, call) {
        Some(entry) => entry.call.cancel_asked,
        None => false,
    }
}

/// Returns whether a cancel request was delivered to the task.
pub fn cancel_was_delivered(parts: &CoreParts, call: CallId) -> bool
    requires { IsSoundCore parts.now }
    ensures { result ≡ cancel_was_delivered (call_of (seen parts.now) call) (seen parts.now).core }
{
    match core_records::call(parts, call) {
        Some(entry) => entry.call.cancel_delivered,
        None => false,
    }
}

/// Returns the result of a `call_sync` that wasn't taken yet; 0 if there is none.
pub fn result_of(parts: &CoreParts, call: CallId) -> u64
    requires { IsSoundCore parts.now }
    ensures { result ≡ result_of (call_of (seen parts.now) call) (seen parts.now).core }
{
    match core_records::call(parts, call) {
        Some(entry) => match entry.call.result {
            Some(value) => value,
            None => 0,
        },
        None => 0,
    }
}

/// Returns whether the call's first thread and its task have ended.
pub fn is_finished(parts: &CoreParts, call: CallId) -> bool
    requires { IsSoundCore parts.now }
    ensures { result ≡ option_map_or is_finished (get (seen parts.now).core.calls (call_of (seen parts.now) call)) false }
{
    match core_records::call(parts, call) {
        Some(entry) => entry.call.exited && entry.call.end.is_some(),
        None => false,
    }
}

/// Returns the number of the thread's group, as long as that is tracked: 0 once its end was told.
pub fn thread_group(parts: &CoreParts, thread: ThreadId) -> u64
    requires { IsSoundCore parts.now }
    ensures { result ≡ tracked_group (thread_of (seen parts.now) thread) (seen parts.now) }
{
    match core_records::thread(parts, thread) {
        Some(entry) => match parts.calls.item_at::<GuestTaskKey>(entry.task) {
            Some(item) => if_tracked(parts, item.call.group),
            None => 0,
        },
        None => 0,
    }
}

/// Returns the group of a thread that is there, or 0 if it isn't tracked: the thread isn't tested.
pub fn group_unchecked(parts: &CoreParts, thread: ThreadId) -> u64
    requires sound { IsSoundCore parts.now }
    requires live { 0 < thread_of (seen parts.now) thread }
    ensures { result ≡ tracked_group (thread_of (seen parts.now) thread) (seen parts.now) }
{
    let entry = core_records::thread_there(parts, thread);
    let item = parts.calls.there::<GuestTaskKey>(entry.task);
    if_tracked(parts, item.call.group)
}

/// Marks the call as started.
pub fn set_started(parts: &mut CoreParts, call: CallId)
    requires { IsSoundCore parts.old }
    ensures sound { IsSoundCore parts.new }
    ensures new { seen parts.new ≡ on_core (set_started (call_of (seen parts.old) call)) (seen parts.old) }
{
    if let Ok(entry) = parts.calls.get_mut(call) {
        entry.call.started = true;
    }
}

/// Marks a call that is there as started, without a look-up that may fail.
pub fn set_started_unchecked(parts: &mut CoreParts, call: CallId)
    requires sound { IsSoundCore parts.old }
    requires live { 0 < call_of (seen parts.old) call }
    ensures sound { IsSoundCore parts.new }
    ensures new { seen parts.new ≡ on_core (set_started (call_of (seen parts.old) call)) (seen parts.old) }
{
    parts.calls.get_mut_unchecked(call).call.started = true;
}

/// Records that the caller was told that the call is Starting.
pub fn set_starting_published(parts: &mut CoreParts, call: CallId)
    requires { IsSoundCore parts.old }
    ensures sound { IsSoundCore parts.new }
    ensures new { seen parts.new ≡ on_core (set_starting_published (call_of (seen parts.old) call)) (seen parts.old) }
{
    if let Ok(entry) = parts.calls.get_mut(call) {
        entry.call.starting_published = true;
    }
}

/// Records how the call has ended.
pub fn set_end(parts: &mut CoreParts, call: CallId, end_of_call: CallEnd)
    requires { IsSoundCore parts.old }
    ensures sound { IsSoundCore parts.new }
    ensures new { seen parts.new ≡ on_core (set_end (call_of (seen parts.old) call) end_of_call) (seen parts.old) }
{
    if let Ok(entry) = parts.calls.get_mut(call) {
        entry.call.end = Some(end_of_call);
    }
}

/// Writes the end of a call that is there, without a look-up that may fail.
pub fn set_end_unchecked(parts: &mut CoreParts, call: CallId, end_of_call: CallEnd)
    requires sound { IsSoundCore parts.old }
    requires live { 0 < call_of (seen parts.old) call }
    ensures sound { IsSoundCore parts.new }
    ensures new { seen parts.new ≡ on_core (set_end (call_of (seen parts.old) call) end_of_call) (seen parts.old) }
{
    parts.calls.get_mut_unchecked(call).call.end = Some(end_of_call);
}

/// Records that the task event is this one, or none.
pub fn set_task_event(parts: &mut CoreParts, call: CallId, event: Option<TaskEvent>)
    requires { IsSoundCore parts.old }
    ensures sound { IsSoundCore parts.new }
    ensures new { seen parts.new ≡ on_core (set_task_event (call_of (seen parts.old) call) event) (seen parts.old) }
{
    if let Ok(entry) = parts.calls.get_mut(call) {
        entry.call.task_event = event;
    }
}

/// Records that a cancel was asked of the call.
pub fn set_cancel_asked(parts: &mut CoreParts, call: CallId)
    requires { IsSoundCore parts.old }
    ensures sound { IsSoundCore parts.new }
    ensures new { seen parts.new ≡ on_core (set_cancel_asked (call_of (seen parts.old) call)) (seen parts.old) }
{
    if let Ok(entry) = parts.calls.get_mut(call) {
        entry.call.cancel_asked = true;
    }
}

/// Records that a cancel request was delivered to the task.
pub fn set_cancel_delivered(parts: &mut CoreParts, call: CallId)
    requires { IsSoundCore parts.old }
    ensures sound { IsSoundCore parts.new }
    ensures new { seen parts.new ≡ on_core (set_cancel_delivered (call_of (seen parts.old) call)) (seen parts.old) }
{
    if let Ok(entry) = parts.calls.get_mut(call) {
        entry.call.cancel_delivered = true;
    }
}

/// Records that the call's first thread has ended.
pub fn set_exited(parts: &mut CoreParts, call: CallId)
    requires { IsSoundCore parts.old }
    ensures sound { IsSoundCore parts.new }
    ensures new { seen parts.new ≡ on_core (set_exited (call_of (seen parts.old) call)) (seen parts.old) }
{
    if let Ok(entry) = parts.calls.get_mut(call) {
        entry.call.exited = true;
    }
}

/// Marks a call that is there as exited, without a look-up that may fail.
pub fn set_exited_unchecked(parts: &mut CoreParts, call: CallId)
    requires sound { IsSoundCore parts.old }
    requires live { 0 < call_of (seen parts.old) call }
    ensures sound { IsSoundCore parts.new }
    ensures new { seen parts.new ≡ on_core (set_exited (call_of (seen parts.old) call)) (seen parts.old) }
{
    parts.calls.get_mut_unchecked(call).call.exited = true;
}

/// Stores the result of a `call_sync` for its caller to take, or removes it.
pub fn set_result(parts: &mut CoreParts, call: CallId, value: Option<u64>)
    requires { IsSoundCore parts.old }
    ensures sound { IsSoundCore parts.new }
    ensures new { seen parts.new ≡ on_core (set_result (call_of (seen parts.old) call) value) (seen parts.old) }
{
    if let Ok(entry) = parts.calls.get_mut(call) {
        entry.call.result = value;
    }
}
