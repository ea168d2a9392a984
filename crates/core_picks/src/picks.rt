//! What is picked first: what is wanted, then the least by the places of the resource table; in version 2 the waiter that came first.
ghost use Rattle.core_places.specs.Picks.{IsLeastMember, IsLeastWaiter, IsLeastWaiting, IsWantedMember, IsWantedWaiter, IsWantedWaiting};
ghost use Rattle.core_picks.specs.Chains.{IsChainOf};
ghost use Rattle.machine_rules.specs.Cancels.{cancellable, is_waiting_of, waiting_callback, waiting_in};
ghost use Rattle.std.specs.Prelude.{◌≡◌, ◌<◌, ◌∷◌, [], IfNone, IfSome, Some, false, true};
ghost use Rattle.machine_data.specs.Read.{has_ready_member, has_waiter, is_in_set, is_ready_member, is_waiter};
ghost use Rattle.core_records.specs.Seen.{IsSoundCore, seen};
ghost use Rattle.core_primitives.specs.Names.{subtask_in};
ghost use Rattle.core_primitives.specs.Changes.{ComesFirst, IsCancellable, IsFirstToCancel, IsReadyMember, MemberComesFirst};
ghost use Rattle.core_primitives.specs.Preferences.{wanted_of};
ghost use Rattle.core_primitives.specs.StateView.{call_of, set_of, thread_of, with_wanted};

use core_primitives::{CallId, SetId, SubtaskId, ThreadId, WantedId};
use core_records::{CoreParts, call_at, thread_at, work_at};
use machine_data::{Join, Place};

// Whether the thread waits on the set of this number.
fn waits_on(parts: &CoreParts, thread: ThreadId, set: u64) -> bool
    requires { IsSoundCore parts.now }
    ensures { result ≡ is_waiter set (thread_of (seen parts.now) thread) (seen parts.now).core }
{
    match core_places::place(parts, thread) {
        Some(
            Place::Waiting {
                set: on,
                by_callback: _,
            },
        ) => set == on,
        _ => false,
    }
}

// The waiter that is wanted, if it waits on the set.
#[inline(always)]
fn wanted_waiter(parts: &CoreParts, set: SetId) -> Option<ThreadId>
    requires sound { IsSoundCore parts.now }
    requires live { 0 < set_of (seen parts.now) set }
    ensures { IsWantedWaiter parts.now (set_of (seen parts.now) set) result }
{
    match parts.wanted.waiter {
        Some(thread) => {
            let number = core_records::set_there(parts, set).number;
            if waits_on(parts, thread, number) {
                Some(thread)
            } else {
                None
            }
        }
        None => None,
    }
}

// The first waiter of a set: the least by the places of its call and of itself in the resource table, in version 2 the one that came
// first.
fn least_waiter(parts: &CoreParts, set: SetId) -> Option<ThreadId>
    requires sound { IsSoundCore parts.now }
    requires live { 0 < set_of (seen parts.now) set }
    ensures none { IfNone result (has_waiter (set_of (seen parts.now) set) (seen parts.now).core ≡ false) }
    ensures some { IfSome result (λ id. is_waiter (set_of (seen parts.now) set) (thread_of (seen parts.now) id) (seen parts.now).core ≡ true) }
    ensures live { IfSome result (λ id. 0 < thread_of (seen parts.now) id) }
    ensures least { IfSome result (λ id. IsLeastWaiter parts.now (set_of (seen parts.now) set) id) }
{
    let found = core_records::set_there(parts, set);
    match parts.places.first(found.waiters) {
        Some((_, order_key)) => Some(thread_at(parts, order_key.place)),
        None => None,
    }
}

/// Returns the waiter of a set that comes first: the one that is wanted, else the least by the places of its call and of
/// itself in the resource table, in version 2 the one that came first.
pub fn first_waiter(parts: &CoreParts, set: SetId) -> Option<ThreadId>
    requires sound { IsSoundCore parts.now }
    requires live { 0 < set_of (seen parts.now) set }
    ensures none { IfNone result (has_waiter (set_of (seen parts.now) set) (seen parts.now).core ≡ false) }
    ensures some { IfSome result (λ id. is_waiter (set_of (seen parts.now) set) (thread_of (seen parts.now) id) (seen parts.now).core ≡ true) }
    ensures live { IfSome result (λ id. 0 < thread_of (seen parts.now) id) }
    ensures first { IfSome result (λ id. ComesFirst set id (seen parts.now)) }
{
    match wanted_waiter(parts, set) {
        Some(thread) => Some(thread),
        None => least_waiter(parts, set),
    }
}

// Whether the thread is of the call of this number and waits on a set.
fn is_waiting_of(parts: &CoreParts, thread: ThreadId, call: u64) -> bool
    requires { IsSoundCore parts.now }
    ensures { result ≡ is_waiting_of call (seen parts.now).core (thread_of (seen parts.now) thread) }
{
    match core_records::thread(parts, thread) {
        Some(found) => match found.thread.place {
            Place::Waiting { .. } => found.thread.call == call,
            _ => false,
        },
        None => false,
    }
}

// The waiting thread of a call that is wanted, if it waits.
fn wanted_waiting(parts: &CoreParts, call: CallId) -> Option<ThreadId>
    requires sound { IsSoundCore parts.now }
    requires live { 0 < call_of (seen parts.now) call }
    ensures { IsWantedWaiting parts.now (call_of (seen parts.now) call) result }
{
    match parts.wanted.waiter {
        Some(thread) => {
            let number = core_records::call_there(parts, call).number;
            if is_waiting_of(parts, thread, number) {
                Some(thread)
            } else {
                None
            }
        }
        None => None,
    }
}

// The least waiting thread of a call by its place in the resource table, in the chain of those.
fn least_waiting(parts: &CoreParts, call: CallId, chain: usize) -> Option<ThreadId>
    requires sound { IsSoundCore parts.now }
    requires live { 0 < call_of (seen parts.now) call }
    requires chain { IsChainOf parts.now call chain }
    ensures none { IfNone result (waiting_in (call_of (seen parts.now) call) (seen parts.now).core ≡ []) }
    ensures some { IfSome result (λ id. is_waiting_of (call_of (seen parts.now) call) (seen parts.now).core (thread_of (seen parts.now) id) ≡ true) }
    ensures live { IfSome result (λ id. 0 < thread_of (seen parts.now) id) }
    ensures least { IfSome result (λ id. IsLeastWaiting parts.now (call_of (seen parts.now) call) id) }
{
    // only the contract speaks of `call`
    let _call = call;
    match parts.waits.first(chain) {
        Some((_, order_key)) => Some(thread_at(parts, order_key.place)),
        None => None,
    }
}

// The first thread of a call, if it waits by callback.
fn waiting_callback(parts: &CoreParts, call: CallId) -> Option<ThreadId>
    requires { IsSoundCore parts.now }
    ensures none { IfNone result (waiting_callback (call_of (seen parts.now) call) (seen parts.now).core ≡ []) }
    ensures some { IfSome result (λ id. waiting_callback (call_of (seen parts.now) call) (seen parts.now).core ≡ thread_of (seen parts.now) id ∷ []) }
    ensures live { IfSome result (λ id. 0 < thread_of (seen parts.now) id) }
{
    let first = core_records::first_thread(parts, call);
    match core_places::place(parts, first) {
        Some(
            Place::Waiting {
                set: _,
                by_callback,
            },
        ) => { if by_callback { Some(first) } else { None } }
        _ => None,
    }
}

/// Returns the thread of a call that waits so that a cancel takes it: the one that is wanted, else the least by its place in the
/// resource table. Only where any of several may be taken are they kept in a list of their own.
pub fn first_cancellable(parts: &CoreParts, call: CallId) -> Option<ThreadId>
    requires sound { IsSoundCore parts.now }
    requires live { 0 < call_of (seen parts.now) call }
    ensures none { IfNone result (cancellable (call_of (seen parts.now) call) (seen parts.now).core ≡ []) }
    ensures some { IfSome result (λ id. IsCancellable call id (seen parts.now)) }
    ensures live { IfSome result (λ id. 0 < thread_of (seen parts.now) id) }
    ensures first { IfSome result (λ id. IsFirstToCancel call id (seen parts.now)) }
{
    match core_records::call_there(parts, call).waits {
        Some(chain) => match wanted_waiting(parts, call) {
            Some(wanted) => Some(wanted),
            None => least_waiting(parts, call, chain),
        },
        None => waiting_callback(parts, call),
    }
}

// Whether what is joined so is in the set of this number.
fn is_in(join: Join, set: u64) -> bool
    ensures { result ≡ is_in_set set join }
{
    match join {
        Join::Set { set: of } => set == of,
        _ => false,
    }
}

// Whether the subtask is joined to the set of this number and has an event.
fn is_ready_in(parts: &CoreParts, subtask: SubtaskId, set: u64) -> bool
    requires { IsSoundCore parts.now }
    ensures { result ≡ is_ready_member set (subtask_in (seen parts.now).tags subtask) (seen parts.now).core }
{
    match subtask {
        SubtaskId::Guest(call) => match core_records::call(parts, call) {
            Some(found) => is_in(found.call.join, set) && found.call.event.is_some(),
            None => false,
        },
        SubtaskId::Host(work) => match core_records::work(parts, work) {
            Some(found) => is_in(found.work.join, set) && found.work.event.is_some(),
            None => false,
        },
    }
}

// The member that is wanted, if it is ready in the set.
#[inline(always)]
fn wanted_member(parts: &CoreParts, set: SetId) -> Option<SubtaskId>
    requires sound { IsSoundCore parts.now }
    requires live { 0 < set_of (seen parts.now) set }
    ensures { IsWantedMember parts.now (set_of (seen parts.now) set) result }
{
    match parts.wanted.member {
        Some(subtask) => {
            let number = core_records::set_there(parts, set).number;
            if is_ready_in(parts, subtask, number) {
                Some(subtask)
            } else {
                None
            }
        }
        None => None,
    }
}

// The least ready member of a set, in the order of `Waitable`: host works, then calls, each by its place in the resource table.
fn least_ready(parts: &CoreParts, set: SetId) -> Option<SubtaskId>
    requires sound { IsSoundCore parts.now }
    requires live { 0 < set_of (seen parts.now) set }
    ensures none { IfNone result (has_ready_member (set_of (seen parts.now) set) (seen parts.now).core ≡ false) }
    ensures some { IfSome result (λ member. IsReadyMember set member (seen parts.now)) }
    ensures least { IfSome result (λ member. IsLeastMember parts.now (set_of (seen parts.now) set) member) }
{
    let found = core_records::set_there(parts, set);
    match parts.ready_works.first(found.ready_works) {
        Some((_, order_key)) => Some(SubtaskId::Host(work_at(parts, order_key.place))),
        None => match parts.ready_calls.first(found.ready_calls) {
            Some((_, order_key)) => Some(SubtaskId::Guest(call_at(parts, order_key.place))),
            None => None,
        },
    }
}

/// Returns the ready member of a set that comes first: the one that is wanted, else a host work, else a call, each by its
/// place in the resource table.
pub fn first_ready(parts: &CoreParts, set: SetId) -> Option<SubtaskId>
    requires sound { IsSoundCore parts.now }
    requires live { 0 < set_of (seen parts.now) set }
    ensures none { IfNone result (has_ready_member (set_of (seen parts.now) set) (seen parts.now).core ≡ false) }
    ensures some { IfSome result (λ member. IsReadyMember set member (seen parts.now)) }
    ensures first { IfSome result (λ member. MemberComesFirst set member (seen parts.now)) }
{
    match wanted_member(parts, set) {
        Some(subtask) => Some(subtask),
        None => least_ready(parts, set),
    }
}

/// Returns whether a set has a member that has an event.
pub fn has_ready_member(parts: &CoreParts, set: SetId) -> bool
    requires sound { IsSoundCore parts.now }
    requires live { 0 < set_of (seen parts.now) set }
    ensures { result ≡ has_ready_member (set_of (seen parts.now) set) (seen parts.now).core }
{
    match least_ready(parts, set) {
        Some(_) => true,
        None => false,
    }
}

/// Makes this what is picked first.
pub fn want(parts: &mut CoreParts, wanted: WantedId)
    requires { IsSoundCore parts.old }
    ensures sound { IsSoundCore parts.new }
    ensures new { seen parts.new ≡ with_wanted (wanted_of wanted) (seen parts.old) }
{
    parts.wanted = wanted;
}
