//! What ids name, as records keep it: the machine's record with numbers, and the place of what it
//! names.
ghost use Rattle.std.specs.Prelude.{◌≡◌, IsSome, Some, option_and_then, slice_get};
ghost use Rattle.core_records.specs.Names.{AtPlace, op_progress_target, place_target, subtask_target, why_target};
ghost use Rattle.core_records.specs.RecordPlaces.{BlockedOn, UnderOf, WaitsOn, held_list, place_chain, where_at};
ghost use Rattle.core_records.specs.Seen.{IsSoundCore, parts_of, seen};
ghost use Rattle.core_records.specs.Sound.{bare};
ghost use Rattle.core_primitives.specs.Names.{op_progress_in, place_in, subtask_in, why_in};
ghost use Rattle.core_primitives.specs.StateView.{set_of, thread_of};

use core_counts::set_number;
use core_fields::{call_number, number, work_number};
use core_primitives::{DeliveryId, OpProgressId, PlaceId, SetId, SubtaskId, ThreadId, WhyId};
use core_records::CoreParts;
use machine_data::{Delivery, OpProgress, Place, Subtask, Why};

pub(crate) fn subtask_from_id(parts: &CoreParts, subtask: SubtaskId) -> (Subtask, u32)
    requires { IsSoundCore parts.now }
    ensures is { subtask_in (seen parts.now).tags subtask ≡ result.0 }
    ensures at { AtPlace (parts_of parts.now) result.1 (subtask_target result.0) }
{
    match subtask {
        SubtaskId::Guest(id) => {
            let call = call_number(parts, id);
            (Subtask::Guest { call }, id.rep())
        }
        SubtaskId::Host(id) => {
            let work = work_number(parts, id);
            (Subtask::Host { work }, id.rep())
        }
    }
}

pub(crate) fn why_from_id(parts: &CoreParts, why: WhyId) -> (Why, u32)
    requires { IsSoundCore parts.now }
    ensures is { why_in (seen parts.now).tags why ≡ result.0 }
    ensures at { AtPlace (parts_of parts.now) result.1 (why_target result.0) }
{
    match why {
        WhyId::Start => (Why::Start, 0),
        WhyId::Delivery(DeliveryId::Set(id)) => {
            let set = set_number(parts, id);
            let delivery = Delivery::Set { set };
            (Why::Delivery { delivery }, id.rep())
        }
        WhyId::Delivery(DeliveryId::Yield) => {
            let delivery = Delivery::Yield;
            (Why::Delivery { delivery }, 0)
        }
        WhyId::Delivery(DeliveryId::Cancel) => {
            let delivery = Delivery::Cancel;
            (Why::Delivery { delivery }, 0)
        }
        WhyId::Resumption => (Why::Resumption, 0),
    }
}

pub(crate) fn place_from_id(parts: &CoreParts, place: PlaceId) -> (Place, u32)
    requires { IsSoundCore parts.now }
    ensures is { place_in (seen parts.now).tags place ≡ result.0 }
    ensures at { AtPlace (parts_of parts.now) result.1 (place_target result.0) }
{
    match place {
        PlaceId::New => (Place::New, 0),
        PlaceId::Ready { mark, why } => {
            let (why, rep) = why_from_id(parts, why);
            (Place::Ready { mark, why }, rep)
        }
        PlaceId::Running => (Place::Running, 0),
        PlaceId::Under(id) => {
            let callee = number(parts, id);
            (Place::Under { callee }, id.rep())
        }
        PlaceId::Behind(id) => {
            let thread = number(parts, id);
            (Place::Behind { thread }, id.rep())
        }
        PlaceId::Waiting {
            set: id,
            by_callback,
        } => {
            let set = set_number(parts, id);
            (Place::Waiting { set, by_callback }, id.rep())
        }
        PlaceId::Blocked(subtask) => {
            let (on, rep) = subtask_from_id(parts, subtask);
            (Place::Blocked { on }, rep)
        }
        PlaceId::Held(why) => {
            let (why, rep) = why_from_id(parts, why);
            (Place::Held { why }, rep)
        }
        PlaceId::Suspended => (Place::Suspended, 0),
    }
}

#[inline(always)]
pub(crate) fn op_progress_from_id(parts: &CoreParts, op_progress: OpProgressId) -> (OpProgress, u32)
    requires { IsSoundCore parts.now }
    ensures is { op_progress_in (seen parts.now).tags op_progress ≡ result.0 }
    ensures at { AtPlace (parts_of parts.now) result.1 (op_progress_target result.0) }
{
    match op_progress {
        OpProgressId::Fresh => (OpProgress::Fresh, 0),
        OpProgressId::Waits(id) => {
            let set = set_number(parts, id);
            (OpProgress::Waits { set }, id.rep())
        }
        OpProgressId::Calls(subtask) => {
            let (subtask, rep) = subtask_from_id(parts, subtask);
            (OpProgress::Calls { subtask }, rep)
        }
        OpProgressId::Answered(value) => (OpProgress::Answered { value }, 0),
        OpProgressId::Cancels(subtask) => {
            let (subtask, rep) = subtask_from_id(parts, subtask);
            (OpProgress::Cancels { subtask }, rep)
        }
        OpProgressId::AwaitsEnd(subtask) => {
            let (subtask, rep) = subtask_from_id(parts, subtask);
            (OpProgress::AwaitsEnd { subtask }, rep)
        }
        OpProgressId::Suspends => (OpProgress::Suspends, 0),
        OpProgressId::Yields => (OpProgress::Yields, 0),
    }
}

fn blocked_chain(parts: &CoreParts, subtask: SubtaskId) -> Option<usize>
    requires { IsSoundCore parts.now }
    ensures { place_chain (bare (parts_of parts.now)) (BlockedOn (subtask_in (seen parts.now).tags subtask)) ≡ result }
{
    match subtask {
        SubtaskId::Guest(id) => match core_records::call(parts, id) {
            Some(found) => Some(found.blocked),
            None => None,
        },
        SubtaskId::Host(id) => match core_records::work(parts, id) {
            Some(found) => Some(found.blocked),
            None => None,
        },
    }
}

/// Returns the chain of the threads of an instance that are held: barred starts are in a list of their own.
pub(crate) fn held_chain(parts: &CoreParts, instance: u32, barred: bool, why: Why) -> Option<usize>
    ensures { place_chain (bare (parts_of parts.now)) (held_list instance barred why) ≡ result }
{
    match core_records::instance(parts, instance) {
        Some(found) => match why {
            Why::Start => Some(if barred { found.starts } else { found.held }),
            Why::Delivery { .. } | Why::Resumption => Some(found.held),
        },
        None => None,
    }
}

/// Finds the chain that `held_chain` finds, for an instance that is there.
pub(crate) fn held_chain_unchecked(
    parts: &CoreParts,
    instance: u32,
    barred: bool,
    why: Why,
) -> usize
    requires { IsSome (slice_get parts.now.instances.items instance) }
    ensures { place_chain (bare (parts_of parts.now)) (held_list instance barred why) ≡ Some result }
{
    let found = &parts.instances[instance as usize];
    match why {
        Why::Start => { if barred { found.starts } else { found.held } }
        Why::Delivery { .. } | Why::Resumption => found.held,
    }
}

pub(crate) fn waiters_chain(parts: &CoreParts, set: SetId) -> Option<usize>
    requires { IsSoundCore parts.now }
    ensures { place_chain (bare (parts_of parts.now)) (WaitsOn (set_of (seen parts.now) set)) ≡ result }
{
    match core_records::set(parts, set) {
        Some(found) => Some(found.waiters),
        None => None,
    }
}

pub(crate) fn under_chain(parts: &CoreParts, thread: ThreadId) -> Option<usize>
    requires { IsSoundCore parts.now }
    ensures { place_chain (bare (parts_of parts.now)) (UnderOf (thread_of (seen parts.now) thread)) ≡ result }
{
    match core_records::thread(parts, thread) {
        Some(found) => Some(found.under),
        None => None,
    }
}

/// Returns the chain that a thread of the instance is filed in at a place, if it is.
pub(crate) fn chain_at(
    parts: &CoreParts,
    instance: u32,
    barred: bool,
    place: PlaceId,
) -> Option<usize>
    requires { IsSoundCore parts.now }
    ensures { option_and_then (place_chain (bare (parts_of parts.now))) (where_at instance barred (place_in (seen parts.now).tags place)) ≡ result }
{
    match place {
        PlaceId::Waiting { set, .. } => waiters_chain(parts, set),
        PlaceId::Held(why) => held_chain(parts, instance, barred, why_from_id(parts, why).0),
        PlaceId::Under(thread) => under_chain(parts, thread),
        PlaceId::Blocked(subtask) => blocked_chain(parts, subtask),
        PlaceId::New
        | PlaceId::Ready { .. }
        | PlaceId::Running
        | PlaceId::Behind(_)
        | PlaceId::Suspended => None,
    }
}
