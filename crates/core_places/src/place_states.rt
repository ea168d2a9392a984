ghost use Rattle.std.specs.Prelude.{◌≡◌, Bool, IsSome, None, option_map, ℕ};
ghost use Rattle.machine_data.specs.Moves.{held_why_of, ready_why, stand, why_of};
ghost use Rattle.machine_data.specs.Read.{place_of};
ghost use Rattle.machine_data.specs.Write.{set_place};
ghost use Rattle.core_places.specs.Moved.{LeavesChain, RaisesHeld, placed_at, stood_at};
ghost use Rattle.machine_data.specs.declared.records.Place.TheVariants as places;
ghost use Rattle.machine_data.specs.declared.records.Why.{Why};
ghost use Rattle.machine_data.specs.declared.statuses.Mark.TheVariants as marks;
ghost use Rattle.core_records.specs.Keys.{thread_key};
ghost use Rattle.core_records.specs.Names.{AtPlace, place_target, why_target};
ghost use Rattle.core_records.specs.RecordPlaces.{where_at};
ghost use Rattle.core_records.specs.Seen.{IsSoundCore, parts_of, seen};
ghost use Rattle.task_table.specs.Records.{number_in, record_at};
ghost use Rattle.core_primitives.specs.Live.{delivered_set, live_set, live_delivered_set};
ghost use Rattle.core_primitives.specs.Names.{place_in, why_in};
ghost use Rattle.core_primitives.specs.StateView.{on_core, set_of, thread_of, set_if_any};
ghost use Rattle.core_primitives.specs.Changes.{with_place, standing_at, with_mark, with_held};

use crate::moves::{
    is_queued_alone, put, put_alone, put_away, put_counted, put_stand, put_stand_counted,
};
use crate::targets::{
    chain_at, held_chain_unchecked, op_progress_from_id, place_from_id, under_chain, waiters_chain,
    why_from_id,
};
use core_counts::set_number;
use core_fields::number;
use core_primitives::{OpProgressId, PlaceId, SetId, ThreadId, WhyId};
use core_records::{CoreParts, set_id_at};
use machine_data::{Delivery, Mark, Place, Why};

/// Returns the thread's place, by the numbers of what that names.
pub fn place(parts: &CoreParts, thread: ThreadId) -> Option<Place>
    requires { IsSoundCore parts.now }
    ensures { result ≡ place_of (thread_of (seen parts.now) thread) (seen parts.now).core }
{
    match core_records::thread(parts, thread) {
        Some(found) => Some(found.thread.place),
        None => None,
    }
}

// Why an entry at the place is queued.
fn ready_why(place: Place) -> Why
    ensures { result ≡ ready_why place }
{
    match place {
        Place::Ready { why, .. } => why,
        _ => Why::Resumption,
    }
}

/// Returns why the thread's entry is queued.
pub fn why(parts: &CoreParts, thread: ThreadId) -> Why
    requires { IsSoundCore parts.now }
    ensures { result ≡ why_of (thread_of (seen parts.now) thread) (seen parts.now).core }
{
    match core_records::thread(parts, thread) {
        Some(found) => ready_why(found.thread.place),
        None => Why::Resumption,
    }
}

// The set that a delivery is for, by its number and the place that was kept with it.
fn delivery_from_id(parts: &CoreParts, place: u32, why: Why) -> Option<SetId>
    requires sound { IsSoundCore parts.now }
    requires at { AtPlace (parts_of parts.now) place (why_target why) }
    ensures { set_if_any (seen parts.now) result ≡ option_map (λ x. live_set x (seen parts.now).core) (delivered_set why) }
{
    match why {
        Why::Delivery {
            delivery: Delivery::Set { set },
        } => Some(set_id_at(parts, place, set)),
        _ => None,
    }
}

/// Returns the set that the thread's queued delivery is for.
pub fn delivered_set(parts: &CoreParts, thread: ThreadId) -> Option<SetId>
    requires { IsSoundCore parts.now }
    ensures { set_if_any (seen parts.now) result ≡ live_delivered_set (thread_of (seen parts.now) thread) (seen parts.now).core }
{
    match core_records::thread(parts, thread) {
        Some(found) => delivery_from_id(parts, found.state_target, ready_why(found.thread.place)),
        None => None,
    }
}

// The thread has an entry at the mark from now on.
#[inline(always)]
fn queue(parts: &mut CoreParts, thread: ThreadId, mark: Mark, why: WhyId)
    requires { IsSoundCore parts.old }
    ensures sound { IsSoundCore parts.new }
    ensures new { seen parts.new ≡ placed_at thread (places.Ready mark (why_in (seen parts.old).tags why)) (seen parts.old) }
{
    let (named, state_target) = why_from_id(parts, why);
    put(
        parts,
        thread,
        Place::Ready { mark, why: named },
        state_target,
        None,
    );
}

// The thread is held with this entry from now on.
#[inline(always)]
fn hold_for(parts: &mut CoreParts, thread: ThreadId, why: WhyId)
    requires { IsSoundCore parts.old }
    ensures sound { IsSoundCore parts.new }
    ensures new { seen parts.new ≡ on_core (set_place (thread_of (seen parts.old) thread) (places.Held (why_in (seen parts.old).tags why))) (seen parts.old) }
{
    if let Some(found) = core_records::thread(parts, thread) {
        let (named, state_target) = why_from_id(parts, why);
        let chain = held_chain_unchecked(parts, found.instance, found.barred, named);
        if is_queued_alone(&found.thread.place) {
            put_alone(
                parts,
                thread,
                Place::Held { why: named },
                state_target,
                Some(chain),
            );
        } else {
            put_away(
                parts,
                thread,
                Place::Held { why: named },
                state_target,
                Some(chain),
            );
        }
    }
}

// The thread waits on the set from now on.
#[inline(never)]
fn wait_on(parts: &mut CoreParts, thread: ThreadId, set: SetId, by_callback: bool)
    requires { IsSoundCore parts.old }
    ensures sound { IsSoundCore parts.new }
    ensures new { seen parts.new ≡ placed_at thread (places.Waiting (set_of (seen parts.old) set) by_callback) (seen parts.old) }
{
    let number = set_number(parts, set);
    let chain = waiters_chain(parts, set);
    let place = Place::Waiting {
        set: number,
        by_callback,
    };
    put(parts, thread, place, set.rep(), chain);
}

/// Suspends the thread.
#[inline(always)]
pub fn suspend(parts: &mut CoreParts, thread: ThreadId)
    requires { IsSoundCore parts.old }
    ensures sound { IsSoundCore parts.new }
    ensures new { seen parts.new ≡ on_core (set_place (thread_of (seen parts.old) thread) places.Suspended) (seen parts.old) }
{
    put(parts, thread, Place::Suspended, 0, None);
}

// The thread is at any place from now on.
#[inline(never)]
fn put_at(parts: &mut CoreParts, thread: ThreadId, place: PlaceId)
    requires { IsSoundCore parts.old }
    ensures sound { IsSoundCore parts.new }
    ensures new { seen parts.new ≡ with_place thread place (seen parts.old) }
{
    if let Some(found) = core_records::thread(parts, thread) {
        let instance = found.instance;
        let (named, state_target) = place_from_id(parts, place);
        let chain = chain_at(parts, instance, found.barred, place);
        put_counted(parts, thread, named, state_target, chain);
    }
}

/// Records that the thread is at this place from now on. Those that most threads go to have functions of their own, since less is
/// to be done there.
#[inline(always)]
pub fn set_place(parts: &mut CoreParts, thread: ThreadId, place: PlaceId)
    requires { IsSoundCore parts.old }
    ensures sound { IsSoundCore parts.new }
    ensures new { seen parts.new ≡ with_place thread place (seen parts.old) }
{
    match place {
        // seldom one that was where no set counts it
        PlaceId::Running => put_counted(parts, thread, Place::Running, 0, None),
        PlaceId::Ready { mark, why } => queue(parts, thread, mark, why),
        PlaceId::Held(why) => hold_for(parts, thread, why),
        PlaceId::Waiting { set, by_callback } => wait_on(parts, thread, set, by_callback),
        other => put_at(parts, thread, other),
    }
}

// The thread is at any place and at any point of its op from now on.
#[inline(never)]
fn stand_anywhere(
    parts: &mut CoreParts,
    thread: ThreadId,
    place: PlaceId,
    op_progress: OpProgressId,
)
    requires { IsSoundCore parts.old }
    ensures sound { IsSoundCore parts.new }
    ensures new { seen parts.new ≡ stood_at thread (place_in (seen parts.old).tags place) op_progress (seen parts.old) }
{
    if let Some(found) = core_records::thread(parts, thread) {
        let instance = found.instance;
        let (named, state_target) = place_from_id(parts, place);
        let (point, op_target) = op_progress_from_id(parts, op_progress);
        let chain = chain_at(parts, instance, found.barred, place);
        put_stand_counted(parts, thread, named, state_target, point, op_target, chain);
    }
}

// The thread is under the other one, and at any point of its op, from now on.
#[inline(never)]
fn stand_under(parts: &mut CoreParts, thread: ThreadId, callee: ThreadId, op_progress: OpProgressId)
    requires { IsSoundCore parts.old }
    ensures sound { IsSoundCore parts.new }
    ensures new { seen parts.new ≡ stood_at thread (places.Under (thread_of (seen parts.old) callee)) op_progress (seen parts.old) }
{
    let called = number(parts, callee);
    let chain = under_chain(parts, callee);
    let (point, op_target) = op_progress_from_id(parts, op_progress);
    let place = Place::Under { callee: called };
    put_stand(parts, thread, place, callee.rep(), point, op_target, chain);
}

// The thread is at a place where it is in no chain, and at any point of its op, from now on.
#[inline(always)]
fn stand_unchained(
    parts: &mut CoreParts,
    thread: ThreadId,
    place: Place,
    state_target: u32,
    op_progress: OpProgressId,
)
    requires sound { IsSoundCore parts.old }
    requires at { AtPlace (parts_of parts.old) state_target (place_target place) }
    requires unchained { (i : ℕ) (b : Bool) → where_at i b place ≡ None }
    ensures sound { IsSoundCore parts.new }
    ensures new { seen parts.new ≡ stood_at thread place op_progress (seen parts.old) }
{
    let (point, op_target) = op_progress_from_id(parts, op_progress);
    put_stand(parts, thread, place, state_target, point, op_target, None);
}

// The thread waits on the set, and is at any point of its op, from now on.
#[inline(never)]
fn stand_waiting(
    parts: &mut CoreParts,
    thread: ThreadId,
    set: SetId,
    by_callback: bool,
    op_progress: OpProgressId,
)
    requires { IsSoundCore parts.old }
    ensures sound { IsSoundCore parts.new }
    ensures new { seen parts.new ≡ stood_at thread (places.Waiting (set_of (seen parts.old) set) by_callback) op_progress (seen parts.old) }
{
    let number = set_number(parts, set);
    let chain = waiters_chain(parts, set);
    let (point, op_target) = op_progress_from_id(parts, op_progress);
    let place = Place::Waiting {
        set: number,
        by_callback,
    };
    put_stand(parts, thread, place, set.rep(), point, op_target, chain);
}

/// Moves the thread to this place, and sets the progress of its op: the two in one look-up.
#[inline(always)]
pub fn stand_at(parts: &mut CoreParts, thread: ThreadId, place: PlaceId, op_progress: OpProgressId)
    requires { IsSoundCore parts.old }
    ensures sound { IsSoundCore parts.new }
    ensures new { seen parts.new ≡ standing_at thread place op_progress (seen parts.old) }
{
    match place {
        PlaceId::Running => {
            let (point, op_target) = op_progress_from_id(parts, op_progress);
            put_stand_counted(parts, thread, Place::Running, 0, point, op_target, None);
        }
        PlaceId::Ready { mark, why } => {
            let (why, state_target) = why_from_id(parts, why);
            stand_unchained(
                parts,
                thread,
                Place::Ready { mark, why },
                state_target,
                op_progress,
            );
        }
        PlaceId::Under(callee) => stand_under(parts, thread, callee, op_progress),
        PlaceId::Waiting { set, by_callback } => {
            stand_waiting(parts, thread, set, by_callback, op_progress)
        }
        other => stand_anywhere(parts, thread, other, op_progress),
    }
}

/// Moves the thread's entry to this mark. Why it is queued stays.
pub fn set_mark(parts: &mut CoreParts, thread: ThreadId, mark: Mark)
    requires { IsSoundCore parts.old }
    ensures sound { IsSoundCore parts.new }
    ensures new { seen parts.new ≡ with_mark thread mark (seen parts.old) }
{
    if let Some(found) = core_records::thread(parts, thread) {
        let state_target = found.state_target;
        let why = ready_why(found.thread.place);
        put(
            parts,
            thread,
            Place::Ready { mark, why },
            state_target,
            None,
        );
    }
}

/// Holds the thread with its entry, which was taken.
pub fn hold(parts: &mut CoreParts, thread: ThreadId)
    requires { IsSoundCore parts.old }
    ensures sound { IsSoundCore parts.new }
    ensures new { seen parts.new ≡ with_held thread (seen parts.old) }
{
    if let Some(found) = core_records::thread(parts, thread) {
        let state_target = found.state_target;
        let why = ready_why(found.thread.place);
        let chain = held_chain_unchecked(parts, found.instance, found.barred, why);
        put(
            parts,
            thread,
            Place::Held { why },
            state_target,
            Some(chain),
        );
    }
}

/// Queues the entry of a held thread at high. Why it was held is why it is queued.
#[inline(always)]
pub fn unhold(parts: &mut CoreParts, thread: ThreadId)
    requires sound { IsSoundCore parts.old }
    requires held { IsSome (held_why_of (thread_of (seen parts.old) thread) (seen parts.old).core) }
    ensures sound { IsSoundCore parts.new }
    ensures new { RaisesHeld (λ n. stand n marks.High) (thread_of (seen parts.old) thread) (seen parts.old) (seen parts.new) }
    ensures numbers { (r : ℕ) → number_in (record_at thread_key parts.new.threads.places r) ≡ number_in (record_at thread_key parts.old.threads.places r) }
    ensures left { LeavesChain thread parts.old parts.new }
{
    let Some(found) = core_records::thread(parts, thread) else {
        unreachable!()
    };
    let state_target = found.state_target;
    match found.thread.place {
        Place::Held { why } => {
            let mark = Mark::High;
            put_counted(
                parts,
                thread,
                Place::Ready { mark, why },
                state_target,
                None,
            );
        }
        _ => unreachable!(),
    }
}
