//! A thread that is written with another place.
ghost use Rattle.std.specs.Prelude.{◌≡◌, IfSome, IsSome, None, Ok, option_map, slice_set, true};
ghost use Rattle.core_places.specs.Moved.{WritesThread, StandsAlone, arrived, at_answer, at_op, begun, placed, queued_set, standing, to_answer, to_begun, to_op, to_stand};
ghost use Rattle.core_places.specs.Puts.{BecomesBy, IsChainAt, IsPut};
ghost use Rattle.table_lists.specs.Index.{Refiles};
ghost use Rattle.table_links.specs.Links.{is_made, link_of, list_of, removed};
ghost use Rattle.machine_data.specs.declared.records.OpProgress.{OpProgress};
ghost use Rattle.machine_data.specs.Write.{on_thread, set_op_progress};
ghost use Rattle.core_records.specs.Kinds.{item_of};
ghost use Rattle.core_records.specs.Names.{AtPlace, op_progress_target, place_target};
ghost use Rattle.core_records.specs.RecordPlaces.{member_order_key, thread_order_key};
ghost use Rattle.core_records.specs.Seen.{IsSoundCore, parts_of, seen};
ghost use Rattle.core_records.specs.declared.thread_records.GuestThread.{GuestThread};
ghost use Rattle.task_table.specs.TableAnswers.{item_at};
ghost use Rattle.core_primitives.specs.StateView.{thread_of};

use crate::entry_states::{entry_set, no_set, recount};
use crate::waits::{refile_wait, wait_filing};
use core_fields::set_register;
use core_primitives::ThreadId;
use core_records::{CoreParts, GuestThread, Node, Single};
use machine_data::{Delivery, OpProgress, Place, Script, Version, Why};
use table_lists::{OrderKey, OrderedLists};
use table_records::RecordTable;

// The node is in this chain alone, with the order key, or in none.
#[inline(always)]
pub(crate) fn refresh_key(
    links: &mut OrderedLists,
    node: Node,
    chain: Option<usize>,
    order_key: OrderKey,
)
    requires made { is_made links.old node.index ≡ true }
    requires live { IfSome chain (λ c. IsSome (list_of links.old c)) }
    ensures links { Refiles links.old links.new node.index (option_map (λ c. (c, order_key)) chain) }
    ensures left { chain ≡ None → links.new ≡ removed node.index links.old }
{
    match chain {
        Some(chain) => links.file(node, chain, order_key),
        None => {
            links.no_node_is_twice();
            links.remove(node);
        }
    }
}

// The order key of a thread: in version 1 by places, in version 2 by when it began to wait or to be held.
#[inline(always)]
pub(crate) fn thread_order_key(version: Version, place: u32, thread: &GuestThread) -> OrderKey
    ensures { result ≡ thread_order_key version place thread.now }
{
    match version {
        Version::One => OrderKey {
            task: u64::from(thread.task_entry),
            thread: thread.entry,
            place,
        },
        Version::Two => OrderKey {
            task: thread.thread.came,
            thread: 0,
            place,
        },
    }
}

/// Returns the order key of a call or of a host work, by its places in the resource table and in the table of its kind.
pub(crate) fn member_order_key(entry: u32, place: u32) -> OrderKey
    ensures { result ≡ member_order_key entry place }
{
    OrderKey {
        task: u64::from(entry),
        thread: 0,
        place,
    }
}

// A record is written as soon as it was read, so that it is looked up once.
#[inline(always)]
fn write_place(
    threads: &mut RecordTable<Single<GuestThread>>,
    id: ThreadId,
    place: Place,
    state_target: u32,
)
    ensures { WritesThread (λ g. placed g place state_target) id threads.old threads.new }
{
    if let Ok(entry) = threads.get_mut(id) {
        entry.thread.place = place;
        entry.state_target = state_target;
    }
}

#[inline(always)]
fn write_point(
    threads: &mut RecordTable<Single<GuestThread>>,
    id: ThreadId,
    op_progress: OpProgress,
    op_target: u32,
)
    ensures { WritesThread (λ g. arrived g op_progress op_target) id threads.old threads.new }
{
    if let Ok(entry) = threads.get_mut(id) {
        entry.thread.op_progress = op_progress;
        entry.op_target = op_target;
    }
}

#[inline(always)]
fn write_stand(
    threads: &mut RecordTable<Single<GuestThread>>,
    id: ThreadId,
    place: Place,
    state_target: u32,
    op_progress: OpProgress,
    op_target: u32,
)
    ensures { WritesThread (λ g. standing g place state_target op_progress op_target) id threads.old threads.new }
{
    if let Ok(entry) = threads.get_mut(id) {
        entry.thread.place = place;
        entry.state_target = state_target;
        entry.thread.op_progress = op_progress;
        entry.op_target = op_target;
    }
}

#[inline(always)]
fn write_op(threads: &mut RecordTable<Single<GuestThread>>, id: ThreadId, position: u32)
    ensures { WritesThread (λ g. at_op g position) id threads.old threads.new }
{
    if let Ok(entry) = threads.get_mut(id) {
        entry.thread.position = position;
        entry.thread.op_progress = OpProgress::Fresh;
        entry.op_target = 0;
    }
}

// One of the registers, 0 to 15.
#[inline(always)]
fn put_register(registers: &mut [u64; 16], register: u8, value: u64)
    ensures { registers.new ≡ slice_set registers.old register value }
{
    if register < 16 {
        registers[register as usize] = value;
    }
}

#[inline(always)]
fn write_answer(
    threads: &mut RecordTable<Single<GuestThread>>,
    id: ThreadId,
    register: u8,
    value: u64,
    position: u32,
)
    ensures { WritesThread (λ g. at_answer g register value position) id threads.old threads.new }
{
    if let Ok(entry) = threads.get_mut(id) {
        put_register(&mut entry.thread.registers, register, value);
        entry.thread.position = position;
        entry.thread.op_progress = OpProgress::Fresh;
        entry.op_target = 0;
    }
}

// The beginning of an activation, with these values in r0, r1 and r2.
#[inline(always)]
fn write_begun(threads: &mut RecordTable<Single<GuestThread>>, id: ThreadId, words: (u64, u64, u64))
    ensures { WritesThread (λ g. begun g words.0 words.1 words.2) id threads.old threads.new }
{
    if let Ok(entry) = threads.get_mut(id) {
        entry.thread.registers[0] = words.0;
        entry.thread.registers[1] = words.1;
        entry.thread.registers[2] = words.2;
        entry.thread.script = Script::React;
        entry.thread.position = 0;
        entry.thread.op_progress = OpProgress::Fresh;
        entry.op_target = 0;
        entry.thread.place = Place::Running;
        entry.state_target = 0;
    }
}

// Whether no set counts an entry that is queued for this, however far its thread has come.
#[inline(always)]
fn is_for_no_set(why: &Why) -> bool
    ensures { result ≡ true → (h : OpProgress) → queued_set why.now h ≡ None }
{
    match why {
        Why::Start => true,
        Why::Delivery { delivery } => match delivery {
            Delivery::Yield | Delivery::Cancel => true,
            Delivery::Set { .. } => false,
        },
        Why::Resumption => false,
    }
}

// Whether a thread at this place is queued, and no set counts it.
#[inline(always)]
pub(crate) fn is_queued_alone(place: &Place) -> bool
    ensures { result ≡ true → StandsAlone place.now }
{
    match place {
        Place::Ready { why, .. } => is_for_no_set(why),
        _ => false,
    }
}

// Whether a thread at this place is in no chain, and no set counts it.
#[inline(always)]
fn stands_alone(place: &Place) -> bool
    ensures { result ≡ true → StandsAlone place.now }
{
    match place {
        Place::New | Place::Running | Place::Suspended => true,
        Place::Ready { why, .. } => is_for_no_set(why),
        _ => false,
    }
}

// The node, which is in no chain, is in this chain from now on, with the order key, if there is one.
#[inline(always)]
fn file_in(links: &mut OrderedLists, node: Node, chain: Option<usize>, order_key: OrderKey)
    requires made { is_made links.old node.index ≡ true }
    requires live { IfSome chain (λ c. IsSome (list_of links.old c)) }
    requires unlinked { link_of links.old node.index ≡ None }
    ensures links { Refiles links.old links.new node.index (option_map (λ c. (c, order_key)) chain) }
    ensures left { chain ≡ None → links.new ≡ removed node.index links.old }
{
    match chain {
        Some(chain) => links.file_free(node, chain, order_key),
        None => {}
    }
}

// Does what `put` does, wherever the thread was: the sets that count it are counted anew.
#[inline(always)]
pub(crate) fn put_counted(
    parts: &mut CoreParts,
    id: ThreadId,
    place: Place,
    state_target: u32,
    chain: Option<usize>,
)
    requires sound { IsSoundCore parts.old }
    requires place { AtPlace (parts_of parts.old) state_target (place_target place) }
    requires chain { IsChainAt parts.old id place chain }
    ensures { IsPut parts.old parts.new id place state_target chain }
{
    if let Some(found) = core_records::thread(parts, id) {
        let (node, order_key) = (found.node, thread_order_key(parts.version, id.rep(), found));
        let wait = wait_filing(parts, id, found, &place);
        let (op_progress, op_target) = (&found.thread.op_progress, found.op_target);
        let from = entry_set(
            parts,
            &found.thread.place,
            found.state_target,
            op_progress,
            op_target,
        );
        let to = entry_set(parts, &place, state_target, op_progress, op_target);
        write_place(&mut parts.threads, id, place, state_target);
        recount(&mut parts.sets, from, to);
        refresh_key(&mut parts.places, node, chain, order_key);
        refile_wait(&mut parts.waits, wait);
    }
}

// Calls `put_counted`, and isn't inlined: few threads are in a chain or counted by a set before they move.
#[inline(never)]
pub(crate) fn put_away(
    parts: &mut CoreParts,
    id: ThreadId,
    place: Place,
    state_target: u32,
    chain: Option<usize>,
)
    requires sound { IsSoundCore parts.old }
    requires place { AtPlace (parts_of parts.old) state_target (place_target place) }
    requires chain { IsChainAt parts.old id place chain }
    ensures { IsPut parts.old parts.new id place state_target chain }
{
    put_counted(parts, id, place, state_target, chain);
}

// Does what `put` does for a thread that is in no chain and that no set counts: its record alone is written, and its new chain.
#[inline(always)]
pub(crate) fn put_alone(
    parts: &mut CoreParts,
    id: ThreadId,
    place: Place,
    state_target: u32,
    chain: Option<usize>,
)
    requires sound { IsSoundCore parts.old }
    requires alone { (g : GuestThread) → Ok g ≡ item_at item_of parts.old.threads id.rep id.serial → StandsAlone g.thread.place }
    requires place { AtPlace (parts_of parts.old) state_target (place_target place) }
    requires chain { IsChainAt parts.old id place chain }
    ensures { IsPut parts.old parts.new id place state_target chain }
{
    if let Some(found) = core_records::thread(parts, id) {
        let (node, order_key) = (found.node, thread_order_key(parts.version, id.rep(), found));
        let wait = wait_filing(parts, id, found, &place);
        let from = no_set(parts);
        let to = entry_set(
            parts,
            &place,
            state_target,
            &found.thread.op_progress,
            found.op_target,
        );
        write_place(&mut parts.threads, id, place, state_target);
        recount(&mut parts.sets, from, to);
        file_in(&mut parts.places, node, chain, order_key);
        refile_wait(&mut parts.waits, wait);
    }
}

/// Moves the thread to another place, and into the chain of that place. An id that names no thread changes nothing.
#[inline(always)]
pub(crate) fn put(
    parts: &mut CoreParts,
    id: ThreadId,
    place: Place,
    state_target: u32,
    chain: Option<usize>,
)
    requires sound { IsSoundCore parts.old }
    requires place { AtPlace (parts_of parts.old) state_target (place_target place) }
    requires chain { IsChainAt parts.old id place chain }
    ensures { IsPut parts.old parts.new id place state_target chain }
{
    if let Some(found) = core_records::thread(parts, id) {
        if stands_alone(&found.thread.place) {
            put_alone(parts, id, place, state_target, chain);
        } else {
            put_away(parts, id, place, state_target, chain);
        }
    }
}

// The thread gets another op progress where it is, which may be where a set counts it.
#[inline(never)]
fn put_there_counted(parts: &mut CoreParts, id: ThreadId, op_progress: OpProgress, op_target: u32)
    requires sound { IsSoundCore parts.old }
    requires op_progress { AtPlace (parts_of parts.old) op_target (op_progress_target op_progress) }
    ensures { BecomesBy parts.old parts.new (set_op_progress (thread_of (seen parts.old) id) op_progress) }
{
    if let Some(found) = core_records::thread(parts, id) {
        let (place, state_target) = (&found.thread.place, found.state_target);
        let from = entry_set(
            parts,
            place,
            state_target,
            &found.thread.op_progress,
            found.op_target,
        );
        let to = entry_set(parts, place, state_target, &op_progress, op_target);
        write_point(&mut parts.threads, id, op_progress, op_target);
        recount(&mut parts.sets, from, to);
    }
}

/// Sets the progress of the op of a thread that runs: no set counts such a thread. An id that names no thread changes nothing.
#[inline(always)]
pub(crate) fn put_there(
    parts: &mut CoreParts,
    id: ThreadId,
    op_progress: OpProgress,
    op_target: u32,
)
    requires sound { IsSoundCore parts.old }
    requires op_progress { AtPlace (parts_of parts.old) op_target (op_progress_target op_progress) }
    ensures { BecomesBy parts.old parts.new (set_op_progress (thread_of (seen parts.old) id) op_progress) }
{
    if let Some(found) = core_records::thread(parts, id) {
        match found.thread.place {
            Place::Running => {
                let from = no_set(parts);
                let to = no_set(parts);
                write_point(&mut parts.threads, id, op_progress, op_target);
                recount(&mut parts.sets, from, to);
            }
            _ => put_there_counted(parts, id, op_progress, op_target),
        }
    }
}

// Does what `put_stand` does, wherever the thread was: the sets that count it are counted anew.
#[inline(always)]
pub(crate) fn put_stand_counted(
    parts: &mut CoreParts,
    id: ThreadId,
    place: Place,
    state_target: u32,
    op_progress: OpProgress,
    op_target: u32,
    chain: Option<usize>,
)
    requires sound { IsSoundCore parts.old }
    requires place { AtPlace (parts_of parts.old) state_target (place_target place) }
    requires op_progress { AtPlace (parts_of parts.old) op_target (op_progress_target op_progress) }
    requires chain { IsChainAt parts.old id place chain }
    ensures { BecomesBy parts.old parts.new (on_thread (thread_of (seen parts.old) id) (to_stand place op_progress)) }
{
    if let Some(found) = core_records::thread(parts, id) {
        let (node, order_key) = (found.node, thread_order_key(parts.version, id.rep(), found));
        let wait = wait_filing(parts, id, found, &place);
        let from = entry_set(
            parts,
            &found.thread.place,
            found.state_target,
            &found.thread.op_progress,
            found.op_target,
        );
        let to = entry_set(parts, &place, state_target, &op_progress, op_target);
        write_stand(
            &mut parts.threads,
            id,
            place,
            state_target,
            op_progress,
            op_target,
        );
        recount(&mut parts.sets, from, to);
        refresh_key(&mut parts.places, node, chain, order_key);
        refile_wait(&mut parts.waits, wait);
    }
}

// Calls `put_stand_counted`, in a function of its own.
#[inline(never)]
fn put_stand_away(
    parts: &mut CoreParts,
    id: ThreadId,
    place: Place,
    state_target: u32,
    op_progress: OpProgress,
    op_target: u32,
    chain: Option<usize>,
)
    requires sound { IsSoundCore parts.old }
    requires place { AtPlace (parts_of parts.old) state_target (place_target place) }
    requires op_progress { AtPlace (parts_of parts.old) op_target (op_progress_target op_progress) }
    requires chain { IsChainAt parts.old id place chain }
    ensures { BecomesBy parts.old parts.new (on_thread (thread_of (seen parts.old) id) (to_stand place op_progress)) }
{
    put_stand_counted(
        parts,
        id,
        place,
        state_target,
        op_progress,
        op_target,
        chain,
    );
}

/// Moves the thread to another place, and into the chain of that place, and sets the progress of its op. An id that names no thread
/// changes nothing.
#[inline(always)]
pub(crate) fn put_stand(
    parts: &mut CoreParts,
    id: ThreadId,
    place: Place,
    state_target: u32,
    op_progress: OpProgress,
    op_target: u32,
    chain: Option<usize>,
)
    requires sound { IsSoundCore parts.old }
    requires place { AtPlace (parts_of parts.old) state_target (place_target place) }
    requires op_progress { AtPlace (parts_of parts.old) op_target (op_progress_target op_progress) }
    requires chain { IsChainAt parts.old id place chain }
    ensures { BecomesBy parts.old parts.new (on_thread (thread_of (seen parts.old) id) (to_stand place op_progress)) }
{
    if let Some(found) = core_records::thread(parts, id) {
        if stands_alone(&found.thread.place) {
            let (node, order_key) = (found.node, thread_order_key(parts.version, id.rep(), found));
            let wait = wait_filing(parts, id, found, &place);
            let from = no_set(parts);
            let to = entry_set(parts, &place, state_target, &op_progress, op_target);
            write_stand(
                &mut parts.threads,
                id,
                place,
                state_target,
                op_progress,
                op_target,
            );
            recount(&mut parts.sets, from, to);
            file_in(&mut parts.places, node, chain, order_key);
            refile_wait(&mut parts.waits, wait);
        } else {
            put_stand_away(
                parts,
                id,
                place,
                state_target,
                op_progress,
                op_target,
                chain,
            );
        }
    }
}

// The thread is about to begin the op at this position, and may be where a set counts it.
#[inline(never)]
fn put_op_counted(parts: &mut CoreParts, id: ThreadId, position: u32)
    requires { IsSoundCore parts.old }
    ensures { BecomesBy parts.old parts.new (on_thread (thread_of (seen parts.old) id) (to_op position)) }
{
    if let Some(found) = core_records::thread(parts, id) {
        let (place, state_target) = (&found.thread.place, found.state_target);
        let from = entry_set(
            parts,
            place,
            state_target,
            &found.thread.op_progress,
            found.op_target,
        );
        let to = entry_set(parts, place, state_target, &OpProgress::Fresh, 0);
        write_op(&mut parts.threads, id, position);
        recount(&mut parts.sets, from, to);
    }
}

/// Moves a thread that runs to the start of the op at this position: no set counts such a thread. An id that names no thread
/// changes nothing.
#[inline(always)]
pub(crate) fn put_op(parts: &mut CoreParts, id: ThreadId, position: u32)
    requires { IsSoundCore parts.old }
    ensures { BecomesBy parts.old parts.new (on_thread (thread_of (seen parts.old) id) (to_op position)) }
{
    if let Some(found) = core_records::thread(parts, id) {
        match found.thread.place {
            Place::Running => {
                let from = no_set(parts);
                let to = no_set(parts);
                write_op(&mut parts.threads, id, position);
                recount(&mut parts.sets, from, to);
            }
            _ => put_op_counted(parts, id, position),
        }
    }
}

/// Writes an answer into a register, 0 to 15, and has the thread begin the op at this position: a thread that runs is looked up once.
/// An id that names no thread changes nothing.
#[inline(always)]
pub(crate) fn put_answer(
    parts: &mut CoreParts,
    id: ThreadId,
    register: u8,
    value: u64,
    position: u32,
)
    requires { IsSoundCore parts.old }
    ensures { BecomesBy parts.old parts.new (on_thread (thread_of (seen parts.old) id) (to_answer register value position)) }
{
    if let Some(found) = core_records::thread(parts, id) {
        match found.thread.place {
            Place::Running => {
                let from = no_set(parts);
                let to = no_set(parts);
                write_answer(&mut parts.threads, id, register, value, position);
                recount(&mut parts.sets, from, to);
            }
            _ => {
                set_register(parts, id, register, value);
                put_op_counted(parts, id, position);
            }
        }
    }
}

// Does what `put_begun` does, wherever the thread was: the sets that count it are counted anew.
#[inline(never)]
fn put_begun_counted(parts: &mut CoreParts, id: ThreadId, words: (u64, u64, u64))
    requires { IsSoundCore parts.old }
    ensures { BecomesBy parts.old parts.new (on_thread (thread_of (seen parts.old) id) (to_begun words.0 words.1 words.2)) }
{
    if let Some(found) = core_records::thread(parts, id) {
        let (node, order_key) = (found.node, thread_order_key(parts.version, id.rep(), found));
        let wait = wait_filing(parts, id, found, &Place::Running);
        let (op_progress, op_target) = (&found.thread.op_progress, found.op_target);
        let from = entry_set(
            parts,
            &found.thread.place,
            found.state_target,
            op_progress,
            op_target,
        );
        let to = no_set(parts);
        write_begun(&mut parts.threads, id, words);
        recount(&mut parts.sets, from, to);
        refresh_key(&mut parts.places, node, None, order_key);
        refile_wait(&mut parts.waits, wait);
    }
}

/// Begins an activation of the thread, with these values in r0, r1 and r2. An id that names no thread changes nothing.
#[inline(always)]
pub(crate) fn put_begun(parts: &mut CoreParts, id: ThreadId, words: (u64, u64, u64))
    requires { IsSoundCore parts.old }
    ensures { BecomesBy parts.old parts.new (on_thread (thread_of (seen parts.old) id) (to_begun words.0 words.1 words.2)) }
{
    if let Some(found) = core_records::thread(parts, id) {
        if stands_alone(&found.thread.place) {
            let (node, order_key) = (found.node, thread_order_key(parts.version, id.rep(), found));
            let from = no_set(parts);
            let to = no_set(parts);
            write_begun(&mut parts.threads, id, words);
            recount(&mut parts.sets, from, to);
            file_in(&mut parts.places, node, None, order_key);
        } else {
            put_begun_counted(parts, id, words);
        }
    }
}
