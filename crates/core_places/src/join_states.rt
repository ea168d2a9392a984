//! The sets that subtasks are in.
ghost use Rattle.core_places.specs.Moved.{joined_set, rejoined, set_named};
ghost use Rattle.std.specs.Prelude.{◌≡◌, ◌+◌, ◌<◌, ◌≤◌, ◌-◌, ◌^◌, Ok, true};
ghost use Rattle.machine_data.specs.Write.{set_join};
ghost use Rattle.machine_data.specs.declared.records.Join.TheVariants as joins;
ghost use Rattle.machine_data.specs.declared.records.Subtask.TheVariants as subtasks_of;
ghost use Rattle.core_records.specs.Kinds.{item_of};
ghost use Rattle.core_records.specs.Names.{AtPlace, join_target};
ghost use Rattle.core_records.specs.Seen.{IsSoundCore, parts_of, seen};
ghost use Rattle.core_records.specs.declared.set_records.WaitSet.{WaitSet};
ghost use Rattle.task_table.specs.TableAnswers.{item_at};
ghost use Rattle.core_primitives.specs.Names.{join_in, subtask_in};
ghost use Rattle.core_primitives.specs.StateView.{call_of, on_core, set_of, work_of};
ghost use Rattle.core_primitives.specs.Changes.{with_join};

use crate::entry_states::no_set;
use crate::event_states::{call_chain, work_chain};
use crate::moves::{member_order_key, refresh_key};
use core_counts::set_number;
use core_fields::number;
use core_primitives::{CallId, JoinId, SetId, SubtaskId, WorkId};
use core_records::{CoreParts, Single, WaitSet, set_id_at};
use machine_data::Join;
use table_records::RecordTable;

// A member less of the set, if the id names one.
fn leave(sets: &mut RecordTable<Single<WaitSet>>, id: SetId)
    requires { (x : WaitSet) → Ok x ≡ item_at item_of sets.old id.rep id.serial → 1 ≤ x.members }
    ensures { sets.new ≡ rejoined (λ n. n - 1) id.rep id.serial sets.old }
{
    if let Ok(found) = sets.get_mut(id) {
        found.members -= 1;
    }
}

// A member more of the set, if the id names one.
fn enter(sets: &mut RecordTable<Single<WaitSet>>, id: SetId)
    requires { (x : WaitSet) → Ok x ≡ item_at item_of sets.old id.rep id.serial → x.members + 1 < 2 ^ 64 }
    ensures { sets.new ≡ rejoined (λ n. n + 1) id.rep id.serial sets.old }
{
    if let Ok(found) = sets.get_mut(id) {
        found.members += 1;
    }
}

// The set that something is in; the id names none if there is none.
fn joined_set(parts: &CoreParts, place: u32, join: Join) -> SetId
    requires sound { IsSoundCore parts.now }
    requires at { AtPlace (parts_of parts.now) place (join_target join) }
    ensures { set_of (seen parts.now) result ≡ set_named (joined_set join) (seen parts.now).core }
{
    match join {
        Join::Set { set } => set_id_at(parts, place, set),
        Join::Nowhere | Join::Watched { .. } => no_set(parts),
    }
}

fn join_from_id(parts: &CoreParts, join: JoinId) -> (Join, u32)
    requires { IsSoundCore parts.now }
    ensures is { join_in (seen parts.now).tags join ≡ result.0 }
    ensures at { AtPlace (parts_of parts.now) result.1 (join_target result.0) }
{
    match join {
        JoinId::Nowhere => (Join::Nowhere, 0),
        JoinId::Set(id) => {
            let set = set_number(parts, id);
            (Join::Set { set }, id.rep())
        }
        JoinId::Watched(id) => {
            let thread = number(parts, id);
            (Join::Watched { thread }, id.rep())
        }
    }
}

fn set_call_join(parts: &mut CoreParts, call: CallId, join: JoinId)
    requires { IsSoundCore parts.old }
    ensures sound { IsSoundCore parts.new }
    ensures new { seen parts.new ≡ with_join (SubtaskId.Guest call) join (seen parts.old) }
{
    if let Some(found) = core_records::call(parts, call) {
        let old = *found;
        let (named, joined) = join_from_id(parts, join);
        let from = joined_set(parts, old.joined, old.call.join);
        let to = joined_set(parts, joined, named);
        let chain = call_chain(parts, joined, old.call.event, named);
        leave(&mut parts.sets, from);
        enter(&mut parts.sets, to);
        refresh_key(
            &mut parts.ready_calls,
            old.ready,
            chain,
            member_order_key(old.entry, call.rep()),
        );
        let entry = parts.calls.get_mut_unchecked(call);
        entry.call.join = named;
        entry.joined = joined;
    }
}

fn set_work_join(parts: &mut CoreParts, work: WorkId, join: JoinId)
    requires { IsSoundCore parts.old }
    ensures sound { IsSoundCore parts.new }
    ensures new { seen parts.new ≡ on_core (set_join (subtasks_of.Host (work_of (seen parts.old) work)) (join_in (seen parts.old).tags join)) (seen parts.old) }
{
    if let Some(found) = core_records::work(parts, work) {
        let old = *found;
        let (named, joined) = join_from_id(parts, join);
        let from = joined_set(parts, old.joined, old.work.join);
        let to = joined_set(parts, joined, named);
        let chain = work_chain(parts, joined, old.work.event, named);
        leave(&mut parts.sets, from);
        enter(&mut parts.sets, to);
        refresh_key(
            &mut parts.ready_works,
            old.ready,
            chain,
            member_order_key(old.entry, work.rep()),
        );
        let entry = parts.works.get_mut_unchecked(work);
        entry.work.join = named;
        entry.joined = joined;
    }
}

// Joins the subtask to a set or to a thread, wherever it was joined. It is a function of its own, as it is long.
#[inline(never)]
fn rejoin(parts: &mut CoreParts, subtask: SubtaskId, join: JoinId)
    requires { IsSoundCore parts.old }
    ensures sound { IsSoundCore parts.new }
    ensures new { seen parts.new ≡ with_join subtask join (seen parts.old) }
{
    match subtask {
        SubtaskId::Guest(call) => set_call_join(parts, call, join),
        SubtaskId::Host(work) => set_work_join(parts, work, join),
    }
}

// Whether the call is there, and in no set.
fn is_call_apart(parts: &CoreParts, call: CallId) -> bool
    requires { IsSoundCore parts.now }
    ensures { result ≡ true → seen parts.now ≡ on_core (set_join (subtasks_of.Guest (call_of (seen parts.now) call)) joins.Nowhere) (seen parts.now) }
{
    match core_records::call(parts, call) {
        Some(found) => match found.call.join {
            Join::Nowhere => true,
            _ => false,
        },
        None => false,
    }
}

// Whether the work is there, and in no set.
fn is_work_apart(parts: &CoreParts, work: WorkId) -> bool
    requires { IsSoundCore parts.now }
    ensures { result ≡ true → seen parts.now ≡ on_core (set_join (subtasks_of.Host (work_of (seen parts.now) work)) joins.Nowhere) (seen parts.now) }
{
    match core_records::work(parts, work) {
        Some(found) => match found.work.join {
            Join::Nowhere => true,
            _ => false,
        },
        None => false,
    }
}

// Whether the subtask is there, and in no set.
#[inline(always)]
fn is_apart(parts: &CoreParts, subtask: SubtaskId) -> bool
    requires { IsSoundCore parts.now }
    ensures { result ≡ true → seen parts.now ≡ on_core (set_join (subtask_in (seen parts.now).tags subtask) joins.Nowhere) (seen parts.now) }
{
    match subtask {
        SubtaskId::Guest(call) => is_call_apart(parts, call),
        SubtaskId::Host(work) => is_work_apart(parts, work),
    }
}

/// Joins the subtask to this set, to the own set of a thread, or to none. One that is in none is left there.
#[inline(always)]
pub fn set_join(parts: &mut CoreParts, subtask: SubtaskId, join: JoinId)
    requires { IsSoundCore parts.old }
    ensures sound { IsSoundCore parts.new }
    ensures new { seen parts.new ≡ with_join subtask join (seen parts.old) }
{
    match join {
        JoinId::Nowhere => {
            if !is_apart(parts, subtask) {
                rejoin(parts, subtask, JoinId::Nowhere);
            }
        }
        JoinId::Set(_) | JoinId::Watched(_) => rejoin(parts, subtask, join),
    }
}
