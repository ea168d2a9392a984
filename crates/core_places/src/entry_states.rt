//! How many threads wait on a set or have an entry for it.
ghost use Rattle.std.specs.Prelude.{◌≡◌, ◌+◌, ◌<◌, ◌≤◌, ◌-◌, ◌^◌, Ok, length};
ghost use Rattle.core_places.specs.Moved.{entry_set, recounted, resumed_set, set_named};
ghost use Rattle.core_places.specs.Puts.{MayRecount};
ghost use Rattle.core_records.specs.Keys.{set_key};
ghost use Rattle.core_records.specs.Kinds.{item_of};
ghost use Rattle.core_records.specs.Names.{AtPlace, StandsAt, op_progress_target, place_target};
ghost use Rattle.core_records.specs.Seen.{IsSoundCore, parts_of, seen};
ghost use Rattle.core_records.specs.declared.set_records.WaitSet.{WaitSet};
ghost use Rattle.task_table.specs.TableAnswers.{item_at};
ghost use Rattle.core_primitives.specs.Live.{kept_in};
ghost use Rattle.core_primitives.specs.StateView.{set_of};

use core_primitives::SetId;
use core_records::{CoreParts, Single, WaitSet, set_id_at};
use machine_data::{Delivery, OpProgress, Place, Why};
use table_records::RecordTable;
use task_table::TableId;

// One entry less of the set, if the id names one.
#[inline(always)]
fn one_less(sets: &mut RecordTable<Single<WaitSet>>, id: SetId)
    requires few { length sets.old.places ≤ 4294967295 }
    requires some { (x : WaitSet) → Ok x ≡ item_at item_of sets.old id.rep id.serial → 1 ≤ x.entries }
    ensures { sets.new ≡ recounted (λ n. n - 1) id.rep id.serial sets.old }
{
    if id.rep() < u32::MAX {
        if let Ok(found) = sets.get_mut(id) {
            found.entries -= 1;
        }
    }
}

// One entry more of the set, if the id names one.
#[inline(always)]
fn one_more(sets: &mut RecordTable<Single<WaitSet>>, id: SetId)
    requires few { length sets.old.places ≤ 4294967295 }
    requires room { (x : WaitSet) → Ok x ≡ item_at item_of sets.old id.rep id.serial → x.entries + 1 < 2 ^ 64 }
    ensures { sets.new ≡ recounted (λ n. n + 1) id.rep id.serial sets.old }
{
    if id.rep() < u32::MAX {
        if let Ok(found) = sets.get_mut(id) {
            found.entries += 1;
        }
    }
}

/// Takes one entry off the count of the one set, and adds one to the other, if the ids name any.
#[inline(always)]
pub(crate) fn recount(sets: &mut RecordTable<Single<WaitSet>>, from: SetId, to: SetId)
    requires { MayRecount sets.old from to }
    ensures { sets.new ≡ recounted (λ n. n + 1) to.rep to.serial (recounted (λ n. n - 1) from.rep from.serial sets.old) }
{
    one_less(sets, from);
    one_more(sets, to);
}

/// Returns an id that names no set: no table has this place.
#[inline(always)]
pub(crate) fn no_set(parts: &CoreParts) -> SetId
    requires { IsSoundCore parts.now }
    ensures { set_of (seen parts.now) result ≡ 0 }
{
    // only the contract speaks of `parts`
    let _parts = parts;
    TableId::new(u32::MAX, 0)
}

// The set of a number that was kept with a place, in a function of its own, since most threads have no entry for a set.
#[inline(never)]
fn kept_set(parts: &CoreParts, place: u32, set: u64) -> SetId
    requires sound { IsSoundCore parts.now }
    requires stands { StandsAt set_key parts.now.sets place set }
    ensures { set_of (seen parts.now) result ≡ kept_in (seen parts.now).core.sets set }
{
    set_id_at(parts, place, set)
}

#[inline(always)]
fn resumed_set(parts: &CoreParts, place: u32, op_progress: &OpProgress) -> SetId
    requires sound { IsSoundCore parts.now }
    requires at { AtPlace (parts_of parts.now) place (op_progress_target op_progress.now) }
    ensures { set_of (seen parts.now) result ≡ set_named (resumed_set op_progress.now) (seen parts.now).core }
{
    match op_progress {
        OpProgress::Waits { set } => kept_set(parts, place, *set),
        _ => no_set(parts),
    }
}

/// Returns the set for which a thread at this place that has come so far has an entry, or on which it waits; the id names none if
/// there is none. The numbers are the places that are kept with what `place` and `op_progress` name.
#[inline(always)]
pub(crate) fn entry_set(
    parts: &CoreParts,
    place: &Place,
    state_target: u32,
    op_progress: &OpProgress,
    op_target: u32,
) -> SetId
    requires sound { IsSoundCore parts.now }
    requires place { AtPlace (parts_of parts.now) state_target (place_target place.now) }
    requires op_progress { AtPlace (parts_of parts.now) op_target (op_progress_target op_progress.now) }
    ensures { set_of (seen parts.now) result ≡ set_named (entry_set place.now op_progress.now) (seen parts.now).core }
{
    match place {
        Place::Waiting { set, .. } => kept_set(parts, state_target, *set),
        Place::Ready {
            why: Why::Delivery {
                delivery: Delivery::Set { set },
            },
            ..
        } => kept_set(parts, state_target, *set),
        Place::Held {
            why: Why::Delivery {
                delivery: Delivery::Set { set },
            },
        } => kept_set(parts, state_target, *set),
        Place::Ready {
            why: Why::Resumption,
            ..
        } => resumed_set(parts, op_target, op_progress),
        _ => no_set(parts),
    }
}
