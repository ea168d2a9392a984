ghost use Rattle.core_makes.specs.Pushed.{IsSetNext, PushesSet};
ghost use Rattle.core_makes.specs.Counted.{IsSetLess};
ghost use Rattle.core_makes.specs.Loose.{AreSetLoose};
ghost use Rattle.std.specs.Prelude.{◌≡◌, ◌+◌, ◌-◌, ◌<◌, ◌^◌, IfOk, OnErr, OnOk, is_some, length, true};
ghost use Rattle.machine_data.specs.Maps.{get};
ghost use Rattle.machine_data.specs.Read.{fits};
ghost use Rattle.machine_data.specs.Write.{add_set};
ghost use Rattle.core_records.specs.Seen.{IsSoundCore, parts_of, seen};
ghost use Rattle.core_records.specs.Sound.{bare};
ghost use Rattle.task_table.specs.Changes.{deleted};
ghost use Rattle.task_table.specs.Table.{IsTable};
ghost use Rattle.core_primitives.specs.BecomesRecord.{BecomesRecord};
ghost use Rattle.core_primitives.specs.StateView.{set_of};
ghost use Rattle.core_primitives.specs.Records.{MakesSet, with_named_set};

use crate::{make_place_chain, make_ready_call_chain, make_ready_work_chain};
use core_fields::insert_handle;
use core_primitives::SetId;
use core_records::{CoreParts, WaitSet};
use machine_data::{NoMemory, Set};
use task_handles::{HandleKind, HeldItem, Rep};
use task_wait::SetKey;

// The record of a set, with its chains.
fn push_set(parts: &mut CoreParts, set: WaitSet) -> Result<SetId, NoMemory>
    requires sound { IsSoundCore parts.old }
    requires few { (seen parts.old).core.made.sets + 1 < 2 ^ 64 }
    requires room { fits 1 (seen parts.old).core ≡ true }
    requires next { IsSetNext parts.old set }
    ensures sound { IsSoundCore parts.new }
    ensures new { OnOk result (BecomesRecord (add_set set.set (seen parts.old).core) (seen parts.old) (seen parts.new)) }
    ensures set { IfOk result (λ id. set_of (seen parts.new) id ≡ (seen parts.old).core.made.sets + 1) }
    ensures pushes { IfOk result (λ id. PushesSet parts.old parts.new set id) }
    ensures err { OnErr result (parts.new ≡ parts.old) }
{
    match parts.sets.push::<SetKey>(set) {
        Ok(id) => {
            parts.made.sets += 1;
            parts.kept.used += 1;
            Ok(id)
        }
        Err(_) => Err(NoMemory),
    }
}

// The record of a set that was just made is gone.
fn take_back(parts: &mut CoreParts, set: SetId)
    requires sound { IsSoundCore parts.old }
    requires live { 0 < set_of (seen parts.old) set }
    requires made { 0 < parts.old.made.sets }
    requires used { 0 < parts.old.kept.used }
    ensures table { IsTable parts.new.sets }
    ensures deleted { parts.new.sets ≡ deleted set.rep parts.old.sets }
    ensures only { IsSetLess parts.old parts.new }
{
    match parts.sets.delete(set) {
        Ok(_) => {}
        Err(_) => unreachable!(),
    }
    parts.made.sets -= 1;
    parts.kept.used -= 1;
}

// The record of a set, with its chains and its handle. If it is out of memory, the record is gone.
fn name_set(parts: &mut CoreParts, instance: u32, set: WaitSet) -> Result<SetId, NoMemory>
    requires sound { IsSoundCore parts.old }
    requires there { instance < length parts.old.instances.items }
    requires few { (seen parts.old).core.made.sets + 1 < 2 ^ 64 }
    requires room { fits 1 (seen parts.old).core ≡ true }
    requires next { IsSetNext parts.old set }
    ensures sound { IsSoundCore parts.new }
    ensures new { MakesSet (with_named_set instance set.set) (seen parts.old) result (seen parts.new) }
{
    let number = set.number;
    match push_set(parts, set) {
        Ok(id) => {
            let rep = Rep {
                id: id.rep,
                serial: number,
            };
            let kind = HandleKind::Set;
            match insert_handle(parts, instance, HeldItem { kind, rep }) {
                Ok(_) => Ok(id),
                Err(why) => {
                    take_back(parts, id);
                    Err(why)
                }
            }
        }
        Err(why) => Err(why),
    }
}

// The record that a set is to have, with its chains and this place in the resource table.
fn new_set(parts: &mut CoreParts, instance: u32, entry: u32) -> Result<WaitSet, NoMemory>
    requires sound { IsSoundCore parts.old }
    requires few { (seen parts.old).core.made.sets + 1 < 2 ^ 64 }
    ensures sound { IsSoundCore parts.new }
    ensures seen { seen parts.new ≡ seen parts.old }
    ensures loose { IfOk result (λ set. AreSetLoose (bare (parts_of parts.new)) set) }
    ensures number { IfOk result (λ set. set.number ≡ parts.new.made.sets + 1) }
    ensures set { IfOk result (λ set. set.set ≡ record { instance = instance }) }
    ensures members { IfOk result (λ set. set.members ≡ 0) }
    ensures entries { IfOk result (λ set. set.entries ≡ 0) }
{
    let waiters = make_place_chain(parts)?;
    let ready_calls = make_ready_call_chain(parts)?;
    let ready_works = make_ready_work_chain(parts)?;
    Ok(WaitSet {
        number: parts.made.sets + 1,
        set: Set { instance },
        entry,
        waiters,
        ready_calls,
        ready_works,
        members: 0,
        entries: 0,
    })
}

// Makes a set of an instance, and its handle there, at this place of the resource table. Out of memory leaves all as before.
fn open_set_at(parts: &mut CoreParts, instance: u32, entry: u32) -> Result<SetId, NoMemory>
    requires sound { IsSoundCore parts.old }
    requires there { is_some (get (seen parts.old).core.handles instance) ≡ true }
    requires few { (seen parts.old).core.made.sets + 1 < 2 ^ 64 }
    requires room { fits 1 (seen parts.old).core ≡ true }
    ensures sound { IsSoundCore parts.new }
    ensures new { MakesSet (with_named_set instance (record { instance = instance })) (seen parts.old) result (seen parts.new) }
{
    match new_set(parts, instance, entry) {
        Ok(set) => name_set(parts, instance, set),
        Err(why) => Err(why),
    }
}

/// Makes a set of an instance, and its handle there. If it is out of memory, all is as before.
#[tactic(auto, unfolding(core_records::specs::Seen::seen, core_records::specs::Seen::IsSoundCore))]
pub fn open_set(parts: &mut CoreParts, instance: u32) -> Result<SetId, NoMemory>
    requires sound { IsSoundCore parts.old }
    requires there { is_some (get (seen parts.old).core.handles instance) ≡ true }
    requires few { (seen parts.old).core.made.sets + 1 < 2 ^ 64 }
    requires room { fits 1 (seen parts.old).core ≡ true }
    ensures sound { IsSoundCore parts.new }
    ensures new { MakesSet (with_named_set instance (record { instance = instance })) (seen parts.old) result (seen parts.new) }
{
    let entry = parts.table_places.take()?;
    match open_set_at(parts, instance, entry) {
        Ok(set) => Ok(set),
        Err(why) => {
            parts.table_places.give(entry);
            Err(why)
        }
    }
}
