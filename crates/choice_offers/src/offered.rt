//! Among what a step chooses, with ids beside the numbers.
ghost use Rattle.core_lists.specs.Listed.{ListsThreads};
ghost use Rattle.core_primitives.specs.Names.{subtask_in};
ghost use Rattle.core_primitives.specs.StateView.{StateView, call_of, set_of, thread_of};
ghost use Rattle.laws_choices.specs.Offer.{FitsOffer, is_one_of};
ghost use Rattle.laws_choices.specs.Offers.{waiters_of};
ghost use Rattle.machine_data.specs.Read.{instance_of};
ghost use Rattle.machine_rules.specs.Cancels.{cancellable};
ghost use Rattle.std.specs.List.Sorted.{IsNonDecreasingBy};
ghost use Rattle.std.specs.List.{All, filter_map, find};
ghost use Rattle.std.specs.Prelude.{◌++◌, ◌<◌, ◌==◌, ◌≡◌, ◌∷◌, [], IfOk, IfSome, IsPermutation, OnOk, Some, map, option_map, true, ℕ};
ghost use Rattle.choice_offers.specs.Choices.{chosen_of, offer_of};
ghost use Rattle.choice_offers.specs.Listings.{AreNamed, AreNamedIn, HandlesKnown, IsListed, IsNamedBy, IsWantedBy};
ghost use Rattle.choice_offers.specs.Listings.{handle_or_none, handles_in, id_in, numbers_of, offer_in, subtask_chosen};
ghost use Rattle.choice_offers.specs.Spots.{IsSpotThere, IsTakingThere, IsWakeThere, opened_at, opened_by, taken_at, woken_at};
ghost use Rattle.choice_offers.specs.Times.{Rises};

use crate::choice::{Choice, Offer};
use crate::held::{HeldOrder, NamedThread};
use crate::spots::{Opening, Spot, Woken};
use core_lists::{cancellable, held_by_counter, held_by_flag, ready_members, waiters};
use core_primitives::{
    CallId, SetId, SubtaskId, SubtaskPrimitives, ThreadId, ThreadPrimitives, WantedId,
};
use core_state::TaskCore;
use machine_data::Seq;
use std::alloc::{AllocError, Global};

/// A ready member by its handle.
#[derive(Clone, Copy)]
pub struct NamedMember {
    pub handle: u32,
    pub subtask: SubtaskId,
}

/// Among what a step chooses.
#[derive(Drop)]
pub struct Offered {
    pub waiters: Vec<NamedThread>,
    pub members: Vec<NamedMember>,
    pub held: Vec<NamedThread>,
}

// Threads with their numbers.
fn named_threads(
    alloc: Global,
    core: &TaskCore,
    ids: &[ThreadId],
) -> Result<Vec<NamedThread>, AllocError>
    ensures numbers { IfOk result (λ l. numbers_of l.items ≡ map (λ id. thread_of core.now id) ids.now) }
    ensures named { IfOk result (λ l. AreNamed core.now l.items) }
{
    let mut list = Vec::new(alloc);
    for id in ids {
        list.push(NamedThread {
            number: core.number(*id),
            id: *id,
        })?;
    }
    Ok(list)
}

// In order of number.
fn sort_threads(list: &mut Vec<NamedThread>) -> Result<(), AllocError>
    ensures permutation { IsPermutation list.old.items list.new.items }
    ensures order { OnOk result (IsNonDecreasingBy (λ t. t.number) list.new.items) }
{
    list.sort_by_key(|thread| thread.number)?;
    Ok(())
}

// The waiters of the set, in order of number.
fn waiters_of(alloc: Global, core: &TaskCore, set: SetId) -> Result<Vec<NamedThread>, AllocError>
    requires { 0 < set_of core.now set }
    ensures numbers { IfOk result (λ l. numbers_of l.items ≡ waiters_of (set_of core.now set) core.now.core) }
    ensures named { IfOk result (λ l. AreNamed core.now l.items) }
{
    let mut ids = Vec::new(alloc);
    waiters(core, set, &mut ids)?;
    let mut list = named_threads(alloc, core, ids.as_slice())?;
    sort_threads(&mut list)?;
    Ok(list)
}

// The threads of the call that a cancel may take, in order of number.
fn cancellable_of(
    alloc: Global,
    core: &TaskCore,
    call: CallId,
) -> Result<Vec<NamedThread>, AllocError>
    requires { 0 < call_of core.now call }
    ensures numbers { IfOk result (λ l. numbers_of l.items ≡ cancellable (call_of core.now call) core.now.core) }
    ensures named { IfOk result (λ l. AreNamed core.now l.items) }
{
    let mut ids = Vec::new(alloc);
    cancellable(core, call, &mut ids)?;
    let mut list = named_threads(alloc, core, ids.as_slice())?;
    sort_threads(&mut list)?;
    Ok(list)
}

fn waiters_at(
    alloc: Global,
    core: &TaskCore,
    wakes: Option<Woken>,
) -> Result<Vec<NamedThread>, AllocError>
    requires { IfSome wakes (IsWakeThere core.now) }
    ensures numbers { IfOk result (λ l. numbers_of l.items ≡ woken_at core.now wakes) }
    ensures named { IfOk result (λ l. AreNamed core.now l.items) }
{
    match wakes {
        Some(Woken::Set(set)) => waiters_of(alloc, core, set),
        Some(Woken::Call(call)) => cancellable_of(alloc, core, call),
        None => Ok(Vec::new(alloc)),
    }
}

// Members with their handles.
fn named_members(
    alloc: Global,
    core: &TaskCore,
    ids: &[SubtaskId],
) -> Result<Vec<NamedMember>, AllocError>
    ensures handles { IfOk result (λ l. handles_in l.items ≡
        map (λ id. handle_or_none (subtask_in core.now.tags id) core.now.core) ids.now) }
    ensures known { IfOk result (λ l. All (λ m. m.handle ≡ handle_or_none (subtask_in core.now.tags m.subtask) core.now.core) l.items) }
    ensures subtasks { IfOk result (λ l. map (λ m. m.subtask) l.items ≡ ids.now) }
{
    let mut list = Vec::new(alloc);
    for id in ids {
        list.push(NamedMember {
            handle: core.subtask_handle(*id).unwrap_or(0),
            subtask: *id,
        })?;
    }
    Ok(list)
}

// In order of handle.
fn sort_members(list: &mut Vec<NamedMember>) -> Result<(), AllocError>
    ensures permutation { IsPermutation list.old.items list.new.items }
    ensures order { OnOk result (IsNonDecreasingBy (λ m. m.handle) list.new.items) }
{
    list.sort_by_key(|member| member.handle)?;
    Ok(())
}

// The ready members of the set, in order of handle. An instance in which they are named names no other ready members of it.
fn members_of(alloc: Global, core: &TaskCore, set: SetId) -> Result<Vec<NamedMember>, AllocError>
    requires there { 0 < set_of core.now set }
    requires known { HandlesKnown core.now.core }
    ensures handles { IfOk result (λ l. (n : ℕ) → IsTakingThere core.now n set → handles_in l.items ≡ taken_at core.now n (Some set)) }
    ensures named { IfOk result (λ l. (n : ℕ) → IsTakingThere core.now n set → AreNamedIn core.now (instance_of n core.now.core) l.items) }
{
    let mut ids = Vec::new(alloc);
    ready_members(core, set, &mut ids)?;
    let mut list = named_members(alloc, core, ids.as_slice())?;
    sort_members(&mut list)?;
    Ok(list)
}

fn members_at(
    alloc: Global,
    core: &TaskCore,
    takes: Option<SetId>,
) -> Result<Vec<NamedMember>, AllocError>
    requires there { IfSome takes (λ x. 0 < set_of core.now x) }
    requires known { HandlesKnown core.now.core }
    ensures handles { IfOk result (λ l. (n : ℕ) → IfSome takes (IsTakingThere core.now n) →
        handles_in l.items ≡ taken_at core.now n takes) }
    ensures named { IfOk result (λ l. (n : ℕ) → IfSome takes (IsTakingThere core.now n) →
        AreNamedIn core.now (instance_of n core.now.core) l.items) }
{
    match takes {
        Some(set) => members_of(alloc, core, set),
        None => Ok(Vec::new(alloc)),
    }
}

// The held threads of the instance that are let in, as the core has them.
fn held_ids(
    alloc: Global,
    core: &TaskCore,
    instance: u32,
    opening: Opening,
) -> Result<Vec<ThreadId>, AllocError>
    ensures { IfOk result (λ l. ListsThreads core.now (opened_by opening instance core.now.core) l.items) }
{
    let mut ids = Vec::new(alloc);
    match opening {
        Opening::Flag => held_by_flag(core, instance, &mut ids)?,
        Opening::Counter => held_by_counter(core, instance, &mut ids)?,
    }
    Ok(ids)
}

// The held threads that are let in, in the order in which they were held last.
fn held_at(
    alloc: Global,
    core: &TaskCore,
    held: &HeldOrder,
    opens: Option<(u32, Opening)>,
) -> Result<Vec<NamedThread>, AllocError>
    ensures numbers { IfOk result (λ l. IsPermutation (opened_at core.now opens) (numbers_of l.items)) }
    ensures named { IfOk result (λ l. AreNamed core.now l.items) }
    ensures rises { IfOk result (λ l. Rises held.now l.items) }
{
    let Some((instance, opening)) = opens else {
        return Ok(Vec::new(alloc));
    };
    let ids = held_ids(alloc, core, instance, opening)?;
    let mut list = named_threads(alloc, core, ids.as_slice())?;
    held.put_in_order(&mut list)?;
    Ok(list)
}

// The id of the thread with the number, if it is one of those.
fn find_thread(list: &[NamedThread], number: u64) -> Option<ThreadId>
    ensures { result ≡ option_map (λ t. t.id) (find (λ t. t.number == number) list.now) }
{
    list.iter()
        .find(|thread| thread.number == number)
        .map(|thread| thread.id)
}

fn find_member(list: &[NamedMember], handle: u32) -> Option<SubtaskId>
    ensures { result ≡ option_map (λ m. m.subtask) (find (λ m. m.handle == handle) list.now) }
{
    list.iter()
        .find(|member| member.handle == handle)
        .map(|member| member.subtask)
}

// The waiter that is chosen.
fn wanted_waiter(list: &[NamedThread], chosen: Option<u64>) -> Option<ThreadId>
    requires { is_one_of (numbers_of list.now) chosen ≡ true }
    ensures { (s : StateView) → AreNamed s list.now → option_map (λ id. thread_of s id) result ≡ chosen }
{
    match chosen {
        Some(number) => find_thread(list, number),
        None => None,
    }
}

// The member that is chosen.
fn wanted_member(list: &[NamedMember], chosen: Option<u32>) -> Option<SubtaskId>
    requires { is_one_of (handles_in list.now) chosen ≡ true }
    ensures { (s : StateView) (i : ℕ) → AreNamedIn s i list.now → option_map (subtask_in s.tags) result ≡ subtask_chosen s i chosen }
{
    match chosen {
        Some(handle) => find_member(list, handle),
        None => None,
    }
}

// Adds the id of the thread with the number to a list, if it is one of those.
fn add_thread(list: &[NamedThread], number: u64, ids: &mut Vec<ThreadId>) -> Result<(), AllocError>
    ensures { OnOk result (ids.new.items ≡ ids.old.items ++ filter_map (id_in list.now) (number ∷ [])) }
{
    if let Some(id) = find_thread(list, number) {
        ids.push(id)?;
    }
    Ok(())
}

#[tactic(auto, using(crate::proofs::WantedLemmas::picked_more))]
fn find_threads(
    alloc: Global,
    list: &[NamedThread],
    numbers: &[u64],
) -> Result<Vec<ThreadId>, AllocError>
    ensures { IfOk result (λ l. l.items ≡ filter_map (id_in list.now) numbers.now) }
{
    let mut ids = Vec::new(alloc);
    for number in numbers {
        add_thread(list, *number, &mut ids)?;
    }
    Ok(ids)
}

// The numbers of these threads.
fn numbers_in(alloc: Global, list: &[NamedThread]) -> Result<Seq<u64>, AllocError>
    ensures { IfOk result (λ ns. ns ≡ numbers_of list.now) }
{
    let mut numbers = Seq::new(alloc);
    for thread in list {
        numbers.push(thread.number)?;
    }
    Ok(numbers)
}

// The handles of these members.
fn handles_of(alloc: Global, list: &[NamedMember]) -> Result<Seq<u32>, AllocError>
    ensures { IfOk result (λ hs. hs ≡ handles_in list.now) }
{
    let mut handles = Seq::new(alloc);
    for member in list {
        handles.push(member.handle)?;
    }
    Ok(handles)
}

impl Offered {
    /// Lists among what a step chooses at this spot.
    pub fn at(
        alloc: Global,
        core: &TaskCore,
        held: &HeldOrder,
        spot: Spot,
    ) -> Result<Offered, AllocError>
        requires wakes { IfSome spot.wakes (IsWakeThere core.now) }
        requires takes { IfSome spot.takes (λ x. 0 < set_of core.now x) }
        requires known { HandlesKnown core.now.core }
        ensures { IfOk result (λ o. (n : ℕ) → IsSpotThere core.now n spot → IsListed core.now n spot held.now o) }
    {
        let waiters = waiters_at(alloc, core, spot.wakes)?;
        let members = members_at(alloc, core, spot.takes)?;
        let opened = held_at(alloc, core, held, spot.opens)?;
        Ok(Offered {
            waiters,
            members,
            held: opened,
        })
    }

    /// Returns it by numbers and handles.
    pub fn offer(&self, alloc: Global) -> Result<Offer, AllocError>
        ensures { IfOk result (λ o. offer_of o ≡ offer_in self.now) }
    {
        Ok(Offer {
            waiters: numbers_in(alloc, self.waiters.as_slice())?,
            members: handles_of(alloc, self.members.as_slice())?,
            held: numbers_in(alloc, self.held.as_slice())?,
        })
    }

    /// Returns by ids what a choice that fits wants.
    pub fn wanted(&self, alloc: Global, choice: &Choice) -> Result<WantedId, AllocError>
        requires { FitsOffer (chosen_of choice.now) (offer_in self.now) }
        ensures { IfOk result (λ w. (s : StateView) (n : ℕ) → IsNamedBy s n self.now → IsWantedBy s n choice.now w) }
    {
        let waiter = wanted_waiter(self.waiters.as_slice(), choice.waiter);
        let member = wanted_member(self.members.as_slice(), choice.member);
        let held = find_threads(alloc, self.held.as_slice(), choice.release.as_slice())?;
        Ok(WantedId {
            waiter,
            member,
            held,
        })
    }
}
