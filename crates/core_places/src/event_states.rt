//! The events of subtasks, which make members of a set ready.
ghost use Rattle.std.specs.Prelude.{◌≡◌, option_and_then, option_map};
ghost use Rattle.machine_data.specs.Write.{set_event};
ghost use Rattle.machine_data.specs.declared.records.Subtask.TheVariants as subtasks_of;
ghost use Rattle.core_records.specs.Names.{AtPlace, SetOf, join_target};
ghost use Rattle.core_records.specs.RecordPlaces.{ready_call_chain, ready_in, ready_work_chain};
ghost use Rattle.core_records.specs.Seen.{IsSoundCore, parts_of, seen};
ghost use Rattle.core_records.specs.Sound.{bare};
ghost use Rattle.core_primitives.specs.Names.{subtask_in};
ghost use Rattle.core_primitives.specs.StateView.{call_of, on_core, work_of};

use crate::moves::{member_order_key, refresh_key};
use core_primitives::{CallId, SubtaskId, WorkId};
use core_records::{CoreParts, set_id_at};
use machine_data::{Join, Status};

// The chains of the ready members of a set: calls, and host works.
fn ready_chains(parts: &CoreParts, place: u32, set: u64) -> Option<(usize, usize)>
    requires sound { IsSoundCore parts.now }
    requires at { AtPlace (parts_of parts.now) place (SetOf set) }
    ensures calls { ready_call_chain (bare (parts_of parts.now)) set ≡ option_map (λ c. c.0) result }
    ensures works { ready_work_chain (bare (parts_of parts.now)) set ≡ option_map (λ c. c.1) result }
{
    match core_records::set(parts, set_id_at(parts, place, set)) {
        Some(found) => Some((found.ready_calls, found.ready_works)),
        None => None,
    }
}

// The chains that a subtask is filed in as a ready member, where it has this event and is joined so.
fn chains_for(
    parts: &CoreParts,
    place: u32,
    event: Option<Status>,
    join: Join,
) -> Option<(usize, usize)>
    requires sound { IsSoundCore parts.now }
    requires at { AtPlace (parts_of parts.now) place (join_target join) }
    ensures calls { option_and_then (ready_call_chain (bare (parts_of parts.now))) (ready_in event join) ≡ option_map (λ c. c.0) result }
    ensures works { option_and_then (ready_work_chain (bare (parts_of parts.now))) (ready_in event join) ≡ option_map (λ c. c.1) result }
{
    match event {
        Some(_) => match join {
            Join::Set { set } => ready_chains(parts, place, set),
            Join::Nowhere | Join::Watched { .. } => None,
        },
        None => None,
    }
}

/// Returns the chain that a call is filed in as a ready member.
pub(crate) fn call_chain(
    parts: &CoreParts,
    place: u32,
    event: Option<Status>,
    join: Join,
) -> Option<usize>
    requires sound { IsSoundCore parts.now }
    requires at { AtPlace (parts_of parts.now) place (join_target join) }
    ensures { option_and_then (ready_call_chain (bare (parts_of parts.now))) (ready_in event join) ≡ result }
{
    match chains_for(parts, place, event, join) {
        Some((calls, _)) => Some(calls),
        None => None,
    }
}

/// Returns the chain that a host work is filed in as a ready member.
pub(crate) fn work_chain(
    parts: &CoreParts,
    place: u32,
    event: Option<Status>,
    join: Join,
) -> Option<usize>
    requires sound { IsSoundCore parts.now }
    requires at { AtPlace (parts_of parts.now) place (join_target join) }
    ensures { option_and_then (ready_work_chain (bare (parts_of parts.now))) (ready_in event join) ≡ result }
{
    match chains_for(parts, place, event, join) {
        Some((_, works)) => Some(works),
        None => None,
    }
}

fn set_call_event(parts: &mut CoreParts, call: CallId, event: Option<Status>)
    requires { IsSoundCore parts.old }
    ensures sound { IsSoundCore parts.new }
    ensures new { seen parts.new ≡ on_core (set_event (subtasks_of.Guest (call_of (seen parts.old) call)) event) (seen parts.old) }
{
    if let Some(found) = core_records::call(parts, call) {
        let old = *found;
        let chain = call_chain(parts, old.joined, event, old.call.join);
        refresh_key(
            &mut parts.ready_calls,
            old.ready,
            chain,
            member_order_key(old.entry, call.rep()),
        );
        let entry = parts.calls.get_mut_unchecked(call);
        entry.call.event = event;
    }
}

fn set_work_event(parts: &mut CoreParts, work: WorkId, event: Option<Status>)
    requires { IsSoundCore parts.old }
    ensures sound { IsSoundCore parts.new }
    ensures new { seen parts.new ≡ on_core (set_event (subtasks_of.Host (work_of (seen parts.old) work)) event) (seen parts.old) }
{
    if let Some(found) = core_records::work(parts, work) {
        let old = *found;
        let chain = work_chain(parts, old.joined, event, old.work.join);
        refresh_key(
            &mut parts.ready_works,
            old.ready,
            chain,
            member_order_key(old.entry, work.rep()),
        );
        let entry = parts.works.get_mut_unchecked(work);
        entry.work.event = event;
    }
}

/// Sets the event of a subtask: a status that is to be handed out, or none.
pub fn set_event(parts: &mut CoreParts, subtask: SubtaskId, event: Option<Status>)
    requires { IsSoundCore parts.old }
    ensures sound { IsSoundCore parts.new }
    ensures new { seen parts.new ≡ on_core (set_event (subtask_in (seen parts.old).tags subtask) event) (seen parts.old) }
{
    match subtask {
        SubtaskId::Guest(call) => set_call_event(parts, call, event),
        SubtaskId::Host(work) => set_work_event(parts, work, event),
    }
}
