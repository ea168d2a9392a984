//! Where a taking chooses, found in the state before the entry leaves its mark: that moves no thread.
ghost use Rattle.core_primitives.specs.Names.{entry_in};
ghost use Rattle.core_primitives.specs.StateView.{thread_of};
ghost use Rattle.laws_choices.specs.Offers.{delivery_offer, start_offer, starting_offer, take_offer};
ghost use Rattle.machine_data.specs.Moves.{why_of};
ghost use Rattle.machine_data.specs.Read.{admits, task_of};
ghost use Rattle.machine_data.specs.declared.records.Why.TheVariants as why;
ghost use Rattle.machine_rules.specs.Step.{entry_number};
ghost use Rattle.std.specs.Prelude.{◌≡◌};
ghost use Rattle.choice_offers.specs.Spots.{Offers, OffersTo};
ghost use Rattle.choice_offers.specs.Takes.{IsEntryThere, IsThreadThere};

use crate::spots::{Spot, gives_woken, no_spot, tells, wakes_in};
use core_primitives::{
    CallPrimitives, EntryId, InstancePrimitives, PlacePrimitives, SubtaskId, ThreadId,
    ThreadPrimitives, View,
};
use core_state::TaskCore;
use machine_data::{Delivery, ExportKind, Why};

// Whether a start of the thread may begin.
fn admits_start(core: &TaskCore, thread: ThreadId) -> bool
    ensures { result ≡ admits (thread_of core.now thread) core.now.core why.Start }
{
    let instance = core.instance_of(thread);
    core.is_explicit(thread)
        || matches!(core.kind(core.task_of(thread)), ExportKind::Sync)
        || (!core.may_not_enter(instance) && core.backpressure(instance) == 0)
}

// A call's first thread is held: that it will start is told, if it wasn't yet.
fn starting_spot(core: &TaskCore, thread: ThreadId) -> Spot
    requires { IsThreadThere thread core.now }
    ensures { Offers core.now (thread_of core.now thread) result
        (starting_offer (task_of (thread_of core.now thread) core.now.core) core.now.core) }
{
    let call = core.task_of(thread);
    if core.starting_is_published(call) {
        no_spot(core)
    } else {
        tells(core, call)
    }
}

// An explicit thread tells nobody; a call's first thread tells that it starts, or, if it is held, that it will.
fn start_spot(core: &TaskCore, thread: ThreadId) -> Spot
    requires { IsThreadThere thread core.now }
    ensures { OffersTo core.now thread result (λ n s. start_offer n s (admits n s why.Start)) }
{
    if !admits_start(core, thread) {
        return starting_spot(core, thread);
    }
    if core.is_explicit(thread) {
        return no_spot(core);
    }
    if core.at_handle_limit() {
        return no_spot(core);
    }
    tells(core, core.task_of(thread))
}

// Of a delivery for a set, if it is admitted.
fn delivery_spot(core: &TaskCore, thread: ThreadId, delivery: Delivery) -> Spot
    requires there { IsThreadThere thread core.now }
    requires delivery { why_of (thread_of core.now thread) core.now.core ≡ why.Delivery delivery }
    ensures { OffersTo core.now thread result (λ n s. delivery_offer n s delivery (admits n s (why.Delivery delivery))) }
{
    core.none_is_zero();
    if core.may_not_enter(core.instance_of(thread)) {
        return no_spot(core);
    }
    match delivery {
        Delivery::Set { set: _ } => match core.delivered_set(thread) {
            Some(set) => gives_woken(core, true, thread, set),
            None => no_spot(core),
        },
        Delivery::Yield => no_spot(core),
        Delivery::Cancel => no_spot(core),
    }
}

/// Returns where the taking of an entry chooses.
pub fn take_spot(core: &TaskCore, entry: EntryId) -> Spot
    requires { IsEntryThere entry core.now }
    ensures { Offers core.now (entry_number (entry_in core.now.tags entry)) result
        (take_offer core.now.core (entry_in core.now.tags entry)) }
{
    match entry {
        EntryId::Thread(thread) => match core.why(thread) {
            Why::Start => start_spot(core, thread),
            Why::Delivery { delivery } => delivery_spot(core, thread, delivery),
            Why::Resumption => no_spot(core),
        },
        EntryId::Push(_) => no_spot(core),
        EntryId::Host(work) => wakes_in(core, SubtaskId::Host(work)),
    }
}
