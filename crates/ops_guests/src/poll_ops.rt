//! Polling a set.
ghost use Rattle.machine_data.specs.Read.{instance_of};
ghost use Rattle.ops_guests.specs.Does.{DoesRule, SameNames};
ghost use Rattle.ops_guests.specs.PickedEvents.{AllMembersNamed};
ghost use Rattle.ops_guests.specs.Running.{SetsThere};
ghost use Rattle.machine_rules.specs.Sets.{poll_rule};
ghost use Rattle.core_primitives.specs.StateView.{thread_of};

use crate::names::set_named;
use crate::op_result::{OpAnswer, OpResult};
use crate::picked_events::{given, picked_event_for, take};
use core_primitives::{Primitives, ThreadId};
use machine_data::{Label, SetLabel, Trap};

/// Does `poll R X`.
pub fn poll<W: Primitives>(w: &mut W, thread: ThreadId, handle: u64) -> OpResult
    requires sets { SetsThere (W.view w.old).core }
    requires members { AllMembersNamed (instance_of (thread_of (W.view w.old) thread) (W.view w.old).core) (W.view w.old).core }
    ensures does { DoesRule SameNames (λ d n ch s. poll_rule d n handle ch s) thread (W.view w.old) result (W.view w.new) }
{
    let number = w.number(thread);
    let instance = w.instance_of(thread);
    let Some(set) = set_named(w, instance, handle) else {
        return OpResult::Traps(Trap::BadHandle);
    };
    let call = w.task_of(thread);
    let picked_event = picked_event_for(w, false, call, set, instance);
    let given = given(w, picked_event);
    take(w, picked_event, call);
    OpResult::Continues(
        Label::Set(SetLabel::Poll(given, number)),
        number,
        OpAnswer::Event(given),
    )
}
