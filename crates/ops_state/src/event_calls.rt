//! The events of waitables.
ghost use Rattle.laws_order.specs.KeptOrder.{StaysInOrder};
ghost use Rattle.std.specs.Prelude.{◌≡◌, IsSome, None, option_map, true};
ghost use Rattle.ops_state.specs.Named.{IsLiveWaitable, waitable_in};
ghost use Rattle.ops_state.specs.Woken.{CanBeTold, status_in, MarksReady, SetsEvent, has_handle};
ghost use Rattle.machine_data.specs.Read.{event_of};
ghost use Rattle.machine_data.specs.Write.{set_event};
ghost use Rattle.ops_moves.specs.Idle.{AreIdleUnqueued, IsJoinThere};
ghost use Rattle.task_wait.specs.declared.codes.Event.TheVariants as events;
ghost use Rattle.core_primitives.specs.StateView.{on_core};
ghost use Rattle.laws_order.specs.WakesKept.{NoWakeLost};

use crate::error::TaskError;
use crate::join_calls::wake_member;
use crate::name_calls::{QualifiedThreadId, qualified_waiter, subtask_of};
use core_primitives::Primitives;
use ops_moves::{publish, publish_waiter};
use task_wait::{Event, Waitable};

/// Gives a waitable an event, in place of one that wasn't handed out yet, and answers the waiter of
/// its set that is woken, if one waits. Who is blocked on the waitable goes on too. The event of a
/// call, of a guest or a host, is a status. It is the machine's Publish, and is never refused. Where no
/// wake is lost, none is lost by it; and order is kept where the status can be told now: an end of what
/// has come to that end, and another status of a call that has come to none.
pub fn set_event<W: Primitives>(
    w: &mut W,
    waitable: Waitable,
    event: Event,
) -> Result<Option<QualifiedThreadId>, TaskError>
    requires live { IsLiveWaitable (W.view w.old) waitable }
    requires status { IsSome (status_in event) }
    requires idle { AreIdleUnqueued (W.view w.old).core }
    requires there { IsJoinThere (waitable_in (W.view w.old).tags waitable) (W.view w.old).core }
    ensures woken { SetsEvent waitable event (W.view w.old) result (W.view w.new) }
    ensures wakes { NoWakeLost (W.view w.old).core → NoWakeLost (W.view w.new).core }
    ensures order { CanBeTold (waitable_in (W.view w.old).tags waitable) event (W.view w.old).core → StaysInOrder (W.view w.old).core (W.view w.new).core }
{
    let Event::Subtask(status) = event else {
        unreachable!()
    };
    let subtask = subtask_of(w, waitable);
    let waiter = publish_waiter(w, subtask);
    let woken = qualified_waiter(w, waiter);
    publish(w, subtask, status, waiter);
    Ok(woken)
}

/// Takes the event of a waitable and answers it; none exactly where there was none. No wake is lost by it, and order is kept where a
/// handle names the waitable.
pub fn take_event<W: Primitives>(w: &mut W, waitable: Waitable) -> Option<Event>
    requires live { IsLiveWaitable (W.view w.old) waitable }
    ensures event { result ≡ option_map events.Subtask (event_of (waitable_in (W.view w.old).tags waitable) (W.view w.old).core) }
    ensures gone { W.view w.new ≡ on_core (set_event (waitable_in (W.view w.old).tags waitable) None) (W.view w.old) }
    ensures wakes { NoWakeLost (W.view w.old).core → NoWakeLost (W.view w.new).core }
    ensures order { has_handle waitable (W.view w.old) ≡ true → StaysInOrder (W.view w.old).core (W.view w.new).core }
{
    let subtask = subtask_of(w, waitable);
    let event = w.event(subtask);
    w.set_event(subtask, None);
    match event {
        Some(status) => Some(Event::Subtask(status)),
        None => None,
    }
}

/// Makes a waitable that has an event ready, wakes a waiter of its set, if there is one, and returns it. It is the machine's Wake,
/// and is never refused. No wake is lost by it, and order is kept.
pub fn mark_ready<W: Primitives>(
    w: &mut W,
    waitable: Waitable,
) -> Result<Option<QualifiedThreadId>, TaskError>
    requires live { IsLiveWaitable (W.view w.old) waitable }
    requires event { IsSome (event_of (waitable_in (W.view w.old).tags waitable) (W.view w.old).core) }
    requires idle { AreIdleUnqueued (W.view w.old).core }
    requires there { IsJoinThere (waitable_in (W.view w.old).tags waitable) (W.view w.old).core }
    ensures woken { MarksReady waitable (W.view w.old) result (W.view w.new) }
    ensures wakes { NoWakeLost (W.view w.old).core → NoWakeLost (W.view w.new).core }
    ensures order { StaysInOrder (W.view w.old).core (W.view w.new).core }
{
    let subtask = subtask_of(w, waitable);
    let waiter = publish_waiter(w, subtask);
    let woken = qualified_waiter(w, waiter);
    wake_member(w, subtask, waiter);
    Ok(woken)
}
