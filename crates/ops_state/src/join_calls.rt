//! The sets of waitables.
ghost use Rattle.laws_order.specs.KeptOrder.{StaysInOrder};
ghost use Rattle.std.specs.Prelude.{◌≡◌, ◌<◌, IfSome, IsSome, None, Option, Some, true};
ghost use Rattle.ops_state.specs.Named.{IsLiveWaitable, waitable_in};
ghost use Rattle.ops_state.specs.Woken.{member_woken, JoinsSet, MayJoin};
ghost use Rattle.machine_data.specs.Read.{blocked_on, subtask_handle};
ghost use Rattle.ops_moves.specs.Idle.{AreIdleUnqueued, IsJoinThere, IsWaiting};
ghost use Rattle.machine_rules.specs.Sets.{joins, may_wake_new, wakes_joined};
ghost use Rattle.core_primitives.specs.Apart.{IsUnqueued};
ghost use Rattle.core_primitives.specs.Names.{join_in, subtask_in};
ghost use Rattle.core_primitives.specs.StateView.{on_core, set_of, thread_of, set_if_any, thread_if_any};
ghost use Rattle.laws_order.specs.WakesKept.{NoWakeLost};

use crate::error::TaskError;
use crate::name_calls::{QualifiedThreadId, qualified_waiter, subtask_of};
use core_primitives::{JoinId, Primitives, SetId, SubtaskId, ThreadId};
use machine_data::Status;
use ops_moves::wake_chosen;
use task_wait::Waitable;

// The chosen waiter of the subtask's set is woken.
pub(crate) fn wake_member<W: Primitives>(w: &mut W, subtask: SubtaskId, waiter: Option<ThreadId>)
    requires there { IsJoinThere (subtask_in (W.view w.old).tags subtask) (W.view w.old).core }
    requires live { IfSome waiter (λ id. 0 < thread_of (W.view w.old) id) }
    requires unqueued { IfSome waiter (λ id. IsUnqueued (thread_of (W.view w.old) id) (W.view w.old).core) }
    ensures { W.view w.new ≡ on_core (member_woken (subtask_in (W.view w.old).tags subtask) (thread_if_any (W.view w.old) waiter)) (W.view w.old) }
{
    if let JoinId::Set(set) = w.join(subtask) {
        wake_chosen(w, set, waiter);
    }
}

// A waiter of the new set, where the subtask has an event.
#[tactic(auto, unfolding(machine_data::specs::Moves::may_wake))]
fn waiter_of_new<W: Primitives>(
    w: &W,
    event: Option<Status>,
    set: Option<SetId>,
) -> Option<ThreadId>
    requires { IfSome set (λ id. 0 < set_of (W.view w.now) id) }
    ensures choice { may_wake_new event (set_if_any (W.view w.now) set) (thread_if_any (W.view w.now) result) (W.view w.now).core ≡ true }
    ensures live { IfSome result (λ id. 0 < thread_of (W.view w.now) id) }
    ensures waits { IfSome result (λ id. IsWaiting (thread_of (W.view w.now) id) (W.view w.now).core) }
{
    match (event, set) {
        (Some(_), Some(set)) => w.first_waiter(set),
        _ => None,
    }
}

// The chosen waiter of the new set is woken, where the subtask has an event.
fn wake_new<W: Primitives>(
    w: &mut W,
    event: Option<Status>,
    set: Option<SetId>,
    waiter: Option<ThreadId>,
)
    requires live { IfSome waiter (λ id. 0 < thread_of (W.view w.old) id) }
    requires unqueued { IfSome waiter (λ id. IsUnqueued (thread_of (W.view w.old) id) (W.view w.old).core) }
    ensures { W.view w.new ≡ on_core (wakes_joined event (set_if_any (W.view w.old) set) (thread_if_any (W.view w.old) waiter)) (W.view w.old) }
{
    if let (Some(_), Some(set)) = (event, set) {
        wake_chosen(w, set, waiter);
    }
}

// The set as a join, or none.
fn joins<W: Primitives>(w: &W, set: Option<SetId>) -> JoinId
    ensures { join_in (W.view w.now).tags result ≡ joins (set_if_any (W.view w.now) set) }
{
    // only the contract speaks of `w`
    let _w = w;
    match set {
        None => JoinId::Nowhere,
        Some(set) => JoinId::Set(set),
    }
}

/// Takes a waitable on which no thread is blocked out of its set, and joins it to this one, if one is given: a set that a guest
/// made, whose members have handles. Where it has an event it is ready there, and a waiter of the set, if there is one, is woken
/// and answered. It is never refused, and no wake is lost by it. Order is kept where no op cancels the waitable and a handle of the
/// set's instance names it.
pub fn join<W: Primitives>(
    w: &mut W,
    waitable: Waitable,
    set: Option<SetId>,
) -> Result<Option<QualifiedThreadId>, TaskError>
    requires live { IsLiveWaitable (W.view w.old) waitable }
    requires set { IfSome set (λ id. 0 < set_of (W.view w.old) id) }
    requires unblocked { blocked_on (waitable_in (W.view w.old).tags waitable) (W.view w.old).core ≡ None }
    requires handle { IfSome set (λ id. IsSome (subtask_handle (waitable_in (W.view w.old).tags waitable) (W.view w.old).core)) }
    requires idle { AreIdleUnqueued (W.view w.old).core }
    ensures woken { JoinsSet waitable set (W.view w.old) result (W.view w.new) }
    ensures wakes { NoWakeLost (W.view w.old).core → NoWakeLost (W.view w.new).core }
    ensures order { MayJoin waitable set (W.view w.old) → StaysInOrder (W.view w.old).core (W.view w.new).core }
{
    let subtask = subtask_of(w, waitable);
    let event = w.event(subtask);
    let waiter = waiter_of_new(w, event, set);
    let woken = qualified_waiter(w, waiter);
    let to = joins(w, set);
    w.set_join(subtask, to);
    wake_new(w, event, set, waiter);
    Ok(woken)
}
