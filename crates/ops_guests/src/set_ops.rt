//! The ops on waitable sets.
ghost use Rattle.std.specs.Prelude.{◌≡◌, ◌+◌, ◌<◌, ◌^◌, IfOk, OnErr, is_some, true};
ghost use Rattle.machine_data.specs.Maps.{get};
ghost use Rattle.machine_data.specs.Read.{instance_of};
ghost use Rattle.ops_guests.specs.Does.{DoesRule, KeepsNames, KeepsRest};
ghost use Rattle.ops_guests.specs.Running.{SetsThere};
ghost use Rattle.machine_rules.specs.Sets.{set_drop_rule, set_new_rule};
ghost use Rattle.core_primitives.specs.StateView.{thread_of};

use crate::names::set_named;
use crate::op_result::{OpAnswer, OpResult};
use core_primitives::{NoMemory, Primitives, ThreadId};
use machine_data::{Label, SetLabel, Trap};

/// Does `set_new R`.
pub fn set_new<W: Primitives>(w: &mut W, thread: ThreadId) -> Result<OpResult, NoMemory>
    requires live { 0 < thread_of (W.view w.old) thread }
    requires there { is_some (get (W.view w.old).core.handles (instance_of (thread_of (W.view w.old) thread) (W.view w.old).core)) ≡ true }
    requires few { (W.view w.old).core.made.sets + 1 < 2 ^ 64 }
    ensures does { IfOk result (λ op_result. DoesRule KeepsNames (λ d n ch s. set_new_rule d n s) thread (W.view w.old) op_result (W.view w.new)) }
    ensures err { OnErr result (W.view w.new ≡ W.view w.old) }
{
    if !w.fits(1) {
        return Ok(OpResult::Traps(Trap::TableFull));
    }
    if w.at_handle_limit() {
        return Ok(OpResult::Traps(Trap::HandleLimit));
    }
    let number = w.number(thread);
    let instance = w.instance_of(thread);
    let handle = w.new_handle(instance);
    w.open_set(instance)?;
    Ok(OpResult::Continues(
        Label::Set(SetLabel::New(handle, number)),
        number,
        OpAnswer::Number(handle),
    ))
}

/// Does `set_drop X`.
pub fn set_drop<W: Primitives>(w: &mut W, thread: ThreadId, handle: u64) -> OpResult
    requires live { 0 < thread_of (W.view w.old) thread }
    requires sets { SetsThere (W.view w.old).core }
    ensures does { DoesRule KeepsRest (λ d n ch s. set_drop_rule d n handle s) thread (W.view w.old) result (W.view w.new) }
    ensures thread { thread_of (W.view w.new) thread ≡ thread_of (W.view w.old) thread }
{
    let number = w.number(thread);
    let instance = w.instance_of(thread);
    let Some(set) = set_named(w, instance, handle) else {
        return OpResult::Traps(Trap::BadHandle);
    };
    if w.has_waiters(set) {
        return OpResult::Traps(Trap::WaitableSetDropHasWaiters);
    }
    if w.has_member(set) {
        return OpResult::Traps(Trap::TableHasChildren);
    }
    w.close_set(instance, handle as u32, set);
    OpResult::Continues(
        Label::Set(SetLabel::Drop(number)),
        number,
        OpAnswer::Nothing,
    )
}
