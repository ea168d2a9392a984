//! The ops on waitable sets.
ghost use Rattle.ops_dispatch.specs.Continues.{given, MayDoOp};
ghost use Rattle.ops_dispatch.specs.Makes.{takes_memory};
ghost use Rattle.ops_dispatch.specs.Rules.{waits_here};
ghost use Rattle.ops_dispatch.specs.Runner.{HasHandleTable, Runner};
ghost use Rattle.std.specs.Prelude.{◌≡◌, ◌<◌, ◌^◌, OnErr, true};
ghost use Rattle.machine_data.specs.declared.op.Op.TheVariants as ops;
ghost use Rattle.ops_guests.specs.Does.{DoesRule, SameNames};
ghost use Rattle.ops_guests.specs.Works.{KeepsTold};
ghost use Rattle.machine_rules.specs.Sets.{set_rule};

use core_primitives::{OpProgressId, Primitives, ThreadId};
use machine_data::{NoMemory, SetOp};
use ops_guests::{OpResult, begin_wait, go_on_waiting, poll, set_drop, set_new, value_of};
use ops_subtasks::join;

// `wait R X`, resumed inside it or as it begins.
fn wait<W: Primitives>(w: &mut W, thread: ThreadId, handle: u64) -> OpResult
    requires runner { Runner thread (W.view w.old) }
    ensures does { DoesRule SameNames (waits_here handle) thread (W.view w.old) result (W.view w.new) }
{
    w.none_is_zero();
    match w.op_progress(thread) {
        OpProgressId::Waits(set) => go_on_waiting(w, thread, set),
        _ => begin_wait(w, thread, handle),
    }
}

/// Does an op on waitable sets. If it is out of memory, all is as before.
pub(crate) fn do_set_op<W: Primitives>(
    w: &mut W,
    thread: ThreadId,
    op: SetOp,
) -> Result<OpResult, NoMemory>
    requires runner { Runner thread (W.view w.old) }
    requires handles { HasHandleTable thread (W.view w.old) }
    requires few { takes_memory (ops.Set op) ≡ true → given (W.view w.old).core < 2 ^ 61 }
    ensures does { MayDoOp KeepsTold (λ d n ch s. set_rule d n s ch op) thread (W.view w.old) result (W.view w.new) }
    ensures err { OnErr result ((takes_memory (ops.Set op) ≡ true) × (W.view w.new ≡ W.view w.old)) }
{
    match op {
        SetOp::New { to: _ } => set_new(w, thread),
        SetOp::Drop { set } => {
            let handle = value_of(w, thread, set);
            Ok(set_drop(w, thread, handle))
        }
        SetOp::Wait { to: _, set } => {
            let handle = value_of(w, thread, set);
            Ok(wait(w, thread, handle))
        }
        SetOp::Poll { to: _, set } => {
            let handle = value_of(w, thread, set);
            Ok(poll(w, thread, handle))
        }
        SetOp::Join { waitable, set } => {
            let waitable = value_of(w, thread, waitable);
            let set = value_of(w, thread, set);
            Ok(join(w, thread, waitable, set))
        }
    }
}
