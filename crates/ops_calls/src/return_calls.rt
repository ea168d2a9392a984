//! The return of a guest's task.
ghost use Rattle.std.specs.Prelude.{◌≡◌, Some};
ghost use Rattle.ops_calls.specs.MainCalls.{Returns, answer_of, is_own_type};
ghost use Rattle.machine_data.specs.declared.records.Turn.{Turn};
ghost use Rattle.ops_turns.specs.WellFormed.{IsWellFormed};
ghost use Rattle.ops_turns.specs.Turn.{CoreInOrder, running_of};

use crate::host_ops::leave;
use core_primitives::Primitives;
use machine_data::Component;
use ops_guests::{OpResult, ret, ret_bad};
use ops_state::TaskError;

// A call that trapped is refused.
fn answer(op_result: OpResult) -> Result<(), TaskError>
    ensures { result ≡ answer_of op_result }
{
    match op_result {
        OpResult::Traps(trap) => Err(TaskError::Trap(trap)),
        _ => Ok(()),
    }
}

/// Tells whether these are the type, the encoding and the memory of the lifted function, as `task_return` takes them: all three are 0.
pub fn is_own_type(ty: u32, encoding: u32, memory: u32) -> bool
    ensures { result ≡ is_own_type ty encoding memory }
{
    if ty != 0 {
        return false;
    }
    if encoding != 0 {
        return false;
    }
    memory == 0
}

/// Does `task.return`: the task of the current thread, which has this number, ends as returned with the value, and the thread goes
/// on; its registers and its place in its script stay. The type, the encoding and the memory are those of the lifted function where
/// all three are 0. Refused with trap 1 exactly where the task has ended, and else with trap 3 exactly where they aren't 0; nothing
/// is changed then.
pub fn task_return<W: Primitives>(
    w: &mut W,
    component: &Component,
    number: u64,
    ty: u32,
    encoding: u32,
    memory: u32,
    value: u64,
) -> Result<(), TaskError>
    requires covered { IsWellFormed component.now }
    requires order { CoreInOrder component.now (Turn.Run number) (W.view w.old).core }
    requires runs { running_of (W.view w.old) ≡ Some number }
    ensures returns { Returns number value (is_own_type ty encoding memory) (W.view w.old) result (W.view w.new) }
{
    // only the contract speaks of `component`
    let _component = component;
    w.none_is_zero();
    let Some(thread) = w.current() else {
        unreachable!()
    };
    if ty != 0 || encoding != 0 || memory != 0 {
        return answer(ret_bad(w, thread));
    }
    let op_result = ret(w, thread, value);
    leave(w, thread, op_result);
    answer(op_result)
}
