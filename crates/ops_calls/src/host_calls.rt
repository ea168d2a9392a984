//! The calls of a host: a start, and its finish.
ghost use Rattle.std.specs.Prelude.{◌≡◌, ◌<◌, ◌≤◌, ◌^◌, IfSome, IsSome, length};
ghost use Rattle.ops_calls.specs.MainCalls.{Finishes, Starts};
ghost use Rattle.machine_data.specs.declared.records.Turn.{Turn};
ghost use Rattle.machine_rules.specs.MainOps.{start_refusal};
ghost use Rattle.machine_rules.specs.Scripts.{export_at};
ghost use Rattle.ops_turns.specs.Turn.{CoreInOrder, given};

use core_primitives::Primitives;
use futures::task::Poll;
use machine_data::{Callee, Component, MainLabel};
use ops_guests::{Acted, finish, start};
use ops_state::TaskError;
use ops_turns::export_def;

/// Starts a call by the host with as many words as the export takes, 0 to 16, and answers the number of its thread. The call is
/// queued, and runs when a run on the store takes it. Refused with trap 20 exactly where the store is trapped, and else with trap
/// 18 exactly where its four entries don't fit into the table. Where it is refused, or it is out of memory, nothing is made, and
/// the store is trapped.
pub fn start_call<W: Primitives>(
    w: &mut W,
    component: &Component,
    callee: Callee,
    words: &[u64],
) -> Result<u64, TaskError>
    requires there { IsSome (export_at component.now callee) }
    requires words { IfSome (export_at component.now callee) (λ e. length words.now ≡ e.params) }
    requires few_words { length words.now ≤ 16 }
    requires order { (p : Turn) × CoreInOrder component.now p (W.view w.old).core }
    requires given { given (W.view w.old).core < 2 ^ 61 }
    ensures starts { Starts component.now callee words.now (W.view w.old) (start_refusal (W.view w.old).core) result (W.view w.new) }
    ensures order { (p : Turn) → CoreInOrder component.now p (W.view w.old).core → CoreInOrder component.now p (W.view w.new).core }
{
    let Some(def) = export_def(component, callee) else {
        unreachable!()
    };
    match start(w, 1, callee, def.kind, words) {
        Ok(Acted::Does(MainLabel::Start(_, thread))) => Ok(thread),
        Ok(Acted::Does(MainLabel::StartRefused(trap, _))) => Err(TaskError::Trap(trap)),
        Ok(_) => unreachable!(),
        Err(_) => {
            w.set_trapped();
            Err(TaskError::NoMemory)
        }
    }
}

/// Takes the result of a call that has returned; pending where it hasn't, and then nothing is changed. A call is finished once.
pub fn finish_call<W: Primitives>(w: &mut W, call: u64) -> Poll<u64>
    ensures finishes { Finishes call (W.view w.old) result (W.view w.new) }
    ensures order { (c : Component) → (p : Turn) → CoreInOrder c p (W.view w.old).core → CoreInOrder c p (W.view w.new).core }
{
    match w.result(call) {
        Some(value) => {
            w.take_result(call);
            Poll::Ready(value)
        }
        None => Poll::Pending,
    }
}
