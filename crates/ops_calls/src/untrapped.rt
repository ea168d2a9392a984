//! A start by the host that leaves the store untrapped where it is refused.
ghost use Rattle.std.specs.Prelude.{◌≡◌, ◌<◌, ◌≤◌, ◌^◌, IfSome, IsSome, length};
ghost use Rattle.ops_calls.specs.Untrapped.{StartsUntrapped};
ghost use Rattle.machine_data.specs.declared.records.Turn.{Turn};
ghost use Rattle.machine_rules.specs.MainOps.{start_refusal};
ghost use Rattle.machine_rules.specs.Scripts.{export_at};
ghost use Rattle.ops_turns.specs.Turn.{CoreInOrder, given};

use core_primitives::Primitives;
use machine_data::{Callee, Component, MainLabel, Trap};
use ops_guests::{Acted, start};
use ops_state::TaskError;
use ops_turns::export_def;

/// Returns why a start by the host is refused: with trap 20 if the store is trapped, and else with trap 18 where its four entries
/// don't fit into the table.
#[tactic(auto, unfolding(machine_rules::specs::MainOps::start_refusal))]
pub fn start_refusal<W: Primitives>(w: &W) -> Option<Trap>
    ensures { result ≡ start_refusal (W.view w.now).core }
{
    if w.trapped() {
        return Some(Trap::CannotEnterComponent);
    }
    if w.fits(4) {
        return None;
    }
    Some(Trap::TableFull)
}

/// Starts a call by the host with as many words as the export takes, 0 to 16, and answers the number of its thread. Refused with
/// trap 20 exactly where the store is trapped, and else with trap 18 exactly where its four entries don't fit into the table. Where
/// it is refused, or it is out of memory, all is as before: the store isn't trapped by that.
pub fn start_untrapped<W: Primitives>(
    w: &mut W,
    component: &Component,
    callee: Callee,
    words: &[u64],
) -> Result<u64, TaskError>
    requires there { IsSome (export_at component.now callee) }
    requires words { IfSome (export_at component.now callee) (λ e. length words.now ≡ e.params) }
    requires few_words { length words.now ≤ 16 }
    requires order { (p : Turn) × CoreInOrder component.now p (W.view w.old).core }
    requires given { given (W.view w.old).core < 2 ^ 61 }
    ensures starts { StartsUntrapped component.now callee words.now (W.view w.old) (start_refusal (W.view w.old).core) result (W.view w.new) }
    ensures order { (p : Turn) → CoreInOrder component.now p (W.view w.old).core → CoreInOrder component.now p (W.view w.new).core }
{
    let Some(def) = export_def(component, callee) else {
        unreachable!()
    };
    if let Some(trap) = start_refusal(w) {
        return Err(TaskError::Trap(trap));
    }
    match start(w, 1, callee, def.kind, words) {
        Ok(Acted::Does(MainLabel::Start(_, thread))) => Ok(thread),
        Ok(_) => unreachable!(),
        Err(_) => Err(TaskError::NoMemory),
    }
}
