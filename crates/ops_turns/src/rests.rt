//! What comes where nothing is there, and nothing can go on.
ghost use Rattle.std.specs.Prelude.{◌≡◌, None, false, true};
ghost use Rattle.machine_data.specs.Read.{next_entry};
ghost use Rattle.ops_guests.specs.Works.{KeepsTold};
ghost use Rattle.machine_rules.specs.Stalled.{works_rest};
ghost use Rattle.machine_rules.specs.Works.{has_live_work, has_moving_work};
ghost use Rattle.ops_turns.specs.Turn.{Deadlocks};

use crate::made::MadeStep;
use core_primitives::Primitives;
use machine_data::{Label, LoopLabel, Turn};
use ops_guests::deadlock;

/// Traps the store in a deadlock: nothing can go on, no work is live, and main waits.
pub(crate) fn step_deadlock<W: Primitives>(w: &mut W) -> MadeStep
    requires current { (W.view w.old).current ≡ None }
    requires none { next_entry (W.view w.old).core ≡ None }
    requires moving { has_moving_work (W.view w.old).core ≡ false }
    requires live { has_live_work (W.view w.old).core ≡ false }
    requires rest { works_rest (W.view w.old).core ≡ true }
    ensures turns { Deadlocks (W.view w.old) result (W.view w.new) }
    ensures current { (W.view w.new).current ≡ None }
    ensures works { KeepsTold (W.view w.old) (W.view w.new) }
{
    MadeStep {
        label: Label::Loop(deadlock(w)),
        turn: Turn::Over,
    }
}
