//! Whose turn comes where the machine moves on without a label.
ghost use Rattle.std.specs.Prelude.{◌≡◌, is_some, true};
ghost use Rattle.machine_data.specs.Core.{Core};
ghost use Rattle.machine_rules.specs.Turns.{queues_are_empty, settled_turn};
ghost use Rattle.machine_rules.specs.Works.{next_polled};

use core_primitives::Primitives;
use machine_data::Turn;

// The turn after the works with numbers up to this one were polled, where `more` says whether one is left.
pub(crate) fn turn_where(polled: u64, more: bool) -> Turn
    ensures { (s : Core) → more ≡ is_some (next_polled polled s) → result ≡ settled_turn s (Turn.Futures polled) }
{
    if more {
        Turn::Futures { polled }
    } else {
        Turn::Take { ended: false }
    }
}

// Whether nothing is queued.
pub(crate) fn queues_are_empty<W: Primitives>(w: &W) -> bool
    ensures { result ≡ queues_are_empty (W.view w.now).core }
{
    match w.next_entry() {
        Some(_) => false,
        None => true,
    }
}

/// Returns the turn after a work has ended.
pub(crate) fn turn_after_end<W: Primitives>(w: &W) -> Turn
    ensures { result ≡ settled_turn (W.view w.now).core (Turn.Take true) }
{
    if queues_are_empty(w) {
        Turn::Main
    } else {
        Turn::Take { ended: true }
    }
}
