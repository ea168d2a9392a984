//! The Stop of a strand.
ghost use Rattle.std.specs.Prelude.{◌≡◌, Ok};
ghost use Rattle.ops_state.specs.Named.{IsLive};
ghost use Rattle.machine_data.specs.Moves.{stopped};
ghost use Rattle.ops_moves.specs.Stops.{MayStop};
ghost use Rattle.core_primitives.specs.StateView.{on_core, thread_of};
ghost use Rattle.laws_order.specs.WakesKept.{NoWakeLost};
ghost use Rattle.ops_state.specs.Stopping.{StopsInOrder};

use crate::error::TaskError;
use crate::name_calls::QualifiedThreadId;
use core_primitives::Primitives;

/// Stops the strand with this foot: its callers go behind the foot of the entry at switch, if one is there; else the newest gets
/// that entry, and the others get theirs at high, oldest first. The entry at switch is of no thread whose foot this is. It is the
/// machine's Stop, and is never refused. No wake is lost by it. Order is kept while no thread runs and nothing is in hand that was
/// at switch.
pub fn stop<W: Primitives>(w: &mut W, foot: QualifiedThreadId) -> Result<(), TaskError>
    requires live { IsLive (W.view w.old) foot }
    requires may { MayStop (thread_of (W.view w.old) foot.thread) (W.view w.old).core }
    ensures answer { result ≡ Ok tt }
    ensures stopped { W.view w.new ≡ on_core (stopped (thread_of (W.view w.old) foot.thread)) (W.view w.old) }
    ensures wakes { NoWakeLost (W.view w.old).core → NoWakeLost (W.view w.new).core }
    ensures order { StopsInOrder (W.view w.old).core (W.view w.new).core }
{
    ops_moves::stop(w, foot.thread);
    Ok(())
}
