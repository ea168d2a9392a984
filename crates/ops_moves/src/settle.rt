//! What the end of a thread settles.
ghost use Rattle.std.specs.Prelude.{◌≡◌, ◌<◌};
ghost use Rattle.machine_data.specs.Moves.{call_settled, interest_settled};
ghost use Rattle.core_primitives.specs.StateView.{call_of, on_core};
ghost use Rattle.core_primitives.specs.Records.{LosesCallBy};

use core_primitives::{CallId, Primitives};

/// Takes a task that has exited and ended out of those that the host waits for.
#[tactic(auto, unfolding(machine_data::specs::Moves::interest_settled))]
pub fn settle_interest<W: Primitives>(w: &mut W, call: CallId)
    ensures { W.view w.new ≡ on_core (interest_settled (call_of (W.view w.old) call)) (W.view w.old) }
{
    if w.is_finished(call) {
        w.set_uninteresting(call);
    }
}

/// Deletes the call if nothing keeps it.
#[tactic(auto, using(crate::proofs::MoveLemmas::no_thread_left, crate::proofs::MoveLemmas::keeps_all), unfolding(machine_data::specs::Moves::call_settled))]
#[inline(always)]
pub fn settle_call<W: Primitives>(w: &mut W, call: CallId)
    requires { 0 < call_of (W.view w.old) call }
    ensures { LosesCallBy call_settled call (W.view w.old) (W.view w.new) }
{
    if w.is_deletable(call) {
        w.delete_call(call);
    }
}
