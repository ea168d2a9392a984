//! The Stop of a strand.
ghost use Rattle.std.specs.Prelude.{◌≡◌, ◌<◌};
ghost use Rattle.machine_data.specs.Moves.{put_switch, stopped};
ghost use Rattle.machine_data.specs.declared.records.Why.TheVariants as whys;
ghost use Rattle.core_primitives.specs.Apart.{IsSwitchUnqueued};
ghost use Rattle.ops_moves.specs.Stops.{AreCallersUnqueued, MayPass, MayStop, behind_from, resumed_from};
ghost use Rattle.core_primitives.specs.StateView.{on_core, thread_of};

use crate::feet::foot_of;
use crate::moves::{put_high, put_switch};
use crate::wakes::put_behind;
use core_primitives::{Primitives, ThreadId, WhyId};

// The callers of a foot go to high, oldest first.
fn resume_callers<W: Primitives>(w: &mut W, foot: ThreadId)
    requires live { 0 < thread_of (W.view w.old) foot }
    requires unqueued { AreCallersUnqueued (thread_of (W.view w.old) foot) (W.view w.old).core }
    ensures { W.view w.new ≡ on_core (resumed_from (thread_of (W.view w.old) foot)) (W.view w.old) }
{
    while let Some(thread) = w.pop_caller(foot) {
        put_high(w, thread, WhyId::Resumption);
    }
}

// The callers of a foot go behind another thread, oldest first.
fn pass_callers<W: Primitives>(w: &mut W, foot: ThreadId, other: ThreadId)
    requires foot { 0 < thread_of (W.view w.old) foot }
    requires other { 0 < thread_of (W.view w.old) other }
    requires may { MayPass (thread_of (W.view w.old) foot) (thread_of (W.view w.old) other) (W.view w.old).core }
    ensures { W.view w.new ≡ on_core (behind_from (thread_of (W.view w.old) foot) (thread_of (W.view w.old) other)) (W.view w.old) }
{
    while let Some(thread) = w.pop_caller(foot) {
        put_behind(w, other, thread);
    }
}

// The newest caller of a foot goes to switch. It is a function of its own, as most strands have no callers.
#[cold]
#[inline(never)]
fn resume_newest<W: Primitives>(w: &mut W, newest: ThreadId)
    requires live { 0 < thread_of (W.view w.old) newest }
    requires switch { IsSwitchUnqueued (W.view w.old).core }
    ensures { W.view w.new ≡ on_core (put_switch (thread_of (W.view w.old) newest) whys.Resumption) (W.view w.old) }
{
    put_switch(w, newest, WhyId::Resumption);
}

/// Stops the strand with this foot.
#[inline(always)]
pub fn stop<W: Primitives>(w: &mut W, foot: ThreadId)
    requires live { 0 < thread_of (W.view w.old) foot }
    requires may { MayStop (thread_of (W.view w.old) foot) (W.view w.old).core }
    ensures { W.view w.new ≡ on_core (stopped (thread_of (W.view w.old) foot)) (W.view w.old) }
{
    if let Some(thread) = w.switch() {
        let below = foot_of(w, thread);
        pass_callers(w, foot, below);
        return;
    }
    let Some(newest) = w.pop_newest_caller(foot) else {
        return;
    };
    resume_newest(w, newest);
    resume_callers(w, foot);
}
