//! Put, Check and the other promotions.
ghost use Rattle.ops_moves.specs.Wakes.{standing_low};
ghost use Rattle.std.specs.Prelude.{◌≡◌, ◌<◌};
ghost use Rattle.machine_data.specs.Moves.{checked, displaced, passes_check, promoted, promoted_unless, put_high, put_low, put_switch};
ghost use Rattle.core_primitives.specs.Apart.{IsSwitchUnqueued, IsUnqueued};
ghost use Rattle.core_primitives.specs.Names.{why_in};
ghost use Rattle.core_primitives.specs.StateView.{on_core, thread_of};

use core_primitives::{OpProgressId, PlaceId, Primitives, ThreadId, WhyId};
use machine_data::Mark;

/// Queues an entry at high for a thread without one.
#[tactic(auto, unfolding(machine_data::specs::Moves::put_high))]
pub fn put_high<W: Primitives>(w: &mut W, thread: ThreadId, why: WhyId)
    requires live { 0 < thread_of (W.view w.old) thread }
    requires unqueued { IsUnqueued (thread_of (W.view w.old) thread) (W.view w.old).core }
    ensures { W.view w.new ≡ on_core (put_high (thread_of (W.view w.old) thread) (why_in (W.view w.old).tags why)) (W.view w.old) }
{
    let mark = Mark::High;
    w.set_place(thread, PlaceId::Ready { mark, why });
    w.push_high(thread);
}

/// Queues an entry at low for a thread without one.
#[tactic(auto, unfolding(machine_data::specs::Moves::put_low))]
#[inline(always)]
pub fn put_low<W: Primitives>(w: &mut W, thread: ThreadId, why: WhyId)
    requires live { 0 < thread_of (W.view w.old) thread }
    requires unqueued { IsUnqueued (thread_of (W.view w.old) thread) (W.view w.old).core }
    ensures { W.view w.new ≡ on_core (put_low (thread_of (W.view w.old) thread) (why_in (W.view w.old).tags why)) (W.view w.old) }
{
    let mark = Mark::Low;
    w.set_place(thread, PlaceId::Ready { mark, why });
    w.push_low(thread);
}

/// Gives a thread without an entry one at low, and writes how far it has come in its op.
#[inline(always)]
pub fn put_low_at<W: Primitives>(w: &mut W, thread: ThreadId, why: WhyId, op_progress: OpProgressId)
    requires live { 0 < thread_of (W.view w.old) thread }
    requires unqueued { IsUnqueued (thread_of (W.view w.old) thread) (W.view w.old).core }
    ensures { W.view w.new ≡ standing_low thread why op_progress (W.view w.old) }
{
    let mark = Mark::Low;
    w.stand_at(thread, PlaceId::Ready { mark, why }, op_progress);
    w.push_low(thread);
}

// What was at switch goes to the front of high.
fn displace<W: Primitives>(w: &mut W)
    requires { IsSwitchUnqueued (W.view w.old).core }
    ensures { W.view w.new ≡ on_core (displaced (W.view w.old).core.queues.switch) (W.view w.old) }
{
    if let Some(thread) = w.switch() {
        w.set_mark(thread, Mark::High);
        w.push_high_first(thread);
    }
}

/// Gives a thread without an entry the one at switch.
#[tactic(auto, unfolding(machine_data::specs::Moves::put_switch))]
#[inline(always)]
pub fn put_switch<W: Primitives>(w: &mut W, thread: ThreadId, why: WhyId)
    requires live { 0 < thread_of (W.view w.old) thread }
    requires switch { IsSwitchUnqueued (W.view w.old).core }
    ensures { W.view w.new ≡ on_core (put_switch (thread_of (W.view w.old) thread) (why_in (W.view w.old).tags why)) (W.view w.old) }
{
    displace(w);
    let mark = Mark::Switch;
    w.set_place(thread, PlaceId::Ready { mark, why });
    w.set_switch(Some(thread));
}

/// Moves the entry of a thread to switch, which is empty.
#[tactic(auto, using(crate::proofs::MoveLemmas::promoted_is))]
#[inline(always)]
pub fn promote<W: Primitives>(w: &mut W, thread: ThreadId)
    requires { 0 < thread_of (W.view w.old) thread }
    ensures { W.view w.new ≡ on_core (promoted (thread_of (W.view w.old) thread)) (W.view w.old) }
{
    w.unqueue(thread);
    w.set_mark(thread, Mark::Switch);
    w.set_switch(Some(thread));
}

/// Moves the entry of a thread to switch, unless one is there already.
#[tactic(auto, unfolding(machine_data::specs::Moves::promoted_unless))]
pub fn promote_unless<W: Primitives>(w: &mut W, thread: ThreadId)
    requires { 0 < thread_of (W.view w.old) thread }
    ensures { W.view w.new ≡ on_core (promoted_unless (thread_of (W.view w.old) thread)) (W.view w.old) }
{
    if w.switch().is_none() {
        promote(w, thread);
    }
}

/// Returns whether a check of the instance passes.
#[tactic(auto, unfolding(machine_data::specs::Moves::passes_check))]
pub fn passes_check<W: Primitives>(w: &W, instance: u32) -> bool
    ensures { result ≡ passes_check instance (W.view w.now).core }
{
    !w.may_not_suspend(instance) || w.switch().is_some() || w.first_entry(instance).is_some()
}

/// Passes a check: if the instance may not block, its first entry moves to switch.
#[tactic(auto, unfolding(machine_data::specs::Moves::checked))]
#[inline(always)]
pub fn check<W: Primitives>(w: &mut W, instance: u32)
    ensures { W.view w.new ≡ on_core (checked instance) (W.view w.old) }
{
    if !w.may_not_suspend(instance) || w.switch().is_some() {
        return;
    }
    if let Some(thread) = w.first_entry(instance) {
        promote(w, thread);
    }
}
