//! When the turns of a run stop, though it could go on.
ghost use Rattle.std.specs.Prelude.{◌≡◌, ◌&&◌, Bool, false, true};
ghost use Rattle.laws_labels.specs.Own.{rests_by};
ghost use Rattle.run_trace.specs.YieldBudget.{counted, unless_yielded, yields_before};

use crate::yield_budget::{YieldBudget, rests};
use machine_data::{Mark, Turn};

/// Says when the turns of a run stop, though it could go on. A turn pays nothing for it, as a loop is built for each policy.
pub trait Policy {
    // Whether they stop where a poll yields or rests.
    ghost YIELDS: { Bool };

    /// Whether they stop where a poll yields or rests.
    const YIELDS: bool;
}

/// Says that they don't: the run is driven.
pub struct Driven {}

impl Policy for Driven {
    ghost YIELDS = { false };

    const YIELDS: bool = false;
}

/// Says that they do: the run is polled.
pub struct Polled {}

impl Policy for Polled {
    ghost YIELDS = { true };

    const YIELDS: bool = true;
}

/// Tells whether the turns stop before an entry of this mark is taken, or none.
#[inline(always)]
pub fn yields_by<P: Policy>(yield_budget: YieldBudget, next: Option<Mark>) -> bool
    ensures { result ≡ (P.YIELDS && yields_before yield_budget.passes yield_budget.since next) }
{
    P::YIELDS && yield_budget.yields(next)
}

/// Tells whether the turns stop after a turn before which an entry of this mark is next, or none.
#[inline(always)]
pub fn rests_with<P: Policy>(turn: Turn, next: Option<Mark>) -> bool
    ensures { result ≡ (P.YIELDS && rests_by turn next) }
{
    P::YIELDS && rests(turn, next)
}

/// Counts a step that took an entry of this mark, or none, before which the turns didn't stop. Nothing is counted if they never do.
#[inline(always)]
pub fn spent_by<P: Policy>(yield_budget: YieldBudget, mark: Option<Mark>) -> YieldBudget
    requires { (P.YIELDS && yields_before yield_budget.passes yield_budget.since mark) ≡ false }
    ensures kept { P.YIELDS ≡ false → result ≡ yield_budget }
    ensures since { P.YIELDS ≡ true → result.since ≡ counted yield_budget.since mark }
    ensures passes { P.YIELDS ≡ true → result.passes ≡ false }
{
    if P::YIELDS {
        return yield_budget.after(mark);
    }
    yield_budget
}

/// Ends the count if the turns stop because no steps are left, and keeps it if the run ends or nothing can go on. No turn was made by that.
/// Nothing is counted if they never stop.
#[inline(always)]
pub fn ended_by<P: Policy>(yield_budget: YieldBudget, used_up: bool) -> YieldBudget
    ensures kept { P.YIELDS ≡ false → result ≡ yield_budget }
    ensures since { P.YIELDS ≡ true → result.since ≡ unless_yielded used_up yield_budget.since }
    ensures passes { P.YIELDS ≡ true → result.passes ≡ false }
{
    if !P::YIELDS {
        return yield_budget;
    }
    if used_up {
        return YieldBudget::yielded(false);
    }
    yield_budget.after(None)
}
