ghost use Rattle.std.specs.Prelude.{◌≡◌, ◌≤◌, drop, false, true};
ghost use Rattle.laws_labels.specs.Own.{rests_by};
ghost use Rattle.run_trace.specs.YieldBudget.{counted, counted_past, since_driven, yields_before};

use crate::PackedLabels;
use machine_data::{Mark, Turn};

/// Tells whether a turn rests before which an entry of this mark is next, or none: only one that takes entries does, where none is
/// there.
#[inline(always)]
pub fn rests(turn: Turn, next: Option<Mark>) -> bool
    ensures { result ≡ rests_by turn next }
{
    match turn {
        Turn::Take { ended: _ } => next.is_none(),
        _ => false,
    }
}

/// How far a run has come since it last yielded.
#[derive(Clone, Copy)]
pub struct YieldBudget {
    // How many entries its polls have taken since then.
    since: u32,
    // Whether the next step takes whichever entry is there.
    passes: bool,
    ghost few: { since ≤ 128 },
    ghost fresh: { passes ≡ true → since ≡ 0 },
}

impl YieldBudget {
    /// Makes the budget of a run that begins.
    pub fn new() -> Self
        ensures since { result.since ≡ 0 }
        ensures passes { result.passes ≡ false }
    {
        YieldBudget {
            since: 0,
            passes: false,
        }
    }

    /// Returns the budget of a run that has yielded: before an entry, which is then taken, or else as its steps were used up.
    pub fn yielded(before: bool) -> Self
        ensures since { result.since ≡ 0 }
        ensures passes { result.passes ≡ before }
    {
        YieldBudget {
            since: 0,
            passes: before,
        }
    }

    /// Returns whether the run yields before an entry of this mark; before none it doesn't.
    pub fn yields(self, mark: Option<Mark>) -> bool
        ensures { result ≡ yields_before self.passes self.since mark }
    {
        if self.passes {
            return false;
        }
        match mark {
            Some(Mark::Low) => true,
            Some(_) => self.since >= 128,
            None => false,
        }
    }

    /// Returns the budget after a step that took an entry of this mark, or none. The run didn't yield before it.
    pub fn after(self, mark: Option<Mark>) -> Self
        requires { yields_before self.passes self.since mark ≡ false }
        ensures since { result.since ≡ counted self.since mark }
        ensures passes { result.passes ≡ false }
    {
        let since = match mark {
            Some(_) => self.since + 1,
            None => self.since,
        };
        YieldBudget {
            since,
            passes: false,
        }
    }

    /// Returns the budget after a step that took an entry of this mark, or none, where the run is polled on if it yields before
    /// that entry.
    pub fn past(self, mark: Option<Mark>) -> Self
        ensures since { result.since ≡ counted_past self.passes self.since mark }
        ensures passes { result.passes ≡ false }
    {
        if self.yields(mark) {
            return YieldBudget::yielded(true).after(mark);
        }
        self.after(mark)
    }
    /// Returns the budget after the steps whose labels are in the trace from this index on, where the run is polled on wherever it
    /// yields.
    pub fn driven(self, trace: &PackedLabels, from: usize) -> Self
        ensures since { result.since ≡ since_driven self.passes self.since (drop from trace.now.labels) }
        ensures passes { result.passes ≡ false }
    {
        let mut yield_budget = self;
        'labels: for place in from..trace.len() {
            yield_budget = yield_budget.past(trace.mark(place));
        }
        yield_budget.past(None)
    }
}
