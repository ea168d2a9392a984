ghost use Rattle.laws_beside.specs.Laws.{OutcomesAreWide, RunsAreDue, RunsAreWide, WideRunGoesOn, WideRunsJoin};

/// A run beside aborters goes on by one step.
#[tactic(auto, using(crate::proofs::WideLemmas::wide_run_goes_on))]
pub fn wide_run_goes_on()
    ensures { WideRunGoesOn }
{}

/// Two runs beside aborters make one.
#[tactic(auto, using(crate::proofs::WideLemmas::wide_runs_join))]
pub fn wide_runs_join()
    ensures { WideRunsJoin }
{}

/// A run of the machine is one beside aborters, where no last round is to come.
#[tactic(auto, using(crate::proofs::WideLemmas::runs_are_wide))]
pub fn runs_are_wide()
    ensures { RunsAreWide }
{}

/// And it results in the same outcome.
#[tactic(auto, using(crate::proofs::WideLemmas::outcomes_are_wide))]
pub fn outcomes_are_wide()
    ensures { OutcomesAreWide }
{}

/// A run of the machine that never ends as a deadlock is one before the last round, which begins where it stalls.
#[tactic(auto, using(crate::proofs::DueLemmas::runs_are_due))]
pub fn runs_are_due()
    ensures { RunsAreDue }
{}
