ghost use Rattle.laws_beside.specs.Courses.{HasOutcome, OpenRunsGoOn, RoundBegins, RoundEnds, RoundGoes, RoundsAreCut, RunOpens, RunsAdd, StepsAdd};

/// A run beside aborters begins at the opening of its scenario.
pub fn run_opens()
    ensures { RunOpens }
{}

/// The machine's own run of one step, or of none, is added to a run beside aborters.
pub fn runs_add()
    ensures { RunsAdd }
{}

/// So is a step beside it.
pub fn steps_add()
    ensures { StepsAdd }
{}

/// A run that has come to no end goes on.
pub fn open_runs_go_on()
    ensures { OpenRunsGoOn }
{}

/// What a run outside its last round has resulted in is its outcome.
pub fn has_outcome()
    ensures { HasOutcome }
{}

/// The last round begins where the run is idle before it.
pub fn round_begins()
    ensures { RoundBegins }
{}

/// In it the next spawned work is polled: it pends, or ends without a value.
pub fn round_goes()
    ensures { RoundGoes }
{}

/// Past it the run goes on.
pub fn round_ends()
    ensures { RoundEnds }
{}

/// Where no step is left for it, the steps are used up.
pub fn rounds_are_cut()
    ensures { RoundsAreCut }
{}
