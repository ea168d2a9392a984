ghost use Rattle.laws_states.specs.Rises.{ExplicitNamesNoCall, RunsRise, StepsRise, SyncEndsLast, SyncNeverCancelled};

/// A call's end is never replaced, and its status only rises: from Starting to Started to an end,
/// or to StartCancelled before its start has run.
#[tactic(auto, using(crate::proofs::CallsSteps::steps_rise))]
pub fn statuses_rise()
    ensures { StepsRise }
{}

/// So it is by each run that goes on from such a state.
#[tactic(auto, using(crate::proofs::CallsSteps::runs_rise))]
pub fn runs_rise()
    ensures { RunsRise }
{}

/// A task of a sync or a blocking export never has a cancel request delivered.
#[tactic(auto, using(crate::proofs::CallsSteps::sync_never_cancelled))]
pub fn sync_is_never_cancelled()
    ensures { SyncNeverCancelled }
{}

/// Once a task of a sync or a blocking export has ended, its first thread is gone.
#[tactic(auto, using(crate::proofs::CallsSteps::sync_ends_last))]
pub fn sync_end_is_last()
    ensures { SyncEndsLast }
{}

/// The number of a thread that a task made beside its first one names no call.
#[tactic(auto, using(crate::proofs::CallsSteps::explicit_names_no_call))]
pub fn explicit_thread_names_no_call()
    ensures { ExplicitNamesNoCall }
{}
