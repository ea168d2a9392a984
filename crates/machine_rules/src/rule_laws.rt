ghost use Rattle.machine_rules.specs.Chains.{HostRulesAreWalks, RulesAreWalks, StepsAreWalks};
ghost use Rattle.machine_rules.specs.Laws.{EachStep, NeverFewer, SameLimits, OutcomeEnds, OverIsLast, RunGoesOn, RunsJoin, KeptByRuns, OutcomeIsLast, CheckMovesOne, PromotionMovesOne, CallbackCheckIsAfter, StopKeepsPlaces, ReleaseKeepsPlaces, WakeKeepsPlaces, RemovalKeepsPlaces, Steady, BlockingCheckIsAfter};

/// No number is given twice: no step lowers a count of what was made.
#[tactic(auto, using(crate::proofs::LawLemmas::never_fewer))]
pub fn counts_never_fall()
    ensures { EachStep NeverFewer }
{}

/// Each step keeps the limits, and leaves a trapped store trapped.
#[tactic(auto, using(crate::proofs::LawLemmas::same_limits))]
pub fn limits_stay()
    ensures { EachStep SameLimits }
{}

/// A run keeps the counts.
#[tactic(auto, using(crate::proofs::LawLemmas::runs_never_fewer))]
pub fn runs_keep_counts()
    ensures { KeptByRuns NeverFewer }
{}

/// A run keeps the limits.
#[tactic(auto, using(crate::proofs::LawLemmas::runs_same_limits))]
pub fn runs_keep_limits()
    ensures { KeptByRuns SameLimits }
{}

/// After `main answer`, a trap, a `fails` or a `deadlock` the turns are over.
#[tactic(auto, using(crate::proofs::LawLemmas::step_ends))]
pub fn outcomes_end()
    ensures { OutcomeEnds }
{}

/// Once the turns are over no label is lawful.
#[tactic(auto, using(crate::proofs::LawLemmas::step_over))]
pub fn none_after_over()
    ensures { OverIsLast }
{}

/// In a run a label that gives an outcome is the last one.
#[tactic(auto, using(crate::proofs::LawLemmas::outcome_is_last))]
pub fn outcome_is_last()
    ensures { OutcomeIsLast }
{}

/// A run goes on by one step.
#[tactic(auto, using(crate::proofs::LawLemmas::run_goes_on))]
pub fn run_goes_on()
    ensures { RunGoesOn }
{}

/// Two runs make one.
#[tactic(auto, using(crate::proofs::LawLemmas::runs_join))]
pub fn runs_join()
    ensures { RunsJoin }
{}

/// A check moves nothing, or one entry to switch; all others keep their order.
#[tactic(auto, using(crate::proofs::PromotionLemmas::check_moves_one))]
pub fn check_moves_one()
    ensures { CheckMovesOne }
{}

/// The promotion of a thread's entry moves nothing, or that entry; all others keep their order.
#[tactic(auto, using(crate::proofs::PromotionLemmas::promotion_moves_one))]
pub fn promotion_moves_one()
    ensures { PromotionMovesOne }
{}

/// Whether a callback may leave is told on the state before: it is the check after the release and
/// the stop.
#[tactic(auto, using(crate::proofs::CheckLemmas::callback_check))]
pub fn callback_check_is_after()
    ensures { CallbackCheckIsAfter }
{}

/// Where each thread has its place, a running thread that stops comes to its next place, and each
/// other one has its own: its callers, too, who go behind another thread or get entries.
#[tactic(auto, using(crate::proofs::MoveLemmas::stop_keeps_places))]
pub fn stop_keeps_places()
    ensures { StopKeepsPlaces }
{}

/// So it is where held threads are released.
#[tactic(auto, using(crate::proofs::MoveLemmas::release_keeps_places))]
pub fn release_keeps_places()
    ensures { ReleaseKeepsPlaces }
{}

/// So it is where a waiter is woken.
#[tactic(auto, using(crate::proofs::MoveLemmas::wake_keeps_places))]
pub fn wake_keeps_places()
    ensures { WakeKeepsPlaces }
{}

/// So it is where the running thread is gone.
#[tactic(auto, using(crate::proofs::MoveLemmas::removal_keeps_places))]
pub fn removal_keeps_places()
    ensures { RemovalKeepsPlaces }
{}

/// Of the numbers that were given, none comes back once it is gone, and each record stays that of
/// the same thread, call or work: a start that has run has run, an exit stays, a cancel that was
/// delivered stays so.
#[tactic(auto, using(crate::proofs::LawLemmas::steady))]
pub fn records_are_steady()
    ensures { EachStep Steady }
{}

/// A run keeps that.
#[tactic(auto, using(crate::proofs::LawLemmas::runs_steady))]
pub fn runs_are_steady()
    ensures { KeptByRuns Steady }
{}

/// Whether a blocking export may leave is the check on the state that the release and the return
/// leave, in whatever order its held threads are released.
#[tactic(auto, using(crate::proofs::CheckLemmas::blocking_check))]
pub fn blocking_check_is_after()
    ensures { BlockingCheckIsAfter }
{}

/// Each step is a chain of primitives, each done where its guard allows it; in it the running thread stays and then comes to one
/// place, once. So what each primitive keeps is kept by each step.
#[tactic(auto, using(crate::proofs::WalkSteps::step_walks))]
pub fn steps_are_walks()
    ensures { StepsAreWalks }
{}

/// So is the rule at any op that the running thread is said to have.
#[tactic(auto, using(crate::proofs::WalkSteps::rules_walk))]
pub fn rules_are_walks()
    ensures { RulesAreWalks }
{}

/// And so it is as a host has the thread do the op, wherever the thread is in its script.
#[tactic(auto, using(crate::proofs::WalkSteps::host_rules_walk))]
pub fn host_rules_are_walks()
    ensures { HostRulesAreWalks }
{}
