ghost use Rattle.laws_order.specs.Given.{GivenDone, GivenKeeps, GivenSteps, HostCallsDone, HostCallsKeep, HostDone, HostInstances, HostKeeps, HostLosesNone, HostSteps, SameSteps};

/// What speaks of the op of a thread takes an assignment of ops to threads. In a run that is the op at each one's place: a step of a
/// run is one in which each thread has that op, and back.
#[tactic(auto, using(crate::proofs::GivenLemmas::same_steps))]
pub fn steps_have_own_ops()
    ensures { SameSteps }
{}

/// An op that the running thread has, which need not be the one at its place, keeps order in the ops that threads have then: one that
/// was under way, and any that it begins. Once it is done, and none is under way, the state is in order.
#[tactic(auto, using(crate::proofs::GivenLemmas::given_steps, crate::proofs::GivenLemmas::given_keeps, crate::proofs::GivenLemmas::given_done))]
pub fn given_ops_keep_order()
    ensures goes_on { GivenSteps }
    ensures begins { GivenKeeps }
    ensures done { GivenDone }
{}

/// So does one that a host has the running thread do, wherever that thread is in its script, also at its end, and no wake is lost by
/// it. Once it is done the state is in order, as it is.
#[tactic(auto, using(crate::proofs::GivenLemmas::host_steps, crate::proofs::GivenLemmas::host_keeps, crate::proofs::HostLemmas::host_loses_none, crate::proofs::HostLemmas::host_done, crate::proofs::HostCallLemmas::host_instances))]
pub fn host_ops_keep_order()
    ensures goes_on { HostSteps }
    ensures begins { HostKeeps }
    ensures wakes { HostLosesNone }
    ensures done { HostDone }
    ensures instances { HostInstances }
{}

/// So does a call of a host that a host has it make, also of one that is none of the component's. Once it is done the state is in
/// order, as it is.
#[tactic(auto, using(crate::proofs::HostCallLemmas::host_calls_keep, crate::proofs::HostLemmas::host_calls_done))]
pub fn host_calls_keep_order()
    ensures keeps { HostCallsKeep }
    ensures done { HostCallsDone }
{}
