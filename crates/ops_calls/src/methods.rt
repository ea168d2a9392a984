ghost use Rattle.ops_calls.specs.Methods.{EntersKeep, ExitsKeep, PreparesKeep, PreparesMake};
ghost use Rattle.ops_calls.specs.Methods.{HostOpsKeep, HostsKeep, OpsKeep, ResumesKeep, ReturnsKeep, StartsKeep};

/// A thread that has another one go on, first or later, by its handle, keeps order, and so does a refusal.
#[tactic(auto, using(crate::proofs::MethodLemmas::resumes_keep))]
pub fn resumes_keep()
    ensures { ResumesKeep }
{}

/// A return keeps order, wherever its thread is, and so does a refusal.
#[tactic(auto, using(crate::proofs::MethodLemmas::returns_keep))]
pub fn returns_keep()
    ensures { ReturnsKeep }
{}

/// The exit of a direct call keeps order, whatever the op at the place of its thread is. A direct call, with any words, keeps order in
/// which its caller has a sync call of that export, wherever it is in its script; a refusal keeps order as it is.
#[tactic(auto, using(crate::proofs::MethodLemmas::exits_keep, crate::proofs::MethodLemmas::enters_keep))]
pub fn directs_keep()
    ensures exit { ExitsKeep }
    ensures enter { EntersKeep }
{}

/// A call that is prepared keeps order, whatever the op at the place of its caller is. Its start, whatever was done in between, keeps
/// order in which the caller has an op that calls an export, where nothing has become of the call.
#[tactic(auto, using(crate::proofs::MethodLemmas::prepares_keep, crate::proofs::MethodLemmas::prepares_make, crate::proofs::MethodLemmas::starts_keep))]
pub fn calls_keep()
    ensures prepare { PreparesKeep }
    ensures prepared { PreparesMake }
    ensures start { StartsKeep }
{}

/// An op that a host has the thread do, but one on registers and memory cells or one that ends an activation, keeps order in which
/// the thread has that op, wherever the thread is in its script. An op of `is_host_op` (no export, no host, no end, not plain), and a
/// call of a host, which need be none of the component's, leaves the state in order where it is done or refused.
#[tactic(auto, using(crate::proofs::DidLemmas::ops_keep, crate::proofs::DidLemmas::hosts_keep, crate::proofs::DidLemmas::host_ops_keep))]
pub fn host_ops_keep()
    ensures op { OpsKeep }
    ensures host { HostsKeep }
    ensures asked { HostOpsKeep }
{}
