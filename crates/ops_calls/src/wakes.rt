ghost use Rattle.ops_calls.specs.MethodWakes.{EntersLose, HostsLose, OpsLoseNone, StartsLose};

/// An op that a host has the running thread do, where none of it is under way, loses no wake, as far as it came, wherever the
/// thread is in its script: any op but one on registers and memory cells or one that ends an activation.
#[tactic(auto, using(crate::proofs::WakeLemmas::ops_lose_none))]
pub fn ops_lose_none()
    ensures { OpsLoseNone }
{}

/// A call that was started after it was prepared, a direct call and a call of a host lose no wake,
/// wherever the thread is; nor does a refusal.
#[tactic(auto, using(crate::proofs::CallLemmasMethods::starts_lose, crate::proofs::CallLemmasMethods::enters_lose, crate::proofs::WakeLemmas::hosts_lose))]
pub fn calls_lose_none()
    ensures start { StartsLose }
    ensures enter { EntersLose }
    ensures host { HostsLose }
{}
