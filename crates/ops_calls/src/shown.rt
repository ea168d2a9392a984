//! Laws of an op that a host has a thread do: what it is finished with is what it answers, and what its label shows; and the
//! thread keeps its place in its script, and its registers.
ghost use Rattle.ops_calls.specs.InPlace.{HostOpsLeaveInPlace, HostLeavesInPlace, PausedLeaveInPlace, ReturnsLeaveInPlace};
ghost use Rattle.ops_calls.specs.Shown.{AnswersAreShown};

/// Whoever has an op done, its script or a host, it shows the same label, and is finished with the answer that this label shows, which is
/// what the op answers: a host gets what the script's register would get.
#[tactic(auto, using(crate::proofs::ShownLemmas::answers_are_shown))]
pub fn answers_are_shown()
    ensures { AnswersAreShown }
{}

/// Says that a thread that a host has do an op keeps its position and its registers, whether it goes on or its strand stops: so it
/// is after each call of an op by the running thread, after one that had paused was taken on, and after a return, unless it has
/// called its own task. A call of a host may give it a value.
#[tactic(auto, using(ops_dispatch::proofs::LeavesLemmas::host_leaves_in_place, crate::proofs::PlaceLemmas::host_ops_leave_in_place, crate::proofs::PlaceLemmas::returns_leave_in_place, crate::proofs::PausedPlaceLemmas::paused_leave_in_place))]
pub fn hosts_leave_in_place()
    ensures rule { HostLeavesInPlace }
    ensures asks { HostOpsLeaveInPlace }
    ensures returns { ReturnsLeaveInPlace }
    ensures paused { PausedLeaveInPlace }
{}
