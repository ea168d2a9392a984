ghost use Rattle.laws_order.specs.Pieces.{PromoteKeeps, ResumeKeeps};

/// A running thread that has another one go on first, and goes on itself, leaves a state in order,
/// as it does by the two ops that let another thread go first before their own strand stops.
#[tactic(auto, using(crate::proofs::PieceLemmas::resume_keeps, crate::proofs::PieceLemmas::promote_keeps))]
pub fn first_keeps()
    ensures resume { ResumeKeeps }
    ensures promote { PromoteKeeps }
{}
