ghost use Rattle.laws_order.specs.Pieces.{ExitKeeps, RegisterKeeps};

/// The exit of a direct call, whatever the op at the place of its thread is, leaves a state in order,
/// and so does the write of a register before it.
#[tactic(auto, using(crate::proofs::EndLemmas::exit_keeps, crate::proofs::EndLemmas::register_keeps))]
pub fn exits_keep()
    ensures exit { ExitKeeps }
    ensures register { RegisterKeeps }
{}
