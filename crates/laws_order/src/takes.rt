ghost use Rattle.laws_order.specs.Moves.{RunsMoveEntries, RunsTakeInTurn, StepsMoveEntries};

/// A step changes what is at the marks by single moves alone. The entry that is next in its turn is taken, and no other; one comes
/// to the end of high or of low, or a thread to switch, from where one that was there goes to the front of high; one moves to
/// switch where none is there; or one goes whose start the label says is withdrawn.
#[tactic(auto, using(crate::proofs::StepMoves::steps_move_entries))]
pub fn steps_move_entries()
    ensures { StepsMoveEntries }
{}

/// So does a run, by the moves of its steps, one after another.
#[tactic(auto, using(crate::proofs::RunMoves::runs_move_entries))]
pub fn runs_move_entries()
    ensures { RunsMoveEntries }
{}

/// Of the entries that come to no switch and aren't withdrawn in a run, those that it takes from a mark, and then those that are
/// there at its end, are those that were there at its start, and then those that came to it, in that order.
#[tactic(auto, using(crate::proofs::RunMoves::runs_take_in_turn))]
pub fn runs_take_in_turn()
    ensures { RunsTakeInTurn }
{}
