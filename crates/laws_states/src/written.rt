ghost use Rattle.laws_states.specs.Written.{EndsHandedAsTold, EndsToldAsRecorded, EndsWrittenOnce, NewEndsAreSaid, NewResultsAreSaid, NoEndIsCovered, WrittenEndsAreNew};

/// In each run that goes on from a reached state the end in the record of a call, and in that of a
/// host work, is written at most once.
#[tactic(auto, using(crate::proofs::WrittenLaws::ends_written_once))]
pub fn ends_are_written_once()
    ensures { EndsWrittenOnce }
{}

/// In each reached state an end that a call has still to hand out is that of its record, and not
/// that of a start that was withdrawn.
#[tactic(auto, using(crate::proofs::CallEnds::told_as_recorded))]
pub fn ends_are_told_as_recorded()
    ensures { EndsToldAsRecorded }
{}

/// From a reached state no step puts another end in place of one that a call has still to hand out.
#[tactic(auto, using(crate::proofs::WrittenLaws::no_end_is_covered))]
pub fn no_end_is_covered()
    ensures { NoEndIsCovered }
{}

/// From a reached state an end comes to be handed out by a call only with a label that says that
/// the step writes it.
#[tactic(auto, using(crate::proofs::WrittenLaws::new_ends_are_said))]
pub fn new_ends_are_said()
    ensures { NewEndsAreSaid }
{}

/// So does a result for main.
#[tactic(auto, using(crate::proofs::WrittenLaws::new_results_are_said))]
pub fn new_results_are_said()
    ensures { NewResultsAreSaid }
{}

/// A step hands out an end of a call where the call had it to hand out, where its result was there
/// for main, or where the label says that the step writes it; and it is there no more.
#[tactic(auto, using(crate::proofs::WrittenLaws::ends_handed_as_told))]
pub fn ends_are_handed_as_told()
    ensures { EndsHandedAsTold }
{}

/// From a reached state a step whose label says that it writes the end of a call finds it without
/// one.
#[tactic(auto, using(crate::proofs::WrittenLaws::written_ends_are_new))]
pub fn written_ends_are_new()
    ensures { WrittenEndsAreNew }
{}
