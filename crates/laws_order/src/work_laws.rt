ghost use Rattle.laws_order.specs.Works.{NoWorkEndIsCovered, WorkEndsAreSaid, WorkEndsHandedAsTold, WorkEndsToldAsRecorded, WrittenWorkEndsAreNew};

/// In a state that a run reach, an end that a host work has still to hand out is that in its record; the work is of an async call,
/// and its entry was taken.
#[tactic(auto, using(crate::proofs::WorkEnds::told_as_recorded))]
pub fn work_ends_are_told_as_recorded()
    ensures { WorkEndsToldAsRecorded }
{}

/// From such a state no step puts another end in place of one that a host work has still to hand out.
#[tactic(auto, using(crate::proofs::WorkEnds::no_end_is_covered))]
pub fn no_work_end_is_covered()
    ensures { NoWorkEndIsCovered }
{}

/// A host work comes to its end only by a step whose label says that it writes it, and has it to hand out from the step on
/// that takes the work's entry.
#[tactic(auto, using(crate::proofs::WorkEnds::ends_are_said))]
pub fn work_ends_are_said()
    ensures { WorkEndsAreSaid }
{}

/// From such a state a step hands out an end of a host work only where the work had it to hand out, and has it no more, where
/// it answers the sync call that waited for the work, which had ended and is gone, or where the label says that the step
/// writes it too.
#[tactic(auto, using(crate::proofs::WorkEnds::handed_as_told))]
pub fn work_ends_are_handed_as_told()
    ensures { WorkEndsHandedAsTold }
{}

/// From such a state a step whose label says that it writes the end of a host work finds it without one.
#[tactic(auto, using(crate::proofs::WorkEnds::written_are_new))]
pub fn written_work_ends_are_new()
    ensures { WrittenWorkEndsAreNew }
{}
