//! Laws of labels: what the label of a step says of who made it and of the turn after it, by which traps steps end, which group
//! a step works on, and what it tells of groups. Each function here is the statement of a law.
#![tactic(auto)]

mod laws_of_labels;

ghost use Rattle.laws_labels.specs.Tells.{DataRunsTellNothing, DataTellsNothing, GroupStays, MainSpares, NoticesTold, RunsTellOn, StepsTell};

pub use laws_of_labels::{
    ends_are_of_rules, ends_take_none, goings_show_next, main_at_its_turns, takings_show_marks,
};
/// In each turn but main's no group is made, and what a step tells of a work is told of the one that the turn polls or whose
/// entry it takes.
#[tactic(auto, using(crate::proofs::StepTells::steps_tell))]
pub fn steps_tell()
    ensures { StepsTell }
{}
/// So the notices of a step are known from the groups of the turn before it, and from the groups after it.
#[tactic(auto, using(crate::proofs::StepTells::notices_told))]
pub fn notices_are_told()
    ensures { NoticesTold }
{}
/// An op on registers and memory cells tells groups nothing and leaves the thread running, and a run of such ops tells nothing.
pub fn data_tells_nothing()
    ensures steps { DataTellsNothing }
    ensures runs { DataRunsTellNothing }
{}
/// What a run tells and then what a run from its last state tells is told by a run of both.
#[tactic(auto, using(crate::proofs::RunTells::runs_tell_on))]
pub fn runs_tell_on()
    ensures { RunsTellOn }
{}
/// Whatever steps are made, a thread that is there before and after, as its call is, is of the same group.
#[tactic(auto, using(crate::proofs::GroupLemmas::group_stays))]
pub fn groups_stay()
    ensures { GroupStays }
{}
/// An op of main that isn't a start leaves the groups.
#[tactic(auto, using(crate::proofs::MainGroups::mains_spare))]
pub fn mains_spare()
    ensures { MainSpares }
{}
