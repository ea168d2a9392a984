//! The laws of labels, each the contract of a function.
ghost use Rattle.laws_labels.specs.Own.{EndsAreOfRules, EndsTakeNone, GoingsShowNext, MainAtItsTurns, TakingsShowMarks};

/// A label tells whether it was main's turn: it then shows an op of main, its answer, or that it waits, and at no other turn.
#[tactic(auto, using(crate::proofs::TurnLemmas::main_at_its_turns))]
pub fn main_at_its_turns()
    ensures { MainAtItsTurns }
{}

/// A label of a taking is at a turn of takings, and shows the mark of the entry that was next.
#[tactic(auto, using(crate::proofs::TurnLemmas::takings_show_marks))]
pub fn takings_show_marks()
    ensures { TakingsShowMarks }
{}

/// A step after which the run goes on shows the mark of the entry that was next in its turn, and rests exactly where none was in
/// a turn of takings.
#[tactic(auto, using(crate::proofs::GoingLemmas::goings_show_next))]
pub fn goings_show_next()
    ensures { GoingsShowNext }
{}

/// A label that gives an outcome shows no taking.
#[tactic(auto, using(crate::proofs::GoingLemmas::ends_take_none))]
pub fn ends_take_none()
    ensures { EndsTakeNone }
{}

/// Where the label of a step gives that the run has trapped, the trap is one of a rule of the machine: 1 to 14, 16 to 18 or 25;
/// where it gives a deadlock, this is trap 9 or 15. So what a run traps with by other numbers isn't of the machine: 22 is of the
/// hook alone.
#[tactic(auto, using(crate::proofs::TrapLemmas::ends_are_of_rules))]
pub fn ends_are_of_rules()
    ensures { EndsAreOfRules }
{}
