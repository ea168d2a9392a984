ghost use Rattle.laws_states.specs.Courses.{CoursesStay, WorksAreCalled};

/// At each turn but that of the live works, what a host work is still to do stays as it is, unless
/// the work goes.
#[tactic(auto, using(crate::proofs::CourseLemmas::courses_stay))]
pub fn courses_stay()
    ensures { CoursesStay }
{}

/// A host work is made by main's spawn, or by the running thread's call of a host, and has the next
/// number.
#[tactic(auto, using(crate::proofs::CourseLemmas::works_are_called))]
pub fn works_are_called()
    ensures { WorksAreCalled }
{}
