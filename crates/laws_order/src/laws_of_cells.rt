//! The law of the cells of host works, the contract of a function.
ghost use Rattle.laws_order.specs.Cells.{CellsStay, CellsStayInside, CellsStayWalked, WorksStayRunning, WorksStayTaken, WorksStayWalked};

/// At each turn but that of futures the cell of each work that was made before keeps its phase, but for one that main
/// aborts. So a store whose works are in their cells has only to tell a cell of an abort by main, and of the polls.
#[tactic(auto, using(crate::proofs::CellLemmas::cells_stay))]
pub fn cells_stay()
    ensures { CellsStay }
{}

/// So it is of a step seen as a chain of primitives, in which each thread has an op: a step of a run, or an op that a host has a
/// thread do.
#[tactic(auto, using(crate::proofs::CellLemmas::cells_stay_walked))]
pub fn cells_stay_walked()
    ensures { CellsStayWalked }
{}

/// Where a thread runs, or an entry is taken, that is so whatever main is.
#[tactic(auto, using(crate::proofs::CellLemmas::cells_stay_inside))]
pub fn cells_stay_inside()
    ensures { CellsStayInside }
{}

/// Where a thread runs, each work is as it was, or had ended and is gone, and one that is new is a guest's call: so a
/// store that holds just the works that haven't ended, in their cells, has only to hold what is made.
#[tactic(auto, using(crate::proofs::StayLemmasCells::works_stay_running))]
pub fn works_stay_running()
    ensures { WorksStayRunning }
{}

/// So it is where a host has the running thread do an op, seen as a chain of primitives.
#[tactic(auto, using(crate::proofs::StayLemmasCells::works_stay_walked))]
pub fn works_stay_walked()
    ensures { WorksStayWalked }
{}

/// Where an entry is taken, each work is as it was, or had ended and is gone.
#[tactic(auto, using(crate::proofs::StayLemmasCells::works_stay_taken))]
pub fn works_stay_taken()
    ensures { WorksStayTaken }
{}
