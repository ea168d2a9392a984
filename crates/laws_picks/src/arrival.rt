ghost use Rattle.laws_picks.specs.Arrival.{ArrivalIsRun, LinesTellRun};
ghost use Rattle.laws_picks.specs.CameOrder.{RecordsPickAll, RunsSayOrder};

/// A run whose releases go in the order in which the threads were held last is one of the machine.
#[tactic(auto, using(crate::proofs::ArrivalLemmas::arrival_is_run))]
pub fn arrivals_are_runs()
    ensures { ArrivalIsRun }
{}

/// The lines of such a run tell it: no other one prints them.
#[tactic(auto, using(crate::proofs::ArrivalLemmas::lines_tell_run))]
pub fn lines_tell_runs()
    ensures { LinesTellRun }
{}

/// Of threads that wait or are held the records of a core have the same one first as the run has shown: in version 2 the one that came
/// first.
#[tactic(auto, using(crate::proofs::CameOrderLemmas::runs_say_order))]
pub fn runs_say_order()
    ensures { RunsSayOrder }
{}

/// So a run in which each step picks by the records before it picks by what it has shown.
#[tactic(auto, using(crate::proofs::RecordPicks::records_pick_all))]
pub fn records_pick_all()
    ensures { RecordsPickAll }
{}
