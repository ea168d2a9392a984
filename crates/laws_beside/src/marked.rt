ghost use Rattle.laws_beside.specs.Marked.{MarkedPollsFindAborts, MarkedSpawnsStay};

/// A poll of a spawned work that was aborted in the core alone is one that finds another thread's abort, where the run itself hasn't
/// aborted the work.
#[tactic(auto, using(crate::proofs::MarkedLemmas::marked_polls_find_aborts))]
pub fn marked_polls_find_aborts()
    ensures { MarkedPollsFindAborts }
{}

/// An abort in the core changes neither which work is polled next nor whether main's op pends.
#[tactic(auto, using(crate::proofs::MarkedLemmas::marked_spawns_stay))]
pub fn marked_aborts_stay()
    ensures { MarkedSpawnsStay }
{}
