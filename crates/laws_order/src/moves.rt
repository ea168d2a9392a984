ghost use Rattle.laws_order.specs.WakesKept.{EndKeeps, GiveKeeps, JoinKeeps, OrderLosesNoWake, OrderLosesNoWakeAs, PopKeeps, PublishKeeps, RunKeeps, StopKeeps, SuspendKeeps, TakeKeeps, WaitsFindNothing, WakeKeeps};

/// In a state in order, while its turns aren't over, no wake is lost.
#[tactic(auto, using(crate::proofs::GroundLemmas::order_loses_no_wake))]
pub fn order_loses_no_wake()
    ensures { OrderLosesNoWake }
{}

/// In a step a thread comes to wait on a set only where no member of it is ready, as it begins to wait
/// or waits again.
#[tactic(auto, using(crate::proofs::WaitLemmas::waits_find_nothing))]
pub fn waits_find_nothing()
    ensures { WaitsFindNothing }
{}

/// Where no wake is lost, none is lost by a move that gives a subtask an event, wakes a waiter, joins
/// a subtask to a set, or takes an event: one clause a move.
#[tactic(auto, using(crate::proofs::MoveLemmas::publish_keeps, crate::proofs::MoveLemmas::wake_keeps, crate::proofs::MoveLemmas::join_keeps, crate::proofs::MoveLemmas::take_keeps, crate::proofs::MoveLemmas::give_keeps))]
pub fn events_keep()
    ensures publish { PublishKeeps }
    ensures wake { WakeKeeps }
    ensures join { JoinKeeps }
    ensures take { TakeKeeps }
    ensures give { GiveKeeps }
{}

/// Where no wake is lost, none is lost as an entry is taken or a strand stops, and none as a thread
/// ends, runs or is suspended, under what each asks of that thread: one clause a move.
#[tactic(auto, using(crate::proofs::PopLemmas::pop_keeps, crate::proofs::StopLemmas::stop_keeps, crate::proofs::ThreadLemmas::end_keeps, crate::proofs::ThreadLemmas::run_keeps, crate::proofs::ThreadLemmas::suspend_keeps))]
pub fn threads_keep()
    ensures pop { PopKeeps }
    ensures stop { StopKeeps }
    ensures ends { EndKeeps }
    ensures runs { RunKeeps }
    ensures suspends { SuspendKeeps }
{}

/// So it is where each thread has some op that it can have come so far in.
#[tactic(auto, using(crate::proofs::GroundLemmas::order_loses_no_wake_as))]
pub fn order_loses_no_wake_as()
    ensures { OrderLosesNoWakeAs }
{}
