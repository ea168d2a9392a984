ghost use Rattle.laws_order.specs.KeptOrder.{BackInOrder, EndInOrder, FirstInOrder, GiveInOrder, JoinInOrder, PromoteInOrder, PublishInOrder, PutInOrder, StopInOrder, SwitchInOrder, TakeInOrder, TakenIsInHand, TurnInOrder, WakeInOrder};

/// A core in order is so after a host has given a subtask an event that it can tell, woken a waiter, joined a subtask to a
/// set, or taken an event, whosever turn it is, and also with an item in hand: one clause a move.
#[tactic(auto, using(crate::proofs::EventOrder::publish_in_order, crate::proofs::EventOrder::wake_in_order, crate::proofs::EventOrder::join_in_order, crate::proofs::EventOrder::take_in_order, crate::proofs::EventOrder::give_in_order))]
pub fn events_keep_order()
    ensures publish { PublishInOrder }
    ensures wake { WakeInOrder }
    ensures join { JoinInOrder }
    ensures take { TakeInOrder }
    ensures give { GiveInOrder }
{}

/// So it is after an item was taken, with that in hand, after a thread that doesn't run was given an entry, after a promotion,
/// and after a strand has stopped while no thread runs: one clause a move.
#[tactic(auto, using(crate::proofs::EntryOrder::taken_is_in_hand, crate::proofs::EntryOrder::put_in_order, crate::proofs::BackOrder::back_in_order, crate::proofs::EntryOrder::switch_in_order, crate::proofs::EntryOrder::promote_in_order, crate::proofs::EntryOrder::first_in_order, crate::proofs::EntryOrder::stop_in_order))]
pub fn entries_keep_order()
    ensures taken { TakenIsInHand }
    ensures put { PutInOrder }
    ensures back { BackInOrder }
    ensures switch { SwitchInOrder }
    ensures promote { PromoteInOrder }
    ensures first { FirstInOrder }
    ensures stop { StopInOrder }
{}

/// So it is after another thread has come to run, or none, in a turn of that one; and after the running thread has ended.
#[tactic(auto, using(crate::proofs::TurnOrder::turn_in_order, crate::proofs::TurnOrder::end_in_order))]
pub fn turns_keep_order()
    ensures turns { TurnInOrder }
    ensures ends { EndInOrder }
{}
