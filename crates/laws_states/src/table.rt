ghost use Rattle.laws_states.specs.WakeTable.{BeginsToWait, CallbackFinds, CancelTakes, DeliveryHeld, EventReplaced, MemberLeaves, ReadyAndWakes, ReadyUnawaited, WokenHandsOn, WokenTakes, WokenTakesOwn, WokenWaits};

/// The table of wakes: by what happens, how many members of a set are ready, how many threads are
/// woken for it and how many wait on it. Each number rises by one, stays or falls by one, exactly; one
/// clause for each thing that happens.
#[tactic(auto, using(crate::proofs::WakeTableLemmas::ready_and_wakes, crate::proofs::WakeTableLemmas::ready_unawaited, crate::proofs::WakeTableLemmas::event_replaced, crate::proofs::WakeTableLemmas::member_leaves, crate::proofs::WakeTableLemmas::woken_takes, crate::proofs::WakeTableLemmas::woken_hands_on, crate::proofs::WakeTableLemmas::woken_takes_own, crate::proofs::WakeTableLemmas::woken_waits, crate::proofs::WakeTableLemmas::begins_to_wait, crate::proofs::WakeTableLemmas::callback_finds, crate::proofs::WakeTableLemmas::cancel_takes, crate::proofs::WakeTableLemmas::delivery_held))]
pub fn wakes_table()
    ensures ready_and_wakes { ReadyAndWakes }
    ensures ready_unawaited { ReadyUnawaited }
    ensures event_replaced { EventReplaced }
    ensures member_leaves { MemberLeaves }
    ensures woken_takes { WokenTakes }
    ensures woken_hands_on { WokenHandsOn }
    ensures woken_takes_own { WokenTakesOwn }
    ensures woken_waits { WokenWaits }
    ensures begins_to_wait { BeginsToWait }
    ensures callback_finds { CallbackFinds }
    ensures cancel_takes { CancelTakes }
    ensures delivery_held { DeliveryHeld }
{}
