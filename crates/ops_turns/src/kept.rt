//! What turns and the calls of a host keep in order, as laws.
ghost use Rattle.ops_turns.specs.KeptTurns.{FinishInOrder, MadeInOrder, RefusalInOrder, StartInOrder};

/// Says that a step from a state in order leads to one.
pub fn made_in_order()
    ensures { MadeInOrder }
{}

/// Says that a start by the host keeps order, and so does one that is refused.
pub fn start_and_refusal_in_order()
    ensures start { StartInOrder }
    ensures refusal { RefusalInOrder }
{}

/// Says that the finish of a call keeps order.
pub fn finish_in_order()
    ensures { FinishInOrder }
{}
