ghost use Rattle.laws_order.specs.Pieces.{WalkedInOrder};

/// A walk of primitives from a state in order, each where it may be done, leads to one, where records stay those of the same
/// threads, calls and works, and wakes are counted at its end.
#[tactic(auto, using(crate::proofs::WalkedLemmas::walked_in_order))]
pub fn walked_in_order()
    ensures { WalkedInOrder }
{}
