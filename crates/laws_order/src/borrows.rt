ghost use Rattle.laws_order.specs.Borrows.{BorrowsKeepOrder};

/// A core in order is in order whatever borrows a call of it holds: so a host may count them between two calls.
#[tactic(auto, using(crate::proofs::BorrowLemmas::borrows_keep_order))]
pub fn borrows_keep_order()
    ensures { BorrowsKeepOrder }
{}
