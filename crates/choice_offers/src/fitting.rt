//! Whether a choice fits an offer.
ghost use Rattle.laws_choices.specs.Offer.{FitsOffer, is_one_of};
ghost use Rattle.std.specs.List.{list_all};
ghost use Rattle.std.specs.Prelude.{◌≡◌, ◌==◌, ◌↔◌, IsPermutation, count_by, true};
ghost use Rattle.choice_offers.specs.Choices.{chosen_of, offer_of, same_counts};

use crate::choice::{Choice, Offer};

// One of the threads, and none exactly if there is none.
fn is_one_thread(list: &[u64], chosen: Option<u64>) -> bool
    ensures { result ≡ is_one_of list.now chosen }
{
    match chosen {
        None => list.is_empty(),
        Some(one) => list.contains(&one),
    }
}

// One of the handles, and none exactly if there is none.
fn is_one_handle(list: &[u32], chosen: Option<u32>) -> bool
    ensures { result ≡ is_one_of list.now chosen }
{
    match chosen {
        None => list.is_empty(),
        Some(one) => list.contains(&one),
    }
}

// How often a number is in a list.
#[tactic(auto, using(std::proofs::lemmas::List::Sums::count_by_more_yes, std::proofs::lemmas::List::Sums::count_by_more_no))]
fn count_of(list: &[u64], number: u64) -> usize
    ensures { result ≡ count_by (λ m. m == number) list.now }
{
    let mut count = 0;
    for one in list {
        if *one == number {
            count += 1;
        }
    }
    count
}

// Each number of the one list is as often in the other.
#[tactic(auto, using(std::proofs::lemmas::List::Folds::list_all_more))]
fn counts_agree(list: &[u64], order: &[u64]) -> bool
    ensures { result ≡ list_all (λ n. count_by (λ m. m == n) list.now == count_by (λ m. m == n) order.now) list.now }
{
    let mut agree = true;
    for number in list {
        let same = count_of(list, *number) == count_of(order, *number);
        agree &= same;
    }
    agree
}

// As many, and each number of the one list as often in the other.
fn same_counts(list: &[u64], order: &[u64]) -> bool
    ensures { result ≡ same_counts list.now order.now }
{
    let agree = counts_agree(list, order);
    (list.len() == order.len()) & agree
}

// The same numbers in another order.
fn is_permutation(list: &[u64], order: &[u64]) -> bool
    ensures { (result ≡ true) ↔ IsPermutation list.now order.now }
{
    same_counts(list, order)
}

/// Returns whether a choice fits an offer: its waiter is one of the offered ones, or none exactly if none is offered, the same of its
/// member, and its release is a permutation of the held threads.
pub fn fits(choice: &Choice, offer: &Offer) -> bool
    ensures { (result ≡ true) ↔ FitsOffer (chosen_of choice.now) (offer_of offer.now) }
{
    is_one_thread(offer.waiters.as_slice(), choice.waiter)
        && is_one_handle(offer.members.as_slice(), choice.member)
        && is_permutation(offer.held.as_slice(), choice.release.as_slice())
}
