//! All choices that fit an offer, by their numbers.
ghost use Rattle.choice_offers.specs.Choices.{chosen_of, offer_of};
ghost use Rattle.choice_search.specs.Numbered.{choice_at, choice_count, most, order_at, orders, ways_of_one};
ghost use Rattle.std.specs.Prelude.{◌≡◌, IfOk};

use machine_data::{NoMemory, Seq};
use std::alloc::{AllocError, Global};
use trace_machine::{Choice, Offer};

// In how many ways one of so many is chosen: in one, if there is none.
fn ways_of_one(count: usize) -> u64
    ensures { result ≡ ways_of_one count }
{
    if count == 0 { 1 } else { count as u64 }
}

// How many orders so many threads have; the greatest number of 64 bits, if they have as many or more.
fn orders(count: usize) -> u64
    ensures { result ≡ most (orders count) }
{
    let mut all: u64 = 1;
    let mut at: usize = 0;
    'threads: while at < count {
        at += 1;
        all = all.saturating_mul(at as u64);
    }
    all
}

/// Returns how many choices fit the offer; the greatest number of 64 bits, if as many or more do.
pub(crate) fn choices_of(offer: &Offer) -> u64
    ensures { result ≡ most (choice_count (offer_of offer.now)) }
{
    let waiters = ways_of_one(offer.waiters.len());
    let members = ways_of_one(offer.members.len());
    waiters
        .saturating_mul(members)
        .saturating_mul(orders(offer.held.len()))
}

// Takes the threads out one after another, each by its place among those that are left.
fn order_at(alloc: Global, threads: &[u64], number: u64) -> Result<Seq<u64>, AllocError>
    ensures { IfOk result (λ list. list ≡ order_at threads.now number) }
{
    let mut left = Vec::from_slice(alloc, threads)?;
    let mut list = Seq::new(alloc);
    let mut rest = number;
    'threads: while left.len() > 0 {
        let count = left.len() as u64;
        let place = (rest % count) as usize;
        rest /= count;
        let thread = left.remove(place);
        list.push(thread)?;
    }
    Ok(list)
}

/// Makes the choice with this number, from 0, among those that fit the offer.
pub(crate) fn choice_at(alloc: Global, offer: &Offer, number: u64) -> Result<Choice, NoMemory>
    ensures { IfOk result (λ c. chosen_of c ≡ choice_at (offer_of offer.now) number) }
{
    let waiters = offer.waiters.as_slice();
    let members = offer.members.as_slice();
    let waiter = number % ways_of_one(waiters.len());
    let rest = number / ways_of_one(waiters.len());
    let member = rest % ways_of_one(members.len());
    let order = rest / ways_of_one(members.len());
    let release = order_at(alloc, offer.held.as_slice(), order)?;
    Ok(Choice {
        waiter: waiters.get(waiter as usize).copied(),
        member: members.get(member as usize).copied(),
        release,
    })
}
