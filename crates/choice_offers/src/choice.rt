//! What a step chooses, and among what.
ghost use Rattle.laws_choices.specs.Offer.{first_choice, is_open};
ghost use Rattle.std.specs.Prelude.{◌≡◌, IfOk, slice_get};
ghost use Rattle.choice_offers.specs.Choices.{chosen_of, offer_of};

use machine_data::{NoMemory, Seq};
use std::alloc::Global;

/// What a step chooses: the waiter that it wakes by its number, the member whose event it takes by its handle, and the order in
/// which it releases threads.
#[derive(Drop)]
pub struct Choice {
    pub waiter: Option<u64>,
    pub member: Option<u32>,
    pub release: Seq<u64>,
}

/// Among what a step chooses: the threads that wait on a set in order of number, the handles of its ready members in ascending
/// order, and the held threads that it releases in the order in which they were held last.
#[derive(Drop)]
pub struct Offer {
    pub waiters: Seq<u64>,
    pub members: Seq<u32>,
    pub held: Seq<u64>,
}

// The first of a list, if it has one.
fn first<T: Copy>(list: &[T]) -> Option<T>
    ensures { result ≡ slice_get list.now 0 }
{
    list.first().copied()
}

impl Offer {
    /// Returns whether two or more choices fit the offer.
    pub fn is_open(&self) -> bool
        ensures { result ≡ is_open (offer_of self.now) }
    {
        self.waiters.len() > 1 || self.members.len() > 1 || self.held.len() > 1
    }

    /// Makes the first choice that fits the offer: the first of each kind. If the offer isn't open, no other choice fits.
    pub fn first_choice(&self, alloc: Global) -> Result<Choice, NoMemory>
        ensures { IfOk result (λ c. chosen_of c ≡ first_choice (offer_of self.now)) }
    {
        let mut release = Seq::new(alloc);
        for thread in self.held.as_slice() {
            release.push(*thread)?;
        }
        Ok(Choice {
            waiter: first(self.waiters.as_slice()),
            member: first(self.members.as_slice()),
            release,
        })
    }
}
