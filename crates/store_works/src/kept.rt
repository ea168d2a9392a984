//! The works that a store keeps.
ghost use Rattle.std.specs.Prelude.{◌≡◌, ◌↔◌, ◌==◌, ℕ, IfNone, IfSome, None, OnErr, OnOk, Some, cond, nat_eq, slice_get};
ghost use Rattle.indexmap.specs.IndexMap.{get};
ghost use Rattle.store_works.specs.KeptWorks.{HoldsNone, after_abort, after_poll, MayAnswer, found_phase, held, is_over, HoldsMore};
ghost use Rattle.machine_data.specs.declared.statuses.Phase.TheVariants as phases;

use crate::joined::JoinedWork;
use crate::work::{AccessorTask, HostWork};
use futures::task::Poll;
use indexmap::IndexMap;
use machine_data::{HostPoll, NoMemory, Phase};
use std::alloc::Global;

/// The host works that haven't ended, by the numbers that labels have for them, each with its cell. A call costs the
/// same however many there are.
#[derive(Drop)]
pub struct HostWorks<H> {
    works: IndexMap<u64, JoinedWork<H>>,
    // Where the next work to be polled mostly is: works are polled in the order in which they came, and behind the last one the
    // first.
    next: usize,
    alloc: Global,
}

impl<H> HostWorks<H> {
    /// Makes an empty list of works.
    pub fn new(alloc: Global) -> Self
        ensures { HoldsNone result }
    {
        HostWorks {
            works: IndexMap::new(alloc),
            next: 0,
            alloc,
        }
    }
}

impl<H: HostWork> HostWorks<H> {
    /// Keeps a work under its number, with a cell in phase `Running`. If it is out of memory, the works are as before. It is a
    /// function of its own, as it takes memory three times.
    #[inline(never)]
    pub fn keep(&mut self, number: u64, work: H) -> Result<(), NoMemory>
        ensures ok { OnOk result (HoldsMore H.course number work self.old self.new) }
        ensures err { OnErr result ((i : ℕ) → held H.course self.new i ≡ held H.course self.old i) }
    {
        let joined = JoinedWork::new(self.alloc, work)?;
        match self.works.insert(number, joined) {
            Ok(_) => Ok(()),
            Err(_) => Err(NoMemory),
        }
    }

    /// Lets a work go, if it is there: it is over. It is a function of its own, as a work is polled many times and ends once.
    #[cold]
    #[inline(never)]
    pub fn let_go(&mut self, number: u64)
        ensures { (i : ℕ) → held H.course self.new i ≡ cond (number == i) None (held H.course self.old i) }
    {
        if let Some(joined) = self.works.swap_remove(&number) {
            let _phase = joined.finish();
        }
    }

    // Where the work with this number is, looked up by the number.
    #[cold]
    #[inline(never)]
    fn search(&self, number: u64) -> Option<usize>
        ensures some { IfSome result (λ i. (work : JoinedWork H) × (slice_get self.now.works.entries i ≡ Some (number, work))) }
        ensures none { IfNone result (get nat_eq self.now.works number ≡ None) }
    {
        match self.works.get_full(&number) {
            Some((place, _, _)) => Some(place),
            None => None,
        }
    }

    // Where the work with this number is. It is looked up only where that isn't the place that is mostly next.
    #[inline(always)]
    fn place_of(&self, number: u64) -> Option<usize>
        ensures some { IfSome result (λ i. (work : JoinedWork H) × (slice_get self.now.works.entries i ≡ Some (number, work))) }
        ensures none { IfNone result (get nat_eq self.now.works number ≡ None) }
    {
        match self.works.get_index(self.next) {
            Some((found, _)) if *found == number => Some(self.next),
            _ => self.search(number),
        }
    }

    /// Asks that the work with this number end, and answers the phase that it found; `Complete` where it isn't held.
    #[cold]
    #[inline(never)]
    pub fn abort(&mut self, number: u64) -> Phase
        ensures found { result ≡ found_phase (held H.course self.old number) }
        ensures held { (i : ℕ) → held H.course self.new i ≡ cond (number == i) (after_abort (held H.course self.old number)) (held H.course self.old i) }
    {
        let Some(place) = self.search(number) else {
            return Phase::Complete;
        };
        match self.works.get_index_mut(place) {
            Some(joined) => joined.abort(),
            None => unreachable!(),
        }
    }

    /// Returns `Ready` exactly if the work with this number is over.
    pub fn poll_handle(&mut self, number: u64) -> Poll<()>
        ensures answer { (result ≡ Poll.Ready tt) ↔ (found_phase (held H.course self.old number) ≡ phases.Complete) }
        ensures held { (i : ℕ) → held H.course self.new i ≡ held H.course self.old i }
    {
        let Some(place) = self.search(number) else {
            return Poll::Ready(());
        };
        match self.works.get_index_mut(place) {
            Some(joined) => joined.poll_handle(),
            None => unreachable!(),
        }
    }

    /// Polls the work with this number, and lets it go where it has ended with a value. One that isn't in phase `Running`
    /// isn't polled, and is let go. It is in line of the loop that polls.
    #[inline(always)]
    pub fn poll<T>(&mut self, number: u64, host: &mut T) -> Option<HostPoll>
    where
        H: AccessorTask<T>,
        ensures answer { MayAnswer (held H.course self.old number) result }
        ensures left { (i : ℕ) → held H.course self.new i ≡ cond (number == i) (after_poll result (held H.course self.old number)) (held H.course self.old i) }
    {
        let place = self.place_of(number)?;
        let behind = place.wrapping_add(1);
        self.next = if behind < self.works.len() { behind } else { 0 };
        let answer = match self.works.get_index_mut(place) {
            Some(joined) => joined.poll(host),
            None => unreachable!(),
        };
        if is_over(answer) {
            self.let_go(number);
        }
        answer
    }
}

// Whether a work that answered this is over: it has ended with a value, or wasn't polled.
#[inline(always)]
fn is_over(answer: Option<HostPoll>) -> bool
    ensures { result ≡ is_over answer }
{
    matches!(answer, None | Some(HostPoll::Value(_)))
}
