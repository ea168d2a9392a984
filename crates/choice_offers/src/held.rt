//! The order in which threads were held last.
ghost use Rattle.choice_offers.specs.Times.{AreTimed, IsLast, IsTimedAs, Rises, time_at};
ghost use Rattle.std.specs.Prelude.{◌<◌, ◌≡◌, IsPermutation, OnErr, OnOk, slice_index, vec_len, ℕ};

use core_primitives::ThreadId;
use machine_data::NoMemory;
use std::alloc::{AllocError, Global};

/// A thread by its number, with its id.
#[derive(Clone, Copy)]
pub struct NamedThread {
    pub number: u64,
    pub id: ThreadId,
}

/// For each number of a thread when that was held last.
#[derive(Drop)]
pub struct HeldOrder {
    times: Vec<u64>,
    latest: u64,
}

// Makes room for a number: what has no time yet has 0.
fn grow(times: &mut Vec<u64>, place: usize) -> Result<(), AllocError>
    ensures same { (r : ℕ) → slice_index times.new.items r ≡ slice_index times.old.items r }
    ensures within { OnOk result (place < vec_len times.new) }
{
    while times.len() <= place {
        times.push(0)?;
    }
    Ok(())
}

impl HeldOrder {
    /// Makes the order in which no thread was held.
    pub fn new(alloc: Global) -> HeldOrder
        ensures { AreTimed result }
    {
        HeldOrder {
            times: Vec::new(alloc),
            latest: 0,
        }
    }

    /// Adds a thread that was held just now. If it is out of memory, all is as before.
    pub fn add(&mut self, number: u64) -> Result<(), NoMemory>
        requires { AreTimed self.old }
        ensures ok { OnOk result (IsLast number self.old self.new) }
        ensures err { OnErr result (IsTimedAs self.old self.new) }
    {
        let place = number as usize;
        let Some(latest) = self.latest.checked_add(1) else {
            return Err(NoMemory);
        };
        grow(&mut self.times, place)?;
        self.latest = latest;
        self.times[place] = latest;
        Ok(())
    }

    // When the thread was held last.
    fn time(&self, number: u64) -> u64
        ensures { result ≡ time_at self.now number }
    {
        match self.times.as_slice().get(number as usize) {
            Some(time) => *time,
            None => 0,
        }
    }

    /// Puts a list of held threads in the order in which they were held last.
    pub fn put_in_order(&self, list: &mut Vec<NamedThread>) -> Result<(), AllocError>
        ensures permutation { IsPermutation list.old.items list.new.items }
        ensures order { OnOk result (Rises self.now list.new.items) }
    {
        list.sort_by_key(|thread| self.time(thread.number))?;
        Ok(())
    }
}
