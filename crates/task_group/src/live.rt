ghost use Rattle.std.specs.Prelude.{◌≡◌, ◌<◌, ◌+◌, ◌==◌, ◌↔◌, ◌++◌, None, IsSome, OnOk, OnErr, IfNone, is_some, true};
ghost use Rattle.std.specs.Option.{option_to_list};
ghost use Rattle.std.specs.FinMap as finite;
ghost use Rattle.task_group.specs.Counts.{count_in};

use crate::counts::Counts;
use std::alloc::{AllocError, Global};
use std::marker::Model;

/// How many tasks each live group has, by the group's number. It knows of the last groups that were made one after another
/// and aren't finished, so that who asks for one of these again and again isn't kept waiting.
#[derive(Drop)]
pub struct Live {
    counts: Counts,
    // All groups from the first to the last of these are live.
    low: u64,
    high: u64,
}

impl Model for Live {
    ghost use Rattle.std.specs.Coded.{coded_ℕ};
    ghost use Rattle.std.specs.FinMap as finite;
    ghost use Rattle.task_group.specs.Counts.{Counts as Shown, AreLive};

    ghost Value = { Shown };

    ghost coded = { finite.code coded_ℕ coded_ℕ };

    ghost view = { λ l. l.counts };

    ghost invariant = { λ l. AreLive l.counts l.low l.high };
}

impl Live {
    pub fn new(alloc: Global) -> Self
        ensures { result ≡ finite.empty }
    {
        Live {
            counts: Counts::new(alloc),
            low: 1,
            high: 0,
        }
    }

    // The count of a group, 0 for a finished one.
    pub fn get(&self, number: u64) -> u32
        ensures value { result ≡ count_in self.now number }
        ensures finished { (result ≡ 0) ↔ (finite.get self.now number ≡ None) }
    {
        self.counts.get(number)
    }

    // How many groups are live.
    #[inline(always)]
    pub fn len(&self) -> usize
        ensures { result ≡ finite.len self.now }
    {
        self.counts.len()
    }

    // Whether the group is known to be live without a look-up.
    #[inline(always)]
    pub fn is_known(&self, number: u64) -> bool
        ensures { result ≡ true → is_some (finite.get self.now number) ≡ true }
    {
        if number < self.low {
            return false;
        }
        number <= self.high
    }

    // Whether the group is live.
    #[inline(always)]
    pub fn is_live(&self, number: u64) -> bool
        ensures { result ≡ is_some (finite.get self.now number) }
    {
        if self.is_known(number) {
            return true;
        }
        self.look_up(number)
    }

    #[inline(never)]
    fn look_up(&self, number: u64) -> bool
        ensures { result ≡ is_some (finite.get self.now number) }
    {
        self.counts.get(number) != 0
    }

    // A new group, with one task.
    pub fn add(&mut self, number: u64) -> Result<(), AllocError>
        ensures ok { OnOk result (self.new ≡ finite.insert self.old number 1) }
        ensures err { OnErr result (self.new ≡ self.old) }
    {
        self.counts.add(number)?;
        if is_next(self.high, number) {
            self.high = number;
        } else {
            self.low = number;
            self.high = number;
        }
        Ok(())
    }

    // Another count of a live group.
    pub fn set(&mut self, number: u64, count: u32)
        requires live { IsSome (finite.get self.old number) }
        requires positive { 0 < count }
        ensures { self.new ≡ finite.insert self.old number count }
    {
        self.counts.set(number, count);
    }

    // The group is finished.
    pub fn remove(&mut self, number: u64)
        ensures { self.new ≡ finite.remove self.old number }
    {
        self.counts.remove(number);
        if self.low <= number {
            if number < self.high {
                self.low = number + 1;
            } else {
                self.low = 1;
                self.high = 0;
            }
        }
    }

    // The live group with the least number is finished.
    pub fn pop_first(&mut self) -> Option<u64>
        ensures numbers { finite.keys self.old ≡ option_to_list result ++ finite.keys self.new }
        ensures none { IfNone result (self.new ≡ finite.empty) }
    {
        self.low = 1;
        self.high = 0;
        self.counts.pop_first()
    }
}

// Whether the number is the one after the last.
fn is_next(last: u64, number: u64) -> bool
    ensures { result ≡ (last + 1 == number) }
{
    if number <= last {
        return false;
    }
    number - last == 1
}
