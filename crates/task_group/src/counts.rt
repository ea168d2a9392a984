ghost use Rattle.std.specs.Prelude.{◌≡◌, ◌<◌, ◌↔◌, ◌++◌, Some, None, IsSome, OnOk, OnErr, IfNone};
ghost use Rattle.std.specs.Option.{option_to_list};
ghost use Rattle.std.specs.BTreeMap.{ContainsKey, Updates, IsOrdered};
ghost use Rattle.std.specs.Ordering.{nat_cmp};
ghost use Rattle.std.specs.FinMap as finite;
ghost use Rattle.task_group.specs.Counts.{count_in};

use std::alloc::{AllocError, Global};
use std::collections::BTreeMap;
use std::marker::Model;

/// How many tasks each live group has, by the group's number.
#[derive(Drop)]
pub struct Counts {
    counts: BTreeMap<u64, u32>,
}

impl Model for Counts {
    ghost use Rattle.std.specs.Coded.{coded_ℕ};
    ghost use Rattle.std.specs.BTreeMap.{keys};
    ghost use Rattle.std.specs.FinMap as finite;
    ghost use Rattle.task_group.specs.Counts.{Counts as Live, live_in, IsSound};

    ghost Value = { Live };

    ghost coded = { finite.code coded_ℕ coded_ℕ };

    ghost view = { λ c. live_in c.counts.entries };

    ghost invariant = { λ c. IsSound c.counts.entries (keys c.counts) };
}

impl Counts {
    pub fn new(alloc: Global) -> Self
        ensures { result ≡ finite.empty }
    {
        Counts {
            counts: BTreeMap::new(alloc),
        }
    }

    // The count of a group, 0 for a finished one.
    pub fn get(&self, number: u64) -> u32
        ensures value { result ≡ count_in self.now number }
        ensures finished { (result ≡ 0) ↔ (finite.get self.now number ≡ None) }
    {
        self.counts.get(&number).copied().unwrap_or(0)
    }

    // How many groups are live.
    #[inline(always)]
    pub fn len(&self) -> usize
        ensures { result ≡ finite.len self.now }
    {
        self.counts.len()
    }

    // A new group, with one task.
    pub fn add(&mut self, number: u64) -> Result<(), AllocError>
        ensures ok { OnOk result (self.new ≡ finite.insert self.old number 1) }
        ensures err { OnErr result (self.new ≡ self.old) }
    {
        self.counts.insert(number, 1)?;
        Ok(())
    }

    // Another count of a live group.
    pub fn set(&mut self, number: u64, count: u32)
        requires live { IsSome (finite.get self.old number) }
        requires positive { 0 < count }
        ensures { self.new ≡ finite.insert self.old number count }
    {
        write(&mut self.counts, number, count);
    }

    // The group is finished.
    pub fn remove(&mut self, number: u64)
        ensures { self.new ≡ finite.remove self.old number }
    {
        self.counts.remove(&number);
    }

    // The live group with the least number is finished.
    pub fn pop_first(&mut self) -> Option<u64>
        ensures numbers { finite.keys self.old ≡ option_to_list result ++ finite.keys self.new }
        ensures none { IfNone result (self.new ≡ finite.empty) }
    {
        let (number, _) = self.counts.pop_first()?;
        Some(number)
    }
}

// Another value at a number that the map has.
fn write(counts: &mut BTreeMap<u64, u32>, number: u64, count: u32)
    requires { ContainsKey nat_cmp counts.old number }
    ensures updates { Updates nat_cmp counts.old counts.new number (Some count) }
    ensures ordered { IsOrdered nat_cmp counts.new }
{
    if let Some(slot) = counts.get_mut(&number) {
        *slot = count;
    }
}
