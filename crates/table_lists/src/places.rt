ghost use Rattle.std.specs.List.Sorted.{IsNonDecreasingBy};
ghost use Rattle.std.specs.Prelude.{◌≡◌, ◌≤◌, ℕ, IfOk, IsPermutation, length, map, OnErr};
ghost use Rattle.table_lists.specs.GivenPlaces.{given, next_place, no_places, PutsInOrder, taken};

use machine_data::NoMemory;
use std::alloc::Global;
use std::marker::Model;

/// Who has places in the resource table, each under a name of its own.
pub trait Holders {
    // the number and the place of the holder of a name
    ghost number_of: { Self → ℕ → ℕ };

    ghost place_of: { Self → ℕ → ℕ };

    /// Returns the number of the holder of a name.
    fn number(&self, name: u32) -> u64
        ensures { result ≡ number_of self.now name };

    /// Returns the place of the holder of a name.
    fn place(&self, name: u32) -> u32
        ensures { result ≡ place_of self.now name };
}

/// The places of the resource table, over all kinds of entries: the one freed last is given next, and where none is free
/// the first that was never given. Places run from 0.
#[derive(Drop)]
pub struct TablePlaces {
    // The free places, the one freed last at the end. It has room for each place.
    free: Vec<u32>,
    // How many places were given at least once.
    made: u32,
}

impl Model for TablePlaces {
    ghost use Rattle.std.specs.Prelude.{◌≤◌, reverse, vec_capacity};
    ghost use Rattle.table_lists.specs.GivenPlaces.{Places};

    ghost Value = { Places };

    ghost view = { λ p. record { free = reverse p.free.items; made = p.made } };

    ghost invariant = { λ p. p.made ≤ vec_capacity p.free };
}

// Puts names in order of their holders' numbers.
fn sort_names<H: Holders>(names: &mut [u32], holders: &H)
    ensures same { IsPermutation names.old names.new }
    ensures rises { IsNonDecreasingBy (H.number_of holders.now) names.new }
{
    names.sort_unstable_by_key(|name| holders.number(*name));
}

// Puts the place of each holder in the stead of its name.
fn name_places<H: Holders>(names: &mut [u32], holders: &H)
    ensures { names.new ≡ map (H.place_of holders.now) names.old }
{
    for index in 0..names.len() {
        names[index] = holders.place(names[index]);
    }
}

impl TablePlaces {
    /// Makes a table of which no place was given yet.
    pub fn new(alloc: Global) -> TablePlaces
        ensures { result ≡ no_places }
    {
        TablePlaces {
            free: Vec::new(alloc),
            made: 0,
        }
    }

    /// Gives a place: the one freed last, else the first that was never given. If it is out of memory, or where 4,294,967,295
    /// places were given, all is as before.
    #[inline(always)]
    pub fn take(&mut self) -> Result<u32, NoMemory>
        ensures place { IfOk result (λ place. place ≡ next_place self.old) }
        ensures taken { IfOk result (λ place. self.new ≡ taken self.old) }
        ensures err { OnErr result (self.new ≡ self.old) }
    {
        if let Some(place) = self.free.pop() {
            return Ok(place);
        }
        let place = self.made;
        if place == u32::MAX || self.free.reserve(place as usize + 1).is_err() {
            return Err(NoMemory);
        }
        self.made = place + 1;
        Ok(place)
    }

    /// Takes a place back, which is given next then. Where every place is free already, none was given and all is as
    /// before. It takes no memory.
    #[inline(always)]
    pub fn give(&mut self, place: u32)
        ensures { self.new ≡ given place self.old }
    {
        if self.free.len() < self.made as usize {
            self.free.push_reserved(place);
        }
    }

    /// Returns how many places are free.
    pub fn free(&self) -> usize
        ensures { result ≡ length self.now.free }
    {
        self.free.len()
    }

    /// Puts the places of holders in the stead of their names, in order of the holders' numbers, so that the place of the
    /// greatest number is given next. Names are what was given since `kept` places were free. They are put in order where
    /// they are, so it takes no memory, and n log n steps for n of them.
    pub fn put_in_order<H: Holders>(&mut self, kept: usize, holders: &H)
        requires { kept ≤ length self.old.free }
        ensures { PutsInOrder (H.number_of holders.now) (H.place_of holders.now) kept self.old self.new }
    {
        let names = &mut self.free[kept..];
        sort_names(names, holders);
        name_places(names, holders);
    }
}
