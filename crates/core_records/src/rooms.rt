ghost use Rattle.core_records.specs.Rooms.{MakesRoom, count_given, given_in, wanted, weight};
ghost use Rattle.std.specs.BTreeMap.{is_at};
ghost use Rattle.std.specs.Map.{lookup};
ghost use Rattle.std.specs.Ordering.{nat_cmp};
ghost use Rattle.std.specs.Prelude.{◌≡◌, [], Bool, IsSome, None, OnErr, OnOk, false, if◌then◌else◌, true, ℕ};

use machine_data::NoMemory;
use std::alloc::Global;
use std::collections::BTreeMap;
use std::marker::Model;

/// Room for the result of a call by main: the result, if it was given and not taken, and whether the call is there.
#[derive(Clone, Copy)]
pub struct ResultRoom {
    pub given: Option<u64>,
    pub lives: bool,
}

/// The rooms for results, by the numbers of calls by main: contracts see its entries. How many results are there is kept beside, so
/// that main, which asks again and again for one that isn't there yet, mostly has its answer at once.
#[derive(Drop)]
pub struct ResultRooms {
    rooms: BTreeMap<u64, ResultRoom>,
    // How many results are in the rooms.
    given: u64,
}

impl Model for ResultRooms {
    ghost use Rattle.std.specs.Prelude.{◌≡◌, List, ℕ};
    ghost use Rattle.core_records.specs.Rooms.{count_given};
    ghost use Rattle.core_records.specs.declared.rooms.ResultRoom.{ResultRoom};

    ghost Value = { List (ℕ × ResultRoom) };

    ghost view = { λ r. r.rooms.entries };

    ghost invariant = { λ r. r.given ≡ count_given r.rooms.entries };
}

// 1 if a result is in the room.
#[inline(always)]
fn weight(given: Option<u64>) -> u64
    ensures { (lives : Bool) → result ≡ weight (record { given = given; lives = lives }) }
{
    if given.is_some() { 1 } else { 0 }
}

// The result that is in the room of a call, if there is one.
#[inline(always)]
fn given_in(rooms: &BTreeMap<u64, ResultRoom>, call: u64) -> Option<u64>
    ensures { result ≡ given_in (lookup (is_at (nat_cmp call)) rooms.now.entries) }
{
    match rooms.get(&call) {
        Some(room) => room.given,
        None => None,
    }
}

// The result in a call's room, where so many rooms have one: none is looked for where there is none.
#[inline(always)]
fn given_unchecked(rooms: &BTreeMap<u64, ResultRoom>, given: u64, call: u64) -> Option<u64>
    requires { given ≡ count_given rooms.now.entries }
    ensures { result ≡ given_in (lookup (is_at (nat_cmp call)) rooms.now.entries) }
{
    if given == 0 {
        return None;
    }
    given_in(rooms, call)
}

impl ResultRooms {
    /// Makes an empty list of rooms.
    pub fn new(alloc: Global) -> ResultRooms
        ensures { result ≡ [] }
    {
        ResultRooms {
            rooms: BTreeMap::new(alloc),
            given: 0,
        }
    }

    /// Returns the result that is in the room of a call, if there is one.
    #[inline(always)]
    pub fn result(&self, call: u64) -> Option<u64>
        ensures { result ≡ given_in (lookup (is_at (nat_cmp call)) self.now) }
    {
        given_unchecked(&self.rooms, self.given, call)
    }

    /// Returns whether a result is in some room.
    #[inline(always)]
    pub fn has_given(&self) -> bool
        ensures none { result ≡ false → (call : ℕ) → given_in (lookup (is_at (nat_cmp call)) self.now) ≡ None }
        ensures some { result ≡ true → (call : ℕ) × IsSome (given_in (lookup (is_at (nat_cmp call)) self.now)) }
    {
        // read so that the proof knows the invariant of `self`
        let _few = self.rooms.len();
        0 < self.given
    }

    /// Returns the room of a call, if there is one.
    pub fn room(&self, call: u64) -> Option<ResultRoom>
        ensures { result ≡ lookup (is_at (nat_cmp call)) self.now }
    {
        self.rooms.get(&call).copied()
    }

    /// Makes room for a call that is there; a result that is in its room stays. If it is out of memory, all is as before.
    pub fn make(&mut self, call: u64) -> Result<(), NoMemory>
        ensures made { OnOk result (MakesRoom call self.old self.new) }
        ensures err { OnErr result (self.new ≡ self.old) }
    {
        let given = given_unchecked(&self.rooms, self.given, call);
        match self.rooms.insert(call, ResultRoom { given, lives: true }) {
            Ok(_) => Ok(()),
            Err(_) => Err(NoMemory),
        }
    }

    /// Writes the room of a call, which is there. It goes where its call is gone and no result is in it.
    pub fn write(&mut self, call: u64, room: ResultRoom)
        requires { IsSome (lookup (is_at (nat_cmp call)) self.old) }
        ensures { (q : ℕ) → lookup (is_at (nat_cmp q)) self.new ≡ (if is_at (nat_cmp call) q then wanted room else lookup (is_at (nat_cmp q)) self.old) }
    {
        let less = self.given - weight(given_unchecked(&self.rooms, self.given, call));
        // read so that the proof knows the invariant of `self`
        let _few = self.rooms.len();
        if room.lives || room.given.is_some() {
            self.given = less + weight(room.given);
            match self.rooms.insert(call, room) {
                Ok(_) => {}
                Err(_) => unreachable!(),
            }
        } else {
            self.given = less;
            let _gone = self.rooms.remove(&call);
        }
    }
}
