ghost use Rattle.std.specs.Prelude.{◌≡◌, IfOk, OnOk};
ghost use Rattle.core_makes.specs.Fresh.{next_entries};
ghost use Rattle.table_lists.specs.GivenPlaces.{given, next_place, taken};

use machine_data::NoMemory;
use table_lists::TablePlaces;

/// The places in the resource table of a call, of a thread's sync-call set, and of that thread.
#[derive(Clone, Copy)]
pub struct Entries {
    pub task: u32,
    pub set: u32,
    pub thread: u32,
}

// The places of a thread of the call at a place: its set's is taken first. If it is out of memory, none is taken.
#[inline(always)]
pub(crate) fn take_thread(places: &mut TablePlaces, task: u32) -> Result<Entries, NoMemory>
    ensures entries { IfOk result (λ e. e ≡ record { task = task; set = next_place places.old; thread = next_place (taken places.old) }) }
    ensures places { OnOk result (places.new ≡ taken (taken places.old)) }
{
    let set = places.take()?;
    match places.take() {
        Ok(thread) => Ok(Entries { task, set, thread }),
        Err(why) => {
            places.give(set);
            Err(why)
        }
    }
}

// The places of a call and then of its first thread. If it is out of memory, none is taken.
#[inline(always)]
pub(crate) fn take_call_entries(places: &mut TablePlaces) -> Result<Entries, NoMemory>
    ensures entries { IfOk result (λ e. e ≡ next_entries places.old) }
    ensures places { OnOk result (places.new ≡ taken (taken (taken places.old))) }
{
    let task = places.take()?;
    match take_thread(places, task) {
        Ok(entries) => Ok(entries),
        Err(why) => {
            places.give(task);
            Err(why)
        }
    }
}

// The place of the thread, and then of its set, is free.
pub(crate) fn give_thread(places: &mut TablePlaces, entries: Entries)
    ensures { places.new ≡ given entries.set (given entries.thread places.old) }
{
    places.give(entries.thread);
    places.give(entries.set);
}

// The places of the thread and then of the call are free.
pub(crate) fn give_call_entries(places: &mut TablePlaces, entries: Entries)
    ensures { places.new ≡ given entries.task (given entries.set (given entries.thread places.old)) }
{
    give_thread(places, entries);
    places.give(entries.task);
}
