ghost use Rattle.std.specs.Prelude.{◌≡◌};
ghost use Rattle.core_records.specs.Seen.{IsSoundCore, nothing, seen};

use crate::ResultRooms;
use crate::call_records::{GuestTask, TaskGroup};
use crate::instance_records::InstanceRecord;
use crate::set_records::WaitSet;
use crate::single::Single;
use crate::thread_records::{Follower, GuestThread, Queued};
use crate::work_records::{LiveWork, WorkRecord};
use core_primitives::WantedId;
use machine_data::{Entry, MadeCounts, Version};
use std::alloc::Global;
use table_links::{Links, Node};
use table_lists::{OrderedLists, TablePlaces};
use table_records::RecordTable;
use task_handles::HandleCounter;
use task_table::TableId;
use task_wait::ThreadKey;

/// Numbers that the machine counts in its records.
#[derive(Clone, Copy)]
pub struct CachedCounts {
    /// How many entries of the resource table are taken.
    pub used: u64,
    /// How many groups are live.
    pub groups: u64,
    /// How many calls are interesting.
    pub interesting: u64,
    /// How many host works are live, and how many of these move.
    pub live: u64,
    pub moving: u64,
}

/// The parts of a core.
#[derive(Drop)]
pub struct CoreParts {
    pub alloc: Global,
    pub threads: RecordTable<Single<GuestThread>>,
    pub calls: RecordTable<Single<GuestTask>>,
    pub works: RecordTable<Single<WorkRecord>>,
    pub sets: RecordTable<Single<WaitSet>>,
    pub groups: RecordTable<Single<TaskGroup>>,
    pub instances: Vec<InstanceRecord>,
    /// How many handles are live, over all instances, and how many may be.
    pub counter: HandleCounter,
    /// The threads that wait, are blocked or held, or are under a thread.
    pub places: OrderedLists,
    /// The threads that wait, by their calls, where a cancel may take any of these.
    pub waits: OrderedLists,
    /// The ready members of sets: calls, and host works.
    pub ready_calls: OrderedLists,
    pub ready_works: OrderedLists,
    /// The live works, in order of number.
    pub polled: Links<LiveWork>,
    /// The node of the work that was polled last: where the search for the next one begins.
    pub polled_last: Option<Node>,
    /// The entries at high and low, and of each instance there.
    pub marks: Links<Queued>,
    pub instance_queues: Links<Queued>,
    /// The callers of threads.
    pub behind: Links<Follower>,
    /// The chains of high, of low and of the live works, made with the first instance or work.
    pub high: Option<usize>,
    pub low: Option<usize>,
    pub live: Option<usize>,
    /// The thread at switch.
    pub switch: Option<Follower>,
    /// The thread that runs.
    pub current: Option<TableId<ThreadKey>>,
    /// What is picked first.
    pub wanted: WantedId,
    /// The rooms for results, by the numbers of calls by main: of each that is there or whose result was not taken.
    pub results: ResultRooms,
    pub kept: CachedCounts,
    /// The groups up to this number were finished by the trap of the store.
    pub finished: u64,
    /// The groups that have ended since they were last asked for. There is room for the live ones too.
    pub ended: Vec<u64>,
    /// The places of the resource table.
    pub table_places: TablePlaces,
    /// How many entries the resource table has room for.
    pub capacity: usize,
    pub made: MadeCounts,
    /// By which rules it runs.
    pub version: Version,
    /// In version 2, how often a thread has begun to wait or to be held.
    pub arrivals: u64,
    pub trapped: bool,
}

const NOTHING_MADE: MadeCounts = MadeCounts {
    threads: 0,
    works: 0,
    sets: 0,
    groups: 0,
};

const NOTHING_KEPT: CachedCounts = CachedCounts {
    used: 0,
    groups: 0,
    interesting: 0,
    live: 0,
    moving: 0,
};

// What is in the chains' cells before they have a value.
const NO_NODE: Node = Node { index: 0 };

const NO_WORK: LiveWork = LiveWork {
    number: 0,
    place: 0,
};

const NO_THREAD: Follower = Follower {
    number: 0,
    place: 0,
    node: NO_NODE,
};

const NO_ENTRY: Queued = Queued {
    entry: Entry::Thread { thread: 0 },
    place: 0,
    instance: None,
    mark: NO_NODE,
    instance_queue: NO_NODE,
};

impl CoreParts {
    /// Makes a core in which nothing was made: no instance, a limit of 100,000 handles, and room for 1,000,000 entries.
    pub fn new(alloc: Global) -> CoreParts
        ensures sound { IsSoundCore result }
        ensures seen { seen result ≡ nothing }
    {
        CoreParts {
            alloc,
            threads: RecordTable::new(alloc),
            calls: RecordTable::new(alloc),
            works: RecordTable::new(alloc),
            sets: RecordTable::new(alloc),
            groups: RecordTable::new(alloc),
            instances: Vec::new(alloc),
            counter: HandleCounter::new(100_000),
            places: OrderedLists::new(alloc),
            waits: OrderedLists::new(alloc),
            ready_calls: OrderedLists::new(alloc),
            ready_works: OrderedLists::new(alloc),
            polled: Links::new(alloc, NO_WORK),
            polled_last: None,
            marks: Links::new(alloc, NO_ENTRY),
            instance_queues: Links::new(alloc, NO_ENTRY),
            behind: Links::new(alloc, NO_THREAD),
            high: None,
            low: None,
            live: None,
            switch: None,
            current: None,
            wanted: WantedId {
                waiter: None,
                member: None,
                held: Vec::new(alloc),
            },
            results: ResultRooms::new(alloc),
            kept: NOTHING_KEPT,
            finished: 0,
            ended: Vec::new(alloc),
            table_places: TablePlaces::new(alloc),
            capacity: 1_000_000,
            made: NOTHING_MADE,
            version: Version::One,
            arrivals: 0,
            trapped: false,
        }
    }
}
