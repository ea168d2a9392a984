use crate::single::Single;
use machine_data::{Entry, Thread};
use table_links::Node;
use task_table::Kind;
use task_wait::ThreadKey;

/// A thread: the machine's record under its number, with where it and what it names are. What is read with its place is together,
/// so that it is in few lines of a processor's cache.
#[derive(Clone, Copy)]
pub struct GuestThread {
    pub number: u64,
    /// The place of its call.
    pub task: u32,
    /// The instance of its call.
    pub instance: u32,
    /// The places in the resource table of its call and of itself.
    pub task_entry: u32,
    pub entry: u32,
    /// The place of what `thread.place` names, if it names anything.
    pub state_target: u32,
    /// The place of what `thread.op_progress` names, if it names anything.
    pub op_target: u32,
    /// The place in the resource table of its sync-call set.
    pub set_entry: u32,
    /// Backpressure keeps its start out: it isn't explicit, and its export isn't sync.
    pub barred: bool,
    /// Its node where it waits, is blocked or held, or is under a thread.
    pub node: Node,
    /// Its node among the threads of its call that wait, where a cancel may take any of these.
    pub wait: Option<Node>,
    /// The chain of the threads under it.
    pub under: usize,
    /// The chain of the threads behind it, oldest first.
    pub callers: usize,
    /// Its nodes among the entries of a mark, and among those of its instance there.
    pub mark: Node,
    pub instance_queue: Node,
    pub thread: Thread,
    /// Its node among the callers of a thread.
    pub caller: Node,
}

/// A thread that is behind another, or at switch: its number, its place, and its node among callers.
#[derive(Clone, Copy)]
pub struct Follower {
    pub number: u64,
    pub place: u32,
    pub node: Node,
}

/// A queued entry: what the machine has there, the place of the thread or work, its instance, and
/// its nodes.
#[derive(Clone, Copy)]
pub struct Queued {
    pub entry: Entry,
    pub place: u32,
    pub instance: Option<u32>,
    pub mark: Node,
    pub instance_queue: Node,
}

impl Kind<Single<GuestThread>> for ThreadKey {
    ghost use Rattle.core_records.specs.Kinds.{entry_of, item_of, no_other, wrapped};

    type Item = GuestThread;

    ghost entry_of = { entry_of };

    ghost item_of = { item_of };

    ghost wrapped = { wrapped };

    ghost no_other = { no_other };

    fn wrap(item: GuestThread) -> Single<GuestThread> {
        Single { item }
    }

    fn view(entry: &Single<GuestThread>) -> Option<&GuestThread> {
        Some(&entry.item)
    }

    fn view_mut(entry: &mut Single<GuestThread>) -> Option<&mut GuestThread> {
        Some(&mut entry.item)
    }

    fn unwrap(entry: Single<GuestThread>) -> Result<GuestThread, Single<GuestThread>> {
        Ok(entry.item)
    }
}
