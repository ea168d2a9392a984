use crate::codes::Event;
use task_table::TableId;

/// The kind of a host work's entry.
pub enum HostTaskKey {}
/// The kind of a guest call's entry.
pub enum GuestTaskKey {}
/// The kind of a stream's or a future's entry.
pub enum TransmitKey {}
/// The kind of a waitable set's entry.
pub enum SetKey {}
/// The kind of a guest thread's entry.
pub enum ThreadKey {}
/// The kind of a task group's entry.
pub enum GroupKey {}

/// What an event can come from. Waitables are ordered by their kind, as written here, then by their id.
#[derive(Clone, Copy, PartialEq, Eq, PartialOrd, Ord)]
pub enum Waitable {
    /// A host work.
    Host(TableId<HostTaskKey>),
    /// A guest call.
    Guest(TableId<GuestTaskKey>),
    /// A stream or a future.
    Transmit(TableId<TransmitKey>),
}

/// What every waitable has, whatever its kind.
#[derive(Clone, Copy)]
pub struct WaitableCommon {
    /// The event that wasn't handed out yet.
    pub event: Option<Event>,
    /// The set that it is a member of.
    pub set: Option<TableId<SetKey>>,
    /// The handle by which a guest knows it.
    pub handle: Option<u32>,
}

/// A thread that waits at a set. Waiters are ordered by the place of their task, then of their thread, then by the thread's serial.
#[derive(Clone, Copy, PartialEq, Eq, PartialOrd, Ord)]
pub struct WaiterKey {
    /// The place of the task in the table.
    pub task: u32,
    /// The place of the thread in the table.
    pub thread: u32,
    /// The serial of the thread.
    pub serial: u64,
}
