use machine_data::Instance;
use task_handles::{HandleTable, ThreadHandleTable};

/// An instance, with the handles that its guest has.
#[derive(Drop)]
pub struct InstanceRecord {
    pub instance: Instance,
    pub handles: HandleTable,
    pub thread_handles: ThreadHandleTable,
    /// The chain of its held threads, but for those whose start backpressure keeps out.
    pub held: usize,
    /// The chain of those.
    pub starts: usize,
    /// The chains of its entries at high and at low.
    pub high: usize,
    pub low: usize,
}
