//! The primitives of a core, keyed by the ids of its table: what ops read, write, make and remove.
//!
//! Each is one equation of what contracts see. An id that names nothing has the number 0, under which nothing is there: a read of
//! it answers the machine's default, a write of it changes nothing.
#![tactic(auto)]

mod call_primitives;
mod instance_primitives;
mod names;
mod place_primitives;
mod queue_primitives;
mod result_primitives;
mod set_primitives;
mod state_primitives;
mod subtask_primitives;
mod thread_primitives;
mod view;
mod work_primitives;

pub use call_primitives::CallPrimitives;
pub use instance_primitives::InstancePrimitives;
pub use machine_data::NoMemory;
pub use names::{
    CallId, CallerId, DeliveryId, EntryId, JoinId, OpProgressId, PlaceId, SetId, SubtaskId,
    ThreadAt, ThreadId, WantedId, WhyId, WorkCallerId, WorkId,
};
pub use place_primitives::PlacePrimitives;
pub use queue_primitives::QueuePrimitives;
pub use result_primitives::ResultPrimitives;
pub use set_primitives::SetPrimitives;
pub use state_primitives::StatePrimitives;
pub use subtask_primitives::SubtaskPrimitives;
pub use thread_primitives::ThreadPrimitives;
pub use view::{Primitives, View};
pub use work_primitives::WorkPrimitives;
