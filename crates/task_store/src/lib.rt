//! A store: the value of its host, its works, its core and its groups; access to a store that is lent, a slot for one that is
//! passed on, an accessor to a store in a slot; and whether a task that would end still holds borrows.
#![tactic(auto)]

mod access;
mod accessor;
mod data;
mod drops;
mod holds_borrows;
mod hosts;
mod polls;
mod scopes;
mod slot;
mod spawn;
mod store;

pub use access::{Access, Project, Whole};
pub use accessor::{Accessor, AsAccessor, SpawnError};
pub use core_state::{CallContext, Scope, TaskCore};
pub use data::{RuntimeInstance, StoreComponentInstanceId};
pub use drops::run_manual_drop_routines;
pub use holds_borrows::{cancel_holds_borrows, exit_holds_borrows, return_holds_borrows};
pub use machine_data::NoMemory;
pub use scopes::ComponentTasksNotConcurrent;
pub use slot::{SlotError, StoreSlot, TryGet};
pub use spawn::SpawnHandle;
pub use store::{ActiveRun, ComponentInstanceId, ConcurrentTable, Store, finish_ended};
pub use store_works::{AccessorTask, FromHost, HostPoll, HostWork, HostWorks, ScriptedHost};
