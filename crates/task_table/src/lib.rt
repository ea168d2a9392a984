//! The resource table: entries of several kinds in one table, each named by an id whose place is given again and whose serial is not.
//!
//! It rests on `machine_data` alone, and the crates above know it by its contracts and its laws.
#![tactic(auto)]

mod error;
mod id;
mod iter;
mod kind;
mod place;
mod table;

pub use error::{PushError, ResourceTableError};
pub use id::TableId;
pub use iter::TableIter;
pub use kind::Kind;
pub use machine_data::Trap;
pub use table::ResourceTable;
