//! The table for records: it answers as a resource table, and is made for entries that may be copied and have no parents.
#![tactic(auto)]

mod iter;
mod row;
mod table;

pub use iter::RecordIter;
pub use table::RecordTable;
