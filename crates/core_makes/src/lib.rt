//! Primitives that make: nodes and chains, made before what they are for, so that only these calls take memory for them;
//! instances and sets; calls with their first threads, and further threads.
#![tactic(auto)]

mod call_entries;
mod call_makes;
mod callers;
mod calls_with_threads;
mod group_makes;
mod indexes;
mod instance_makes;
mod mark_makes;
mod member_makes;
mod node_makes;
mod record_makes;
mod rows;
mod set_makes;
mod thread_calls;

pub use call_makes::make_call_by_main;
pub use callers::{make_caller_chain, make_caller_node};
pub use calls_with_threads::{one_less, one_more};
pub use indexes::{
    make_live_chain, make_live_node, make_place_chain, make_place_node, make_ready_call_chain,
    make_ready_call_node, make_ready_work_chain, make_ready_work_node, make_wait_chain,
    make_wait_node,
};
pub use instance_makes::add_instance;
pub use mark_makes::{open_high, open_low};
pub use member_makes::make_thread;
pub use rows::{
    make_instance_queue_chain, make_instance_queue_node, make_mark_chain, make_mark_node,
};
pub use set_makes::open_set;
pub use thread_calls::{group_of, make_call, make_direct_call};
