//! Primitives on where threads are, and on the members of sets.
//!
//! Each is one equation of what contracts see, as the traits of `core_primitives` say it. What is searched
//! for is the first of a chain.
#![tactic(auto)]

mod entry_states;
mod event_states;
mod join_states;
mod moves;
mod place_states;
mod stages;
mod step_states;
mod targets;
mod unders;
mod waits;

pub use event_states::set_event;
pub use join_states::set_join;
pub use place_states::{
    delivered_set, hold, place, set_mark, set_place, stand_at, suspend, unhold, why,
};
pub use stages::set_stage;
pub use step_states::{activate, advance, assign, move_to, set_context, set_op_progress};
pub use unders::{run_first, stand_under};
