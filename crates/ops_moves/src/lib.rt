//! The machine's moves over the primitives of a core: each has the name, the steps and the order of its definition, and its
//! contract is that definition.
#![tactic(auto)]

mod ends;
mod feet;
mod moves;
mod publishes;
mod settle;
mod stops;
mod tells;
mod wakes;

pub use ends::{end_known_in, end_thread, end_thread_in};
pub use feet::{foot_of, own_foot};
pub use moves::{
    check, passes_check, promote, promote_unless, put_high, put_low, put_low_at, put_switch,
};
pub use publishes::{publish, publish_waiter};
pub use settle::{settle_call, settle_interest};
pub use stops::stop;
pub use tells::{cancel_task, is_told, return_value, tell, tell_waiter};
pub use wakes::{hand_wake_on, put_behind, unblock, wake, wake_chosen};
