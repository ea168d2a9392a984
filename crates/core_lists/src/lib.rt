//! Lists of what a core has: the threads that wait on a set, its ready members, the threads of a call that a cancel may take, the held
//! threads that an instance lets in once it is opened. A core itself picks the first of these; who chooses among them lists them all.
#![tactic(auto)]

mod cancels;
mod chains;
mod held;
mod lists;
mod members;

pub use lists::{
    cancellable, held_by_counter, held_by_flag, ready_members, some_held_by_flag, waiters,
};
