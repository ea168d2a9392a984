//! The cells of spawned works that other threads may abort: what the run that spawns them calls on them, what each aborter does
//! in a thread of its own, and the log of all these calls.
#![tactic(auto)]

mod aborter;
mod aborter_aborters;
mod cells;
mod gate;
mod laws;
mod line;
mod log;
mod meets;
mod spawn;
mod threads;

pub use cells::{AborterPass, SharedSpawn};
pub use gate::{Gate, OpenGate};
pub use laws::aborts_are_met;
pub use line::Aborter;
pub use log::{Found, staged};
pub use meets::{aborters_of, meet_all};
pub use threads::run_aborters;
