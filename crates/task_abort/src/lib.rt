//! Join handles: the phase of a spawned work, which any thread may ask for and abort.
//!
//! The phase is one atomic word. What each caller has seen and done is kept by a pass, which has no bytes, and the
//! rule over the word and all passes (`specs/Rule.antt`) gives every call one place in one legal log.
//!
//! The names and what the calls are for are those of the join handles of wasmtime's component tasks. That each call takes
//! a pass, is one atomic step and tries no step again, and that only the calls with a runtime wake, is this project's own.
#![tactic(auto)]

mod cell;
mod handle;
mod handle_laws;
mod log;
mod own;
mod rule;
mod wake;
mod work;

pub use cell::{Abortable, JoinHandle, JoinPass, OwnCell};
pub use handle_laws::{
    known_callers, late_calls_are_last, phases_of_seen_calls, staged_log_is_legal,
    staged_log_keeps_lists, unfinished_calls,
};
pub use log::{CallMade, HandleCaller, LogEntry, PassView, PhaseCall};
pub use machine_data::{NoMemory, Phase};
