//! A scenario is run beside other threads, which abort the works that it spawns.
#![tactic(auto)]

mod asked;
mod begin;
mod cells;
mod lists;
mod logs;
mod main_task;
mod program;
mod report;
mod round;
mod run;
mod spawns;

pub use beside_works::{Gate, OpenGate};
pub use program::{BesideEnd, tool_beside};
pub use report::{BesideReport, run_beside};
