//! The turns of the loop over the primitives of a core: each makes a step of the machine, from a state in order to one.
#![tactic(auto)]

mod context;
mod futures;
mod kept;
mod made;
mod mains;
mod rests;
mod runs;
mod settles;
mod stretches;
mod takes;
mod turns;

pub use context::{ThreadContext, operand_value};
pub use kept::{finish_in_order, made_in_order, start_and_refusal_in_order};
pub use made::{MadeStep, StepResult, is_made, outcome_in, put, turn_of};
pub use mains::{MainStep, made_by_main};
pub use ops_dispatch::{export_def, script_ops};
pub use runs::{run_op, step_call, step_run};
pub use turns::{compute, is_idle, poll, take};
