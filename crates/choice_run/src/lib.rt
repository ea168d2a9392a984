//! The run that given choices make: each run of the machine is made by some list of choices.
#![tactic(auto)]

mod program;
mod read;
mod run;

pub use program::{USAGE, choice_tool};
pub use read::read_choices;
pub use run::{ChoiceError, ChosenReport, RunEnd, run_choices, run_chosen, run_on};
