//! The scenario text, read into a tree that loses nothing of its lines.
#![tactic(auto)]

mod callee;
mod main_lines;
mod placement;
mod read;
mod state;
mod tree;

pub use callee::fitting_export;
pub use read::{TextError, first_line, one_tree, read_text, split_tokens};
pub use text_lines::{HostWork, Name, number_up_to};
pub use tree::{ExportText, HostText, InstanceText, MainOpText, PartText, ScenarioText};
