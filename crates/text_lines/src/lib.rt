//! The lines of a scenario text, each read apart from where it is.
#![tactic(auto)]

mod calls;
mod fields;
mod keyword;
mod line;
mod ops;
mod parts;
mod tokens;

pub use calls::{finish_tokens, start_tokens};
pub use keyword::{DataKeyword, Keyword, MainKeyword};
pub use line::{
    CalleeName, HeadLine, HostWork, Line, LineError, NamedCall, NamedOp, PartLine, line_after,
};
pub use ops::{data_op_after, target, task_op_after};
pub use tokens::{Name, number_up_to};
