//! Requests and their replies: what a server of requests does in a step of a run, the law that such a server serves each
//! request, and requests and replies as lines of text.
#![tactic(auto)]

mod input;
mod read;
mod replies;
mod request;
mod request_laws;
mod request_lines;

pub use input::{Input, read_parts, scenario_end};
pub use read::read_requests;
pub use replies::print_replies;
pub use request::{Reply, Request, Stage};
