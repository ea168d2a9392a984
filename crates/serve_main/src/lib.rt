//! A server of requests: each is a call of an export, and has a reply of its own.
#![tactic(auto)]

mod program;
mod server;
mod serving;
mod steps;

pub use program::{USAGE, serve_tool};
pub use serve_requests::{Reply, Request};
pub use serving::{Served, serve};
