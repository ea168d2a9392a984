//! Main as a server of requests, and what it keeps of them.
ghost use Rattle.serve_requests.specs.Serving.{reply_of};
ghost use Rattle.serve_main.specs.Knows.{Knows, asked};
ghost use Rattle.std.specs.Prelude.{◌≡◌, ◌≤◌, IfOk, length, map, replicate};
ghost use Rattle.core_primitives.specs.StateView.{StateView};

use serve_requests::{Reply, Request, Stage};
use std::alloc::{AllocError, Global};
use task_nursery::Nursery;

/// Main with the requests that it serves. The k-th request is its k-th start.
#[derive(Drop)]
pub(crate) struct ServerMain<'a> {
    pub(crate) requests: &'a [Request],
    pub(crate) nursery: Nursery,
    // How far each request has come.
    pub(crate) stages: Vec<Stage>,
    // How many of them were started, or their start was refused.
    pub(crate) started: usize,
    // How many of them have a reply.
    pub(crate) replied: usize,
    // Whether the last start was refused, and its reply is due.
    pub(crate) due: bool,
    // Whether some start was refused: the store is trapped since.
    pub(crate) declined: bool,
}

// The reply of a request that has come so far.
fn reply_of(stage: Stage) -> Reply
    ensures { result ≡ reply_of stage }
{
    match stage {
        Stage::Answered(_, value) => Reply::Value(value),
        Stage::Refused(trap) => Reply::Refused(trap.number()),
        _ => Reply::None,
    }
}

// The replies of requests that have come so far.
fn replies_of(alloc: Global, stages: &[Stage]) -> Result<Vec<Reply>, AllocError>
    ensures { IfOk result (λ rs. rs.items ≡ map reply_of stages.now) }
{
    let mut replies = Vec::new(alloc);
    for stage in stages {
        replies.push(reply_of(*stage))?;
    }
    Ok(replies)
}

impl<'a> ServerMain<'a> {
    /// Makes a main before its first start, with at most so many calls open at once.
    pub(crate) fn new(
        alloc: Global,
        requests: &'a [Request],
        limit: u32,
    ) -> Result<Self, AllocError>
        requires some { 1 ≤ limit }
        requires most { limit ≤ 1024 }
        requires few { length requests.now ≤ 10000 }
        ensures knows { (s : StateView) → IfOk result (λ m. Knows m s) }
        ensures stages { IfOk result (λ m. m.stages.items ≡ replicate (length requests.now) Stage.Waits) }
        ensures asked { IfOk result (λ m. asked m ≡ record { limit = limit; requests = requests.now }) }
    {
        Ok(ServerMain {
            requests,
            nursery: Nursery::new(alloc, limit),
            stages: vec![in alloc; Stage::Waits; requests.len()]?,
            started: 0,
            replied: 0,
            due: false,
            declined: false,
        })
    }

    /// Returns the replies, one for each request.
    pub(crate) fn replies(&self, alloc: Global) -> Result<Vec<Reply>, AllocError>
        ensures { IfOk result (λ rs. rs.items ≡ map reply_of self.now.stages.items) }
    {
        replies_of(alloc, self.stages.as_slice())
    }
}
