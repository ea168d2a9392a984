//! Phases, calls and logs, and what a pass knows of them.
use machine_data::Phase;
use std::collections::LinkedList;

/// The four calls of a join handle that a log has.
#[derive(Clone, Copy)]
pub enum PhaseCall {
    /// Asks that the work end.
    Abort,
    /// Asks whether the work may still be polled.
    PollFuture,
    /// Asks whether the work is over.
    PollHandle,
    /// Says that the work is over.
    Finish,
}

/// One call in a log, with the phase that it found.
#[derive(Clone, Copy)]
pub struct LogEntry<C> {
    /// Who made it: the name of a pass, or a number that the log's owner gives.
    pub caller: C,
    pub call: PhaseCall,
    pub answer: Phase,
}

/// A call as its caller can list it.
#[derive(Clone, Copy)]
pub struct CallMade {
    pub call: PhaseCall,
    /// The phase that the call found; none at a poll of the handle that answered `Pending`, which tells only that the
    /// work wasn't over.
    pub answer: Option<Phase>,
}

/// A name, the calls made under it in order, and how many passes were split off from it. No value of it is made.
pub struct HandleCaller {
    pub name: LinkedList<u64>,
    pub calls: LinkedList<LogEntry<LinkedList<u64>>>,
    pub splits: u64,
}

/// What a pass has seen and done. No value of it is made.
pub struct PassView {
    /// The pass was met into another.
    pub spent: bool,
    pub own: HandleCaller,
    /// The callers whose passes were met into this one, with those that they had met.
    pub met: LinkedList<HandleCaller>,
    /// All calls of which the pass knows, in order.
    pub seen: LinkedList<LogEntry<LinkedList<u64>>>,
    /// Between the two steps of a meet, what the other pass had seen. Else nothing.
    pub heard: LinkedList<LogEntry<LinkedList<u64>>>,
}
