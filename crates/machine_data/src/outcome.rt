use crate::trap::Trap;

/// How a run ended.
#[derive(Clone, Copy)]
pub enum Outcome {
    /// `done V`: main answered.
    Done(u64),
    /// `trap T`
    Trap(Trap),
    /// `host failed I`
    HostFailed(u64),
    /// `deadlock T`
    Deadlock(Trap),
    /// `idle`
    Idle,
    /// `out of steps`
    OutOfSteps,
}
