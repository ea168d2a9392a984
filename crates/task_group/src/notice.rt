/// Names a group of tasks, which all come from one call by main or by the host. Numbers run from 1 and aren't given again.
#[derive(Clone, Copy, PartialEq, Eq, PartialOrd, Ord, Hash)]
pub struct TaskGroupId {
    pub number: u64,
}

/// A hook's answer where it refuses.
#[derive(Clone, Copy)]
pub struct HookError;

/// Why a call on groups is refused.
#[derive(Clone, Copy)]
pub enum GroupError {
    /// There is no memory for one more group.
    NoMemory,
    /// A call of the hook answered `HookError`.
    HookFailed,
}
