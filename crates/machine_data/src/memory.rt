use std::alloc::AllocError;

/// There is no memory.
#[derive(Clone, Copy)]
pub struct NoMemory;

impl From<AllocError> for NoMemory {
    fn from(_e: AllocError) -> NoMemory {
        NoMemory
    }
}
