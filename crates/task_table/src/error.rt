/// Why a call of a `ResourceTable` is refused. A refused call leaves the table as it was.
#[derive(Clone, Copy)]
pub enum ResourceTableError {
    /// There was no memory.
    NoMemory,
    /// No place is free and the capacity allows no new one, or each serial was given.
    Full,
    /// No entry has the id's place and serial, or the child is not that parent's.
    NotPresent,
    /// The entry is of another kind than the id.
    WrongType,
    /// The entry still has children.
    HasChildren,
}

/// A refused `push`: the item comes back.
#[derive(Drop)]
pub struct PushError<I> {
    /// What was to be pushed.
    pub item: I,
    /// Why it was refused: `Full` or `NoMemory`.
    pub why: ResourceTableError,
}
