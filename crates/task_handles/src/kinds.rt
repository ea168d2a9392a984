/// What a handle refers to in the table of entries: the place of the entry, which is given again, and its serial, which isn't.
#[derive(Clone, Copy, PartialEq, Eq)]
pub struct Rep {
    pub id: u32,
    pub serial: u64,
}

/// What kind of thing can become ready and be waited for.
#[derive(Clone, Copy, PartialEq, Eq)]
pub enum WaitableKind {
    GuestSubtask,
    HostSubtask,
    Stream,
    Future,
}

/// What kind of thing a handle of a `HandleTable` refers to.
#[derive(Clone, Copy)]
pub enum HandleKind {
    Waitable(WaitableKind),
    Set,
}

/// What a live handle of a `HandleTable` represents.
#[derive(Clone, Copy)]
pub struct HeldItem {
    pub kind: HandleKind,
    pub rep: Rep,
}

/// Why a call of a table of handles is refused.
#[derive(Clone, Copy)]
pub enum HandleError {
    /// There is no memory for one more handle.
    NoMemory,
    /// No live handle of the wanted kind has that number.
    BadHandle,
    /// As many handles are live as the counter's limit allows, or more.
    Limit,
}
