/// How far the op at a frame's place has come.
#[derive(Clone, Copy)]
pub enum Half {
    /// The op hasn't begun.
    Fresh,
    /// The op has asked for what this number names, and waits for it.
    Asked(u64),
    /// As `Asked`, and a flag of the instance was saved, which is written back when the thread is resumed.
    Saved(u64, Option<bool>),
}

/// One frame of a strand: where a thread is in its script. The registers are in the thread's entry.
#[derive(Clone, Copy)]
pub struct Frame {
    /// The thread's number, which is never given again.
    pub thread: u64,
    /// The script, by its place.
    pub script: u32,
    /// The next op, by its place in the script.
    pub place: u32,
    /// How far that op has come.
    pub half: Half,
}

/// Whether a strand that stops keeps the store or gives it back.
#[derive(Clone, Copy)]
pub enum StoreFiberYield {
    KeepStore,
    ReleaseStore,
}
