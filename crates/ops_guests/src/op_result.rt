use machine_data::{Given, Label, Trap};

/// What an op that is done answers: its script gets it in a register, and a host that had it done gets it as it is. Where an answer is due
/// the op is still to be ended: its thread goes on with the next op, or is given back to the host.
#[derive(Clone, Copy)]
pub enum OpAnswer {
    /// The op is done, and there is nothing to write.
    Nothing,
    /// A handle, a packed status or an end.
    Number(u32),
    /// What the callee of a sync call returned.
    Value(u64),
    Event(Given),
    /// No answer is due: the thread of the callee, which a direct call has entered, runs, and the call isn't done yet.
    Entered(u64),
    /// No answer is due: the thread goes on inside its op, or in place of one that has ended, or its op has written what it computes.
    NoneDue,
}

/// What an op results in.
#[derive(Clone, Copy)]
pub enum OpResult {
    /// The thread of this number goes on, and the op has answered this.
    Continues(Label, u64, OpAnswer),
    /// The strand has stopped.
    Stops(Label),
    Traps(Trap),
    /// The host work of this number failed.
    Fails(u64),
}
