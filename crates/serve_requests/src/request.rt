use machine_data::{Seq, Trap};

/// A call of an export that is asked for: the instance and the export by their places, from 0, and a value for each parameter.
#[derive(Drop)]
pub struct Request {
    pub instance: u32,
    pub export: u32,
    pub params: Seq<u64>,
}

/// What came of a request.
#[derive(Clone, Copy)]
pub enum Reply {
    /// Nothing yet.
    None,
    /// Its call has returned this value.
    Value(u64),
    /// Its call was refused with the trap of this number.
    Refused(u8),
}

/// How far a request has come.
#[derive(Clone, Copy)]
pub enum Stage {
    /// Its call wasn't started.
    Waits,
    /// Its call, of the thread of this number, is open.
    Open(u64),
    /// Its call was refused, and that wasn't replied yet.
    Declined(Trap),
    /// Its call, of the thread of this number, has returned this value.
    Answered(u64, u64),
    /// Its call was refused, and that was replied.
    Refused(Trap),
}
