ghost use Rattle.std.specs.Prelude.{◌≡◌};
ghost use Rattle.task_wait.specs.Codes.{parts_of, unpacked};

use machine_data::Status;

/// The code of a callback whose task is over.
pub const EXIT: u32 = 0;
/// The code of a callback that yields.
pub const YIELD: u32 = 1;
/// The code of a callback that waits, in its low four bits; the rest is the handle of the set.
pub const WAIT: u32 = 2;
/// What a call answers that would have to block.
pub const BLOCKED: u32 = 4294967295;

/// Returns the two parts of the number that a callback answers: the code, in the low four bits, and the rest, which is a set's
/// handle where the code is [`WAIT`].
///
/// The form is that of the component model's public standard. It takes no memory.
pub fn unpack_callback_code(code: u32) -> (u32, u32)
    ensures { result ≡ unpacked code }
{
    (code % 16, code / 16)
}

/// What a waiting task is told.
#[derive(Clone, Copy, PartialEq, Eq)]
pub enum Event {
    /// Nothing has happened.
    None,
    /// A subtask has ended so status.
    Subtask(Status),
    /// A read of a stream has ended with this code.
    StreamRead(u32),
    /// A write of a stream has ended with this code.
    StreamWrite(u32),
    /// A read of a future has ended with this code.
    FutureRead(u32),
    /// A write of a future has ended with this code.
    FutureWrite(u32),
    /// The task was asked to cancel.
    Cancelled,
}

impl Event {
    /// Returns the event's number, from 0 to 6 in the order of the variants, and its payload: a subtask's status, the code of a
    /// read or a write, else 0.
    ///
    /// The numbers are those of the component model's public standard. It takes no memory.
    pub fn parts(self) -> (u32, u32)
        ensures { result ≡ parts_of self }
    {
        match self {
            Event::None => (0, 0),
            Event::Subtask(status) => (1, status.number()),
            Event::StreamRead(code) => (2, code),
            Event::StreamWrite(code) => (3, code),
            Event::FutureRead(code) => (4, code),
            Event::FutureWrite(code) => (5, code),
            Event::Cancelled => (6, 0),
        }
    }
}
