ghost use Rattle.std.specs.Prelude.{◌≡◌, ℕ, ◌<◌, ◌≤◌, List, Option, length};
ghost use Rattle.text_bytes.specs.Outside.{HasRisen, IsRead, IsWritten};

/// What a read gave.
#[derive(Clone, Copy)]
pub enum Read {
    /// So many bytes, at the front of the buffer.
    Got(usize),
    /// Nothing is left.
    End,
    Failed,
}

/// What a write took.
#[derive(Clone, Copy)]
pub enum Wrote {
    /// So many bytes from the front of the piece.
    Took(usize),
    Failed,
}

/// Where bytes come from.
pub trait Source {
    // How often it has failed, up to 2^64 - 1.
    ghost faults: { Self → ℕ };

    // The bytes that are left, where that is told.
    ghost left: { Self → Option (List ℕ) };

    /// Reads into a buffer that isn't empty: from one byte to the buffer's length.
    fn read(&mut self, buf: &mut [u8]) -> Read
        requires { 0 < length buf.old }
        ensures count { faults self.old ≤ faults self.new }
        ensures cause { result ≡ Read.Failed → HasRisen (faults self.old) (faults self.new) }
        ensures read { IsRead (left self.old) (left self.new) buf.new result };
}

/// Where bytes go to.
pub trait Sink {
    // How often it has failed, up to 2^64 - 1.
    ghost faults: { Self → ℕ };

    // The bytes that it holds, where that is told. One that doesn't tell them doesn't tell them later.
    ghost held: { Self → Option (List ℕ) };

    /// Writes from one byte to the whole of a piece that isn't empty.
    fn write(&mut self, bytes: &[u8]) -> Wrote
        requires { 0 < length bytes.now }
        ensures count { faults self.old ≤ faults self.new }
        ensures cause { result ≡ Wrote.Failed → HasRisen (faults self.old) (faults self.new) }
        ensures written { IsWritten (held self.old) (held self.new) bytes.now result };
}
