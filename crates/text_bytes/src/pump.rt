ghost use Rattle.std.specs.Prelude.{◌≡◌, ◌<◌, ◌≤◌, ℕ, List, Some, true, false, IsErrOf, IfOk, length};
ghost use Rattle.text_bytes.specs.Outside.{Appends, HasRisen};
ghost use Rattle.text_bytes.specs.Pump.{IsFront, ReadsAll, ReadsUpTo};

use crate::outside::{Read, Sink, Source, Wrote};
use std::alloc::{AllocError, Global};

/// The most bytes that a text has.
pub const LIMIT: usize = 1_048_576;

/// Why a source gave no text.
#[derive(Clone, Copy)]
pub enum ReadFault {
    NoMemory,
    Failed,
    /// It gave more bytes than were to be read.
    TooLong,
}

impl From<AllocError> for ReadFault {
    ghost use Rattle.text_bytes.specs.declared.pump.ReadFault.TheVariants.{NoMemory};

    ghost from_gives = { λ _ e. e ≡ NoMemory };

    fn from(_e: AllocError) -> ReadFault {
        ReadFault::NoMemory
    }
}

/// Reads the bytes of a source up to its end, at most `limit` of them, which is below 4,294,967,295. Of a source that has more only
/// `limit + 1` are read, and it is `TooLong`.
pub fn read_up_to<S: Source>(
    alloc: Global,
    source: &mut S,
    limit: usize,
) -> Result<Vec<u8>, ReadFault>
    requires { limit < 4294967295 }
    ensures short { IfOk result (λ text. length text.items ≤ limit) }
    ensures count { S.faults source.old ≤ S.faults source.new }
    ensures cause { IsErrOf result ReadFault.Failed → HasRisen (S.faults source.old) (S.faults source.new) }
    ensures told { (all : List ℕ) → S.left source.old ≡ Some all → ReadsUpTo limit all (S.left source.new) result }
{
    let mut text = Vec::new(alloc);
    let mut buf = [0; 16_384];
    while text.len() <= limit {
        let room = (limit + 1 - text.len()).min(16_384);
        match source.read(&mut buf[..room]) {
            Read::Got(count) => text.extend_from_slice(&buf[..count])?,
            Read::End => return Ok(text),
            Read::Failed => return Err(ReadFault::Failed),
        }
    }
    Err(ReadFault::TooLong)
}

/// Reads the bytes of a source up to its end. Of a source that has more than `LIMIT` only `LIMIT + 1` are read.
pub fn read_all<S: Source>(alloc: Global, source: &mut S) -> Result<Vec<u8>, ReadFault>
    ensures short { IfOk result (λ text. length text.items ≤ LIMIT) }
    ensures count { S.faults source.old ≤ S.faults source.new }
    ensures cause { IsErrOf result ReadFault.Failed → HasRisen (S.faults source.old) (S.faults source.new) }
    ensures told { (all : List ℕ) → S.left source.old ≡ Some all → ReadsAll all (S.left source.new) result }
{
    read_up_to(alloc, source, LIMIT)
}

/// Writes all bytes, and says whether the sink took them.
pub fn write_all<K: Sink>(sink: &mut K, bytes: &[u8]) -> bool
    ensures count { K.faults sink.old ≤ K.faults sink.new }
    ensures cause { result ≡ false → HasRisen (K.faults sink.old) (K.faults sink.new) }
    ensures whole { result ≡ true → Appends (K.held sink.old) (K.held sink.new) bytes.now }
    ensures front { IsFront (K.held sink.old) (K.held sink.new) bytes.now }
{
    let mut rest = bytes;
    while !rest.is_empty() {
        match sink.write(rest) {
            Wrote::Took(count) => rest = &rest[count..],
            Wrote::Failed => return false,
        }
    }
    true
}
