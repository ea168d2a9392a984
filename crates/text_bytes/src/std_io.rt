ghost use Rattle.std.specs.Prelude.{◌≡◌, None};

use crate::outside::{Read, Sink, Source, Wrote};
use std::io;

/// A source over a reader of std. It tells nothing of the bytes that are left.
#[derive(Drop)]
pub struct StdSource<R> {
    inner: R,
    faults: u64,
}

impl<R> StdSource<R> {
    /// Makes a source over the reader.
    pub fn new(inner: R) -> Self
        ensures { result.faults ≡ 0 }
    {
        StdSource { inner, faults: 0 }
    }
}

impl<R: io::Read> Source for StdSource<R> {
    ghost faults = { λ s. s.faults };

    ghost left = { λ _. None };

    fn read(&mut self, buf: &mut [u8]) -> Read {
        match self.inner.read(buf) {
            Ok(0) => Read::End,
            Ok(count) => Read::Got(count),
            Err(_) => {
                self.faults = self.faults.saturating_add(1);
                Read::Failed
            }
        }
    }
}

/// A sink over a writer of std. It tells nothing of the bytes that it holds, and a write of no
/// bytes is a fault.
#[derive(Drop)]
pub struct StdSink<W> {
    inner: W,
    faults: u64,
}

impl<W> StdSink<W> {
    /// Makes a sink over the writer.
    pub fn new(inner: W) -> Self
        ensures { result.faults ≡ 0 }
    {
        StdSink { inner, faults: 0 }
    }
}

impl<W: io::Write> Sink for StdSink<W> {
    ghost faults = { λ s. s.faults };

    ghost held = { λ _. None };

    fn write(&mut self, bytes: &[u8]) -> Wrote {
        match self.inner.write(bytes) {
            Ok(count) if count > 0 => Wrote::Took(count),
            _ => {
                self.faults = self.faults.saturating_add(1);
                Wrote::Failed
            }
        }
    }
}
