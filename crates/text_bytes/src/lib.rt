//! Sources and sinks of bytes, and reading or writing all there is.
#![tactic(auto)]

mod memory;
mod outside;
mod pump;
mod std_io;
mod sure;

pub use memory::{MemorySink, MemorySource};
pub use outside::{Read, Sink, Source, Wrote};
pub use pump::{LIMIT, ReadFault, read_all, read_up_to, write_all};
pub use std_io::{StdSink, StdSource};
pub use sure::{SureSink, SureSource};
