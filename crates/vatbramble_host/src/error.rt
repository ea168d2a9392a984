use thiserror::Error;

/// Why there is no host to run, or no run of it.
#[derive(Clone, Copy, Debug, Error)]
pub enum HostError {
    #[error("out of memory")]
    NoMemory,
    /// The text is no scenario, and this is its first bad line, from 1.
    #[error("line {0} isn't right")]
    BadLine(u32),
    #[error("the text has more than 1,048,576 bytes")]
    TooLong,
    #[error("no export has this name")]
    NoExport,
    #[error("no host has this name")]
    NoHost,
}
