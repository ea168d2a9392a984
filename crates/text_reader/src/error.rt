use thiserror::Error;

/// Why a text wasn't run.
#[derive(Clone, Copy, Debug, Error)]
pub enum RunError {
    #[error("out of memory")]
    NoMemory,
    /// The text is no scenario: the least n such that its first n lines begin none, or one past the
    /// last line where only more lines are missing.
    #[error("bad scenario line {0}")]
    BadScenario(u32),
}
