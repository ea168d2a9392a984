//! Where a run and its aborters may be held, for tests of what they do beside one another.

/// What is called round each abort, and before each time that main pends. Its calls may wait.
pub trait Gate {
    /// Runs before an aborter's abort: both are counted from 1, aborters in the order of their lines.
    fn before(&self, aborter: u32, number: u32);

    /// Runs after that abort.
    fn after(&self, aborter: u32, number: u32);

    /// Runs before main pends; the pends are counted from 1.
    fn pends(&self, number: u32);
}

/// A gate at which nobody waits.
#[derive(Clone, Copy)]
pub struct OpenGate;

impl Gate for OpenGate {
    fn before(&self, _aborter: u32, _number: u32) {}

    fn after(&self, _aborter: u32, _number: u32) {}

    fn pends(&self, _number: u32) {}
}
