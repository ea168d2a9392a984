//! Tests of the cells that threads share, and of runs beside them.
#![tactic(auto)]

#[cfg(test)]
mod aborters;
#[cfg(test)]
mod gate;
#[cfg(test)]
mod runs;
#[cfg(test)]
mod shared;
