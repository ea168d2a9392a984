//! Tests of scenarios and of what runs them: the texts and the program's top call; of join handles, whose works run in threads; and
//! of slots and accessors.
//!
//! They are in a crate of their own, so that those crates are proved without them.
#![tactic(auto)]

#[cfg(test)]
mod abort;
#[cfg(test)]
mod access;
#[cfg(test)]
mod groups;
#[cfg(test)]
mod program;
#[cfg(test)]
mod report;
#[cfg(test)]
mod scenario;
#[cfg(test)]
mod state;
#[cfg(test)]
mod store;
