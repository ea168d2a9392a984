//! Tests of what a host calls: a store and its state, the loop, and the calls of its instances; each public call once, on its happy path.
//!
//! They are in a crate of their own, so that those crates are proved without them.
#![tactic(auto)]

#[cfg(test)]
mod calls_of_states;
#[cfg(test)]
mod drive;
#[cfg(test)]
mod hosts;
#[cfg(test)]
mod instance_calls;
#[cfg(test)]
mod polls;
#[cfg(test)]
mod store;
#[cfg(test)]
mod typed;
