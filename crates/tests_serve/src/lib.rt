//! Tests of a scope of calls, of hosts without proofs, of the lines of requests and replies, and of a server of requests.
#![tactic(auto)]

#[cfg(test)]
mod asks;
#[cfg(test)]
mod opens;
#[cfg(test)]
mod reading;
#[cfg(test)]
mod scope;
#[cfg(test)]
mod serving;
#[cfg(test)]
mod spawns;
#[cfg(test)]
mod stage;
#[cfg(test)]
mod tool;
