//! Tests of the plain data and of the structures that the component's state is made of: tables, links, handles, strands
//! and groups.
//!
//! They are in a crate of their own, so that those crates are proved without them.
#![tactic(auto)]

#[cfg(test)]
mod group;
#[cfg(test)]
mod handles;
#[cfg(test)]
mod machine;
#[cfg(test)]
mod notices;
#[cfg(test)]
mod rooms;
#[cfg(test)]
mod strand;
#[cfg(test)]
mod table;
#[cfg(test)]
mod wait;
