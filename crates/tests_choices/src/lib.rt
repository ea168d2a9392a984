//! Tests of runs whose choices are made: the machine that is told what to choose, what it offers and the lists of a core, the run under
//! choices, the program's word for it, and the search over all of them.
//!
//! They are in a crate of their own, so that those crates are proved without them.
#![tactic(auto)]

#[cfg(test)]
mod lists;
#[cfg(test)]
mod machine;
#[cfg(test)]
mod offers;
#[cfg(test)]
mod runs;
#[cfg(test)]
mod search;
#[cfg(test)]
mod texts;
#[cfg(test)]
mod tools;
