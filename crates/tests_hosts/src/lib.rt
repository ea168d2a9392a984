//! Tests of what a host hands in and holds: stores with a hook, and small values.
#![tactic(auto)]

#[cfg(test)]
mod answers;
#[cfg(test)]
mod between;
#[cfg(test)]
mod compares;
#[cfg(test)]
mod crosses;
#[cfg(test)]
mod driven;
#[cfg(test)]
mod midway;
#[cfg(test)]
mod refused;
#[cfg(test)]
mod rules;
#[cfg(test)]
mod single;
#[cfg(test)]
mod spawned;
#[cfg(test)]
mod stopped;
#[cfg(test)]
mod waits;
