//! Tests of the crates of the region, each crate's in a module of its own.
#![tactic(auto)]

#[cfg(test)]
mod kinds;
#[cfg(test)]
mod list;
#[cfg(test)]
mod pool;
#[cfg(test)]
mod region;
#[cfg(test)]
mod room;
#[cfg(test)]
mod segments;
#[cfg(test)]
mod store;
#[cfg(test)]
mod yards;

fn main() {}
