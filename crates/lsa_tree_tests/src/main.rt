//! Tests of the crates of ordered entries, of a room with all that stands in a region, and of the registry, each in a module of its own.
#![tactic(auto)]

#[cfg(test)]
mod registry;
#[cfg(test)]
mod rooms;
#[cfg(test)]
mod tree;

fn main() {}
