//! Tests of the crates of values: on its happy path each of their public calls that no case of a program makes, and each generic impl at a concrete type.
#![tactic(auto)]

#[cfg(test)]
mod cell;
#[cfg(test)]
mod mutation;
#[cfg(test)]
mod position;
#[cfg(test)]
mod query;
#[cfg(test)]
mod rowcode;
#[cfg(test)]
mod schema;

fn main() {}
