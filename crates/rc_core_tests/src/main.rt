//! Tests of the core and of its units: each of their public functions on its happy path.
#![tactic(auto)]

#[cfg(test)]
mod lines;
#[cfg(test)]
mod units;
#[cfg(test)]
mod versions;

fn main() {}
