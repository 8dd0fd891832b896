//! Tests of the real ends and the real folder, and of sets of tables: what no clause of theirs says.
#![tactic(auto)]

#[cfg(test)]
mod outside;
#[cfg(test)]
mod stores;
#[cfg(test)]
mod tables;

fn main() {}
