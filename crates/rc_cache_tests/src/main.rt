//! Tests of what stands on the chains of a shard: fills of the row cache and its entries, the streams of the row cache, and the unstored writes.
#![tactic(auto)]

#[cfg(test)]
mod cached;
#[cfg(test)]
mod entries;
#[cfg(test)]
mod filler;
#[cfg(test)]
mod populate;
#[cfg(test)]
mod room;
#[cfg(test)]
mod unstored;
#[cfg(test)]
mod values;

fn main() {}
