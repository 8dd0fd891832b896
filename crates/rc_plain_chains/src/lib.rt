//! A shard's chains as plain values, with the recency list as a list of places: what each call on them does, by the plain functions of the core, and how much they take.
#![tactic(auto)]

mod chains;
mod memory;
mod places;
mod weight;

pub use chains::{PlainChain, is_cache};
pub use memory::PlainMemory;
pub use places::{Place, Recency, end_position, is_end};
pub use weight::{bytes_of, objects_of};
