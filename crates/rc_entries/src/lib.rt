//! Which partitions are in the row cache: an index by partition key of the chains of the cache.
#![tactic(auto)]

mod entries;
mod index;
mod invalidate;
pub mod laws;

pub use entries::Entries;
