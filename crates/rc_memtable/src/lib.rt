//! The writes of a shard that stand in no table, in chains of the region.
#![tactic(auto)]

mod freeing;
pub mod laws;
mod memtable;
mod numbers;
mod partitions;
mod reading;
mod writing;

pub use freeing::{free_if_unpinned, release};
pub use memtable::Memtable;
