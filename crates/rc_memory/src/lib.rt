//! What a shard keeps in memory: its chains of versions and the recency list, as a value, and how that stands in a region.
#![tactic(auto)]

mod counts;
pub mod laws;

pub use counts::Counts;
pub use rc_partition::{add_version, count, drop_version, home, version};
