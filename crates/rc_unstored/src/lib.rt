//! The writes of a shard that stand in no table: two memtables in its chains, one that is sealed for the next table, and one to which writes go.
#![tactic(auto)]

pub mod laws;
mod unstored;

pub use rc_evict::{Room, laws as evict_laws, make_room};
pub use rc_snapshots::laws as snapshots_laws;
pub use unstored::Unstored;
