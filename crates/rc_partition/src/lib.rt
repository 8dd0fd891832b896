//! The versions of partitions in one region: a partition's versions stand over one another behind its root slot, and the recency list leads through their entries and static rows.
#![tactic(auto)]

pub mod laws;
mod partitions;
mod walks;

pub use partitions::{add_version, count, drop_version, home, version};
pub use rc_version::static_row;
