//! All chains of versions of a shard, in one region, with the recency list through their entries and static rows.
#![tactic(auto)]

mod chains;
pub mod laws;

pub use chains::{Chains, Snap};
pub use rc_core::ChainKind;
pub use rc_reading::{ReadAt, ReadHead};
