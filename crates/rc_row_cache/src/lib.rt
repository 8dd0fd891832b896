//! The row cache of a shard: what its chains say of what lies below them, and its calls.
#![tactic(auto)]

pub mod footprint;
pub mod laws;
mod row_cache;

pub use rc_entries::laws as entries_laws;
pub use rc_filler::{Chains, ReadHead, Snap, laws as filler_laws, populate_laws};
pub use rc_unstored::{Unstored, evict_laws, laws as unstored_laws, snapshots_laws};
pub use row_cache::RowCache;
