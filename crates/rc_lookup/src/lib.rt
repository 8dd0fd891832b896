//! A partition looked up in the row cache, and put into it.
#![tactic(auto)]

mod filling;
mod keeping;
mod knowing;
mod looking;
mod places;
mod populating;
mod touching;

pub use keeping::keep_recent;
pub use looking::take_known;
pub use populating::{populate, take_populated};
pub use rc_row_cache::{
    Chains, RowCache, Snap, Unstored, entries_laws, evict_laws, footprint, laws as row_cache_laws,
    snapshots_laws, unstored_laws,
};
