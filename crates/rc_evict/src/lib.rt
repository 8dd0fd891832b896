//! Eviction, and room: the least recently used objects of a shard's cache go, so that memory never passes its budget.
#![tactic(auto)]

mod evicting;
pub mod laws;
mod making;

pub use evicting::{Evicted, evict_one};
pub use making::{Room, make_room};
