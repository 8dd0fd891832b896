//! The stream of a memtable's snapshot: of what was written of a partition, for a reader that goes on where it was.
#![tactic(auto)]

mod fillers;
pub mod laws;
mod snaps;
mod streams;

pub use fillers::NoFiller;
pub use rc_cursor::{Chains, Snap};
pub use snaps::Snaps;
pub use streams::{SnapshotStream, snapshot_stream};
