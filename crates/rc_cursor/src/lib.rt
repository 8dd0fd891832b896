//! A place in a snapshot of a chain, from which the snapshot is read by its parts: the place is a position, so it stays where objects move or the chain changes.
#![tactic(auto)]

mod cursors;
pub mod laws;
mod readers;

pub use cursors::Cursor;
pub use rc_chain::{Chains, Snap};
pub use readers::SnapshotReader;
