//! What a read takes from below is filled into the snapshot of a cache chain through which it reads, so that the next read finds it there. Room is made for each fill by evictions; where there is none, the fill is skipped and counted.
#![tactic(auto)]

mod fillers;
pub mod laws;
mod limits;
mod opening;
mod rooms;
mod taking;

pub use fillers::CacheFiller;
pub use opening::open_with_room;
pub use rc_chain::{Chains, ReadHead, Snap, laws as chain_laws};
pub use rc_populate::{laws as populate_laws, static_need};
