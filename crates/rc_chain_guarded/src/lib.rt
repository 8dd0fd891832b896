//! Calls on a shard's chains of versions that may be tried at any time: each tests what it needs, and is made where that holds. What the chains offer no test of is known from one call to the next.
#![tactic(auto)]

pub mod changes;
mod homes;
mod known;
pub mod likes;
pub mod lists;
pub mod lives;
pub mod rows;
pub mod snaps;
pub mod turning;

pub use homes::{SEGMENT, empty_one, has_room, has_version};
pub use known::{Held, Known, Numbered};
