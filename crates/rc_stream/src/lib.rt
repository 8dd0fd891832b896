//! Streams of one partition: its rows and changes of tombstone, taken one after another.
#![tactic(auto)]

mod fillers;
mod holding;
mod known;
pub mod laws;
mod lists;
mod merges;
mod parts;
mod streams;

pub use fillers::{Fill, Filler};
pub use known::Known;
pub use lists::ListFrags;
pub use merges::Merge;
pub use rc_core::Part;
pub use streams::{Frags, StreamErr};
