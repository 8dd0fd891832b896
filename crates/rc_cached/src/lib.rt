//! The stream of a partition that is in the row cache: what a snapshot of its chain knows, and below it what was read of its tables, from which it is filled.
#![tactic(auto)]

mod fillers;
pub mod laws;
mod readings;
mod streams;
mod underlying;

pub use fillers::StreamFiller;
pub use readings::Readings;
pub use streams::{CachedStream, cached_stream};
pub use underlying::Underlying;
