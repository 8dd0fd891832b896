//! Objects in segments, each named by its segment and its offset there: they are made, read, written, freed and copied, and found by their headers.
#![tactic(auto)]

pub mod laws;
mod place;
mod store;

pub use place::Ref;
pub use store::Store;
