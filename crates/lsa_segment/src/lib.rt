//! Segments of raw memory in one block: of each the first bytes are used.
#![tactic(auto)]

mod block;
mod raw;
mod segments;

pub use segments::Segments;
