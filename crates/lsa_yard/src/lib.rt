//! Segments as cells: in each one object after the other, each with its header and its links, found by their headers alone.
#![tactic(auto)]

pub mod laws;
mod yards;

pub use yards::Yards;
