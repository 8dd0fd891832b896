//! Trees along links, by their shapes: which objects hang where, what a rotation changes, how deep a balanced tree is.
#![tactic(auto)]

mod flank;
pub mod laws;

pub use flank::Flank;
