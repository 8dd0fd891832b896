//! The ordered entries of a version: a balanced tree of objects by the positions in their bytes.
#![tactic(auto)]

pub mod laws;
mod links;
mod mending;
mod removal;
mod search;
mod tree;
mod walk;

pub use tree::{Place, Tree, top_of};
