//! How much of partitions the row cache has: how many it holds, and how many rows and dummies of them.
#![tactic(auto)]

mod counting;
mod figures;
pub mod laws;
mod sorts;

pub use counting::census;
pub use figures::Census;
