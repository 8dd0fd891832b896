//! The list of objects by recency of use, in links of the objects themselves.
#![tactic(auto)]

pub mod laws;
mod recency;

pub use recency::List;
