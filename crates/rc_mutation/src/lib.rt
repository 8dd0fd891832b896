//! What writes say of one partition: partition, row and range tombstones, the static row and the rows by clustering key;
//! how writes are joined, and the fragments as which a partition is read.
#![tactic(auto)]

pub mod canonical;
mod fragments;
pub mod laws;
mod mutations;
mod rows;
mod statics;

pub use fragments::{Frag, FragList, Head, HeadAt};
pub use mutations::{Mutation, Partition, Write, greater_tomb};
pub use rows::Rows;
pub use statics::Statics;
