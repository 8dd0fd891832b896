//! Partitions read through streams, over tables and lists: what such a read asks for, by the public clauses of the crates below.
#![tactic(auto)]

mod reading;

pub use reading::{read_some, read_through};
