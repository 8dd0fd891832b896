//! Sets of tables, and a partition read from all of them as one stream.
#![tactic(auto)]

mod decoding;
mod lazy;
mod locating;
mod partition;
mod reading;
mod rebuilding;
mod sets;

pub use lazy::TableFrags;
pub use reading::{lists_behind, read_joined};
pub use sets::TableSet;
