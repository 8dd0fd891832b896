//! Values, cells, tombstones and rows, and which of two writes wins (the reconciliation that Cassandra and ScyllaDB share).
#![tactic(auto)]

mod columns;
pub mod laws;
mod rows;
mod values;
mod writes;

pub use columns::Cells;
pub use rows::{Row, greater_of};
pub use values::Value;
pub use writes::{Cell, Tomb, is_above};
