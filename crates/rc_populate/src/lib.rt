//! What is read from below is filled into a cache chain, so that the next read asks for nothing.
#![tactic(auto)]

mod fills;
mod gaps;
pub mod laws;
mod needs;
mod opening;
mod rows;

pub use fills::fill_static;
pub use gaps::fill_gap;
pub use needs::{gap_need, row_need, static_need};
pub use opening::open_entry;
pub use rows::fill_row;
