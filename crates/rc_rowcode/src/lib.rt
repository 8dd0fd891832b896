//! Byte codes of keys, positions, tombstones and rows: one spelling for each value, and no spelling begins another.
#![tactic(auto)]

mod cells;
mod compare;
mod join;
mod keys;
pub mod laws;
mod numbers;
mod objects;
mod rows;
mod scratch;
mod widths;

pub use compare::{
    compare_code_with_key, compare_code_with_key_counted, compare_code_with_pos,
    compare_code_with_pos_counted, compare_codes, compare_codes_counted,
};
pub use join::{join_codes, join_size};
pub use keys::{key_size, pos_size, read_key, read_pos, write_key, write_pos};
pub use objects::{VERSION_SIZE, dummy_size, entry_size, static_size};
pub use rows::{read_row, read_tomb, row_size, write_row, write_tomb};
pub use scratch::Scratch;
pub use widths::{key_in_range, pos_in_range, row_in_range, tomb_in_range};
