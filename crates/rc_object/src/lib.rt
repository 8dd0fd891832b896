//! The objects of a version as values: its head, its entries, its static row.
#![tactic(auto)]

mod bytes;
mod entries;
mod heads;
pub mod laws;
mod makers;

pub use entries::{marks, position_code, row_code, set_marks};
pub use heads::{Head, head_of, make_head, set_head};
pub use makers::{
    make_dummy, make_dummy_like, make_end, make_joined, make_joined_like, make_joined_static,
    make_row, make_row_like, make_static, make_static_like,
};
