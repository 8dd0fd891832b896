//! Units of the cleaner and of an update, over plain lists: what each does to the versions of a chain, and what stays seen.
//! Definitions and laws; and plain functions over vectors, which the crates above may be tested against.
#![tactic(auto)]

mod choose;
mod clean;
mod entries;
pub mod laws;
mod update;

pub use choose::{may_merge, next_to_clean};
pub use clean::{close_gap, merge_end_dummy, merge_first_entry, merge_onto};
pub use entries::{copy_entries, copy_entry, join_row, put_row_down, split_entries};
pub use update::{force_behind, lose_rest, put_fragment, raise_entries};
