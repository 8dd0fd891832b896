//! The meaning of the program: the machine without a cache, over a folder of tables, as definitions, and laws of its steps. No code.
#![tactic(auto)]

mod fitting;
mod laws;

pub use fitting::{fitting_parts_make_a_table, parts_of_fitting_writes_fit};
pub use laws::{
    a_reader_gives_one_answer, closed_readers_are_gone, readers_are_fixed,
    tables_hold_what_was_flushed,
};
