//! How bytes, numbers and the components of clustering keys are spelled in a line, both ways.
#![tactic(auto)]

mod cutting;
mod laws;
mod numbers;
mod printing;
mod reading;

pub use cutting::words;
pub use laws::{
    plain_values_print_as_written, printed_bytes_read_back, printed_keys_read_back,
    printed_numbers_read_back,
};
pub use numbers::{count, number, signed};
pub use printing::{print_bytes, print_key};
pub use reading::{read_bytes, read_components};
