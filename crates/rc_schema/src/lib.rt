//! Schemas: their text, and what of keys and rows fits them.
#![tactic(auto)]

mod checks;
mod kinds;
mod laws;
mod names;
mod printing;
mod schemas;
mod words;

pub use checks::SchemaErr;
pub use kinds::CkKind;
pub use laws::{
    printed_schemas_read_back, read_schemas_are_within_limits, read_schemas_print_back,
    what_fits_is_no_larger_than_the_largest, what_fits_is_within_the_limits,
    what_fits_joins_to_what_fits,
};
pub use names::is_name;
pub use schemas::{Schema, SchemaTextErr};
