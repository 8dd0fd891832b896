//! Which writes a schema allows: writes to one place, and what fits the schema.
#![tactic(auto)]

mod allowed;
pub mod laws;
mod single;

pub use allowed::{change_fits, is_bound_of, is_row_of, is_static_of};
pub use single::is_single;
