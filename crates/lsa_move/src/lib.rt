//! Room in a region: segments that are sparse are emptied until there is enough.
#![tactic(auto)]

mod room;

pub use room::{Ensured, a_tight_region_is_nearly_full, compact_one, ensure};
