//! Versions in a region: an ordered list of entries, a static row and a head, each an object of its own.
#![tactic(auto)]

mod finding;
mod joining;
pub mod laws;
mod marking;
mod splitting;
mod statics;
mod stretch;
mod versions;

pub use finding::{entry_at, entry_at_key, entry_like, first_entry, static_row};
pub use joining::{join_like, join_range, join_row};
pub use lsa_tree::top_of;
pub use marking::{set_flags, set_tombs};
pub use rc_core::Flag;
pub use splitting::{drop_entry, split, split_like};
pub use statics::{drop_static, set_static};
pub use stretch::{Marking, mark_between};
pub use versions::{free_version, join_pt, new_version, set_phase, set_static_flag};
