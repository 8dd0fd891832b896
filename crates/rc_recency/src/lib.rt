//! Changes of one version of a chain, each with what becomes of the recency list: what is made is the most recent one, and what goes leaves the list first.
#![tactic(auto)]

mod joining;
pub mod laws;
mod listing;
mod marking;
mod splitting;
mod statics;

pub use joining::{join_like, join_row};
pub use listing::{push, take};
pub use marking::{join_pt, mark_between, set_flags, set_phase, set_static_flag, set_tombs};
pub use splitting::{drop_entry, split, split_like};
pub use statics::{drop_static, set_static};
