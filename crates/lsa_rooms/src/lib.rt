//! A chain of versions, an ordered list of entries and a recency list in one region: what each call of one of them leaves of the others.
#![tactic(auto)]

mod room;

pub use room::{add_version, drop_version, first_entry, insert, newest, replace, take};
