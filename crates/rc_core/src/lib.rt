//! Versions of a partition over one another: what a version answers at each place, what is seen through a chain of them, and
//! which places a cache knows. Definitions and laws over lists, with no memory.
#![tactic(auto)]

mod entries;
pub mod laws;
mod parts;
mod place;
mod plain;
mod slow;

pub use entries::{ChainKind, Entry, Flag, Mark};
pub use parts::Part;
pub use place::is_at_place;
pub use plain::{
    drop_entry, evict_under_update, filled_mark, flag_under, is_known_in, join_updated_row,
    mark_of_lost, may_populate, merge_end, merge_head, put_down, raised_mark, release_pin,
};
pub use rc_mutation::greater_tomb;
pub use slow::{
    PlainVersion, Seen, Side, as_one, base_at, first_part, head_of, is_flagged_at, is_known_at,
    known_by, nothing_seen, seen_at, seen_over, statics_at,
};
