//! An open reader of a shard: over what the tables said of its partition, and snapshots of what is written of it.
#![tactic(auto)]

mod behind;
pub mod laws;
mod no_files;
mod opened;
mod opening;
mod staying;
mod written;

pub use behind::{OpenedBehind, begins_static};
pub use no_files::NoFiles;
pub use opened::{Leaves, Opened, Sources};
pub use staying::{
    what_is_left_stays_where_the_snapshots_see_the_same,
    what_is_left_stays_where_the_snapshots_see_the_same_changes,
};
pub use written::Written;
