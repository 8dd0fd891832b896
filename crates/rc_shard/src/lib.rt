//! One shard: the machine served by memtables in a region, snapshots and tables.
#![tactic(auto)]

mod compacting;
mod evicting;
mod forgetting;
mod leaving;
mod putting;
mod readers;
mod reading;
mod releasing;
mod resaying;
mod shard;
mod staying;

pub use rc_folder::{Answered, Machine, OpenErr};
pub use shard::Shard;
