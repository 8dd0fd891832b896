//! The tables of a folder, which a server of the machine keeps: they are checked when it is opened, read by partition, and get one more with each flush.
#![tactic(auto)]

mod built;
mod counts;
mod folder;
mod laws;
mod machine;
mod opening;
mod readers;

pub use built::is_built;
pub use counts::Answered;
pub use folder::Folder;
pub use laws::{machine_stands_over_one_more, next_number_is_no_files, sealed_parts_fit};
pub use machine::Machine;
pub use opening::OpenErr;
pub use readers::{MOST_READERS, most_readers_are_named};
