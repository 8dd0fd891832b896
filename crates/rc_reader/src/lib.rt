//! A reader of a slice of one partition: the lines of what a stream says there, so many at a time, made only as they are needed.
#![tactic(auto)]

pub mod laws;
mod readers;
mod work;

pub use readers::Reader;
