//! Tests of the chains of a shard and of what they are made of: objects, versions, what is seen through them, places in a snapshot, a memtable, a census and evictions.
#![tactic(auto)]

#[cfg(test)]
mod chains;
#[cfg(test)]
mod counting;
#[cfg(test)]
mod cursor;
#[cfg(test)]
mod evicting;
#[cfg(test)]
mod making;
#[cfg(test)]
mod memtable;
#[cfg(test)]
mod objects;
#[cfg(test)]
mod reading;
#[cfg(test)]
mod sizes;
#[cfg(test)]
mod values;
#[cfg(test)]
mod version;

fn main() {}
