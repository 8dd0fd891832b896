//! What is counted.

/// How often something was evicted, how often no room was found, and by how many bytes fills, updates and cleaning made the chains smaller. Each stays at 2^64 - 1.
#[derive(Clone, Copy)]
pub struct Counts {
    /// Evictions.
    pub evicted: u64,
    /// Fills, openings, units of an update and of cleaning for which no room was found.
    pub skipped: u64,
    /// Bytes.
    pub shrunk: u64,
}
