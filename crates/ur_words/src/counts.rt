//! What a run of generated requests came to.

/// How many requests were run, and how many scans of tables they took without a cache and with one of 64 entries.
#[derive(Clone, Copy, Debug, PartialEq, Eq)]
pub struct LoadReport {
    pub requests: u32,
    pub plain: u64,
    pub cached: u64,
}
