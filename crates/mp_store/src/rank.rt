//! The order in which entries are expanded.

/// What tells when an open entry is expanded: by f, then by h, then by its number.
#[derive(Clone, Copy, PartialEq, Eq, PartialOrd, Ord)]
pub(crate) struct Rank {
    /// Cost and estimate together.
    pub(crate) f: u64,
    /// The estimate.
    pub(crate) h: u64,
    /// The entry's number.
    pub(crate) number: u64,
}
