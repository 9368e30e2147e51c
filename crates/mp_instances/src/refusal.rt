//! Why the instances of a factor are not given.

use thiserror::Error;

/// Why the instances of a factor are not given.
#[derive(Clone, Copy, Debug, PartialEq, Eq, Error)]
pub enum InstanceRefusal {
    /// More than 50,000,000 bindings are tried.
    #[error("too many tries")]
    TooManyTries,
    /// There are more than 200,000 instances: so many.
    #[error("{0} actions")]
    TooManyActions(u64),
    /// No memory was left.
    #[error("out of memory")]
    OutOfMemory,
}
