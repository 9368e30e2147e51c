//! The refusal of a source or a sink.

use thiserror::Error;

/// A source or a sink failed. It says no more than that.
#[derive(Clone, Copy, Debug, PartialEq, Eq, Error)]
#[error("failed")]
pub struct Failed;
