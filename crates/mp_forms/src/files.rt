//! The two files of an agent.

/// Which of an agent's two files.
#[derive(Clone, Copy, Debug, PartialEq, Eq)]
pub enum File {
    Domain,
    Problem,
}
