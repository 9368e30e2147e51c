//! How a call ends.

/// How a call of `maplan_explain` ends.
#[derive(Clone, Copy, Debug, PartialEq, Eq)]
pub enum Ending {
    /// What was asked for is printed, and nothing is wrong with what it is about.
    Fine,
    /// `maplan` refuses the words or files that it is about, or a plan does not solve, or there is none, and what is wrong is
    /// printed.
    Faulty,
    /// A run of the team decided nothing.
    Undecided,
    /// The words are no command of `maplan_explain`.
    Words,
    /// A write to the output failed.
    Write,
    /// No memory was left.
    Memory,
}

impl Ending {
    /// The status that the program ends with.
    pub fn code(self) -> u8 {
        match self {
            Ending::Fine => 0,
            Ending::Faulty => 1,
            Ending::Undecided => 2,
            Ending::Words => 3,
            Ending::Write => 7,
            Ending::Memory => 8,
        }
    }
}
