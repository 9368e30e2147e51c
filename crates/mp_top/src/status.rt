//! How a call ends, and the number that the program ends with.

ghost use Rattle.std.specs.Prelude.{◌≡◌};
ghost use Rattle.mp_top.specs.Status.{code_of};

/// How a call ends. What it prints on the error sink is one line for each, and nothing for the first three
/// and the last.
#[derive(Clone, Copy, Debug, PartialEq, Eq)]
pub enum Status {
    /// A plan was found, or one is valid or optimal.
    Solved,
    /// There is no plan, or one is not valid or not shown to be optimal.
    No,
    /// The limit of expansions was reached before an answer.
    Undecided,
    /// The words are not accepted.
    Words,
    /// A file is not held, or a read of it failed.
    Read,
    /// A file's text is refused.
    Refused,
    /// A file or the problem is larger than a limit.
    TooLarge,
    /// A write to the output failed.
    Write,
    /// No memory was left.
    Memory,
    /// A line of a schedule, plan or certificate is refused.
    Line,
    /// A schedule ended before the run was over.
    Unfinished,
}

impl Status {
    /// The status that the program ends with, from 0 to 10.
    pub fn code(self) -> u8
        ensures { result ≡ code_of self }
    {
        match self {
            Status::Solved => 0,
            Status::No => 1,
            Status::Undecided => 2,
            Status::Words => 3,
            Status::Read => 4,
            Status::Refused => 5,
            Status::TooLarge => 6,
            Status::Write => 7,
            Status::Memory => 8,
            Status::Line => 9,
            Status::Unfinished => 10,
        }
    }
}
