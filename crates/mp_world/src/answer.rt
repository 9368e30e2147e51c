//! What a team answers.

/// How the search of a team ended.
#[derive(Clone, Copy, Debug, PartialEq, Eq)]
pub enum Answer {
    /// It has not ended.
    Nothing,
    /// A cheapest plan was found.
    Solved {
        /// What the plan costs.
        cost: u64,
        /// How many actions it has.
        length: u64,
    },
    /// There is no plan.
    Unsolvable,
    /// An agent expanded as many entries as it may, and its least open entry is least of all.
    Undecided,
}
