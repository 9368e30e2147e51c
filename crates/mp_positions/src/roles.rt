//! What a word or list of a file stands as.

use mp_forms::File;

/// What signatures declare.
#[derive(Clone, Copy, Debug, PartialEq, Eq)]
pub enum Signed {
    Predicate,
    Function,
}

/// As what a word or list stands in a file.
#[derive(Clone, Copy)]
pub enum Role {
    /// The list that the file is.
    Whole(File),
    /// The word `define`.
    Define,
    /// `(domain NAME)` or `(problem NAME)`.
    Title(File),
    /// The word `domain` or `problem`.
    Kind(File),
    /// The name of a file or of a problem's domain.
    Name,
    /// The name of an action.
    ActionName,
    /// A section.
    Section(File),
    /// The first word of a section.
    SectionWord(File),
    /// A requirement.
    Requirement,
    /// The name of a type that is declared.
    TypeName,
    /// An object, or a block of private ones.
    Object,
    /// An object in a private block.
    PrivateObject,
    /// The word `:private`.
    PrivateWord,
    /// A predicate or function with its variables, or a block of private ones.
    Signature(Signed),
    /// A predicate or function in a private block.
    PrivateSignature(Signed),
    /// The name that a signature declares.
    Declared(Signed),
    /// A variable that is declared.
    Variable,
    /// The `-` before a type.
    Dash,
    /// The `-` before the type of an action's agent.
    AgentDash,
    /// A type.
    Type,
    /// The word `either`.
    Either,
    /// One of several types.
    OneType,
    /// The word `number`.
    Number,
    /// A key of an action.
    Key,
    /// The parameters of an action.
    Parameters,
    /// A condition.
    Condition,
    /// An effect.
    Effect,
    /// The atom under `not`.
    Atom,
    /// A fact or value at the start.
    Fact,
    /// The first word of a condition, effect or fact.
    Predicate,
    /// What a predicate or function is about.
    Term,
    /// `(total-cost)`.
    Target,
    /// The word `total-cost`.
    TotalCost,
    /// By how much the total cost is increased.
    Amount,
    /// A function that is given a value.
    Valued,
    /// The first word of a function.
    Function,
    /// A number.
    Cost,
    /// A metric, behind its first word.
    Metric,
    /// Nothing: the list should end before it.
    Extra,
}
