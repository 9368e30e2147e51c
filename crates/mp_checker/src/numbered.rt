//! Atoms and actions in numbers.

use crate::members::ObjectFlags;
use mp_list::List;

/// An object: its number among the names of the team, and whether its factor keeps it to itself.
#[derive(Clone, Copy)]
pub struct ObjectNumber {
    pub number: u32,
    pub private: bool,
}

/// A term of an action that has parameters.
#[derive(Clone, Copy)]
pub enum TermNumber {
    /// What stands for the parameter at this place, from 0.
    Parameter(u32),
    Object(ObjectNumber),
}

/// A predicate or function, by its number among the names of the team, and its terms.
#[derive(Drop)]
pub struct NumberedAtom {
    pub symbol: u32,
    /// Whether it is a predicate that its factor keeps to itself.
    pub private: bool,
    pub terms: List<TermNumber>,
}

/// An atom, or one under `not`.
#[derive(Drop)]
pub struct NumberedLiteral {
    pub positive: bool,
    pub atom: NumberedAtom,
}

/// What an increase adds to the cost.
#[derive(Drop)]
pub enum Amount {
    Number(u64),
    /// The value of a function.
    Value(NumberedAtom),
    /// The total cost itself, which has no value: no instance has a cost that depends on it.
    Missing,
}

/// An action as it is written.
pub struct NumberedAction {
    /// For each parameter and each object, in object order, whether the object may stand for the parameter.
    pub members: List<ObjectFlags>,
    pub pre: List<NumberedLiteral>,
    pub add: List<NumberedAtom>,
    pub del: List<NumberedAtom>,
    /// What its cost is the sum of.
    pub amounts: List<Amount>,
}

impl Drop for NumberedAction {
    fn drop(self) {
        let NumberedAction {
            members: _,
            pre: _,
            add: _,
            del: _,
            amounts: _,
        } = self;
    }
}
